// The names of the commands and of the kinds of events: one table, 18 bytes a row. (One byte string, since a `match` of 84 arrays costs the
// prover minutes. It is set up on the stack wherever it stands: so that is done once an image, and the table lent on.)
ghost use Rattle.std.specs.Prelude.{◌≡◌, ◌++◌, ◌+◌, ◌≤◌, length, take};
ghost use Rattle.cells.specs.Names.{name_of};
ghost use Rattle.listing.specs.Promises.{TextWritten};
ghost use Rattle.listing.specs.Places.{ascii, fill};
ghost use Rattle.pages.specs.Steps.{name_table, name_row, Listable};

use cells::read;
use cells::walk::Part;

// Bytes of a name, with its blanks.
const NAME: usize = 18;

// Rows of commands: the kinds of events stand behind them.
const COMMANDS: usize = 82;

// Bytes of all names.
const NAMES: usize = 1512;

#[derive(Drop)]
pub struct Names {
    bytes: [u8; NAMES],
    ghost all: { bytes ≡ name_table },
}

impl Names {
    pub fn table() -> Names {
        Names {
            bytes: *b"                  Assert            Call              ClockRead         ClosureCall       EventPost         GateRead          GateWrite         Jmp               JmpIf             Label             PulseEmit         Ret               RngNextI32        RngSeed           StateQuery        StateUpdate       AddF64            AddFx             AddI32            AdtGet            AdtTag            BoolAnd           BoolNot           BoolOr            CmpEq             CmpI32Le          CmpI32Lt          CmpU32Le          CmpU32Lt          AddU32            SubU32            MulU32            DivU32            ModU32            CmpNe             ConcatText        DivF64            DivFx             DivI32            LoadBool          LoadF64           LoadFx            LoadI32           LoadQ             LoadText          LoadU32           LoadVar           MakeAdt           MakeClosure       MakeRecord        MakeSequence      MakeTuple         MapContains       MapEmpty          MapGet            MapSet            ModI32            MulF64            MulFx             MulI32            QAnd              QImpl             QNot              QOr               QTruthAnd         QTruthImpl        QTruthNot         QTruthOr          RecordGet         SequenceContains  SequenceGet       SequenceIsEmpty   SequenceLen       SequencePop       SequencePrepend   SequencePush      StoreVar          SubF64            SubFx             SubI32            TupleGet          Borrow            Write             ",
        }
    }

    // Writes the name of a cell of a part, and answers the position behind it.
    pub fn put_name(&self, p: Part, cell: &[u8], text: &mut [u8], at: usize) -> usize
        requires { Listable p cell.now × (at + 18 ≤ length text.old) }
        ensures { TextWritten (take at text.old ++ fill 18 (ascii (name_of p cell.now))) text.old text.new result }
    {
        let a = NAME * row_of(p, cell);
        let b = a + NAME;
        listing::append(&self.bytes[a..b], text, at)
    }
}

fn row_of(p: Part, cell: &[u8]) -> usize
    requires { length cell.now ≡ 16 }
    ensures { result ≡ name_row p cell.now }
{
    let b = usize::from(cell[0]);
    match p {
        Part::Code => b,
        Part::Events => COMMANDS + b,
    }
}
