// The layout of the 81 commands, of an event and of a head: one table.
ghost use Rattle.std.specs.Prelude.{◌≡◌, ◌<◌};
ghost use Rattle.cells.specs.Table.{width_of, row_at, class_of};
ghost use Rattle.cells.specs.RowNumbers.{row_number};
ghost use Rattle.cells.specs.RowNumbers.{class_at};
ghost use Rattle.cells.specs.RowNumbers.{kind_of};

// The kinds of an operand: a register, a register behind a presence byte, a bool, a quad, 2, 4 or 8 free bytes, a site.
#[derive(Clone, Copy)]
pub enum Kind {
    Reg,
    OptReg,
    Flag,
    Quad,
    Two,
    Four,
    Eight,
    Site,
}

// What a command is: a load of one of the six kinds, a computed command of one or two operands, control flow, or an outside
// action with no dst, with one, or with one that may be absent.
// (NoCommand, and no Option around the others: `rows` of specs/Table has it as a row's class, of 00, an event and a head.)
#[derive(Clone, Copy)]
pub enum Class {
    NoCommand,
    LoadQ,
    LoadBool,
    LoadF64,
    LoadI32,
    LoadU32,
    LoadFx,
    Unary,
    Binary,
    Label,
    Jmp,
    JmpIf,
    Ret,
    Act,
    ActDst,
    ActOptDst,
}

pub const EVENT_ROW: usize = 0x52;

// The row of each command byte, then an event's and a head's. The lowest digit is the class, the further ones the operands. (A `match`, since
// an array would be set up anew at each call.)
#[tactic(auto, unfolding(crate::specs::Table::rows))]
pub fn row_at(row: usize) -> u32
    requires { row < 84 }
    ensures { result ≡ row_number (row_at row) }
{
    match row {
        0x00 => 0x000000, // no command has this byte
        0x01 => 0x00001D, // Assert
        0x02 => 0x00552F, // Call
        0x03 => 0x00001E, // ClockRead
        0x04 => 0x00552F, // ClosureCall
        0x05 => 0x00005D, // EventPost
        0x06 => 0x00551E, // GateRead
        0x07 => 0x00155D, // GateWrite
        0x08 => 0x00005A, // Jmp
        0x09 => 0x00051B, // JmpIf
        0x0A => 0x000059, // Label
        0x0B => 0x00005D, // PulseEmit
        0x0C => 0x00002C, // Ret
        0x0D => 0x00551E, // RngNextI32
        0x0E => 0x00051E, // RngSeed
        0x0F => 0x00051E, // StateQuery
        0x10 => 0x00015D, // StateUpdate
        0x11 => 0x001118, // AddF64
        0x12 => 0x001118, // AddFx
        0x13 => 0x001118, // AddI32
        0x14 => 0x05511E, // AdtGet
        0x15 => 0x00511E, // AdtTag
        0x16 => 0x001118, // BoolAnd
        0x17 => 0x000117, // BoolNot
        0x18 => 0x001118, // BoolOr
        0x19 => 0x001118, // CmpEq
        0x1A => 0x001118, // CmpI32Le
        0x1B => 0x001118, // CmpI32Lt
        0x1C => 0x001118, // CmpU32Le
        0x1D => 0x001118, // CmpU32Lt
        0x1E => 0x001118, // AddU32
        0x1F => 0x001118, // SubU32
        0x20 => 0x001118, // MulU32
        0x21 => 0x001118, // DivU32
        0x22 => 0x001118, // ModU32
        0x23 => 0x001118, // CmpNe
        0x24 => 0x00111E, // ConcatText
        0x25 => 0x001118, // DivF64
        0x26 => 0x001118, // DivFx
        0x27 => 0x001118, // DivI32
        0x28 => 0x000312, // LoadBool
        0x29 => 0x000713, // LoadF64
        0x2A => 0x000616, // LoadFx
        0x2B => 0x000614, // LoadI32
        0x2C => 0x000411, // LoadQ
        0x2D => 0x00051E, // LoadText
        0x2E => 0x000615, // LoadU32
        0x2F => 0x00051E, // LoadVar
        0x30 => 0x56551E, // MakeAdt
        0x31 => 0x00551E, // MakeClosure
        0x32 => 0x08551E, // MakeRecord
        0x33 => 0x00051E, // MakeSequence
        0x34 => 0x00051E, // MakeTuple
        0x35 => 0x00551E, // MapContains
        0x36 => 0x00001E, // MapEmpty
        0x37 => 0x05551E, // MapGet
        0x38 => 0x05551E, // MapSet
        0x39 => 0x001118, // ModI32
        0x3A => 0x001118, // MulF64
        0x3B => 0x001118, // MulFx
        0x3C => 0x001118, // MulI32
        0x3D => 0x001118, // QAnd
        0x3E => 0x001118, // QImpl
        0x3F => 0x000117, // QNot
        0x40 => 0x001118, // QOr
        0x41 => 0x001118, // QTruthAnd
        0x42 => 0x001118, // QTruthImpl
        0x43 => 0x000117, // QTruthNot
        0x44 => 0x001118, // QTruthOr
        0x45 => 0x05511E, // RecordGet
        0x46 => 0x00551E, // SequenceContains
        0x47 => 0x00511E, // SequenceGet
        0x48 => 0x00011E, // SequenceIsEmpty
        0x49 => 0x00011E, // SequenceLen
        0x4A => 0x00011E, // SequencePop
        0x4B => 0x00551E, // SequencePrepend
        0x4C => 0x00551E, // SequencePush
        0x4D => 0x08815D, // StoreVar
        0x4E => 0x001118, // SubF64
        0x4F => 0x001118, // SubFx
        0x50 => 0x001118, // SubI32
        0x51 => 0x00511E, // TupleGet
        0x52 => 0x006880, // an event, behind its kind
        _ => 0x005550, // a head, behind its F0
    }
}

// What a command is; no byte above 51 is one.
pub fn class_of(command: u8) -> Class
    ensures { result ≡ class_of command }
{
    let n = usize::from(command);
    if n < EVENT_ROW {
        Class::from(row_at(n) % 16)
    } else {
        Class::NoCommand
    }
}

// The class that a row's lowest digit stands for.
impl From<u32> for Class {
    ghost from_gives = { λ n r. r ≡ class_at n };

    #[tactic(auto, unfolding(crate::specs::RowNumbers::class_at))]
    fn from(n: u32) -> Class {
        match n {
            1 => Class::LoadQ,
            2 => Class::LoadBool,
            3 => Class::LoadF64,
            4 => Class::LoadI32,
            5 => Class::LoadU32,
            6 => Class::LoadFx,
            7 => Class::Unary,
            8 => Class::Binary,
            9 => Class::Label,
            10 => Class::Jmp,
            11 => Class::JmpIf,
            12 => Class::Ret,
            13 => Class::Act,
            14 => Class::ActDst,
            15 => Class::ActOptDst,
            _ => Class::NoCommand,
        }
    }
}

// The kind that one of its further digits stands for.
impl From<u32> for Kind {
    ghost from_gives = { λ n r. r ≡ kind_of n };

    #[tactic(auto, unfolding(crate::specs::RowNumbers::kind_of))]
    fn from(n: u32) -> Kind {
        match n {
            1 => Kind::Reg,
            2 => Kind::OptReg,
            3 => Kind::Flag,
            4 => Kind::Quad,
            5 => Kind::Two,
            6 => Kind::Four,
            7 => Kind::Eight,
            _ => Kind::Site,
        }
    }
}

pub fn width(k: Kind) -> usize
    ensures { result ≡ width_of k }
{
    match k {
        Kind::Reg => 2,
        Kind::OptReg => 3,
        Kind::Flag => 1,
        Kind::Quad => 1,
        Kind::Two => 2,
        Kind::Four => 4,
        Kind::Eight => 8,
        Kind::Site => 5,
    }
}
