// What the sweeps read of an instruction.
ghost use Rattle.std.specs.Prelude.{◌≡◌, ◌/◌, ◌<◌, length};
ghost use Rattle.cleanup.specs.Reading.{class_mark, operand_of, is_terminal, seen_at};

use cells::read::CELL;
use cells::table::Class;

// What a command is to the sweeps. A Load is one of the five kinds that may be removed.
#[derive(Clone, Copy, PartialEq, Eq)]
pub enum Mark {
    Other,
    Label,
    Jmp,
    Ret,
    Load,
}

impl Mark {
    // Whether it is a Ret or Jmp.
    pub fn is_terminal(self) -> bool
        ensures { result ≡ is_terminal self }
    {
        matches!(self, Mark::Jmp | Mark::Ret)
    }
}

impl From<Class> for Mark {
    ghost from_gives = { λ class mark. mark ≡ class_mark class };

    fn from(class: Class) -> Mark {
        match class {
            Class::LoadQ | Class::LoadBool | Class::LoadF64 | Class::LoadI32 | Class::LoadFx =>
                Mark::Load,
            Class::Label => Mark::Label,
            Class::Jmp => Mark::Jmp,
            Class::Ret => Mark::Ret,
            _ => Mark::Other,
        }
    }
}

// A cell's mark and its first operand: a label's name, a jump's label, a load's register.
#[derive(Clone, Copy)]
pub struct Seen {
    pub mark: Mark,
    pub operand: usize,
}

impl Seen {
    // The cell at a position.
    pub fn at(code: &[u8], k: usize) -> Seen
        requires { k < length code.now / 16 }
        ensures { result ≡ seen_at code.now k }
    {
        let a = CELL * k;
        Seen {
            mark: Mark::from(cells::table::class_of(code[a])),
            operand: cells::read::half(code, a + 1),
        }
    }

    // The operand of a cell with the mark asked for.
    pub fn operand_of(self, asked: Mark) -> Option<usize>
        ensures { result ≡ operand_of asked self }
    {
        (self.mark == asked).then_some(self.operand)
    }
}
