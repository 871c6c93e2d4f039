// What is known of each register, and which registers were written since the last barrier.
ghost use Rattle.std.specs.Prelude.{◌≡◌, ◌<◌, ◌≤◌, List, length, slice_index_or};
ghost use Rattle.std.proofs.Math.ListN.{set};
ghost use Rattle.leaves.specs.declared.constant.ConstVal.{ConstVal};
ghost use Rattle.leaves.specs.declared.constant.ConstVal.TheVariants.{Unknown};
ghost use Rattle.cells.specs.Check.{registers};
ghost use Rattle.crystalfold.specs.Known.{NothingKnown, Since};

use crate::list_register;
use cells::check::REGISTERS;
use leaves::constant::ConstVal;
use std::marker::Model;

// The table has an entry for each register, at least.
const ENTRIES: usize = REGISTERS;

// The list of written registers has a place for a quarter of them. Once it is full, the next barrier makes the whole table anew: so it writes no
// more than 4 entries for each write since the last one.
const LISTED: usize = REGISTERS / 4;

#[derive(Drop)]
pub struct Known {
    values: [ConstVal; ENTRIES],
    written: [usize; LISTED],
    listed: usize,
}

// Clauses see the table.
impl Model for Known {
    ghost Value = { List ConstVal };

    ghost view = { λ k. k.values };

    ghost invariant = { λ k. Since k.written k.listed k.values };
}

impl Known {
    pub fn nothing() -> Known
        ensures nothing { NothingKnown result }
        ensures size { registers ≤ length result }
    {
        Known {
            values: [ConstVal::Unknown; ENTRIES],
            written: [0; LISTED],
            listed: 0,
        }
    }

    pub fn of(&self, register: usize) -> ConstVal
        requires { register < registers }
        ensures { result ≡ slice_index_or self.now register Unknown }
    {
        self.values[register]
    }

    pub fn note(&mut self, register: usize, v: ConstVal)
        requires { register < registers }
        ensures { self.new ≡ set self.old register v }
    {
        self.values[register] = v;
        self.listed = list_register(&mut self.written, self.listed, register);
    }

    pub fn forget(&mut self, register: usize)
        requires { register < registers }
        ensures { self.new ≡ set self.old register Unknown }
    {
        self.values[register] = ConstVal::Unknown;
    }

    // A barrier: it writes the entries of the listed registers alone, or of all where the list is full.
    pub fn clear(&mut self)
        ensures nothing { NothingKnown self.new }
        ensures size { registers ≤ length self.new }
    {
        if self.listed == LISTED {
            self.values = [ConstVal::Unknown; ENTRIES];
        } else {
            for &register in &self.written[..self.listed] {
                self.values[register] = ConstVal::Unknown;
            }
        }
        self.listed = 0;
    }
}
