// What is known of a register, and equality of two such values.
ghost use Rattle.std.specs.Prelude.{◌≡◌};
ghost use Rattle.leaves.specs.Constants.{const_eq};

use crate::quad::Quad;

// Unknown stands first: it is what a table of these holds at the start. It is a variant and no Option around the others, whose own tag would make
// each entry of the table larger.
// Definitions name it too: `value_in` of specs/Verdicts is Unknown where there is no value.
#[derive(Clone, Copy)]
pub enum ConstVal {
    Unknown,
    Quad(Quad),
    Bool(bool),
    F64(f64),
    I32(i32),
    U32(u32),
    Fx(i32),
}

// Values of two kinds differ; floats are compared as IEEE 754 does. An unknown value equals none, itself included: so this is no derived `==`.
pub fn const_eq(a: ConstVal, b: ConstVal) -> bool
    ensures { result ≡ const_eq a b }
{
    match (a, b) {
        (ConstVal::Quad(x), ConstVal::Quad(y)) => x == y,
        (ConstVal::Bool(x), ConstVal::Bool(y)) => x == y,
        (ConstVal::F64(x), ConstVal::F64(y)) => x == y,
        (ConstVal::I32(x), ConstVal::I32(y)) => x == y,
        (ConstVal::U32(x), ConstVal::U32(y)) => x == y,
        (ConstVal::Fx(x), ConstVal::Fx(y)) => x == y,
        _ => false,
    }
}
