// I32 leaves. A value is an integer, ℤ. Sums, differences and products wrap modulo 2^32; division truncates toward zero.
ghost use Rattle.std.specs.Prelude.{◌≡◌};
ghost use Rattle.leaves.specs.Signed.{add_i32, sub_i32, mul_i32, div_i32, mod_i32};

use crate::constant::ConstVal;
use crate::verdict::Decline;

pub fn add_i32(a: i32, b: i32) -> Result<ConstVal, Decline>
    ensures { result ≡ add_i32 a b }
{
    Ok(ConstVal::I32(a.wrapping_add(b)))
}

pub fn sub_i32(a: i32, b: i32) -> Result<ConstVal, Decline>
    ensures { result ≡ sub_i32 a b }
{
    Ok(ConstVal::I32(a.wrapping_sub(b)))
}

pub fn mul_i32(a: i32, b: i32) -> Result<ConstVal, Decline>
    ensures { result ≡ mul_i32 a b }
{
    Ok(ConstVal::I32(a.wrapping_mul(b)))
}

// The quotient of the least number by -1 alone is out of range.
pub fn div_i32(a: i32, b: i32) -> Result<ConstVal, Decline>
    ensures { result ≡ div_i32 a b }
{
    if b == 0 {
        return Err(Decline::DivisorZero);
    }
    a.checked_div(b)
        .map(ConstVal::I32)
        .ok_or(Decline::OutOfRange)
}

// With the sign of the left operand; none where there is no quotient.
pub fn mod_i32(a: i32, b: i32) -> Result<ConstVal, Decline>
    ensures { result ≡ mod_i32 a b }
{
    if b == 0 {
        return Err(Decline::DivisorZero);
    }
    a.checked_rem(b)
        .map(ConstVal::I32)
        .ok_or(Decline::OutOfRange)
}
