// U32 leaves. A value is a natural number; a result exists only in range.
ghost use Rattle.std.specs.Prelude.{◌≡◌};
ghost use Rattle.leaves.specs.Unsigned.{add_u32, sub_u32, mul_u32, div_u32, mod_u32};

use crate::constant::ConstVal;
use crate::verdict::Decline;

pub fn add_u32(a: u32, b: u32) -> Result<ConstVal, Decline>
    ensures { result ≡ add_u32 a b }
{
    a.checked_add(b)
        .map(ConstVal::U32)
        .ok_or(Decline::OutOfRange)
}

pub fn sub_u32(a: u32, b: u32) -> Result<ConstVal, Decline>
    ensures { result ≡ sub_u32 a b }
{
    a.checked_sub(b)
        .map(ConstVal::U32)
        .ok_or(Decline::OutOfRange)
}

pub fn mul_u32(a: u32, b: u32) -> Result<ConstVal, Decline>
    ensures { result ≡ mul_u32 a b }
{
    a.checked_mul(b)
        .map(ConstVal::U32)
        .ok_or(Decline::OutOfRange)
}

pub fn div_u32(a: u32, b: u32) -> Result<ConstVal, Decline>
    ensures { result ≡ div_u32 a b }
{
    a.checked_div(b)
        .map(ConstVal::U32)
        .ok_or(Decline::DivisorZero)
}

pub fn mod_u32(a: u32, b: u32) -> Result<ConstVal, Decline>
    ensures { result ≡ mod_u32 a b }
{
    a.checked_rem(b)
        .map(ConstVal::U32)
        .ok_or(Decline::DivisorZero)
}
