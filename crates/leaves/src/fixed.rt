// Fx leaves. A value is an i32 that counts thousandths; the work is done at 64 bits.
ghost use Rattle.std.specs.Prelude.{◌≡◌};
ghost use Rattle.leaves.specs.Fixed.{add_fx, sub_fx, mul_fx, div_fx};

use crate::constant::ConstVal;
use crate::verdict::Decline;

const FX_SCALE: i64 = 1000;

pub fn add_fx(a: i32, b: i32) -> Result<ConstVal, Decline>
    ensures { result ≡ add_fx a b }
{
    a.checked_add(b)
        .map(ConstVal::Fx)
        .ok_or(Decline::OutOfRange)
}

pub fn sub_fx(a: i32, b: i32) -> Result<ConstVal, Decline>
    ensures { result ≡ sub_fx a b }
{
    a.checked_sub(b)
        .map(ConstVal::Fx)
        .ok_or(Decline::OutOfRange)
}

pub fn mul_fx(a: i32, b: i32) -> Result<ConstVal, Decline>
    ensures { result ≡ mul_fx a b }
{
    let z = i32::try_from(i64::from(a) * i64::from(b) / FX_SCALE)?;
    Ok(ConstVal::Fx(z))
}

pub fn div_fx(a: i32, b: i32) -> Result<ConstVal, Decline>
    ensures { result ≡ div_fx a b }
{
    if b == 0 {
        return Err(Decline::DivisorZero);
    }
    let z = i32::try_from(i64::from(a) * FX_SCALE / i64::from(b))?;
    Ok(ConstVal::Fx(z))
}
