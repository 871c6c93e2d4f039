// f64 leaves. A value is the logic's `Float`: every NaN pattern is the one `nan`.
ghost use Rattle.std.specs.Prelude.{◌≡◌};
ghost use Rattle.leaves.specs.Float.{float_of, bits_of, add_f64, sub_f64, mul_f64, ieee_div_f64, div_f64};

use crate::constant::ConstVal;
use crate::verdict::Decline;

// The bits of infinity, and of the one NaN that is written.
const INFINITY: u64 = 0x7ff0_0000_0000_0000;

const NAN: u64 = 0x7ff8_0000_0000_0000;

const SIGN: u64 = 0x8000_0000_0000_0000;

// The float that a pattern of 8 bytes stands for. A NaN pattern, which std's from_bits doesn't take, is made anew.
pub fn of_bits(n: u64) -> f64
    ensures { result ≡ float_of n }
{
    if INFINITY < n % SIGN {
        f64::NAN
    } else {
        f64::from_bits(n)
    }
}

// The bits of a float. NaN has one fixed pattern.
pub fn to_bits(x: f64) -> u64
    ensures { result ≡ bits_of x }
{
    if x.is_nan() {
        return NAN;
    }
    x.to_bits()
}

pub fn add_f64(a: f64, b: f64) -> Result<ConstVal, Decline>
    ensures { result ≡ add_f64 a b }
{
    Ok(ConstVal::F64(a + b))
}

pub fn sub_f64(a: f64, b: f64) -> Result<ConstVal, Decline>
    ensures { result ≡ sub_f64 a b }
{
    Ok(ConstVal::F64(a - b))
}

pub fn mul_f64(a: f64, b: f64) -> Result<ConstVal, Decline>
    ensures { result ≡ mul_f64 a b }
{
    Ok(ConstVal::F64(a * b))
}

// IEEE 754's division, by either zero too.
pub fn ieee_div_f64(a: f64, b: f64) -> Result<ConstVal, Decline>
    ensures { result ≡ ieee_div_f64 a b }
{
    Ok(ConstVal::F64(a / b))
}

// The Rust's, which declines either zero as a divisor; a NaN isn't one.
pub fn div_f64(a: f64, b: f64) -> Result<ConstVal, Decline>
    ensures { result ≡ div_f64 a b }
{
    if b == 0.0 {
        return Err(Decline::DivisorZero);
    }
    ieee_div_f64(a, b)
}
