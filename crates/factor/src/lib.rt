// Which factor gives this score? Of all i32 whose product with a factor is a wanted value, the one nearest zero, and of two equally near the
// positive one. All work is done at 64 bits, on sizes and on two's complement bits, so that nothing overflows.
#![tactic(auto)]

mod modular;
pub mod size;

ghost use Rattle.std.specs.Prelude.{◌≡◌};
ghost use Rattle.factor.specs.Factor.{factor_fx, factor_i32};

use modular::factor_modulo;
use size::{above, below, least_size, magnitude, product};

// The number of the refusal, which None stands for, as the C interface and the programs give it.
pub const REFUSAL: usize = 36;

// The other factor of a MulFx, or none: the refusal. The wanted value, unless it is 0, fixes its sign: so of one size there is one at most.
pub fn factor_fx(wanted: i32, factor: i32) -> Option<i32>
    ensures { result ≡ factor_fx wanted factor }
{
    if wanted == 0 {
        return Some(0);
    }
    if factor == 0 {
        return None;
    }
    let w = magnitude(wanted);
    let a = magnitude(factor);
    let y = least_size(w, a);
    if w < product(y, a) {
        return None;
    }
    if (wanted < 0) == (factor < 0) {
        return above(y);
    }
    below(y)
}

// The other factor of a MulI32.
pub fn factor_i32(wanted: i32, factor: i32) -> Option<i32>
    ensures { result ≡ factor_i32 wanted factor }
{
    factor_modulo(wanted.cast_unsigned(), factor.cast_unsigned())
}
