// The factors modulo a power of two, m.
ghost use Rattle.std.specs.Prelude.{◌≡◌, ◌*◌, ◌%◌, ◌≤◌, ◌<◌};
ghost use Rattle.factor.specs.Closed.{newton_step, inverse_of, nearest_to, factor_modulo};

use crate::size::{COUNT, LEAST, above, below};

// The x nearest zero whose product with a is w modulo 2^32: all three are halved together until a is odd. At most 32 halvings, by
// which the loop goes: there is no index.
pub fn factor_modulo(wanted: u32, factor: u32) -> Option<i32>
    ensures { result ≡ factor_modulo 32 wanted factor }
{
    let mut w = u64::from(wanted);
    let mut a = factor;
    let mut m = COUNT;
    while 1 < m {
        if a % 2 == 1 {
            return nearest(u64::from(inverse(a)) * (w % m) % m, m);
        }
        if w % 2 == 1 {
            return None;
        }
        w /= 2;
        a /= 2;
        m /= 2;
    }
    Some(0)
}

// The number nearest zero that is x modulo m.
fn nearest(x: u64, m: u64) -> Option<i32>
    requires { (x < m) × (m ≤ 4294967296) }
    ensures { result ≡ nearest_to m x }
{
    if (x * 2 <= m) & (x < LEAST) {
        return above(x);
    }
    below(m - x)
}

// The r with a * r = 1 modulo 2^32, for an odd a. Each step doubles the bits that are right, and of 1 one bit is.
fn inverse(a: u32) -> u32
    ensures { result ≡ inverse_of a }
{
    step(a, step(a, step(a, step(a, step(a, 1)))))
}

// Newton's step, y * (2 - a * y) modulo 2^32.
fn step(a: u32, y: u32) -> u32
    ensures { result ≡ newton_step a y }
{
    y.wrapping_mul(2u32.wrapping_sub(a.wrapping_mul(y)))
}
