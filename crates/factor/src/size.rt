// Sizes, that is, how far a number is from zero, and the numbers of a size.
ghost use Rattle.std.specs.Prelude.{◌≡◌, ◌*◌, ◌/◌, ◌≤◌, ◌<◌, pos, neg_ℤ, nat_abs};
ghost use Rattle.factor.specs.Closed.{found_if, least_size};

// How many i32 there are, and the size of the least one, which no other has.
pub const COUNT: u64 = 4294967296;

pub const LEAST: u64 = 2147483648;

// One, in thousandths.
const SCALE: u64 = 1000;

pub fn magnitude(a: i32) -> u64
    ensures { result ≡ nat_abs a }
{
    u64::from(a.unsigned_abs())
}

// The least size whose product with a reaches w thousands.
pub fn least_size(w: u64, a: u64) -> u64
    requires { (w ≤ 2147483648) × (0 < a) × (a ≤ 2147483648) }
    ensures { result ≡ least_size w a }
{
    (w * SCALE).div_ceil(a)
}

// MulFx of two sizes: their product in thousandths, truncated.
pub fn product(y: u64, a: u64) -> u64
    requires { y * a ≤ 4294967296000 }
    ensures { result ≡ y * a / 1000 }
{
    y * a / SCALE
}

// The factor y, where it is an i32.
pub fn above(y: u64) -> Option<i32>
    ensures { result ≡ found_if (pos y) }
{
    i32::try_from(y).ok()
}

// The factor -y, where it is an i32.
pub fn below(y: u64) -> Option<i32>
    ensures { result ≡ found_if (neg_ℤ (pos y)) }
{
    let y = u32::try_from(y).ok()?;
    0i32.checked_sub_unsigned(y)
}
