// An i32 in decimal: read from a word, and written.
#![tactic(auto)]

ghost use Rattle.std.specs.Prelude.{◌≡◌, ◌++◌, ◌∷◌, [], ◌≤◌, length};
ghost use Rattle.listing.specs.Promises.{TextWritten};
ghost use Rattle.listing.specs.Text.{line_feed};
ghost use Rattle.numbers.specs.Numbers.{number_of, number_in, signed};
ghost use Rattle.numbers.specs.Sizes.{size_in, sign_of};

use listing::{append, put_decimal};

// The size of the least i32; that of any other is smaller.
const GREATEST_SIZE: u64 = 2147483648;

// The number that a word says, of whatever length.
pub fn read_i32(word: &[u8]) -> Option<i32>
    ensures { result ≡ number_in word.now }
{
    match word {
        [b'-', digits @ ..] => number_of(true, digits),
        [b'+', digits @ ..] => number_of(false, digits),
        _ => number_of(false, word),
    }
}

// The number that digits stand for, behind a minus sign or none.
fn number_of(negative: bool, digits: &[u8]) -> Option<i32>
    ensures { result ≡ number_of negative digits.now }
{
    let size = size_in(digits)?;
    let n = size as i64;
    i32::try_from(if negative { -n } else { n }).ok()
}

// What digits stand for, as long as an i32 can have it. Stops where the size is past the greatest one: more digits make it no smaller.
fn size_in(digits: &[u8]) -> Option<u64>
    ensures { result ≡ size_in digits.now }
{
    if digits.is_empty() {
        return None;
    }
    let mut n: u64 = 0;
    for b in digits {
        if !b.is_ascii_digit() {
            return None;
        }
        n = 10 * n + u64::from(*b - b'0');
        if GREATEST_SIZE < n {
            return None;
        }
    }
    Some(n)
}

// An i32 and a line feed, over the start of a buffer that has room for a sign and the longest decimal.
// (No `write!`: into a lent slice it promises nothing of the bytes.)
pub fn put_i32(z: i32, text: &mut [u8]) -> usize
    requires { 22 ≤ length text.old }
    ensures { TextWritten (signed z ++ line_feed ∷ []) text.old text.new result }
{
    let a = put_sign(z, text);
    let b = put_decimal(z.unsigned_abs() as usize, text, a);
    append(b"\n", text, b)
}

fn put_sign(z: i32, text: &mut [u8]) -> usize
    requires { 1 ≤ length text.old }
    ensures { TextWritten (sign_of z) text.old text.new result }
{
    if z < 0 { append(b"-", text, 0) } else { 0 }
}
