// Copies of a few bytes. One of 4, 8 or 16 is two instructions, one of k a loop.
ghost use Rattle.std.specs.Prelude.{◌≡◌, ◌+◌, ◌≤◌, length, take};
ghost use Rattle.cells.specs.Cells.{over};

use cells::buffer;
use cells::read::CELL;

// The first k bytes of s, over the start of an output.
pub fn put_first(s: &[u8], k: usize, out: &mut [u8])
    requires { (k ≤ 16) × (k ≤ length s.now) × (k ≤ length out.old) }
    ensures { out.new ≡ over (take k s.now) out.old }
{
    if 8 <= k {
        put_ends::<8>(s, k, out);
    } else if 4 <= k {
        put_ends::<4>(s, k, out);
    } else {
        buffer::copy(&s[..k], out);
    }
}

// They are the first W of them and the last W. (Copied to an array and from it: the compiler can't know that output and input don't overlap.)
fn put_ends<const W: usize>(s: &[u8], k: usize, out: &mut [u8])
    requires { (W ≤ k) × (k ≤ W + W) × (k ≤ length s.now) × (k ≤ length out.old) }
    ensures { out.new ≡ over (take k s.now) out.old }
{
    let mut first = [0u8; W];
    let mut last = [0u8; W];
    let at = k - W;
    buffer::copy(&s[..W], &mut first);
    buffer::copy(&s[at..k], &mut last);
    buffer::copy(&first, out);
    buffer::copy(&last, &mut out[at..]);
}

// The first 16 bytes of s, over the start of an output.
pub fn put_cell(s: &[u8], out: &mut [u8])
    requires { (16 ≤ length s.now) × (16 ≤ length out.old) }
    ensures { out.new ≡ over (take 16 s.now) out.old }
{
    let mut whole = [0u8; CELL];
    buffer::copy(&s[..CELL], &mut whole);
    buffer::copy(&whole, out);
}
