// Little-endian numbers in bytes, and cells among bytes.
ghost use Rattle.std.specs.Prelude.{◌≡◌, ◌++◌, ℕ, ◌+◌, ◌*◌, ◌/◌, ◌%◌, ◌≤◌, ◌<◌, length, take, drop, set};
ghost use Rattle.cells.specs.Bytes.{half as «half_of», word as «word_of», long as «long_of»};
ghost use Rattle.cells.specs.Cells.{cell_at};

use crate::buffer;

// Bytes in a cell.
pub const CELL: usize = 16;

// The number in 2 bytes from a position on. (Three functions, for 2, 4 and 8: each is one call at its own type.)
pub fn half(c: &[u8], at: usize) -> usize
    requires { at + 2 ≤ length c.now }
    ensures { (result ≡ half_of c.now at) × (result < 65536) }
{
    usize::from(u16::from_le_bytes([c[at], c[at + 1]]))
}

// In 4 bytes.
pub fn word(c: &[u8], at: usize) -> usize
    requires { at + 4 ≤ length c.now }
    ensures { (result ≡ word_of c.now at) × (result < 4294967296) }
{
    u32::from_le_bytes([c[at], c[at + 1], c[at + 2], c[at + 3]]) as usize
}

// In 8 bytes.
pub fn long(c: &[u8], at: usize) -> usize
    requires { at + 8 ≤ length c.now }
    ensures { result ≡ long_of c.now at }
{
    u64::from_le_bytes([
        c[at],
        c[at + 1],
        c[at + 2],
        c[at + 3],
        c[at + 4],
        c[at + 5],
        c[at + 6],
        c[at + 7],
    ]) as usize
}

// Writes a number in 2 bytes.
pub fn put_half(c: &mut [u8], at: usize, n: usize)
    requires { (at + 2 ≤ length c.old) × (n < 65536) }
    ensures { c.new ≡ set (set c.old at (n % 256)) (at + 1) (n / 256) }
{
    [c[at], c[at + 1]] = (n as u16).to_le_bytes();
}

// Writes the cell at the position k of src over the one at the position j of dst.
pub fn put_cell(src: &[u8], k: usize, dst: &mut [u8], j: usize)
    requires { (k < length src.now / 16) × (j < length dst.old / 16) }
    ensures { dst.new ≡ take (16 * j) dst.old ++ (cell_at src.now k ++ drop (16 * j + 16) dst.old) }
{
    let a = CELL * k;
    let b = a + CELL;
    let d = CELL * j;
    let e = d + CELL;
    buffer::copy(&src[a..b], &mut dst[d..e]);
}
