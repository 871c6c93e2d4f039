// Bytes copied from one buffer to another.
ghost use Rattle.std.specs.Prelude.{◌≡◌, ◌++◌, ◌≤◌, length, take, drop};

// Copies src over the first bytes of dst; how many these are.
pub fn copy(src: &[u8], dst: &mut [u8]) -> usize
    requires { length src.now ≤ length dst.old }
    ensures { (result ≡ length src.now) × (dst.new ≡ take (length src.now) src.now ++ drop (length src.now) dst.old) }
{
    let n = src.len();
    for i in 0..n {
        dst[i] = src[i];
    }
    n
}
