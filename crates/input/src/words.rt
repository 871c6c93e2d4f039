// A program's words: its arguments, as bytes that need not be text.
ghost use Rattle.std.specs.Prelude.{◌≡◌, ◌≤◌, ◌↔◌, true, length};

use std::env::FillError;
use std::rt::Env;

// How many words there are, the program's name among them.
pub fn arg_count(rt: &impl Env) -> usize {
    for i in 0..usize::MAX {
        if let Err(FillError::NotPresent) = rt.arg(i, &mut []) {
            return i;
        }
    }
    usize::MAX
}

// A word, which is put at the start of the buffer. One that is not there, or is longer than the buffer, is answered as the empty word.
pub fn arg<'a>(rt: &impl Env, i: usize, buffer: &'a mut [u8]) -> &'a [u8]
    ensures { length result.now ≤ length buffer.old }
{
    let n = rt.arg(i, buffer).unwrap_or(0);
    &buffer[..n]
}

// Whether two words are the same. (`==` alone wants both of one type: `word == b"release".as_slice()`.)
pub fn same(a: &[u8], b: &[u8]) -> bool
    ensures { (result ≡ true) ↔ (a.now ≡ b.now) }
{
    a == b
}
