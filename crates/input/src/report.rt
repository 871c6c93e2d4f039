// What a program says where the system failed it.
ghost use Rattle.std.specs.Prelude.{◌≡◌, ◌≤◌, length};
ghost use Rattle.input.specs.Reason.{reason_len};

use std::io::{Cursor, Error, Write};

// Writes a line: what failed, and why. No contract can say what is written.
pub fn fail(err: &impl Print, what: &[u8], error: Error) {
    let mut text = Cursor::new([0u8; 256]);
    let _ = write!(text, "{error}");
    let all = text.into_inner();
    let n = reason_len(&all);
    let _ = err.write_all(what);
    let _ = err.write_all(b": ");
    let _ = err.write_all(&all[..n]);
    let _ = err.write_all(b"\n");
}

// How many bytes an error's text has without its number.
pub fn reason_len(text: &[u8]) -> usize
    ensures bound { result ≤ length text.now }
    ensures value { result ≡ reason_len text.now }
{
    for i in 0..text.len() {
        if text[i] == 0 || text[i..].starts_with(b" (os error ") {
            return i;
        }
    }
    text.len()
}
