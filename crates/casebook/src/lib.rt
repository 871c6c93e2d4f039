// What the programs `cases_*` share: how they count, and how they read a file.
#![tactic(auto)]

ghost use Rattle.std.specs.Prelude.{◌≡◌, ◌≤◌, length, take};
ghost use Rattle.std.specs.Io.KnownBytes.{Consumes};
ghost use Rattle.casebook.specs.Counts.{counted};

use std::io::Read;

// One more if so.
pub fn count(n: u64, more: bool) -> u64
    ensures { result ≡ counted n more }
{
    n.saturating_add(u64::from(more))
}

// Reads until the buffer is full, the file ends or a read fails; how many bytes were put at the start of the buffer. Of a file whose bytes
// are known these are the next ones. (A `while`: how far a turn goes is what the read says.)
pub fn read_full<R: Read>(file: &mut R, buffer: &mut [u8]) -> usize
    ensures within { result ≤ length buffer.new }
    ensures bytes { Consumes (R.remaining file.old) (R.remaining file.new) (take result buffer.new) }
{
    let mut done = 0;
    while done < buffer.len() {
        match file.read(&mut buffer[done..]) {
            Ok(0) => break,
            Ok(n) => done += n,
            Err(_) => break,
        }
    }
    done
}
