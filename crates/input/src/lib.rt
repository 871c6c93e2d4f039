// Standard input, read to its end; and, in `words` and `report`, what the programs share besides.
#![tactic(auto)]

pub mod report;
pub mod words;

ghost use Rattle.std.specs.Prelude.{◌≡◌, ◌≤◌, ◌<◌, min, length, take, replicate};
ghost use Rattle.input.specs.Reading.{StepWithin, Within};

use std::io;
use std::io::{Error, ErrorKind, Read};

// Reads standard input to its end, behind the bytes that are kept; how many bytes stand at the start of the buffer then. Of more bytes than
// the limit only those up to it count, and that there are more. A proved loop has to end, and nothing says that the input does: so the loop
// has a number of turns that no run uses up.
pub fn read_to_end(
    rt: &impl io::Input,
    buffer: &mut [u8],
    kept: usize,
    limit: usize,
) -> io::Result<usize>
    requires { (limit < length buffer.old) × (kept ≤ length buffer.old) }
    ensures within { Within limit kept (length buffer.new) result }
    ensures buffer_unchanged { take (min kept limit) buffer.new ≡ take (min kept limit) buffer.old }
{
    let mut input = rt.reader();
    let mut size = kept;
    for _ in 0..u64::MAX {
        let Some(n) = read_some(&mut input, buffer, size, limit)? else {
            return Ok(size);
        };
        size = n;
    }
    Err(Error::from(ErrorKind::TimedOut))
}

// One read, behind the bytes that are kept: up to which position there are bytes now, or none at the input's end. Bytes past the limit are
// read over each other: that they are there is all that a job has to know. Once the input is past that length, it stays so.
fn read_some<R: Read>(
    input: &mut R,
    buffer: &mut [u8],
    kept: usize,
    limit: usize,
) -> io::Result<Option<usize>>
    requires { limit < length buffer.old }
    ensures step_within { StepWithin limit kept (length buffer.new) result }
    ensures buffer_unchanged { take (min kept limit) buffer.new ≡ take (min kept limit) buffer.old }
{
    let from = kept.min(limit);
    match input.read(&mut buffer[from..])? {
        0 => Ok(None),
        n => Ok(Some(from + n)),
    }
}

// So many zeros: a buffer before anything is put in it.
pub fn zeros<const N: usize>() -> [u8; N]
    ensures { result ≡ replicate N 0 }
{
    [0; N]
}
