// One image of a release: what is handed back behind its length, and its three numbers.
ghost use Rattle.std.specs.Prelude.{◌≡◌, ◌≤◌, ◌<◌, length};
ghost use Rattle.cells.specs.Bytes.{bytes as «bytes_of»};
ghost use Rattle.cells.specs.Cells.{over};
ghost use Rattle.passes.specs.Promises.{length_written};
ghost use Rattle.release.specs.Release.{numbers_as, three_numbers};
ghost use Rattle.release.specs.Steps.{Small, Place, Placed};

use cells::refusal::{Numbers, Refusal};
use passes::Written;

// Bytes of a length and of each number of an answer.
pub const NUMBER: usize = 4;

// Bytes of an image's answer.
pub const ANSWER: usize = 12;

// Rewrites an image to the start of the output, behind its length; how many bytes these are. Its numbers stand at the start of `answer`.
pub fn rewrite_image(image: &[u8], out: &mut [u8], answer: &mut [u8]) -> usize
    requires { Place image.now out.old answer.old }
    ensures { Placed image.now out.old out.new answer.old answer.new result }
{
    let reply = passes::run_default_opt_passes(image, &mut out[NUMBER..]);
    let n = length_written(reply);
    put_number(n, out);
    put_numbers(numbers_as(reply), answer);
    NUMBER + n
}

// The length of the image that is handed back: 0 if it is refused.
fn length_written(reply: Result<Written, Refusal>) -> usize
    ensures { result ≡ length_written reply }
{
    match reply {
        Ok(written) => written.length,
        Err(_) => 0,
    }
}

// 0, the count of rewrites and 0; or the refusal's number, position and detail.
fn numbers_as(reply: Result<Written, Refusal>) -> Numbers
    ensures { result ≡ numbers_as reply }
{
    match reply {
        Ok(written) => Numbers {
            number: 0,
            position: written.report.num_rewrites,
            detail: 0,
        },
        Err(x) => Numbers::from(x),
    }
}

// Three numbers over the start of a buffer.
fn put_numbers(x: Numbers, buffer: &mut [u8])
    requires { Small x × (12 ≤ length buffer.old) }
    ensures { buffer.new ≡ over (three_numbers x) buffer.old }
{
    put_number(x.number, buffer);
    put_number(x.position, &mut buffer[NUMBER..]);
    put_number(x.detail, &mut buffer[2 * NUMBER..]);
}

// A number in 4 bytes over the start of a buffer.
fn put_number(n: usize, buffer: &mut [u8])
    requires { (n < 4294967296) × (4 ≤ length buffer.old) }
    ensures { buffer.new ≡ over (bytes_of 4 n) buffer.old }
{
    buffer[..NUMBER].copy_from_slice(&(n as u32).to_le_bytes());
}
