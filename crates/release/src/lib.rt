// A whole release in one call (document 02, W9): images, each behind its length in 4 bytes. Each is rewritten by the default rewrite straight into
// its place in the output. Nothing is written before the framing is known to be good and both buffers to have room.
#![tactic(auto)]

pub mod place;

ghost use Rattle.std.specs.Prelude.{◌≡◌, length};
ghost use Rattle.release.specs.Frames.{images_of, count_as};
ghost use Rattle.release.specs.Release.{release_answer, release_output, release_answers};
ghost use Rattle.release.specs.Promises.{ReleaseDone};
ghost use Rattle.release.specs.Steps.{Ready};

use cells::read;
use place::{ANSWER, NUMBER};

// The number of the refusal, which None stands for, as the C interface and the programs give it.
pub const REFUSAL: usize = 33;

// Rewrites all images of a release; how many bytes are written to the output. The answers get three numbers an image. None is the refusal: a
// length or an image past the release's end, an output shorter than the release, or fewer than 12 bytes an image for the answers.
pub fn rewrite_release(release: &[u8], out: &mut [u8], answers: &mut [u8]) -> Option<usize>
    ensures { ReleaseDone release.now out.old out.new answers.old answers.new result }
{
    if out.len() < release.len() {
        return None;
    }
    let count = count_images(release)?;
    if answers.len() / ANSWER < count {
        return None;
    }
    Some(rewrite_images(release, out, answers))
}

// How many images a release has; none if a length or an image goes past the end. (A `while`: each image says where the next one starts.)
pub fn count_images(release: &[u8]) -> Option<usize>
    ensures { result ≡ count_as (images_of release.now) }
{
    let mut left = release;
    let mut n = 0;
    while !left.is_empty() {
        let (_, behind) = left.split_at_checked(NUMBER)?;
        let (_, others) = behind.split_at_checked(read::word(left, 0))?;
        left = others;
        n += 1;
    }
    Some(n)
}

// The images one after another; how many bytes of the output are written.
// (No index counts the images: each place moves on by what the image takes there.)
// (No iterator over the images: its `next_gives` would need them as a list, and `images_of` of specs/Frames gives a list or none.)
fn rewrite_images(release: &[u8], out: &mut [u8], answers: &mut [u8]) -> usize
    requires { Ready release.now out.old answers.old }
    ensures result_value { Some result ≡ release_answer release.now (length out.old) (length answers.old) }
    ensures out_after { out.new ≡ release_output release.now out.old (length answers.old) }
    ensures answers_after { answers.new ≡ release_answers release.now (length out.old) answers.old }
{
    let mut at = 0;
    let mut to = 0;
    let mut k = 0;
    while at < release.len() {
        let size = read::word(release, at);
        let start = at + NUMBER;
        let end = start + size;
        to += place::rewrite_image(&release[start..end], &mut out[to..], &mut answers[k..]);
        k += ANSWER;
        at = end;
    }
    to
}
