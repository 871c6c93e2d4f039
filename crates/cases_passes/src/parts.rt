// The operation that is lent two buffers, the rewrite of a release: the lent bytes are cut in two, the output and behind it the answers' buffer.
ghost use Rattle.std.specs.Prelude.{◌≡◌, ◌+◌, ◌-◌, length, drop};
ghost use Rattle.release.specs.Frames.{images_of};
ghost use Rattle.release.specs.Release.{release_answer, release_answers};
ghost use Rattle.cases_passes.specs.Operations.{images_in, parts_reply, parts_output};

use crate::operation;
use crate::operation::Reply;
use cells::buffer;
use cells::refusal::Numbers;
use input::zeros;
use release::place::ANSWER;

// The most bytes of an answers' buffer: what 2 bytes of a call's head can say.
const MOST: usize = 65535;

// Rewrites a release. The last k of the lent bytes are the answers' buffer: all of them where they are fewer.
pub fn rewrite_release(release: &[u8], k: u16, lent: &mut [u8]) -> Reply
    ensures value { result ≡ parts_reply release.now (length lent.old - k) (length lent.old) }
    ensures lent_after { lent.new ≡ parts_output release.now (length lent.old - k) lent.old }
{
    let n = lent.len();
    let cut = n.saturating_sub(k as usize);
    let end = n - cut;
    let mut space = zeros::<MOST>();
    match rewrite_within(release, lent, cut, &mut space[..end]) {
        Some(length) => { operation::good(cut + ANSWER * count(release), length, false) }
        None => operation::refused(Numbers {
            number: release::REFUSAL,
            position: 0,
            detail: 0,
        }),
    }
}

// Two parts of one slice can't be lent at once: so the answers are written to a copy, and copied back.
fn rewrite_within(release: &[u8], lent: &mut [u8], cut: usize, answers: &mut [u8]) -> Option<usize>
    requires { cut + length answers.old ≡ length lent.old }
    ensures value { result ≡ release_answer release.now cut (length lent.old - cut) }
    ensures lent_after { lent.new ≡ parts_output release.now cut lent.old }
    ensures answers_after { answers.new ≡ release_answers release.now cut (drop cut lent.old) }
{
    buffer::copy(&lent[cut..], answers);
    let r = release::rewrite_release(release, &mut lent[..cut], answers);
    buffer::copy(answers, &mut lent[cut..]);
    r
}

// How many images a release has, 0 where it is none.
fn count(release: &[u8]) -> usize
    ensures { result ≡ images_in (images_of release.now) }
{
    release::count_images(release).unwrap_or(0)
}
