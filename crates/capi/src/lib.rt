// The operations for C and Rust: answers are numbers, and those behind the first are written through references.
#![tactic(auto)]

ghost use Rattle.std.specs.Prelude.{◌≡◌};
ghost use Rattle.crystalfold.specs.declared.rules.RuleSet.TheVariants.{Default, Fuller};
ghost use Rattle.passes.specs.declared.Pass.TheVariants.{Cleanup, CrystalFold};
ghost use Rattle.factor.specs.Factor.{factor_fx, factor_i32};
ghost use Rattle.leaves.specs.Fixed.{mul_fx};
ghost use Rattle.leaves.specs.Signed.{mul_i32};
ghost use Rattle.leaves.specs.declared.constant.ConstVal.TheVariants.{I32, Fx};
ghost use Rattle.capi.specs.Replies.{three, two, check_reply, rewrite_reply, release_reply, sealing_reply, pages_reply, packing_reply, factor_reply};
ghost use Rattle.capi.specs.Promises.{ImageReplied, SitesReplied, SealingReplied, PassReplied, RewriteReplied, RestReplied, ReleaseReplied, PagesReplied, PackReplied, UnpackReplied, FactorReplied};

use cells::refusal::{Numbers, Refusal};
use packed::PackingError;
use pages::PagesError;
use passes::Written;
use sealing::SealingError;

// An answer in three numbers: 0 or the refusal's number, then two more.
#[derive(Clone, Copy)]
pub struct Reply {
    pub number: usize,
    pub first: usize,
    pub second: usize,
}

impl Reply {
    fn new(number: usize, first: usize, second: usize) -> Reply
        ensures { result ≡ three number first second }
    {
        Reply {
            number,
            first,
            second,
        }
    }

    // The number; the other two are written through the references.
    fn give(self, first: &mut usize, second: &mut usize) -> usize
        ensures { three result first.new second.new ≡ self }
    {
        *first = self.first;
        *second = self.second;
        self.number
    }
}

// Whether there is a factor: 0 and the factor; or 36 and 0.
#[derive(Clone, Copy)]
pub struct FactorReply {
    pub number: usize,
    pub other: i32,
}

impl FactorReply {
    // The number; the factor is written through the reference.
    fn give(self, other: &mut i32) -> usize
        ensures { two result other.new ≡ self }
    {
        *other = self.other;
        self.number
    }
}

// The image check: 0, or the refusal's number.
#[unsafe(no_mangle)]
pub extern "C" fn matchdesk_image_check(
    image: &[u8],
    position: &mut usize,
    detail: &mut usize,
) -> usize
    ensures { ImageReplied image.now result position.new detail.new }
{
    Reply::from(image::image_check(image)).give(position, detail)
}

// The site check: 0, or the refusal's number.
#[unsafe(no_mangle)]
pub extern "C" fn matchdesk_site_check(
    image: &[u8],
    position: &mut usize,
    detail: &mut usize,
) -> usize
    ensures { SitesReplied image.now result position.new detail.new }
{
    Reply::from(image::site_check(image)).give(position, detail)
}

// The sealing check: 0, or the refusal's number.
#[unsafe(no_mangle)]
pub extern "C" fn matchdesk_sealing_check(
    image: &[u8],
    position: &mut usize,
    detail: &mut usize,
) -> usize
    ensures { SealingReplied image.now result position.new detail.new }
{
    Reply::from(sealing::sealing_check(image)).give(position, detail)
}

// Cleanup: 0, the length written and the count of rewrites; or the refusal's number, position and detail.
#[unsafe(no_mangle)]
pub extern "C" fn matchdesk_cleanup(
    image: &[u8],
    out: &mut [u8],
    first: &mut usize,
    second: &mut usize,
) -> usize
    ensures { PassReplied Cleanup image.now out.old out.new result first.new second.new }
{
    Reply::from(passes::cleanup(image, out)).give(first, second)
}

// CrystalFold, answered as cleanup.
#[unsafe(no_mangle)]
pub extern "C" fn matchdesk_crystalfold(
    image: &[u8],
    out: &mut [u8],
    first: &mut usize,
    second: &mut usize,
) -> usize
    ensures { PassReplied (CrystalFold Default) image.now out.old out.new result first.new second.new }
{
    Reply::from(passes::crystalfold(image, out)).give(first, second)
}

// The whole rewrite, answered as cleanup.
#[unsafe(no_mangle)]
pub extern "C" fn matchdesk_rewrite(
    image: &[u8],
    out: &mut [u8],
    first: &mut usize,
    second: &mut usize,
) -> usize
    ensures { RewriteReplied Default image.now out.old out.new result first.new second.new }
{
    Reply::from(passes::run_default_opt_passes(image, out)).give(first, second)
}

// The fuller rewrite, answered as cleanup.
#[unsafe(no_mangle)]
pub extern "C" fn matchdesk_rewrite_fuller(
    image: &[u8],
    out: &mut [u8],
    first: &mut usize,
    second: &mut usize,
) -> usize
    ensures { RewriteReplied Fuller image.now out.old out.new result first.new second.new }
{
    Reply::from(passes::run_fuller_opt_passes(image, out)).give(first, second)
}

// The default rewrite until it rests: 0, the last round's length and the sum of the counts; or the refusal's number, position and detail.
#[unsafe(no_mangle)]
pub extern "C" fn matchdesk_rewrite_until_rest(
    image: &[u8],
    out: &mut [u8],
    first: &mut usize,
    second: &mut usize,
) -> usize
    ensures { RestReplied Default image.now out.old out.new result first.new second.new }
{
    Reply::from(rest::rewrite_until_rest(image, out)).give(first, second)
}

// A whole release: 0, the length written to the output and 0; or 33 and zeros.
#[unsafe(no_mangle)]
pub extern "C" fn matchdesk_rewrite_release(
    release: &[u8],
    out: &mut [u8],
    answers: &mut [u8],
    first: &mut usize,
    second: &mut usize,
) -> usize
    ensures { ReleaseReplied release.now out.old out.new answers.old answers.new result first.new second.new }
{
    Reply::from(release::rewrite_release(release, out, answers)).give(first, second)
}

// Pages: 0, the length written and 0; or the refusal's number, position and detail.
#[unsafe(no_mangle)]
pub extern "C" fn matchdesk_pages(
    image: &[u8],
    out: &mut [u8],
    first: &mut usize,
    second: &mut usize,
) -> usize
    ensures { PagesReplied image.now out.old out.new result first.new second.new }
{
    Reply::from(pages::pages(image, out)).give(first, second)
}

// The packed form of an image, answered as pages.
#[unsafe(no_mangle)]
pub extern "C" fn matchdesk_pack(
    image: &[u8],
    out: &mut [u8],
    first: &mut usize,
    second: &mut usize,
) -> usize
    ensures { PackReplied image.now out.old out.new result first.new second.new }
{
    Reply::from(packed::pack(image, out)).give(first, second)
}

// The image of a packed form, answered as pages.
#[unsafe(no_mangle)]
pub extern "C" fn matchdesk_unpack(
    packed: &[u8],
    out: &mut [u8],
    first: &mut usize,
    second: &mut usize,
) -> usize
    ensures { UnpackReplied packed.now out.old out.new result first.new second.new }
{
    Reply::from(packed::unpack(packed, out)).give(first, second)
}

// The other factor of a MulFx: 0 and the factor; or 36 and 0.
#[unsafe(no_mangle)]
pub extern "C" fn matchdesk_factor_fx(wanted: i32, factor: i32, other: &mut i32) -> usize
    ensures { FactorReplied mul_fx (Fx wanted) factor (factor_fx wanted factor) result other.new }
{
    FactorReply::from(factor::factor_fx(wanted, factor)).give(other)
}

// The other factor of a MulI32, answered as that of a MulFx.
#[unsafe(no_mangle)]
pub extern "C" fn matchdesk_factor_i32(wanted: i32, factor: i32, other: &mut i32) -> usize
    ensures { FactorReplied mul_i32 (I32 wanted) factor (factor_i32 wanted factor) result other.new }
{
    FactorReply::from(factor::factor_i32(wanted, factor)).give(other)
}

// ---- answers as numbers

impl From<Numbers> for Reply {
    ghost from_gives = { λ n reply. reply ≡ three n.number n.position n.detail };

    fn from(n: Numbers) -> Reply {
        Reply {
            number: n.number,
            first: n.position,
            second: n.detail,
        }
    }
}

impl From<Result<(), Refusal>> for Reply {
    ghost from_gives = { λ answer reply. reply ≡ check_reply answer };

    fn from(answer: Result<(), Refusal>) -> Reply {
        match answer {
            Ok(()) => Reply::new(0, 0, 0),
            Err(refusal) => Reply::from(Numbers::from(refusal)),
        }
    }
}

impl From<Result<(), SealingError>> for Reply {
    ghost from_gives = { λ answer reply. reply ≡ sealing_reply answer };

    fn from(answer: Result<(), SealingError>) -> Reply {
        match answer {
            Ok(()) => Reply::new(0, 0, 0),
            Err(error) => Reply::from(Numbers::from(error)),
        }
    }
}

impl From<Result<Written, Refusal>> for Reply {
    ghost from_gives = { λ answer reply. reply ≡ rewrite_reply answer };

    fn from(answer: Result<Written, Refusal>) -> Reply {
        match answer {
            Ok(written) => Reply::new(0, written.length, written.report.num_rewrites),
            Err(refusal) => Reply::from(Numbers::from(refusal)),
        }
    }
}

// A release's: the length, or none.
impl From<Option<usize>> for Reply {
    ghost from_gives = { λ answer reply. reply ≡ release_reply answer };

    fn from(answer: Option<usize>) -> Reply {
        match answer {
            Some(length) => Reply::new(0, length, 0),
            None => Reply::new(release::REFUSAL, 0, 0),
        }
    }
}

impl From<Result<usize, PagesError>> for Reply {
    ghost from_gives = { λ answer reply. reply ≡ pages_reply answer };

    fn from(answer: Result<usize, PagesError>) -> Reply {
        match answer {
            Ok(length) => Reply::new(0, length, 0),
            Err(error) => Reply::from(Numbers::from(error)),
        }
    }
}

impl From<Result<usize, PackingError>> for Reply {
    ghost from_gives = { λ answer reply. reply ≡ packing_reply answer };

    fn from(answer: Result<usize, PackingError>) -> Reply {
        match answer {
            Ok(length) => Reply::new(0, length, 0),
            Err(error) => Reply::from(Numbers::from(error)),
        }
    }
}

impl From<Option<i32>> for FactorReply {
    ghost from_gives = { λ answer reply. reply ≡ factor_reply answer };

    fn from(answer: Option<i32>) -> FactorReply {
        match answer {
            Some(other) => FactorReply { number: 0, other },
            None => FactorReply {
                number: factor::REFUSAL,
                other: 0,
            },
        }
    }
}
