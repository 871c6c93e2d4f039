// The operations by their bytes in a file of cases, and their answers by the documents' numbers.
ghost use Rattle.std.specs.Prelude.{◌≡◌, length};
ghost use Rattle.cases_passes.specs.Operations.{asked_by, good_reply, refused_reply, check_reply, sealing_reply, rewrite_reply, pages_reply, packing_reply, answer, output};

use crate::parts;
use cells::refusal::{Numbers, Refusal};
use packed::PackingError;
use pages::PagesError;
use passes::Written;
use sealing::SealingError;

#[derive(Clone, Copy)]
pub enum Operation {
    ImageCheck,
    SiteCheck,
    Cleanup,
    CrystalFold,
    Default,
    Fuller,
    Pages,
    Pack,
    Unpack,
    Rest,
    Seal,
    // The last so many of the lent bytes are the answers' buffer.
    Release(u16),
}

// An answer's numbers. A refusal's are 0 0 0 on success, and the others are 0 on a refusal and of the checks.
// (`changed` is a number too: the file has a byte for it, which may be any, and is held against it.)
#[derive(Clone, Copy, PartialEq, Eq)]
pub struct Reply {
    pub number: usize,
    pub position: usize,
    pub detail: usize,
    pub length: usize,
    pub rewrites: usize,
    pub changed: usize,
}

// `answers` goes with a release: since it is no part of the byte, this is no `TryFrom<u8>`. The bytes are the files' format, and are read here alone.
pub fn asked_by(byte: u8, answers: u16) -> Option<Operation>
    ensures { result ≡ asked_by byte answers }
{
    match byte {
        16 => Some(Operation::ImageCheck),
        17 => Some(Operation::SiteCheck),
        18 => Some(Operation::Cleanup),
        19 => Some(Operation::CrystalFold),
        20 => Some(Operation::Default),
        21 => Some(Operation::Fuller),
        22 => Some(Operation::Pages),
        23 => Some(Operation::Pack),
        24 => Some(Operation::Unpack),
        25 => Some(Operation::Rest),
        26 => Some(Operation::Seal),
        27 => Some(Operation::Release(answers)),
        _ => None,
    }
}

// Runs an operation on an image, a packed form or a release, and a lent output.
pub fn run(operation: Operation, image: &[u8], out: &mut [u8]) -> Reply
    ensures value { result ≡ answer operation image.now (length out.old) }
    ensures out_after { out.new ≡ output operation image.now out.old }
{
    match operation {
        Operation::ImageCheck => Reply::from(image::image_check(image)),
        Operation::SiteCheck => Reply::from(image::site_check(image)),
        Operation::Cleanup => Reply::from(passes::cleanup(image, out)),
        Operation::CrystalFold => Reply::from(passes::crystalfold(image, out)),
        Operation::Default => Reply::from(passes::run_default_opt_passes(image, out)),
        Operation::Fuller => Reply::from(passes::run_fuller_opt_passes(image, out)),
        Operation::Pages => Reply::from(pages::pages(image, out)),
        Operation::Pack => Reply::from(packed::pack(image, out)),
        Operation::Unpack => Reply::from(packed::unpack(image, out)),
        Operation::Rest => Reply::from(rest::rewrite_until_rest(image, out)),
        Operation::Seal => Reply::from(sealing::sealing_check(image)),
        Operation::Release(k) => parts::rewrite_release(image, k, out),
    }
}

impl From<Result<(), Refusal>> for Reply {
    ghost from_gives = { λ answer reply. reply ≡ check_reply answer };

    fn from(answer: Result<(), Refusal>) -> Reply {
        match answer {
            Ok(()) => good(0, 0, false),
            Err(x) => refused(Numbers::from(x)),
        }
    }
}

impl From<Result<(), SealingError>> for Reply {
    ghost from_gives = { λ answer reply. reply ≡ sealing_reply answer };

    fn from(answer: Result<(), SealingError>) -> Reply {
        match answer {
            Ok(()) => good(0, 0, false),
            Err(x) => refused(Numbers::from(x)),
        }
    }
}

impl From<Result<Written, Refusal>> for Reply {
    ghost from_gives = { λ answer reply. reply ≡ rewrite_reply answer };

    fn from(answer: Result<Written, Refusal>) -> Reply {
        match answer {
            Ok(written) => good(
                written.length,
                written.report.num_rewrites,
                written.report.changed,
            ),
            Err(x) => refused(Numbers::from(x)),
        }
    }
}

impl From<Result<usize, PagesError>> for Reply {
    ghost from_gives = { λ answer reply. reply ≡ pages_reply answer };

    fn from(answer: Result<usize, PagesError>) -> Reply {
        match answer {
            Ok(length) => good(length, 0, false),
            Err(x) => refused(Numbers::from(x)),
        }
    }
}

impl From<Result<usize, PackingError>> for Reply {
    ghost from_gives = { λ answer reply. reply ≡ packing_reply answer };

    fn from(answer: Result<usize, PackingError>) -> Reply {
        match answer {
            Ok(length) => good(length, 0, false),
            Err(x) => refused(Numbers::from(x)),
        }
    }
}

pub fn good(length: usize, rewrites: usize, changed: bool) -> Reply
    ensures { result ≡ good_reply length rewrites changed }
{
    Reply {
        number: 0,
        position: 0,
        detail: 0,
        length,
        rewrites,
        changed: usize::from(changed),
    }
}

pub fn refused(n: Numbers) -> Reply
    ensures { result ≡ refused_reply n }
{
    Reply {
        number: n.number,
        position: n.position,
        detail: n.detail,
        length: 0,
        rewrites: 0,
        changed: 0,
    }
}
