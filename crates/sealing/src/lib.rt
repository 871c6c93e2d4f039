// The sealing check (document 02, W13): the site check, then one numbering for a whole image: an activation number stands in one function only, and
// likewise a write number. It has no condition on the image's bytes, and writes nothing.
#![tactic(auto)]

ghost use Rattle.std.specs.Prelude.{◌≡◌, ◌/◌, ◌≤◌, length};
ghost use Rattle.cells.specs.Cells.{cells, over};
ghost use Rattle.cells.specs.Check.{max_image};
ghost use Rattle.cells.specs.Functions.{functions};
ghost use Rattle.sealing.specs.declared.SealingError.TheVariants.{Refused};
ghost use Rattle.sealing.specs.Sealing.{numbering_answer};
ghost use Rattle.sealing.specs.Promises.{repeat_number, error_numbers, SealingChecked};
ghost use Rattle.sealing.specs.Steps.{repeat_among, gathered};

use cells::check::MAX_IMAGE;
use cells::read::CELL;
use cells::refusal::{Numbers, Refusal};
use cells::walk::{Functions, Part};
use sites::{Which, list};

// Why an image is not sealed: a refusal of the site check; or a function repeats a number of an earlier one (34 an activation number, 35 a write
// number): that function's position, and its first such number.
#[derive(Clone, Copy)]
pub enum SealingError {
    Refused(Refusal),
    Repeated(Which, usize, usize),
}

impl From<Refusal> for SealingError {
    ghost from_gives = { λ x e. e ≡ Refused x };

    fn from(refusal: Refusal) -> SealingError {
        SealingError::Refused(refusal)
    }
}

// What documents 01 and 02 say of each.
impl From<SealingError> for Numbers {
    ghost from_gives = { λ e n. n ≡ error_numbers e };

    fn from(e: SealingError) -> Numbers {
        match e {
            SealingError::Refused(x) => Numbers::from(x),
            SealingError::Repeated(w, position, detail) => Numbers {
                number: repeat_number(w),
                position,
                detail,
            },
        }
    }
}

// Cells of the longest image.
// (`packed` has this line too: a `use` of a shared one would be as long.)
const MAX_CELLS: usize = MAX_IMAGE / CELL;

pub fn sealing_check(image: &[u8]) -> Result<(), SealingError>
    ensures { SealingChecked image.now result }
{
    image::site_check(image)?;
    check_numbering(image, Which::Activation)?;
    check_numbering(image, Which::Write)
}

// The number of the refusal, as the C interface and the programs give it: 34, or 35.
pub fn repeat_number(w: Which) -> usize
    ensures { result ≡ repeat_number w }
{
    match w {
        Which::Activation => 34,
        Which::Write => 35,
    }
}

// 34, or 35, of an image within the limit. An image of few cells has a short list for its numbers, which costs little to set up.
fn check_numbering(image: &[u8], w: Which) -> Result<(), SealingError>
    requires { length image.now ≤ max_image }
    ensures { result ≡ numbering_answer w (functions (cells image.now)) }
{
    if image.len() / CELL <= sites::FEW {
        return check_functions(image, w, &mut [0; sites::FEW]);
    }
    check_functions(image, w, &mut [0; MAX_CELLS])
}

// The functions in order. Their numbers are gathered into a list, each function's behind those of the earlier ones.
fn check_functions(image: &[u8], w: Which, numbers: &mut [u32]) -> Result<(), SealingError>
    requires { (length image.now ≤ max_image) × (length image.now / 16 ≤ length numbers.old) }
    ensures value { result ≡ numbering_answer w (functions (cells image.now)) }
    ensures numbers_after { numbers.new ≡ over (gathered w result (functions (cells image.now))) numbers.old }
{
    let mut position = 0;
    let mut met = 0;
    for function in Functions::of(image) {
        let found = list::collect(function.code, Part::Code, w, &mut numbers[met..]);
        let all = met + found;
        let (earlier, own) = numbers[..all].split_at(met);
        check_function(earlier, own, w, position)?;
        met = all;
        position += 1;
    }
    Ok(())
}

// The function at a position, by the earlier functions' numbers and its own: the first of these that is one of those.
// (Counting has no branch in its loop; `contains` has one at each number, and most numbers stand in no earlier function.)
fn check_function(
    earlier: &[u32],
    own: &[u32],
    w: Which,
    position: usize,
) -> Result<(), SealingError>
    requires { length earlier.now ≤ max_image }
    ensures { result ≡ repeat_among w position earlier.now own.now }
{
    for &x in own {
        if list::count(earlier, x) != 0 {
            return Err(SealingError::Repeated(w, position, x as usize));
        }
    }
    Ok(())
}
