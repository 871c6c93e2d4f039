// The packed form: each cell keeps only the bytes that its command, its head or its event defines. Neither operation has a condition on the
// bytes it is given, neither checks sites, and nothing is written before it is known that all of it is good and fits.
#![tactic(auto)]

pub mod form;
mod keep;
mod put;
mod restore;

ghost use Rattle.std.specs.Prelude.{◌≡◌};
ghost use Rattle.packed.specs.Operations.{error_numbers, PackDone, UnpackDone};
ghost use Rattle.packed.specs.declared.PackingError.TheVariants.{Refused};

use cells::read::CELL;
use cells::refusal::{Numbers, Refusal};

// Why nothing is written: a refusal; or the packed bytes end inside a cell or before a promised one (32), with the function's position and the
// cell's.
#[derive(Clone, Copy)]
pub enum PackingError {
    Refused(Refusal),
    Ends(usize, usize),
}

impl From<Refusal> for PackingError {
    ghost from_gives = { λ x e. e ≡ Refused x };

    fn from(refusal: Refusal) -> PackingError {
        PackingError::Refused(refusal)
    }
}

// What documents 01 and 02 say of each.
impl From<PackingError> for Numbers {
    ghost from_gives = { λ e n. n ≡ error_numbers e };

    fn from(e: PackingError) -> Numbers {
        match e {
            PackingError::Refused(x) => Numbers::from(x),
            PackingError::Ends(position, detail) => Numbers {
                number: 32,
                position,
                detail,
            },
        }
    }
}

// Packs an image that the image check passes; how many bytes are written. What is shorter than a cell is answered at once: of no cells the packed
// form is no bytes, and a part of a cell is no image. (So the loops behind it know of a cell, and make no test for one, which small images feel.
// Only where an output may be too short is the packed form measured.)
pub fn pack(image: &[u8], out: &mut [u8]) -> Result<usize, PackingError>
    ensures { PackDone image.now out.old out.new result }
{
    if image.len() < CELL {
        if image.is_empty() {
            return Ok(0);
        }
        return Err(PackingError::Refused(Refusal::Length));
    }
    image::check::check_image(image)?;
    if out.len() < keep::most_kept(image.len() / CELL) && out.len() < keep::length_kept(image) {
        return Err(PackingError::Refused(Refusal::OutputTooShort));
    }
    Ok(keep::keep_cells(image, out))
}

// Makes an image of its packed form; how many bytes are written.
pub fn unpack(packed: &[u8], out: &mut [u8]) -> Result<usize, PackingError>
    ensures { UnpackDone packed.now out.old out.new result }
{
    let n = restore::check_cells(packed)?;
    if out.len() < n {
        return Err(PackingError::Refused(Refusal::OutputTooShort));
    }
    restore::restore_cells(packed, &mut out[..n]);
    Ok(n)
}
