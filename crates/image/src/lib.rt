// The image check and the site check. Neither has a condition on the image's bytes, and neither writes.
#![tactic(auto)]

pub mod check;

ghost use Rattle.std.specs.Prelude.{◌≡◌};
ghost use Rattle.cells.specs.Cells.{cells};
ghost use Rattle.cells.specs.Functions.{functions};
ghost use Rattle.image.specs.Image.{image_answer};
ghost use Rattle.image.specs.SiteCheck.{sites_answer};
ghost use Rattle.image.specs.Operations.{ImageChecked, SiteChecked};

use cells::refusal::Refusal;
use cells::walk::Functions;

// The image check: 1, then 2, 3 and 4 cell by cell.
pub fn image_check(image: &[u8]) -> Result<(), Refusal>
    ensures { ImageChecked image.now result }
{
    check::check_image(image)
}

// The site check: as the image check over the whole image, then function by function.
pub fn site_check(image: &[u8]) -> Result<(), Refusal>
    ensures { SiteChecked image.now result }
{
    check::check_image(image)?;
    check_functions(image)
}

// Both validators on each function of an image that the image check passes.
fn check_functions(image: &[u8]) -> Result<(), Refusal>
    requires { image_answer image.now ≡ Ok tt }
    ensures { result ≡ sites_answer 0 (functions (cells image.now)) }
{
    let mut position = 0;
    for f in Functions::of(image) {
        sites::check_sites(f.code, f.events, position)?;
        position += 1;
    }
    Ok(())
}
