// The image check: 1, then cell by cell 2, 3 and 4.
ghost use Rattle.std.specs.Prelude.{◌≡◌, ℕ, ◌+◌, ◌/◌, ◌≤◌, length};
ghost use Rattle.cells.specs.Check.{max_image};
ghost use Rattle.cells.specs.Cells.{cells};
ghost use Rattle.cells.specs.Functions.{function_of};
ghost use Rattle.image.specs.Image.{cell_check, cells_answer, function_answer, image_answer};

use cells::check;
use cells::check::MAX_IMAGE;
use cells::read::CELL;
use cells::refusal::Refusal;
use cells::walk::{Function, Functions, Part};

pub fn check_image(image: &[u8]) -> Result<(), Refusal>
    ensures { result ≡ image_answer image.now }
{
    if MAX_IMAGE < image.len() {
        return Err(Refusal::Length);
    }
    if image.len() % CELL != 0 {
        return Err(Refusal::Length);
    }
    let mut position = 0;
    let mut at = 0;
    for f in Functions::of(image) {
        check_function(f, position, at)?;
        at += 1 + f.code.len() / CELL + f.events.len() / CELL;
        position += 1;
    }
    Ok(())
}

// The function at a position, whose head is the image's cell at.
fn check_function(f: Function<'_>, position: usize, at: usize) -> Result<(), Refusal>
    requires { (length f.head.now ≡ 16) × (at + 1 + length f.code.now / 16 + length f.events.now / 16 ≤ max_image) }
    ensures { result ≡ function_answer position at (function_of f.entry.head.now f.entry.code.now f.entry.events.now) }
{
    let n = f.code.len() / CELL;
    let m = f.events.len() / CELL;
    check::check_head(f.head, position, at, n + m)?;
    check_cells(f.code, Part::Code, position, at + 1)?;
    check_cells(f.events, Part::Events, position, at + 1 + n)
}

// The cells of a part of a function, the first being the image's cell first.
fn check_cells(part: &[u8], p: Part, position: usize, first: usize) -> Result<(), Refusal>
    requires { first ≤ max_image }
    ensures { result ≡ cells_answer p position first (cells part.now) }
{
    for i in 0..part.len() / CELL {
        let a = CELL * i;
        check_cell(p, &part[a..a + CELL], position, first + i)?;
    }
    Ok(())
}

fn check_cell(p: Part, c: &[u8], position: usize, at: usize) -> Result<(), Refusal>
    requires { length c.now ≡ 16 }
    ensures { result ≡ cell_check p position at c.now }
{
    match p {
        Part::Code => check::check_instruction(c, position, at),
        Part::Events => check::check_event(c, position, at),
    }
}
