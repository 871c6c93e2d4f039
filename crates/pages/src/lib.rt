// Pages for the rule meeting: an accepted image laid out in lines, over the start of a buffer that the caller lends. Nothing is written before
// it is known that all of it fits.
#![tactic(auto)]

mod line;
mod names;

ghost use Rattle.std.specs.Prelude.{◌≡◌, ◌++◌, ◌≤◌, length, take};
ghost use Rattle.cells.specs.Cells.{cells, flat};
ghost use Rattle.cells.specs.Functions.{function_of, functions};
ghost use Rattle.image.specs.SiteCheck.{site_answer};
ghost use Rattle.listing.specs.Promises.{TextWritten};
ghost use Rattle.pages.specs.Pages.{lines_of, lines_of_all, most_lines, part_lines, function_lines, pages_text};
ghost use Rattle.pages.specs.Promises.{error_numbers, PagesDone};
ghost use Rattle.pages.specs.Steps.{PartRoom, FunctionRoom};
ghost use Rattle.pages.specs.declared.PagesError.TheVariants.{Refused};

use cells::read;
use cells::read::CELL;
use cells::refusal::{Numbers, Refusal};
use cells::walk::{Function, Functions, Part};
use names::Names;

// Why nothing is written: a refusal of the site check; or the buffer is shorter than the pages (30).
#[derive(Clone, Copy)]
pub enum PagesError {
    Refused(Refusal),
    TooShort,
}

impl From<Refusal> for PagesError {
    ghost from_gives = { λ x e. e ≡ Refused x };

    fn from(refusal: Refusal) -> PagesError {
        PagesError::Refused(refusal)
    }
}

// What documents 01 and 02 say of each.
impl From<PagesError> for Numbers {
    ghost from_gives = { λ e n. n ≡ error_numbers e };

    fn from(e: PagesError) -> Numbers {
        match e {
            PagesError::Refused(x) => Numbers::from(x),
            PagesError::TooShort => Numbers {
                number: 30,
                position: 0,
                detail: 0,
            },
        }
    }
}

// Bytes of a line, with its line feed.
pub const LINE: usize = 58;

// Cells of a page.
pub const PAGE: usize = 49;

// Lays out an image; how many bytes are written.
pub fn pages(image: &[u8], out: &mut [u8]) -> Result<usize, PagesError>
    ensures { PagesDone image.now out.old out.new result }
{
    image::site_check(image)?;
    let lines = count_lines(image);
    if out.len() < LINE * lines {
        return Err(PagesError::TooShort);
    }
    let names = Names::table();
    Ok(put_functions(&names, image, out))
}

// How many lines an accepted image takes.
fn count_lines(image: &[u8]) -> usize
    requires { site_answer image.now ≡ Ok tt }
    ensures { (result ≡ lines_of_all (functions (cells image.now))) × (result ≤ most_lines) }
{
    let mut lines = 0;
    for f in Functions::of(image) {
        lines += lines_of(f.code.len() / CELL + f.events.len() / CELL);
    }
    lines
}

// The lines of a function with so many cells.
fn lines_of(n: usize) -> usize
    requires { n ≤ 4096 }
    ensures { result ≡ lines_of n }
{
    n.div_ceil(PAGE).max(1) + n
}

// Every function of an accepted image, from the start on.
fn put_functions(names: &Names, image: &[u8], text: &mut [u8]) -> usize
    requires { (site_answer image.now ≡ Ok tt) × (length (pages_text image.now) ≤ length text.old) }
    ensures { TextWritten (pages_text image.now) text.old text.new result }
{
    let mut to = 0;
    for f in Functions::of(image) {
        to = put_function(names, f, text, to);
    }
    to
}

// A function, at a position of the text; the answer is the position behind it.
fn put_function(names: &Names, f: Function<'_>, text: &mut [u8], at: usize) -> usize
    requires { (length f.head.now ≡ 16) × FunctionRoom (function_of f.head.now f.code.now f.events.now) text.old at }
    ensures { TextWritten (take at text.old ++ flat (function_lines (function_of f.entry.head.now f.entry.code.now f.entry.events.now))) text.old text.new result }
{
    let name = read::half(f.head, 1);
    let n = f.code.len() / CELL;
    let a = line::put_heading(name, 1, text, at);
    let b = put_part(names, Part::Code, name, 0, f.code, text, a);
    put_part(names, Part::Events, name, n, f.events, text, b)
}

// The cells of a part, the first of them at a position of the function.
fn put_part(
    names: &Names,
    p: Part,
    name: usize,
    position: usize,
    part: &[u8],
    text: &mut [u8],
    at: usize,
) -> usize
    requires { PartRoom p name position (cells part.now) text.old at }
    ensures { TextWritten (take at text.old ++ flat (part_lines p name position (cells part.now))) text.old text.new result }
{
    let (whole, _) = part.as_chunks::<CELL>();
    let mut to = at;
    for (i, cell) in whole.iter().enumerate() {
        to = line::put_entry(names, p, name, position + i, cell, text, to);
    }
    to
}
