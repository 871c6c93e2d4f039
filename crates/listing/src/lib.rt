// The text of an answer, as the printing program writes it, into a buffer that the caller lends.
#![tactic(auto)]

ghost use Rattle.std.specs.Prelude.{◌≡◌, ◌++◌, ◌+◌, ◌*◌, ◌/◌, ◌%◌, ◌≤◌, ◌<◌, length, take};
ghost use Rattle.cells.specs.Cells.{cells as «cells_of», over};
ghost use Rattle.listing.specs.Decimal.{digit as «digit_of», decimal};
ghost use Rattle.listing.specs.Places.{place_of};
ghost use Rattle.listing.specs.Text.{hex_digit, hex, cell_line, cell_lines, field, rewrites_line, rewritten_text, refused_text, checked_text};
ghost use Rattle.listing.specs.Promises.{Listing, TextWritten};

use cells::read::CELL;
use cells::refusal::{Numbers, Refusal};

// Each `list_` function writes a text at the start of the buffer and answers how many bytes it has; or the buffer is too short for it, and is
// as it was.

// Bytes of a cell's line: two digits a byte, and a line feed.
const LINE: usize = 33;

// Bytes that the longest line of a count and of a refusal have, with numbers of 20 digits.
const COUNT_LINE: usize = 30;

const REFUSED_LINE: usize = 71;

// The text of an accepted image: its cells, and the number of rewrites. Bytes behind the last whole cell are left out.
pub fn list_rewritten(cells: &[u8], rewrites: usize, text: &mut [u8]) -> Option<usize>
    ensures { Listing (rewritten_text (cells_of cells.now) rewrites) text.old text.new result }
{
    let mut line = [0u8; COUNT_LINE];
    let m = put_rewrites(rewrites, &mut line);
    let n = cells.len() / CELL;
    if text.len() / LINE < n {
        return None;
    }
    let lines = LINE * n;
    if text.len() - lines < m {
        return None;
    }
    let at = put_cells(cells, text);
    Some(append(&line[..m], text, at))
}

// The text of a refusal.
pub fn list_refused(r: Numbers, text: &mut [u8]) -> Option<usize>
    ensures { Listing (refused_text r.number r.position r.detail) text.old text.new result }
{
    let mut line = [0u8; REFUSED_LINE];
    let n = put_refused(r, &mut line);
    list_line(&line[..n], text)
}

// The text of a check's answer.
pub fn list_checked(r: Result<(), Refusal>, text: &mut [u8]) -> Option<usize>
    ensures { Listing (checked_text r) text.old text.new result }
{
    match r {
        Ok(()) => list_line(b"good\n", text),
        Err(x) => list_refused(Numbers::from(x), text),
    }
}

// A line put together elsewhere.
fn list_line(line: &[u8], text: &mut [u8]) -> Option<usize>
    ensures { Listing line.now text.old text.new result }
{
    if text.len() < line.len() {
        return None;
    }
    Some(append(line, text, 0))
}

// No text is made by `write!`: into a lent slice it promises nothing of the bytes, and from another place they would be copied once more.

// Each function below that takes `at` writes its piece there, and answers the position behind it; the others write at the start. (A cursor that
// holds the buffer and the position is no plainer: each contract would name the two in it, and the one who lends the buffer takes it back.)

// The line of a refusal.
// (Callers ask for the 71 bytes too: a struct that holds so long a buffer would be made wherever one is lent, and give it back.)
pub fn put_refused(r: Numbers, line: &mut [u8]) -> usize
    requires { 71 ≤ length line.old }
    ensures { TextWritten (refused_text r.number r.position r.detail) line.old line.new result }
{
    let a = append(b"refused ", line, 0);
    let b = put_field(r.number, b' ', line, a);
    let c = put_field(r.position, b' ', line, b);
    put_field(r.detail, b'\n', line, c)
}

// The line of a count.
pub fn put_rewrites(count: usize, line: &mut [u8]) -> usize
    requires { 30 ≤ length line.old }
    ensures { TextWritten (rewrites_line count) line.old line.new result }
{
    let a = append(b"rewrites ", line, 0);
    put_field(count, b'\n', line, a)
}

// A number, and the byte behind it.
pub fn put_field(n: usize, end: u8, text: &mut [u8], at: usize) -> usize
    requires { at + 21 ≤ length text.old }
    ensures { TextWritten (take at text.old ++ field n end) text.old text.new result }
{
    let k = put_decimal(n, text, at);
    text[k] = end;
    k + 1
}

// A line for each cell, from the start on.
fn put_cells(cells: &[u8], text: &mut [u8]) -> usize
    requires { 33 * (length cells.now / 16) ≤ length text.old }
    ensures { TextWritten (cell_lines (cells_of cells.now)) text.old text.new result }
{
    let (whole, _) = cells.as_chunks::<CELL>();
    let mut at: usize = 0;
    for cell in whole {
        at = put_line(cell, text, at);
    }
    at
}

fn put_line(cell: &[u8; CELL], text: &mut [u8], at: usize) -> usize
    requires { at + 33 ≤ length text.old }
    ensures { TextWritten (take at text.old ++ cell_line cell.now) text.old text.new result }
{
    let k = put_hex(cell, text, at);
    text[k] = b'\n';
    k + 1
}

// The parts of every text.

#[tactic(auto, using(crate::proofs::Whole::written_digit))]
pub fn put_decimal(n: usize, text: &mut [u8], at: usize) -> usize
    requires { at + length (decimal n) ≤ length text.old }
    ensures { TextWritten (take at text.old ++ decimal n) text.old text.new result }
{
    if n < 10 {
        text[at] = digit(n);
        return at + 1;
    }
    let k = put_decimal(n / 10, text, at);
    text[k] = digit(n);
    k + 1
}

// The last digit of a number.
pub fn digit(n: usize) -> u8
    ensures { result ≡ digit_of (n % 10) }
{
    b'0' + (n % 10) as u8
}

// The digit of a number at the place of a unit: of a ten, of a hundred; a blank where the number is less.
pub fn place(n: usize, unit: usize) -> u8
    requires { 0 < unit }
    ensures { result ≡ place_of n unit }
{
    if n < unit {
        return b' ';
    }
    digit(n / unit)
}

// Two digits a byte.
pub fn put_hex(bytes: &[u8], text: &mut [u8], at: usize) -> usize
    requires { at + 2 * length bytes.now ≤ length text.old }
    ensures { TextWritten (take at text.old ++ hex bytes.now) text.old text.new result }
{
    let mut k = at;
    for &b in bytes {
        text[k] = hex_digit(b / 16);
        text[k + 1] = hex_digit(b % 16);
        k += 2;
    }
    k
}

// A piece as it is.
pub fn append(piece: &[u8], text: &mut [u8], at: usize) -> usize
    requires { at + length piece.now ≤ length text.old }
    ensures { TextWritten (take at text.old ++ piece.now) text.old text.new result }
{
    at + cells::buffer::copy(piece, &mut text[at..])
}

fn hex_digit(d: u8) -> u8
    requires { d < 16 }
    ensures { result ≡ hex_digit d }
{
    if d < 10 { b'0' + d } else { b'A' - 10 + d }
}
