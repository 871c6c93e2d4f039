// The lines. Each function here writes its piece at a position, and answers the position behind it.
// (No `write!`: into a lent slice it promises nothing of the bytes.)
ghost use Rattle.std.specs.Prelude.{◌≡◌, ◌++◌, ◌+◌, ◌≤◌, ◌<◌, length, take};
ghost use Rattle.cells.specs.Cells.{flat};
ghost use Rattle.listing.specs.Promises.{TextWritten};
ghost use Rattle.listing.specs.Decimal.{decimal};
ghost use Rattle.listing.specs.Places.{fill_left};
ghost use Rattle.pages.specs.Pages.{heading, cell_line, new_page, entry_lines};
ghost use Rattle.pages.specs.Steps.{cell_title, Listable, EntryRoom};

use crate::names::Names;
use crate::{LINE, PAGE};
use cells::walk::Part;
use listing::{append, digit, place, put_hex};

// The cell at a position, and the heading before it where a page begins.
pub fn put_entry(
    names: &Names,
    p: Part,
    name: usize,
    position: usize,
    cell: &[u8],
    text: &mut [u8],
    at: usize,
) -> usize
    requires { EntryRoom p name position cell.now text.old at }
    ensures { TextWritten (take at text.old ++ flat (entry_lines p name position cell.now)) text.old text.new result }
{
    let k = put_page(name, position, text, at);
    put_cell(names, p, position, cell, text, k)
}

// The heading of a page that begins before the cell at a position, if one does.
fn put_page(name: usize, position: usize, text: &mut [u8], at: usize) -> usize
    requires { at + length (flat (new_page name position)) ≤ length text.old }
    ensures { TextWritten (take at text.old ++ flat (new_page name position)) text.old text.new result }
{
    if position == 0 || position % PAGE != 0 {
        return at;
    }
    put_heading(name, position / PAGE + 1, text, at)
}

// The heading of a page of a function. (Its digits stand at eight fixed places: loops that fill five and three of them from the right are no
// plainer.)
pub fn put_heading(name: usize, page: usize, text: &mut [u8], at: usize) -> usize
    requires { at + 58 ≤ length text.old }
    ensures { TextWritten (take at text.old ++ heading name page) text.old text.new result }
{
    let mut line = *b"function 00000 page 000                                  \n";
    line[9] = digit(name / 10 / 10 / 10 / 10);
    line[10] = digit(name / 10 / 10 / 10);
    line[11] = digit(name / 10 / 10);
    line[12] = digit(name / 10);
    line[13] = digit(name);
    line[20] = digit(page / 10 / 10);
    line[21] = digit(page / 10);
    line[22] = digit(page);
    append(&line, text, at)
}

// The line of a cell of a part, at its position in the function.
// (What is known of the cell and its position stands in three contracts: a struct for it would be made here, and opened in the other two.)
fn put_cell(
    names: &Names,
    p: Part,
    position: usize,
    cell: &[u8],
    text: &mut [u8],
    at: usize,
) -> usize
    requires { Listable p cell.now × (position < 4096) × (at + 58 ≤ length text.old) }
    ensures { TextWritten (take at text.old ++ cell_line p position cell.now) text.old text.new result }
{
    let mut line = [0u8; LINE];
    put_line(names, p, position, cell, &mut line);
    append(&line, text, at)
}

// The same at the start of a buffer of its own. (What is put together there, and then copied as a whole, takes half the time.)
fn put_line(names: &Names, p: Part, position: usize, cell: &[u8], line: &mut [u8]) -> usize
    requires { Listable p cell.now × (position < 4096) × (length line.old ≡ 58) }
    ensures { TextWritten (cell_line p position cell.now) line.old line.new result }
{
    let a = put_title(names, p, position, cell, line);
    let b = append(b"  ", line, a);
    let c = put_hex(&cell[1..], line, b);
    line[c] = b'\n';
    c + 1
}

// A cell's position, two blanks and its name.
fn put_title(names: &Names, p: Part, position: usize, cell: &[u8], line: &mut [u8]) -> usize
    requires { Listable p cell.now × (position < 4096) × (length line.old ≡ 58) }
    ensures { TextWritten (cell_title p position cell.now) line.old line.new result }
{
    let a = put_position(position, line);
    let b = append(b"  ", line, a);
    names.put_name(p, cell, line, b)
}

// A position in five places, blanks on the left.
fn put_position(n: usize, line: &mut [u8]) -> usize
    requires { (n < 4096) × (length line.old ≡ 58) }
    ensures { TextWritten (fill_left 5 (decimal n)) line.old line.new result }
{
    let places = [
        place(n, 10000),
        place(n, 1000),
        place(n, 100),
        place(n, 10),
        digit(n),
    ];
    append(&places, line, 0)
}
