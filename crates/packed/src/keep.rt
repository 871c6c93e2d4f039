// Packing: the bytes that each cell of an image keeps, one cell after another.
ghost use Rattle.std.specs.Prelude.{◌≡◌, ◌≤◌, length};
ghost use Rattle.cells.specs.Cells.{over};
ghost use Rattle.cells.specs.Check.{max_image};
ghost use Rattle.image.specs.Image.{image_answer};
ghost use Rattle.packed.specs.Form.{packed};
ghost use Rattle.packed.specs.Steps.{counted_at, most_kept, put_kept};

use crate::form::{Due, EVENT_SIZE, HEAD_SIZE};
use crate::{form, put};
use cells::read;
use cells::read::CELL;

// What is counted at once: a head, an instruction, or all events of a function; and what is promised behind it.
#[derive(Clone, Copy)]
pub struct Counted {
    pub cells: usize,
    pub size: usize,
    pub due: Due,
}

// The most bytes that n cells can keep: no cell keeps more than an event, and the first one is a head.
pub fn most_kept(n: usize) -> usize
    requires { n ≤ 4096 }
    ensures { result ≡ most_kept n }
{
    if n == 0 {
        return 0;
    }
    HEAD_SIZE + EVENT_SIZE * (n - 1)
}

// How many bytes the cells of a good image keep in all. (A `while`: the events of a function are counted at once.)
pub fn length_kept(image: &[u8]) -> usize
    requires { image_answer image.now ≡ Ok tt }
    ensures { result ≡ length (packed image.now) }
{
    let n = image.len() / CELL;
    let mut due = Due::NONE;
    let mut total = 0;
    let mut i = 0;
    while i < n {
        let a = CELL * i;
        let e = a + CELL;
        let next = count_next(due, &image[a..e]);
        total += next.size;
        due = next.due;
        i += next.cells;
    }
    total
}

// The cells to count, of which this is the first, where so many are promised.
// (Not `Due::next_cell`, which goes on by one event: here all that are promised are counted in one turn.)
fn count_next(due: Due, cell: &[u8]) -> Counted
    requires { (length cell.now ≡ 16) × (due.events ≤ 65535) }
    ensures { result ≡ counted_at due.code due.events cell.now }
{
    if due.code != 0 {
        return Counted {
            cells: 1,
            size: form::size_at(usize::from(cell[0])),
            due: Due {
                code: due.code - 1,
                events: due.events,
            },
        };
    }
    if due.events != 0 {
        return Counted {
            cells: due.events,
            size: EVENT_SIZE * due.events,
            due: Due::NONE,
        };
    }
    Counted {
        cells: 1,
        size: HEAD_SIZE,
        due: Due {
            code: read::half(cell, 3),
            events: read::half(cell, 5),
        },
    }
}

// The bytes themselves, over the start of an output that has the room for them; the answer is how many they are.
pub fn keep_cells(image: &[u8], out: &mut [u8]) -> usize
    requires { (length image.now ≤ max_image) × (length (packed image.now) ≤ length out.old) }
    ensures { (result ≡ length (packed image.now)) × (out.new ≡ over (packed image.now) out.old) }
{
    let n = image.len() / CELL;
    let mut due = Due::NONE;
    let mut at = 0;
    for i in 0..n {
        let a = CELL * i;
        let e = a + CELL;
        let next = due.next_cell(&image[a..e]);
        let k = next.size;
        put_kept(&image[a..e], k, n - i, &mut out[at..]);
        due = next.due;
        at += k;
    }
    at
}

// The first k bytes of a cell, over the start of an output; the whole cell, where it is the first of 16 or more that are left. These keep a byte
// each at least, so that what stands behind the k bytes is written over by the next cells.
fn put_kept(cell: &[u8], k: usize, left: usize, out: &mut [u8])
    requires { (length cell.now ≡ 16) × (k ≤ 16) × (k ≤ length out.old) × (16 ≤ left → 16 ≤ length out.old) }
    ensures { out.new ≡ put_kept cell.now k left out.old }
{
    if left < CELL {
        put::put_first(cell, k, out);
    } else {
        put::put_cell(cell, out);
    }
}
