// Unpacking: the cells of a packed form one after another. The first fault decides.
ghost use Rattle.std.specs.Prelude.{◌≡◌, ◌*◌, ◌≤◌, ◌<◌, length, take};
ghost use Rattle.cells.specs.Cells.{over};
ghost use Rattle.packed.specs.Form.{Role, Head, Code, Event};
ghost use Rattle.packed.specs.Reading.{bytes, padded, unpacked};
ghost use Rattle.packed.specs.Steps.{counted, taken_as, taken_run, Room, cells_of, sizes_of, put_restored};

use crate::form::{EVENT_SIZE, HEAD_SIZE};
use crate::{PackingError, form, put};
use cells::check::{LAST_COMMAND, LAST_KIND, MAX_IMAGE};
use cells::read::CELL;
use cells::refusal::Refusal;
use cells::{buffer, check, read, table};

// Cells of the longest image.
// (`sealing` has this line too: a `use` of a shared one would be as long.)
const MAX_CELLS: usize = MAX_IMAGE / CELL;

// How many bytes an image has of which this is the packed form; or why it is of none. Of each function the head, the instructions and the events.
// (A `while`, as in `restore_cells`: each function says where the next one starts.)
pub fn check_cells(packed: &[u8]) -> Result<usize, PackingError>
    ensures { result ≡ counted (unpacked packed.now) }
{
    let mut position = 0;
    let mut at = 0;
    let mut cell = 0;
    while at < packed.len() {
        if cell == MAX_CELLS {
            return Err(PackingError::Refused(Refusal::Length));
        }
        let h = check_head(&packed[at..], position, cell)?;
        let n = read::half(&packed[at..], 3);
        let m = read::half(&packed[at..], 5);
        at += h;
        cell += 1;
        let k = check_run::<Instruction>(&packed[at..], n, position, cell)?;
        at += k;
        cell += n;
        let e = check_run::<EventCell>(&packed[at..], m, position, cell)?;
        at += e;
        cell += m;
        position += 1;
    }
    Ok(CELL * cell)
}

// What a head promises: instruction cells, then event cells. (A type for each, so that what goes over the cells of a part is compiled for each:
// where the part is a value, each cell costs a call, which small functions feel.)
trait Promised {
    ghost role: { Role };

    // How many bytes the cell at the start of s takes; or its first fault.
    fn check(s: &[u8], position: usize, cell: usize) -> Result<usize, PackingError>
        requires { 0 < length s.now }
        ensures { result ≡ taken_as role position cell s.now };
}

struct Instruction;

struct EventCell;

// 3, 32, then 4.
impl Promised for Instruction {
    ghost role = { Code };

    fn check(s: &[u8], position: usize, cell: usize) -> Result<usize, PackingError> {
        let command = usize::from(s[0]);
        if command == 0 || LAST_COMMAND < command {
            return Err(PackingError::Refused(Refusal::UnknownCommand(position, cell)));
        }
        let k = form::size_at(command);
        if s.len() < k {
            return Err(PackingError::Ends(position, cell));
        }
        if !check::operands_ok(&s[..k], command) {
            return Err(PackingError::Refused(Refusal::Operand(position, cell)));
        }
        Ok(k)
    }
}

// 3, 32, then 4.
impl Promised for EventCell {
    ghost role = { Event };

    fn check(s: &[u8], position: usize, cell: usize) -> Result<usize, PackingError> {
        if LAST_KIND < s[0] {
            return Err(PackingError::Refused(Refusal::UnknownCommand(position, cell)));
        }
        if s.len() < EVENT_SIZE {
            return Err(PackingError::Ends(position, cell));
        }
        if !check::operands_ok(&s[..EVENT_SIZE], table::EVENT_ROW) {
            return Err(PackingError::Refused(Refusal::Operand(position, cell)));
        }
        Ok(EVENT_SIZE)
    }
}

// How many bytes the n promised cells at the start of s take, of which the first is the image's cell `cell`; or the first fault.
fn check_run<P: Promised>(
    s: &[u8],
    n: usize,
    position: usize,
    cell: usize,
) -> Result<usize, PackingError>
    requires { cell ≤ 4096 }
    ensures { result ≡ taken_run P.role n position cell s.now }
{
    let mut at = 0;
    for i in 0..n {
        if cell + i == MAX_CELLS {
            return Err(PackingError::Refused(Refusal::Length));
        }
        if at == s.len() {
            return Err(PackingError::Ends(position, cell + i));
        }
        let k = P::check(&s[at..], position, cell + i)?;
        at += k;
    }
    Ok(at)
}

// A head: 32, then 2. What it promises is held to the limits alone; its operands are any numbers.
fn check_head(s: &[u8], position: usize, cell: usize) -> Result<usize, PackingError>
    requires { 0 < length s.now }
    ensures { result ≡ taken_as Head position cell s.now }
{
    if s.len() < HEAD_SIZE {
        return Err(PackingError::Ends(position, cell));
    }
    let promised = read::half(s, 3) + read::half(s, 5);
    check::check_head(&s[..HEAD_SIZE], position, cell, promised)?;
    Ok(HEAD_SIZE)
}

// The cells of a packed form that is known good, into an output that has just the room for them: of each function the head, the instructions
// and the events.
// (A `while`: each function says where the next one starts.)
pub fn restore_cells(packed: &[u8], out: &mut [u8])
    requires { Room (unpacked packed.now) (length out.old) }
    ensures { unpacked packed.now ≡ bytes out.new }
{
    let mut at = 0;
    let mut to = 0;
    while to < out.len() {
        put_restored(&packed[at..], HEAD_SIZE, &mut out[to..]);
        let code = read::half(&packed[at..], 3);
        let events = read::half(&packed[at..], 5);
        let first = to + CELL;
        let second = first + CELL * code;
        let end = second + CELL * events;
        at += HEAD_SIZE;
        at += restore_code(&packed[at..], code, &mut out[first..second]);
        at += restore_events(&packed[at..], events, &mut out[second..end]);
        to = end;
    }
}

// The n instruction cells at the start of s, into an output that has just the room for them; the answer is how many bytes of s they take.
fn restore_code(s: &[u8], n: usize, out: &mut [u8]) -> usize
    requires { (sizes_of Code n s.now ≤ length s.now) × (length out.old ≡ 16 * n) }
    ensures { (out.new ≡ cells_of Code n s.now) × (result ≡ sizes_of Code n s.now) }
{
    let mut row = form::HEAD_ROW;
    let mut size = HEAD_SIZE;
    let mut at = 0;
    for i in 0..n {
        let to = CELL * i;
        let before = row;
        row = usize::from(s[at]);
        size = form::size_again(row, before, size);
        put_restored(&s[at..], size, &mut out[to..]);
        at += size;
    }
    at
}

// The n event cells at the start of s, as the instruction cells. (One function for both would carry rows that no event has: each keeps as much.)
fn restore_events(s: &[u8], n: usize, out: &mut [u8]) -> usize
    requires { (sizes_of Event n s.now ≤ length s.now) × (length out.old ≡ 16 * n) }
    ensures { (out.new ≡ cells_of Event n s.now) × (result ≡ sizes_of Event n s.now) }
{
    let mut at = 0;
    for i in 0..n {
        let to = CELL * i;
        put_restored(&s[at..], EVENT_SIZE, &mut out[to..]);
        at += EVENT_SIZE;
    }
    at
}

// The cell that keeps the first k bytes of s, over the start of an output. Where both have the bytes for it, 16 bytes are copied, and 16 zeros
// written behind the first k: what these are too many is written over by the next cell.
fn put_restored(s: &[u8], k: usize, out: &mut [u8])
    requires { (k ≤ length s.now) × (k ≤ 16) × (16 ≤ length out.old) }
    ensures { out.new ≡ put_restored s.now k out.old }
{
    if s.len() < CELL || out.len() < 2 * CELL {
        put_exactly(s, k, out);
    } else {
        put::put_cell(s, out);
        let zeros = [0u8; CELL];
        buffer::copy(&zeros, &mut out[k..]);
    }
}

// The cell that keeps the first k bytes of s, over the start of an output.
fn put_exactly(s: &[u8], k: usize, out: &mut [u8])
    requires { (k ≤ length s.now) × (k ≤ 16) × (16 ≤ length out.old) }
    ensures { out.new ≡ over (padded (take k s.now)) out.old }
{
    let zeros = [0u8; CELL];
    buffer::copy(&zeros, out);
    put::put_first(s, k, out);
}
