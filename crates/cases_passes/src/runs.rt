// Bytes given by runs: a cell so many times, each with its number from 0 in the 2 bytes at a place, or as it is where the place is 0.
ghost use Rattle.std.specs.Prelude.{◌≡◌, ◌+◌, ◌*◌, ◌/◌, ◌≤◌, ◌<◌, length};
ghost use Rattle.cases_passes.specs.Runs.{put_numbered, put_run};

use crate::call::HEAD;
use cells::read;
use cells::read::CELL;
use std::io::Read;

// Bytes of a run in a file: how often (2), the place (2), the cell.
const RUN: usize = 20;

// Reads the runs that a record's head announces over the start of a buffer; how many bytes count. No contract can say what is read.
pub fn read<F: Read>(rt: &impl Print, file: &mut F, head: &[u8; HEAD], buffer: &mut [u8]) -> usize
    ensures { result ≤ length buffer.old }
{
    let n = read::word(head, 12);
    let count = read::half(head, 22);
    let mut at: usize = 0;
    for _ in 0..count {
        at += read_run(file, buffer, at);
    }
    if CELL * at < n {
        let _ = println!(rt; "wrong: the file ends within a record, or a record is too long");
        return 0;
    }
    n
}

// Reads a run and writes its cells from a position on; how many cells these are, 0 where there is no run or no room.
fn read_run<F: Read>(file: &mut F, buffer: &mut [u8], at: usize) -> usize
    requires { at ≤ length buffer.old / 16 }
    ensures { at + result ≤ length buffer.old / 16 }
{
    let mut run = [0u8; RUN];
    if casebook::read_full(file, &mut run) < RUN {
        return 0;
    }
    let count = read::half(&run, 0);
    let place = read::half(&run, 2);
    if 14 < place {
        return 0;
    }
    if buffer.len() / CELL - at < count {
        return 0;
    }
    put_run(&run[4..], place, count, buffer, at);
    count
}

fn put_run(cell: &[u8], place: usize, count: usize, buffer: &mut [u8], at: usize)
    requires { (16 ≤ length cell.now) × (place ≤ 14) × (count < 65536) × (at + count ≤ length buffer.old / 16) }
    ensures { buffer.new ≡ put_run cell.now place at 0 count buffer.old }
{
    for i in 0..count {
        put_numbered(cell, place, i, buffer, at + i);
    }
}

fn put_numbered(cell: &[u8], place: usize, number: usize, buffer: &mut [u8], k: usize)
    requires { (16 ≤ length cell.now) × (place ≤ 14) × (number < 65536) × (k < length buffer.old / 16) }
    ensures { buffer.new ≡ put_numbered cell.now place number k buffer.old }
{
    read::put_cell(cell, 0, buffer, k);
    if place == 0 {
        return;
    }
    let at = CELL * k + place;
    read::put_half(buffer, at, number);
}
