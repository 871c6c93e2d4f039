// The file of vectors, line by line: a group's leaf and name, then its rows. Each line has 51 bytes. No contract can say what is read or
// written.
ghost use Rattle.std.specs.Prelude.{◌≡◌, ◌↔◌, true};
ghost use Rattle.cases_leaves.specs.Rows.{HoldsUnder};

use crate::row;
use std::io::Read;
use std::rt::Files;
use std::{fs, io};

const LINE: usize = 51;

// In a group's line, where the two digits of the leaf stand, those of the name's length, and the name.
const LEAF: usize = 2;

const LENGTH: usize = 5;

const NAME: usize = 8;

// Opens the file and runs it; without one, a line says so.
pub fn start<R: Files + Print>(rt: &R) -> io::Result<()> {
    let Ok(file) = fs::open(rt, "vectors.txt") else {
        return println!(rt; "wrong: vectors.txt is not to be read");
    };
    run(rt, file)
}

// A proved loop has to end, and nothing says that the file does: so the loop has a number of turns that no run uses up.
pub fn run<F: Read + Drop>(rt: &impl Print, mut file: F) -> io::Result<()> {
    let mut group = [b' '; LINE];
    let mut passed: u64 = 0;
    for _ in 0..u64::MAX {
        let Some(n) = read_line(rt, &mut file, &mut group, passed)? else {
            return Ok(());
        };
        passed = n;
    }
    Ok(())
}

// Reads a line and runs it; the count of the group's rows that have passed.
fn read_line<F: Read>(
    rt: &impl Print,
    file: &mut F,
    group: &mut [u8; LINE],
    passed: u64,
) -> io::Result<Option<u64>> {
    let mut line = [0u8; LINE];
    let n = casebook::read_full(file, &mut line);
    if n == 0 {
        end_group(rt, group, passed)?;
        return Ok(None);
    }
    if n < LINE {
        end_group(rt, group, passed)?;
        println!(rt; "wrong: the last line of the vectors is short")?;
        return Ok(None);
    }
    if line[0] == b'#' {
        end_group(rt, group, passed)?;
        *group = line;
        return Ok(Some(0));
    }
    Ok(Some(casebook::count(passed, run_row(rt, group, &line))))
}

// Whether a row of the group holds; if not, with a line.
#[tactic(auto, unfolding(crate::specs::Rows::HoldsUnder))]
fn run_row(rt: &impl Print, group: &[u8], line: &[u8]) -> bool
    ensures { (result ≡ true) ↔ HoldsUnder group.now line.now }
{
    let Some(leaf) = row::number(group, LEAF, 2) else {
        let _ = println!(rt; "wrong: a row of vectors in no group");
        return false;
    };
    row::holds(rt, group, leaf, line)
}

// The line of a group, if there was one.
fn end_group(rt: &impl Print, group: &[u8], passed: u64) -> io::Result<()> {
    let Some(length) = row::number(group, LENGTH, 2) else {
        return Ok(());
    };
    let end = NAME + (length % 256) as usize;
    let Some(name) = group.get(NAME..end) else {
        return Ok(());
    };
    rt.write_all(name)?;
    println!(rt; ": {passed} passed")
}
