// A file of cases, record by record (tests/images/README.md has the layout): a group's name, a row's name, its image and output, its calls.
// No contract can say what is read or written.
ghost use Rattle.std.specs.Prelude.{◌≡◌, ◌↔◌, true, length};
ghost use Rattle.cases_passes.specs.States.{state_of, HoldsIn};

use crate::call::HEAD;
use crate::{call, runs};
use input::zeros;
use std::io;
use std::io::Read;

// Bytes of the longest image here, a cell more than the limit.
const LONGEST: usize = 65552;

// Bytes for the longest output, the longest pages, in whole cells.
const OUTPUT: usize = 242384;

// How many bytes of each buffer count, and the group's counts: its images, and its calls that held.
#[derive(Clone, Copy)]
struct State {
    group: usize,
    name: usize,
    image: usize,
    want: usize,
    images: u64,
    passed: u64,
}

// A proved loop has to end, and nothing says that the file does: so the loop has a number of turns that no run uses up.
pub fn run<F: Read + Drop>(rt: &impl Print, mut file: F) -> io::Result<()> {
    let mut group = [0u8; 4096];
    let mut name = [0u8; 4096];
    let mut image = zeros::<LONGEST>();
    let mut want = zeros::<OUTPUT>();
    let mut state = start(0);
    for _ in 0..u64::MAX {
        let step = record(
            rt, &mut file, &mut group, &mut name, &mut image, &mut want, state,
        )?;
        let Some(next) = step else {
            return Ok(());
        };
        state = next;
    }
    Ok(())
}

// A record of the file. (Its kinds are numbers of the file's format, read here alone: an enum of them would only be matched a second time.)
fn record<F: Read>(
    rt: &impl Print,
    file: &mut F,
    group: &mut [u8; 4096],
    name: &mut [u8; 4096],
    image: &mut [u8; LONGEST],
    want: &mut [u8; OUTPUT],
    s: State,
) -> io::Result<Option<State>> {
    let mut head = [0u8; HEAD];
    let n = casebook::read_full(file, &mut head);
    if n < HEAD {
        show(rt, group, s)?;
        if 0 < n {
            println!(rt; "wrong: the file ends within a record")?;
        }
        return Ok(None);
    }
    match head[0] {
        0 => {
            show(rt, group, s)?;
            Ok(Some(start(runs::read(rt, file, &head, group))))
        }
        1 => Ok(Some(named(s, runs::read(rt, file, &head, name)))),
        2 => Ok(Some(sent(
            s,
            runs::read(rt, file, &head, image),
            casebook::count(s.images, true),
        ))),
        3 => Ok(Some(wanted(s, runs::read(rt, file, &head, want)))),
        _ => Ok(Some(called(
            s,
            casebook::count(s.passed, held(rt, &head, name, image, want, s)),
        ))),
    }
}

// A group's start, with the length of its name.
fn start(group: usize) -> State
    ensures { result ≡ state_of group 0 0 0 0 0 }
{
    State {
        group,
        name: 0,
        image: 0,
        want: 0,
        images: 0,
        passed: 0,
    }
}

fn named(s: State, name: usize) -> State
    ensures { result ≡ state_of s.group name 0 0 s.images s.passed }
{
    State {
        name,
        image: 0,
        want: 0,
        ..s
    }
}

fn sent(s: State, image: usize, images: u64) -> State
    ensures { result ≡ state_of s.group s.name image 0 images s.passed }
{
    State {
        image,
        want: 0,
        images,
        ..s
    }
}

fn wanted(s: State, want: usize) -> State
    ensures { result ≡ state_of s.group s.name s.image want s.images s.passed }
{
    State { want, ..s }
}

fn called(s: State, passed: u64) -> State
    ensures { result ≡ state_of s.group s.name s.image s.want s.images passed }
{
    State { passed, ..s }
}

// Whether the call in the head holds of the row's image and output.
fn held(
    rt: &impl Print,
    head: &[u8; HEAD],
    name: &[u8],
    image: &[u8],
    want: &[u8],
    s: State,
) -> bool
    ensures { (result ≡ true) ↔ HoldsIn head.now name.now image.now want.now s }
{
    let a = s.name;
    let b = s.image;
    let c = s.want;
    if name.len() < a {
        return false;
    }
    if image.len() < b {
        return false;
    }
    if want.len() < c {
        return false;
    }
    call::holds(rt, head, &name[..a], &image[..b], &want[..c])
}

// The line of a group, if there was one.
fn show(rt: &impl Print, group: &[u8], s: State) -> io::Result<()> {
    if s.group == 0 {
        return Ok(());
    }
    let Some(name) = group.get(..s.group) else {
        return Ok(());
    };
    rt.write_all(name)?;
    println!(rt; ": {} images, {} answers passed", s.images, s.passed)
}
