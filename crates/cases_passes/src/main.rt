// Runs the operations on whole images: those written out by hand (tests/images), and the sample of the original's answers
// (tests/differential). Writes each group with its counts.
#![tactic(auto)]

mod call;
mod lent;
mod operation;
mod parts;
mod records;
mod runs;

use std::rt::Files;
use std::{fs, io};

fn main(rt: HostRuntime) {
    let _ = file(&rt, "images.bin");
    let _ = file(&rt, "sample.bin");
}

fn file<R: Files + Print>(rt: &R, name: &str) -> io::Result<()> {
    let Ok(file) = fs::open(rt, name) else {
        return println!(rt; "wrong: not to be read: {name}");
    };
    records::run(rt, file)
}
