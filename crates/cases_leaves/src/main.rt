// Runs the leaves on vectors made outside this code (tests/vectors), and writes each group with its count.
#![tactic(auto)]

mod leaf;
mod row;
mod vectors;

fn main(rt: HostRuntime) {
    let _ = vectors::start(&rt);
}
