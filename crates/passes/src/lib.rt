// The rewriting operations on an image: cleanup, CrystalFold, and both, by the Rust's rules (`run_default_opt_passes`) or by the fuller ones.
// Nothing is written before all checks have passed.
#![tactic(auto)]

mod function;

ghost use Rattle.std.specs.Prelude.{◌≡◌, ◌≤◌, length};
ghost use Rattle.cells.specs.Cells.{cells};
ghost use Rattle.cells.specs.Functions.{functions};
ghost use Rattle.image.specs.SiteCheck.{site_answer};
ghost use Rattle.passes.specs.Passes.{pass_all, count_all, pass_check, pass_answer, pass_output, report};
ghost use Rattle.passes.specs.Promises.{PassDone, RewriteDone};
ghost use Rattle.passes.specs.Steps.{AllWritten, Folding, FoldedStart};
ghost use Rattle.rewrite.specs.AllFunctions.{clean_all, clean_count_all};

use cells::check::MAX_IMAGE;
use cells::read::CELL;
use cells::refusal::Refusal;
use cells::walk::Functions;
use crystalfold::rules::RuleSet;

// Which passes an operation runs, the fold with its rules: cleanup, CrystalFold, or both in this order.
#[derive(Clone, Copy)]
pub enum Pass {
    Cleanup,
    CrystalFold(RuleSet),
    Both(RuleSet),
}

// How many rewrites there were, and whether there was any.
#[derive(Clone, Copy)]
pub struct OptReport {
    pub changed: bool,
    pub num_rewrites: usize,
}

impl OptReport {
    // The report of so many rewrites.
    pub fn new(num_rewrites: usize) -> OptReport
        ensures { result ≡ report num_rewrites }
    {
        OptReport {
            changed: 0 < num_rewrites,
            num_rewrites,
        }
    }
}

// What a rewriting operation answers that refuses nothing: the length written and the report.
#[derive(Clone, Copy)]
pub struct Written {
    pub length: usize,
    pub report: OptReport,
}

// Cleanup of every function.
pub fn cleanup(image: &[u8], out: &mut [u8]) -> Result<Written, Refusal>
    ensures { PassDone Pass.Cleanup image.now out.old out.new result }
{
    run(Pass::Cleanup, image, out)
}

// CrystalFold of every function.
pub fn crystalfold(image: &[u8], out: &mut [u8]) -> Result<Written, Refusal>
    ensures { PassDone (Pass.CrystalFold RuleSet.Default) image.now out.old out.new result }
{
    run(Pass::CrystalFold(RuleSet::Default), image, out)
}

// The whole rewrite with the Rust's rules.
pub fn run_default_opt_passes(image: &[u8], out: &mut [u8]) -> Result<Written, Refusal>
    ensures { RewriteDone RuleSet.Default image.now out.old out.new result }
{
    run_opt_passes(RuleSet::Default, image, out)
}

// The whole rewrite with the fuller rules: the Rust's, the truth-order quads, and division of an f64 by zero.
pub fn run_fuller_opt_passes(image: &[u8], out: &mut [u8]) -> Result<Written, Refusal>
    ensures { RewriteDone RuleSet.Fuller image.now out.old out.new result }
{
    run_opt_passes(RuleSet::Fuller, image, out)
}

// The whole rewrite: cleanup of every function, then CrystalFold of every function by these rules.
pub fn run_opt_passes(rules: RuleSet, image: &[u8], out: &mut [u8]) -> Result<Written, Refusal>
    ensures { RewriteDone rules image.now out.old out.new result }
{
    run(Pass::Both(rules), image, out)
}

fn run(pass: Pass, image: &[u8], out: &mut [u8]) -> Result<Written, Refusal>
    ensures value { result ≡ pass_answer pass image.now (length out.old) }
    ensures out_after { out.new ≡ pass_output pass image.now out.old }
{
    check(image, out.len())?;
    let total = rewrite_functions(pass, image, out);
    Ok(Written {
        length: CELL * total.cells,
        report: OptReport::new(total.rewrites),
    })
}

// 1, then 5, then as the site check; the output has room bytes.
// (The site check makes the two tests of the length again; that of the output has to stand between them and the rest.)
pub fn check(image: &[u8], room: usize) -> Result<(), Refusal>
    ensures { result ≡ pass_check image.now room }
{
    if MAX_IMAGE < image.len() {
        return Err(Refusal::Length);
    }
    if image.len() % CELL != 0 {
        return Err(Refusal::Length);
    }
    if room < image.len() {
        return Err(Refusal::OutputTooShort);
    }
    image::site_check(image)
}

// How many cells are written, and how many rewrites there were.
#[derive(Clone, Copy)]
pub struct Total {
    pub cells: usize,
    pub rewrites: usize,
}

// Every function, rewritten, one after another: cleanup over every function, then CrystalFold over every function, as the Rust does.
// A pass is a value and no closure: callers and contracts name it.
// (That the site check passes is a clause and no type of its own: the image of the second round in `rest` is proved good, and not checked.)
pub fn rewrite_functions(pass: Pass, image: &[u8], out: &mut [u8]) -> Total
    requires { (site_answer image.now ≡ Ok tt) × (length image.now ≤ length out.old) }
    ensures { AllWritten (pass_all pass (functions (cells image.now))) (count_all pass (functions (cells image.now))) out.old out.new result }
{
    match pass {
        Pass::Cleanup => clean_functions(image, out),
        Pass::CrystalFold(rules) => {
            let t = copy_functions(image, out);
            fold_functions(rules, t, out)
        }
        Pass::Both(rules) => {
            let t = clean_functions(image, out);
            fold_functions(rules, t, out)
        }
    }
}

// Cleanup of every function, each written behind the one before.
fn clean_functions(image: &[u8], out: &mut [u8]) -> Total
    requires { (site_answer image.now ≡ Ok tt) × (length image.now ≤ length out.old) }
    ensures { AllWritten (clean_all (functions (cells image.now))) (clean_count_all (functions (cells image.now))) out.old out.new result }
{
    let mut written = Total {
        cells: 0,
        rewrites: 0,
    };
    for function in Functions::of(image) {
        let report = function::clean(
            function.head,
            function.code,
            function.events,
            &mut out[CELL * written.cells..],
        );
        written.cells += 1 + report.instructions + report.events;
        written.rewrites += report.rewrites;
    }
    written
}

// The functions as they are.
fn copy_functions(image: &[u8], out: &mut [u8]) -> Total
    requires { (site_answer image.now ≡ Ok tt) × (length image.now ≤ length out.old) }
    ensures { AllWritten (functions (cells image.now)) 0 out.old out.new result }
{
    cells::buffer::copy(image, out);
    Total {
        cells: image.len() / CELL,
        rewrites: 0,
    }
}

// CrystalFold of the functions that stand at the start of the output, in one go over their cells: a head is a barrier, so that a function starts
// with nothing known.
fn fold_functions(rules: RuleSet, t: Total, out: &mut [u8]) -> Total
    requires { Folding t out.old }
    ensures { FoldedStart rules t out.old out.new result }
{
    let folds = crystalfold::fold_constants_and_identities(&mut out[..CELL * t.cells], rules);
    Total {
        cells: t.cells,
        rewrites: t.rewrites + folds,
    }
}
