// The program: reads an image or a packed form on standard input, does the job that its argument names, and writes what the job says. Or finds
// the other factor of a product, by its arguments alone.
#![tactic(auto)]

mod product;

ghost use Rattle.std.specs.Prelude.{◌≡◌, ◌≤◌, length};
ghost use Rattle.image.specs.SiteCheck.{site_answer};
ghost use Rattle.input.specs.Prefix.{IsPrefixLen};
ghost use Rattle.listing.specs.Promises.{TextWritten};
ghost use Rattle.listing.specs.Text.{checked_text, refused_text};
ghost use Rattle.packed.specs.Operations.{length_written};
ghost use Rattle.pages.specs.Pages.{pages_text};
ghost use Rattle.matchdesk.specs.Program.{asked_for, written, answer_text, answer_bytes, sealed_text, laid_text, program_texts, work_after};
ghost use Rattle.matchdesk.specs.Promises.{said_output, said_error, Room, Fits, fault_text, Says};

use cells::buffer;
use cells::check::MAX_IMAGE;
use cells::refusal::{Numbers, Refusal};
use crystalfold::rules::RuleSet;
use input::report::fail;
use input::words::{arg, arg_count, same};
use input::zeros;
use packed::PackingError;
use pages::PagesError;
use passes::Written;
use product::Product;
use sealing::SealingError;
use std::rt::Env;

// What the program can do: the text of a rewrite's answer, by a rule set, or of the rewrite until it rests; the rewritten image itself; the site
// check; the image's pages; its packed form; of a packed form, the image; and the sealing check.
#[derive(Clone, Copy)]
enum Job {
    Rewrite(RuleSet),
    Rest,
    Bytes,
    Check,
    Pages,
    Pack,
    Unpack,
    Seal,
}

// What a job says: so many bytes at the start of the buffer for standard output, and of the one for standard error. (The clause `says` of
// `run` speaks of both buffers whole, so these are lengths and no slices. `matchdesk_release` has such a struct too: in `input`, which both use,
// it would stand apart from `Says`, its meaning, which needs `listing`.)
#[derive(Clone, Copy)]
struct Said {
    output: usize,
    error: usize,
}

impl Said {
    fn on_output(output: usize) -> Said
        ensures { result ≡ said_output output }
    {
        Said { output, error: 0 }
    }

    fn on_error(error: usize) -> Said
        ensures { result ≡ said_error error }
    {
        Said { output: 0, error }
    }
}

// Bytes for the input: the longest image, and what one read finds past it.
const INPUT: usize = MAX_IMAGE + 4096;

// Bytes of the longest text: the longest pages, 4,179 lines of 58.
const OUTPUT: usize = 58 * 4179;

// Bytes of the longest line: of a refusal.
const LINE: usize = 71;

// Bytes for the word of a number, which needs no more than 11.
const NUMBER: usize = 64;

fn main(rt: HostRuntime) {
    let out = &rt.stdout();
    let err = &rt.stderr();
    if arg_count(&rt) == 5 {
        factor_job(&rt, out, err);
        return;
    }
    let Some(job) = argument(&rt) else {
        usage(err);
        return;
    };
    let mut buffer = zeros::<INPUT>();
    let n = match input::read_to_end(&rt, &mut buffer, 0, MAX_IMAGE) {
        Ok(n) => n,
        Err(error) => {
            fail(err, b"standard input", error);
            return;
        }
    };
    let mut work = zeros::<MAX_IMAGE>();
    let mut output = zeros::<OUTPUT>();
    let mut error = zeros::<LINE>();
    let said = run(job, &buffer[..n], &mut work, &mut output, &mut error);
    say(out, err, &output[..said.output], &error[..said.error]);
}

fn usage(err: &impl Print) {
    let _ = err.write_all(
        b"usage: matchdesk [rewrite | fuller | rest | bytes | check | seal | pages | pack] < image\n       matchdesk unpack < packed\n       matchdesk factor (fx | i32) WANTED FACTOR\n",
    );
}

fn say(out: &impl Print, err: &impl Print, output: &[u8], error: &[u8]) {
    if let Err(e) = out.write_all(output) {
        fail(err, b"standard output", e);
    }
    let _ = err.write_all(error);
}

// The one argument; without any, the text of the rewrite's answer is asked for. No word is as long as the buffer.
fn argument(rt: &impl Env) -> Option<Job> {
    match arg_count(rt) {
        0 | 1 => Some(Job::Rewrite(RuleSet::Default)),
        2 => job_of(arg(rt, 1, &mut [0; 16])),
        _ => None,
    }
}

// The four arguments of `factor`. One that is longer than its buffer is answered as the empty word, which is no product and no number.
fn factor_job(rt: &impl Env, out: &impl Print, err: &impl Print) {
    if !same(arg(rt, 1, &mut [0; 16]), b"factor") {
        usage(err);
        return;
    }
    match product::product_of(arg(rt, 2, &mut [0; 16])) {
        Some(product) => find(rt, out, err, product),
        None => usage(err),
    }
}

// The factor of a product, by the two words of numbers.
fn find(rt: &impl Env, out: &impl Print, err: &impl Print, product: Product) {
    let mut wanted = [0; NUMBER];
    let wanted = arg(rt, 3, &mut wanted);
    let mut factor = [0; NUMBER];
    let factor = arg(rt, 4, &mut factor);
    let mut output = zeros::<LINE>();
    let mut error = zeros::<LINE>();
    let said = product::find_factor(product, wanted, factor, &mut output, &mut error);
    say(out, err, &output[..said.output], &error[..said.error]);
}

// The words are told apart by `same`, as those of `factor`: one test a word, in the order of `asked_for`; a table of words would need a loop over it.
fn job_of(word: &[u8]) -> Option<Job>
    ensures { result ≡ asked_for word.now }
{
    if same(word, b"rewrite") {
        return Some(Job::Rewrite(RuleSet::Default));
    }
    if same(word, b"fuller") {
        return Some(Job::Rewrite(RuleSet::Fuller));
    }
    if same(word, b"rest") {
        return Some(Job::Rest);
    }
    if same(word, b"bytes") {
        return Some(Job::Bytes);
    }
    if same(word, b"check") {
        return Some(Job::Check);
    }
    if same(word, b"pages") {
        return Some(Job::Pages);
    }
    if same(word, b"pack") {
        return Some(Job::Pack);
    }
    if same(word, b"unpack") {
        return Some(Job::Unpack);
    }
    if same(word, b"seal") {
        return Some(Job::Seal);
    }
    None
}

// Does a job on its input. What it says stands over the start of `output` and of `error`; `work` is the output that a rewrite is lent.
fn run(job: Job, input: &[u8], work: &mut [u8], output: &mut [u8], error: &mut [u8]) -> Said
    requires { Room work.old output.old error.old }
    ensures prefix_len { IsPrefixLen result.output output.new × IsPrefixLen result.error error.new }
    ensures says { Says (program_texts job input.now) output.old output.new error.old error.new result }
    ensures work_after { work.new ≡ work_after job input.now work.old }
{
    // Each job lends other buffers to another operation: closures in the jobs would be no plainer.
    match job {
        Job::Rewrite(rules) => {
            let reply = passes::run_opt_passes(rules, input, work);
            Said::on_output(answer_text(reply, work, output))
        }
        Job::Rest => {
            let reply = rest::rewrite_until_rest(input, work);
            Said::on_output(answer_text(reply, work, output))
        }
        Job::Bytes => {
            let reply = passes::run_default_opt_passes(input, work);
            answer_bytes(reply, work, output, error)
        }
        Job::Check => Said::on_output(check_line(image::site_check(input), output)),
        Job::Pages => Said::on_output(lay_out(input, output)),
        Job::Pack => answer_packing(packed::pack(input, output), error),
        Job::Unpack => answer_packing(packed::unpack(input, output), error),
        Job::Seal => Said::on_output(seal_line(sealing::sealing_check(input), output)),
    }
}

// The text of a rewrite's answer.
fn answer_text(reply: Result<Written, Refusal>, work: &[u8], output: &mut [u8]) -> usize
    requires { Fits reply work.now output.old }
    ensures prefix_len { IsPrefixLen result output.new }
    ensures text_written { TextWritten (answer_text reply (written reply work.now)) output.old output.new result }
{
    match reply {
        Ok(Written { length: n, report }) => {
            let rewrites = report.num_rewrites;
            listing::list_rewritten(&work[..n], rewrites, output).unwrap_or(0)
        }
        Err(refusal) => check_line(Err(refusal), output),
    }
}

// The bytes that a rewrite wrote, or the line of its refusal.
fn answer_bytes(
    reply: Result<Written, Refusal>,
    work: &[u8],
    output: &mut [u8],
    error: &mut [u8],
) -> Said
    requires { Fits reply work.now output.old × (71 ≤ length error.old) }
    ensures prefix_len { IsPrefixLen result.output output.new × IsPrefixLen result.error error.new }
    ensures says { Says (answer_bytes reply (written reply work.now)) output.old output.new error.old error.new result }
{
    match reply {
        Ok(
            Written {
                length: n,
                report: _,
            },
        ) => Said::on_output(buffer::copy(&work[..n], output)),
        Err(refusal) => Said::on_error(check_line(Err(refusal), error)),
    }
}

// The pages of an image, or the line of its refusal.
fn lay_out(image: &[u8], output: &mut [u8]) -> usize
    requires { 242382 ≤ length output.old }
    ensures prefix_len { IsPrefixLen result output.new }
    ensures text_written { TextWritten (laid_text (site_answer image.now) (pages_text image.now)) output.old output.new result }
{
    match pages::pages(image, output) {
        Ok(n) => n,
        Err(PagesError::Refused(refusal)) => check_line(Err(refusal), output),
        Err(PagesError::TooShort) => 0,
    }
}

// How many bytes of a packed form, or of the image of one, stand in the output already; or the line of the refusal.
fn answer_packing(packing: Result<usize, PackingError>, error: &mut [u8]) -> Said
    requires { 71 ≤ length error.old }
    ensures output_value { (result.output ≡ length_written packing) × IsPrefixLen result.error error.new }
    ensures text_written { TextWritten (fault_text packing) error.old error.new result.error }
{
    match packing {
        Ok(n) => Said::on_output(n),
        Err(x) => Said::on_error(refused_line(Numbers::from(x), error)),
    }
}

// The line of a check's answer.
fn check_line(checked: Result<(), Refusal>, text: &mut [u8]) -> usize
    requires { 71 ≤ length text.old }
    ensures prefix_len { IsPrefixLen result text.new }
    ensures text_written { TextWritten (checked_text checked) text.old text.new result }
{
    listing::list_checked(checked, text).unwrap_or(0)
}

// The line of the sealing check's answer.
fn seal_line(sealing: Result<(), SealingError>, text: &mut [u8]) -> usize
    requires { 71 ≤ length text.old }
    ensures prefix_len { IsPrefixLen result text.new }
    ensures text_written { TextWritten (sealed_text sealing) text.old text.new result }
{
    match sealing {
        Ok(()) => check_line(Ok(()), text),
        Err(x) => refused_line(Numbers::from(x), text),
    }
}

// The line of a refusal.
fn refused_line(numbers: Numbers, text: &mut [u8]) -> usize
    requires { 71 ≤ length text.old }
    ensures prefix_len { IsPrefixLen result text.new }
    ensures text_written { TextWritten (refused_text numbers.number numbers.position numbers.detail) text.old text.new result }
{
    listing::list_refused(numbers, text).unwrap_or(0)
}
