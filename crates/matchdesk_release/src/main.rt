// The program behind `./matchdesk release`: reads a release on standard input, and writes the framed output to standard output and a line an image to
// standard error. Images are rewritten one by one, so that besides the input only one image is held.
#![tactic(auto)]

ghost use Rattle.std.specs.Prelude.{◌≡◌, ◌≤◌, length};
ghost use Rattle.input.specs.Prefix.{IsPrefixLen};
ghost use Rattle.listing.specs.Promises.{TextWritten};
ghost use Rattle.matchdesk_release.specs.Program.{answer_text, image_line, image_texts};
ghost use Rattle.matchdesk_release.specs.Promises.{is_refused, Framed, Says};

use cells::check::MAX_IMAGE;
use cells::read;
use cells::refusal::Numbers;
use input::report::fail;
use input::words::{arg, arg_count, same};
use input::zeros;
use release::place::{ANSWER, NUMBER};
use std::io;
use std::rt::Env;

// What is said: so many bytes at the start of the buffer for standard output, and of the one for standard error.
// (`matchdesk` has one too: in `input`, which both use, it would stand apart from `Says`, its meaning, which needs `listing`.)
#[derive(Clone, Copy)]
struct Said {
    output: usize,
    error: usize,
}

// The longest input.
const MAX_RELEASE: usize = 4194304;

// Bytes for the input: the longest one, and what one read finds past it.
const INPUT: usize = MAX_RELEASE + 65536;

// Bytes for an image that is handed back, behind its length.
const FRAME: usize = NUMBER + MAX_IMAGE;

// Bytes of the longest line: a place of 20 digits, a blank, and a refusal.
const LINE: usize = 92;

fn main(rt: HostRuntime) {
    let out = rt.stdout();
    let err = rt.stderr();
    if !is_asked(&rt) {
        let _ = err.write_all(b"usage: matchdesk_release release < images\n");
        return;
    }
    let mut buffer = zeros::<INPUT>();
    match input::read_to_end(&rt, &mut buffer, 0, MAX_RELEASE) {
        Ok(n) => answer(&out, &err, &buffer[..n]),
        Err(error) => fail(&err, b"standard input", error),
    }
}

// Whether the one argument is `release`.
fn is_asked(rt: &impl Env) -> bool {
    arg_count(rt) == 2 && same(arg(rt, 1, &mut [0; 16]), b"release")
}

fn answer(out: &impl Print, err: &impl Print, input: &[u8]) {
    if is_refused(input) {
        let _ = err.write_all(b"refused 33\n");
        return;
    }
    if let Err(error) = write_images(out, err, input) {
        fail(err, b"standard output", error);
    }
}

// 33: the input is too long, or a length or an image goes past its end.
#[tactic(auto, unfolding(crate::specs::Promises::is_refused))]
fn is_refused(input: &[u8]) -> bool
    ensures { result ≡ is_refused input.now }
{
    MAX_RELEASE < input.len() || release::count_images(input).is_none()
}

// Says each image's texts, in order, as long as standard output takes them. No contract can say what is written; of each image it is what
// `say_image` promises. (A `while`: each image says where the next one starts.)
// (No iterator over the images, as in `release`: `images_of` gives a list or none.)
fn write_images(out: &impl Print, err: &impl Print, release: &[u8]) -> io::Result<()>
    requires { Framed release.now }
{
    let mut frame = zeros::<FRAME>();
    let mut line = zeros::<LINE>();
    let mut at: usize = 0;
    let mut place: usize = 0;
    while at < release.len() {
        let size = read::word(release, at);
        let start = at + NUMBER;
        let end = start + size;
        let said = say_image(place, &release[start..end], &mut frame, &mut line);
        out.write_all(&frame[..said.output])?;
        let _ = err.write_all(&line[..said.error]);
        at = end;
        place += 1;
    }
    Ok(())
}

// The image that is handed back, behind its length, and the image's line.
fn say_image(place: usize, image: &[u8], frame: &mut [u8], line: &mut [u8]) -> Said
    requires { (65540 ≤ length frame.old) × (92 ≤ length line.old) }
    ensures prefix_len { IsPrefixLen result.output frame.new × IsPrefixLen result.error line.new }
    ensures says { Says (image_texts place image.now) frame.old frame.new line.old line.new result }
{
    let mut answer = [0u8; ANSWER];
    let n = release::place::rewrite_image(image, frame, &mut answer);
    let numbers = Numbers {
        number: read::word(&answer, 0),
        position: read::word(&answer, 4),
        detail: read::word(&answer, 8),
    };
    Said {
        output: n,
        error: image_line(place, numbers, line),
    }
}

fn image_line(place: usize, x: Numbers, line: &mut [u8]) -> usize
    requires { 92 ≤ length line.old }
    ensures prefix_len { IsPrefixLen result line.new }
    ensures text_written { TextWritten (image_line place x) line.old line.new result }
{
    let at = listing::put_field(place, b' ', line, 0);
    at + put_answer(x, &mut line[at..])
}

fn put_answer(x: Numbers, text: &mut [u8]) -> usize
    requires { 71 ≤ length text.old }
    ensures { TextWritten (answer_text x) text.old text.new result }
{
    if x.number == 0 {
        return listing::put_rewrites(x.position, text);
    }
    listing::put_refused(x, text)
}
