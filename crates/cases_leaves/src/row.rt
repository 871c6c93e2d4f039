// A row of vectors: the operands and the result in 16 hexadecimal digits each; in the result's place may stand a reason, `divisor zero` or
// `out of range`, or `none` where there is no quad.
ghost use Rattle.std.specs.Prelude.{◌≡◌, ◌↔◌, true, false, ◌+◌, ◌≤◌};
ghost use Rattle.cases_leaves.specs.Rows.{digit_of, number_in, is_separated, is_text, result_in, row_in, Holds};

use crate::leaf::{Answer, NoValue, compute};
use std::io;

// The operands and the result.
#[derive(Clone, Copy)]
pub struct Vector {
    pub a: u64,
    pub b: u64,
    pub expected: Answer,
}

// Where the result stands in a line.
const RESULT: usize = 34;

// Whether the leaf gives what the row says. If not, with a line that names the vector; and if the leaf declines, with its reason.
#[tactic(auto, unfolding(crate::specs::Rows::Holds))]
pub fn holds(rt: &impl Print, group: &[u8], leaf: u64, line: &[u8]) -> bool
    ensures { (result ≡ true) ↔ Holds leaf line.now }
{
    let Some(vector) = read(line) else {
        return malformed(rt, group, line);
    };
    let got = compute(leaf, vector.a, vector.b);
    let held = got == vector.expected;
    if held {
        let _ = tell(rt, vector, got);
    } else {
        let _ = wrong(rt, group, vector, got);
    }
    held
}

#[tactic(auto, unfolding(crate::specs::Rows::row_in))]
fn read(line: &[u8]) -> Option<Vector>
    ensures { result ≡ row_in line.now }
{
    let a = number(line, 0, 16)?;
    let b = number(line, 17, 16)?;
    if !separated(line) {
        return None;
    }
    let expected = read_result(line)?;
    Some(Vector { a, b, expected })
}

#[tactic(auto, unfolding(crate::specs::Rows::result_in))]
fn read_result(line: &[u8]) -> Option<Answer>
    ensures { result ≡ result_in line.now }
{
    if says(line, RESULT, b"none            ") {
        return Some(Err(NoValue::Absent));
    }
    if says(line, RESULT, b"divisor zero    ") {
        return Some(Err(NoValue::DivisorZero));
    }
    if says(line, RESULT, b"out of range    ") {
        return Some(Err(NoValue::OutOfRange));
    }
    number(line, RESULT, 16).map(Ok)
}

// The fields of a row stand between blanks, and its line ends.
#[tactic(auto, unfolding(crate::specs::Rows::is_separated))]
fn separated(line: &[u8]) -> bool
    ensures { result ≡ is_separated line.now }
{
    says(line, 16, b" ") && says(line, 33, b" ") && says(line, 50, b"\n")
}

// A text stands in the line from a position on.
fn says(line: &[u8], at: usize, text: &[u8]) -> bool
    ensures { result ≡ is_text line.now at text.now }
{
    line.get(at..).unwrap_or(&[]).starts_with(text)
}

// The number in so many hexadecimal digits from a position on.
pub fn number(line: &[u8], at: usize, count: usize) -> Option<u64>
    requires { at + count ≤ 65536 }
    ensures { result ≡ number_in line.now at count 0 }
{
    let mut n: u64 = 0;
    for i in at..at + count {
        n = n % 1152921504606846976 * 16 + digit(*line.get(i)?)?;
    }
    Some(n)
}

fn digit(c: u8) -> Option<u64>
    ensures { result ≡ digit_of c }
{
    match c {
        b'0'..=b'9' => Some(u64::from(c - b'0')),
        b'A'..=b'F' => Some(u64::from(c - b'A') + 10),
        _ => None,
    }
}

fn malformed(rt: &impl Print, group: &[u8], line: &[u8]) -> bool
    ensures { result ≡ false }
{
    let _ = not_read(rt, group, line);
    false
}

fn not_read(rt: &impl Print, group: &[u8], line: &[u8]) -> io::Result<()> {
    rt.write_all(b"wrong: a row is malformed in ")?;
    rt.write_all(group)?;
    rt.write_all(line)
}

// Writes a line for a row that is declined: why.
fn tell(rt: &impl Print, vector: Vector, got: Answer) -> io::Result<()> {
    match got {
        Err(reason @ (NoValue::DivisorZero | NoValue::OutOfRange)) => {
            let Vector { a, b, .. } = vector;
            println!(rt; "declined: {a:016x} {b:016x} {reason}")
        }
        _ => Ok(()),
    }
}

fn wrong(rt: &impl Print, group: &[u8], vector: Vector, got: Answer) -> io::Result<()> {
    let Vector { a, b, expected } = vector;
    print!(rt; "wrong: {a:016x} {b:016x} expected ")?;
    show(rt, expected)?;
    print!(rt; " got ")?;
    show(rt, got)?;
    print!(rt; " in ")?;
    rt.write_all(group)
}

fn show(rt: &impl Print, answer: Answer) -> io::Result<()> {
    match answer {
        Ok(x) => print!(rt; "{x:016x}"),
        Err(reason) => print!(rt; "{reason}"),
    }
}
