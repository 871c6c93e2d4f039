// The check of one cell: refusals 2, 3 and 4.
ghost use Rattle.std.specs.Prelude.{◌≡◌, ℕ, ◌+◌, ◌≤◌, ◌<◌, length, drop};
ghost use Rattle.cells.specs.Bytes.{zeros};
ghost use Rattle.cells.specs.Table.{width_of, row_of, total};
ghost use Rattle.cells.specs.Answers.{unless as «unless_of»};
ghost use Rattle.cells.specs.Check.{operand_ok, row_ok, present as «present_of», instruction_check, event_check, head_check};

use crate::refusal::Refusal;
use crate::table::Kind;
use crate::{read, table};

// Registers are 0 to 1,023.
pub const REGISTERS: usize = 1024;

// Limits of a function's instructions and events, and of an image's bytes.
pub const MAX_INSTRUCTIONS: usize = 2048;

pub const MAX_EVENTS: usize = 1024;

pub const MAX_IMAGE: usize = 65536;

// The first byte of a head.
const HEAD: u8 = 0xf0;

// In how many bytes a head's name and counts end, which are any numbers.
pub const HEAD_BYTES: usize = 7;

// The last command, and the last kind of event.
pub const LAST_COMMAND: usize = 0x51;

pub const LAST_KIND: u8 = 1;

// A presence byte and the value behind it.
fn present(p: u8, v: usize) -> bool
    ensures { result ≡ present_of p v }
{
    match p {
        0 => v == 0,
        1 => true,
        _ => false,
    }
}

// An operand of kind k whose first byte is at.
pub fn operand_ok(k: Kind, c: &[u8], at: usize) -> bool
    requires { at + width_of k ≤ length c.now }
    ensures { result ≡ operand_ok k c.now at }
{
    match k {
        Kind::Reg => read::half(c, at) < REGISTERS,
        Kind::OptReg => {
            let v = read::half(c, at + 1);
            present(c[at], v) && v < REGISTERS
        }
        Kind::Flag => c[at] < 2,
        Kind::Quad => c[at] < 4,
        Kind::Two => true,
        Kind::Four => true,
        Kind::Eight => true,
        Kind::Site => present(c[at], read::word(c, at + 1)),
    }
}

// Every byte from at on is zero.
pub fn zeros_from(c: &[u8], at: usize) -> bool
    requires { at ≤ length c.now }
    ensures { result ≡ zeros (drop at c.now) }
{
    c[at..].iter().all(|&b| b == 0)
}

// The operands of a row, from the cell's second byte on, and zeros behind them. (Of a cell's bytes the operands must be there; the bytes behind
// them need not.)
pub fn operands_ok(c: &[u8], row: usize) -> bool
    requires { (1 + total (row_of row) ≤ length c.now) × (row < 84) }
    ensures { result ≡ row_ok row c.now }
{
    // What is left are the digits of the operands to come; the place moves on by each operand's width, so the turns have no index.
    let mut left = table::row_at(row) / 16;
    let mut at = 1;
    while left != 0 {
        let k = Kind::from(left % 16);
        if !operand_ok(k, c, at) {
            return false;
        }
        at += table::width(k);
        left = left / 16;
    }
    zeros_from(c, at)
}

fn unless(ok: bool, r: Refusal) -> Result<(), Refusal>
    ensures { result ≡ unless_of ok r }
{
    if ok { Ok(()) } else { Err(r) }
}

// An instruction cell, the cell at of the image, in the function at a position. (A part of the image's bytes, so no array: that would take a
// test, which cannot fail, at each call.)
pub fn check_instruction(c: &[u8], position: usize, at: usize) -> Result<(), Refusal>
    requires { length c.now ≡ 16 }
    ensures { result ≡ instruction_check position at c.now }
{
    let command = usize::from(c[0]);
    if command == 0 || LAST_COMMAND < command {
        return Err(Refusal::UnknownCommand(position, at));
    }
    unless(operands_ok(c, command), Refusal::Operand(position, at))
}

// An event cell: its kind is Borrow or Write.
pub fn check_event(c: &[u8], position: usize, at: usize) -> Result<(), Refusal>
    requires { length c.now ≡ 16 }
    ensures { result ≡ event_check position at c.now }
{
    if LAST_KIND < c[0] {
        return Err(Refusal::UnknownCommand(position, at));
    }
    unless(
        operands_ok(c, table::EVENT_ROW),
        Refusal::Operand(position, at),
    )
}

// A head with so many cells behind it: its counts are within the limits and within these.
pub fn check_head(c: &[u8], position: usize, at: usize, after: usize) -> Result<(), Refusal>
    requires { 7 ≤ length c.now }
    ensures { result ≡ head_check position at after c.now }
{
    let code = read::half(c, 3);
    let events = read::half(c, 5);
    if c[0] != HEAD || MAX_INSTRUCTIONS < code || MAX_EVENTS < events || after < code + events {
        return Err(Refusal::Head(position, at));
    }
    unless(zeros_from(c, HEAD_BYTES), Refusal::Operand(position, at))
}
