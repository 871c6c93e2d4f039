// A call in a file of cases (tests/images/README.md has the layout): an operation, how many bytes it is lent, and the answer expected.
ghost use Rattle.std.specs.Prelude.{◌≡◌, ◌↔◌, true, false, ◌≤◌};
ghost use Rattle.cases_passes.specs.Operations.{answer};
ghost use Rattle.cases_passes.specs.Rows.{reply_in, Holds};

use crate::lent::{MAX_ROOM, SPACE};
use crate::operation::{Operation, Reply};
use crate::{lent, operation};
use cells::read;
use input::zeros;
use std::io;

// Bytes of a record's head.
pub const HEAD: usize = 24;

// Whether the call answers and writes what its head and `want` say; if not, with a line.
pub fn holds(rt: &impl Print, head: &[u8; HEAD], name: &[u8], image: &[u8], want: &[u8]) -> bool
    ensures { (result ≡ true) ↔ Holds head.now image.now want.now }
{
    let answers = read::half(head, 22);
    let asked = operation::asked_by(head[0], answers as u16);
    let Some(operation) = asked else {
        return malformed(rt, name);
    };
    let room = read::word(head, 8);
    let expected = reply_in(head);
    let n = expected.length;
    if MAX_ROOM < room {
        return malformed(rt, name);
    }
    if room < n {
        return malformed(rt, name);
    }
    if room < answers {
        return malformed(rt, name);
    }
    if want.len() < n {
        return malformed(rt, name);
    }
    let held = lent::agrees(operation, image, &want[..n], expected, room);
    if !held {
        let _ = wrong(rt, head[0], name, operation, image, room, expected);
    }
    held
}

fn reply_in(head: &[u8; HEAD]) -> Reply
    ensures { result ≡ reply_in head.now }
{
    Reply {
        number: usize::from(head[1]),
        position: read::half(head, 2),
        detail: read::word(head, 4),
        length: read::word(head, 12),
        rewrites: read::word(head, 16),
        changed: usize::from(head[20]),
    }
}

fn malformed(rt: &impl Print, name: &[u8]) -> bool
    ensures { result ≡ false }
{
    let _ = not_read(rt, name);
    false
}

fn not_read(rt: &impl Print, name: &[u8]) -> io::Result<()> {
    rt.write_all(b"wrong: ")?;
    rt.write_all(name)?;
    println!(rt; ", a malformed call")
}

// The operation's byte, the bytes lent, and both answers; where these are the same, the output is wrong.
fn wrong(
    rt: &impl Print,
    byte: u8,
    name: &[u8],
    operation: Operation,
    image: &[u8],
    room: usize,
    expected: Reply,
) -> io::Result<()>
    requires { room ≤ 242440 }
{
    rt.write_all(b"wrong: ")?;
    rt.write_all(name)?;
    print!(rt; ", operation {byte} lent {room} expected ")?;
    show(rt, expected)?;
    print!(rt; "got ")?;
    show(rt, again(operation, image, room))?;
    println!(rt; "")
}

// The answer of one more call.
fn again(operation: Operation, image: &[u8], room: usize) -> Reply
    requires { room ≤ 242440 }
    ensures { result ≡ answer operation image.now room }
{
    let mut out = zeros::<SPACE>();
    operation::run(operation, image, &mut out[..room])
}

// The six numbers, with a blank behind each.
fn show(rt: &impl Print, reply: Reply) -> io::Result<()> {
    let Reply {
        number,
        position,
        detail,
        length,
        rewrites,
        changed,
    } = reply;
    print!(rt; "{number} {position} {detail} {length} {rewrites} {changed} ")
}
