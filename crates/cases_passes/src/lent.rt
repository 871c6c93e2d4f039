// A lent output: what it holds before a call, and what it must hold after.
ghost use Rattle.std.specs.Prelude.{◌≡◌, ◌↔◌, true, ◌+◌, ◌≤◌, length};
ghost use Rattle.cells.specs.Cells.{over};
ghost use Rattle.cases_passes.specs.Rows.{marks, lent, Agrees};

use crate::operation;
use crate::operation::{Operation, Reply};
use cells::buffer;
use input::zeros;

// The most bytes that are lent: the longest pages, and a line more.
// (Three contracts say `room ≤ 242440`: a struct around the one number would only be opened in each.)
pub const MAX_ROOM: usize = 242440;

// Marked bytes behind the lent ones.
const BEHIND: usize = 64;

// Both.
pub const SPACE: usize = 242504;

// Whether an operation on an image, lent `room` bytes of a marked output, gives the reply and leaves `want` in the output, and behind it,
// past the lent bytes too, the marks.
pub fn agrees(operation: Operation, image: &[u8], want: &[u8], expected: Reply, room: usize) -> bool
    requires { (room ≤ 242440) × (length want.now ≤ room) }
    ensures { (result ≡ true) ↔ Agrees operation image.now want.now expected room (room + 64) }
{
    let mut out = zeros::<SPACE>();
    let mut model = zeros::<SPACE>();
    let end = room + BEHIND;
    agrees_within(
        operation,
        image,
        want,
        expected,
        room,
        &mut out[..end],
        &mut model[..end],
    )
}

fn agrees_within(
    operation: Operation,
    image: &[u8],
    want: &[u8],
    expected: Reply,
    room: usize,
    out: &mut [u8],
    model: &mut [u8],
) -> bool
    requires { (room ≤ length out.old) × (length want.now ≤ length model.old) × (length out.old ≡ length model.old) }
    ensures variant { (result ≡ true) ↔ Agrees operation image.now want.now expected room (length out.old) }
    ensures out_after { out.new ≡ lent operation image.now room (marks (length out.old)) }
    ensures model_after { model.new ≡ over want.now (marks (length model.old)) }
{
    mark(out);
    mark(model);
    buffer::copy(want, model);
    let got = operation::run(operation, image, &mut out[..room]);
    let replied = got == expected;
    let written = *out == *model;
    replied & written
}

// Fills an output with bytes that go by their position.
fn mark(out: &mut [u8])
    ensures { out.new ≡ marks (length out.old) }
{
    for (i, byte) in out.iter_mut().enumerate() {
        *byte = (i % 251) as u8;
    }
}
