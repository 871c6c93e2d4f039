// One function of an image, cleaned to the start of an output.
ghost use Rattle.cells.specs.Cells.{cells};
ghost use Rattle.cells.specs.Functions.{function_of};
ghost use Rattle.cleanup.specs.Cleanup.{clean_function, clean_count};
ghost use Rattle.cleanup.specs.Output.{Holds};
ghost use Rattle.passes.specs.Steps.{Room};

use cells::read::CELL;
use cleanup::FunctionReport;

// By its head, its instruction cells and its event cells. One without cells stays as it is.
// (Three slices and no `Function`: the clauses name each part, which would be `f.entry.code.now` and the like there.)
pub fn clean(head: &[u8], code: &[u8], events: &[u8], out: &mut [u8]) -> FunctionReport
    requires { Room head.now code.now events.now out.old }
    ensures { Holds (clean_function (function_of head.now code.now events.now)) (clean_count (cells code.now)) out.old out.new result }
{
    if code.len() + events.len() < CELL {
        return copy(head, code, events, out);
    }
    cleanup::cleanup_to(head, code, events, out)
}

// The function as it is.
fn copy(head: &[u8], code: &[u8], events: &[u8], out: &mut [u8]) -> FunctionReport
    requires { Room head.now code.now events.now out.old }
    ensures { Holds (function_of head.now code.now events.now) 0 out.old out.new result }
{
    let a = CELL + code.len();
    cells::buffer::copy(head, out);
    cells::buffer::copy(code, &mut out[CELL..]);
    cells::buffer::copy(events, &mut out[a..]);
    FunctionReport {
        instructions: code.len() / CELL,
        events: events.len() / CELL,
        rewrites: 0,
    }
}
