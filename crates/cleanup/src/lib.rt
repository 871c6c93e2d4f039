// Cleanup of one function (`StructuralCleanupPass`): four sweeps over the instructions, then the events of the sites that the second removed.
#![tactic(auto)]

pub mod events;
pub mod marks;
pub mod sweeps;

ghost use Rattle.std.specs.Prelude.{◌≡◌, ◌/◌, ◌≤◌, length, drop};
ghost use Rattle.cells.specs.Cells.{cells};
ghost use Rattle.cells.specs.Check.{max_instructions};
ghost use Rattle.cells.specs.Functions.{function_of};
ghost use Rattle.cleanup.specs.Cleanup.{clean_function, clean_count};
ghost use Rattle.cleanup.specs.Output.{Parts, PartsWritten, Holds};

use cells::check::MAX_INSTRUCTIONS;
use cells::read::CELL;
use sites::FEW;

// How many cells a function has that was written, and how many rewrites were counted.
#[derive(Clone, Copy)]
pub struct FunctionReport {
    pub instructions: usize,
    pub events: usize,
    pub rewrites: usize,
}

// Writes the cells that stay to the start of the output and touches no byte behind them.
pub fn cleanup_function(code: &[u8], events: &[u8], out: &mut [u8]) -> FunctionReport
    requires { Parts code.now events.now out.old }
    ensures { PartsWritten (cells code.now) (cells events.now) out.old out.new result }
{
    if code.len() / CELL <= FEW {
        cleanup_within::<FEW>(code, events, out)
    } else {
        cleanup_within::<MAX_INSTRUCTIONS>(code, events, out)
    }
}

// With room for the positions of N cells that stay.
fn cleanup_within<const N: usize>(code: &[u8], events: &[u8], out: &mut [u8]) -> FunctionReport
    requires { Parts code.now events.now out.old × (length code.now / 16 ≤ N) × (N ≤ max_instructions) }
    ensures { PartsWritten (cells code.now) (cells events.now) out.old out.new result }
{
    let mut positions = [0u16; N];
    let n = sweeps::survivors(code, &mut positions);
    sweeps::copy_out(code, &positions[..n], out);
    let m = events::retain_events(code, events, &mut out[CELL * n..]);
    FunctionReport {
        instructions: n,
        events: m,
        rewrites: code.len() / CELL - n,
    }
}

// Writes the function's head, with its new counts, before the cells that stay.
// (Three slices and no `Function`: the clauses name each part, which would be `f.entry.code.now` and the like there.)
pub fn cleanup_to(head: &[u8], code: &[u8], events: &[u8], out: &mut [u8]) -> FunctionReport
    requires { (length head.now ≡ 16) × (16 ≤ length out.old) × Parts code.now events.now (drop 16 out.old) }
    ensures { Holds (clean_function (function_of head.now code.now events.now)) (clean_count (cells code.now)) out.old out.new result }
{
    let r = cleanup_function(code, events, &mut out[CELL..]);
    cells::read::put_cell(head, 0, out, 0);
    cells::read::put_half(out, 3, r.instructions);
    cells::read::put_half(out, 5, r.events);
    r
}
