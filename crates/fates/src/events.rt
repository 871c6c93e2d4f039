// Which events go with their sites.
ghost use Rattle.std.specs.Prelude.{◌≡◌, cond, ◌/◌, ◌≤◌, length, map};
ghost use Rattle.cells.specs.Cells.{cells, over};
ghost use Rattle.cells.specs.Check.{max_instructions};
ghost use Rattle.fates.specs.Fates.{event_fates};
ghost use Rattle.fates.specs.Steps.{spared_fate};

use crate::{Fate, Reason};
use cells::check::MAX_INSTRUCTIONS;
use cells::read::CELL;
use cleanup::events;
use sites::Which;

// The fates of a function's events, at the start of a list.
pub fn event_fates(code: &[u8], events: &[u8], fates: &mut [Fate])
    requires { (length code.now / 16 ≤ max_instructions) × (length events.now / 16 ≤ length fates.old) }
    ensures { fates.new ≡ over (event_fates (cells code.now) (cells events.now)) fates.old }
{
    let mut activations = [0u32; MAX_INSTRUCTIONS];
    let mut writes = [0u32; MAX_INSTRUCTIONS];
    let a = events::removed_sites(code, Which::Activation, &mut activations);
    let w = events::removed_sites(code, Which::Write, &mut writes);
    by_sites(events, &activations[..a], &writes[..w], fates);
}

// By the sites on the cells removed.
fn by_sites(events: &[u8], activations: &[u32], writes: &[u32], fates: &mut [Fate])
    requires { length events.now / 16 ≤ length fates.old }
    ensures { fates.new ≡ over (map (spared_fate activations.now writes.now) (cells events.now)) fates.old }
{
    for i in 0..events.len() / CELL {
        fates[i] = if events::is_spared(events, i, activations, writes) {
            Fate::Kept(Reason::Nothing)
        } else {
            Fate::EventGone
        };
    }
}
