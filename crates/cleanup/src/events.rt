// The events that stay: those whose sites are on no cell that `remove_unreachable_until_label` removes.
ghost use Rattle.std.specs.Prelude.{◌≡◌, ◌/◌, ◌≤◌, ◌<◌, length};
ghost use Rattle.cells.specs.Check.{max_instructions};
ghost use Rattle.cells.specs.Cells.{cells, cell_at, Put};
ghost use Rattle.cells.specs.Lists.{only};
ghost use Rattle.cells.specs.View.{view};
ghost use Rattle.sites.specs.Sites.{site_of, sites_on};
ghost use Rattle.cleanup.specs.Sweeps.{removed};
ghost use Rattle.cleanup.specs.Cleanup.{clean_events};
ghost use Rattle.cleanup.specs.Receipts.{among as «among_of», spared};
ghost use Rattle.cleanup.specs.Output.{Kept};

use crate::marks::Seen;
use crate::sweeps::{Rule, Unreachable};
use cells::check::MAX_INSTRUCTIONS;
use cells::read::CELL;
use cells::walk::Part;
use sites::{FEW, Which};

// Writes the events that stay; how many.
// (The bound on the instructions is no field of `Function`: that has the parts of any image, also of one that no check passes.)
pub fn retain_events(code: &[u8], events: &[u8], out: &mut [u8]) -> usize
    requires { (length code.now / 16 ≤ max_instructions) × (length events.now / 16 ≤ length out.old / 16) }
    ensures { Kept (clean_events (cells code.now) (cells events.now)) out.old out.new result }
{
    if events.len() < CELL {
        return 0;
    }
    if code.len() / CELL <= FEW {
        retain_within::<FEW>(code, events, out)
    } else {
        retain_within::<MAX_INSTRUCTIONS>(code, events, out)
    }
}

// With room for the sites on N cells removed.
fn retain_within<const N: usize>(code: &[u8], events: &[u8], out: &mut [u8]) -> usize
    requires { (length code.now / 16 ≤ N) × (N ≤ max_instructions) × (length events.now / 16 ≤ length out.old / 16) }
    ensures { Kept (clean_events (cells code.now) (cells events.now)) out.old out.new result }
{
    let mut activations = [0u32; N];
    let mut writes = [0u32; N];
    let a = removed_sites(code, Which::Activation, &mut activations);
    let w = removed_sites(code, Which::Write, &mut writes);
    copy_spared(events, &activations[..a], &writes[..w], out)
}

// The sites on the cells removed, at the start of the list; how many.
// (A number and no slice: `Put` of cells/specs/Cells says it of the lent list, whose rest stays.)
pub fn removed_sites(code: &[u8], which: Which, list: &mut [u32]) -> usize
    requires { length code.now / 16 ≤ length list.old }
    ensures { Put (sites_on (site_of which) (removed view (cells code.now))) list.old list.new result }
{
    let mut found = 0;
    let mut rule = Unreachable { ended: false };
    for k in 0..code.len() / CELL {
        let cell = Seen::at(code, k);
        if rule.cuts_off(cell) {
            if let Some(x) = sites::site_by(code, Part::Code, which, k) {
                list[found] = x;
                found += 1;
            }
        } else {
            rule = Unreachable::after(cell);
        }
    }
    found
}

// Writes the events with none of some activation sites and none of some write sites; how many.
fn copy_spared(events: &[u8], activations: &[u32], writes: &[u32], out: &mut [u8]) -> usize
    requires { length events.now / 16 ≤ length out.old / 16 }
    ensures { Kept (only (spared activations.now writes.now) (cells events.now)) out.old out.new result }
{
    let mut kept = 0;
    for i in 0..events.len() / CELL {
        if is_spared(events, i, activations, writes) {
            cells::read::put_cell(events, i, out, kept);
            kept += 1;
        }
    }
    kept
}

// Whether the event at a position has none of some activation sites and none of some write sites.
pub fn is_spared(events: &[u8], i: usize, activations: &[u32], writes: &[u32]) -> bool
    requires { i < length events.now / 16 }
    ensures { result ≡ spared activations.now writes.now (cell_at events.now i) }
{
    let borrow = sites::site_by(events, Part::Events, Which::Activation, i);
    let write = sites::site_by(events, Part::Events, Which::Write, i);
    !(among(activations, borrow) | among(writes, write))
}

// Whether a site is there, and is one of a list.
pub fn among(list: &[u32], site: Option<u32>) -> bool
    ensures { result ≡ among_of list.now site }
{
    match site {
        Some(x) => list.contains(&x),
        None => false,
    }
}
