// Which sweep of cleanup takes each instruction cell, and behind which Ret or Jmp an unreachable one lies.
ghost use Rattle.std.specs.Prelude.{◌≡◌, cond, ◌+◌, ◌/◌, ◌≤◌, ◌<◌, length};
ghost use Rattle.cells.specs.Cells.{over, Put};
ghost use Rattle.cells.specs.Check.{max_instructions, max_image};
ghost use Rattle.cleanup.specs.Positions.{AllBelow, Survive, see_at};
ghost use Rattle.cleanup.specs.Reading.{seen_at};
ghost use Rattle.cleanup.specs.ByState.{stays_by};
ghost use Rattle.fates.specs.Steps.{marked, swept_fates, end_fates, named_of, reached, is_end};

use crate::{Fate, Reason};
use cells::read::CELL;
use cleanup::marks::Seen;
use cleanup::sweeps;
use cleanup::sweeps::{Jumps, Labels, Loads, Rule, Unreachable};

// Sweeps as cleanup does, and gives each cell the fate of the sweep that takes it: before a sweep the cells that are there have its fate, and behind
// the last one those that are left are kept. The positions of these stand at the start of the list; how many.
pub fn mark_sweeps(code: &[u8], list: &mut [u16], fates: &mut [Fate]) -> usize
    requires { (length code.now / 16 ≤ length list.old) × (length code.now / 16 ≤ max_instructions) × (length code.now / 16 ≤ length fates.old) }
    ensures survive { Survive code.now list.old list.new result }
    ensures fates_after { fates.new ≡ swept_fates code.now fates.old }
{
    let n = code.len() / CELL;
    sweeps::fill(&mut list[..n]);
    mark(&list[..n], Fate::RepeatedLabel, fates);
    let n = sweep_marked(
        code,
        &mut list[..n],
        Labels { kept: None },
        Fate::Unreachable(0),
        fates,
    );
    let n = sweep_marked(
        code,
        &mut list[..n],
        Unreachable { ended: false },
        Fate::JumpToNext,
        fates,
    );
    let n = sweep_marked(code, &mut list[..n], Jumps, Fate::LoadOverwritten, fates);
    sweep_marked(
        code,
        &mut list[..n],
        Loads,
        Fate::Kept(Reason::Nothing),
        fates,
    )
}

// One sweep of a list of positions; what it leaves gets a fate.
fn sweep_marked<S: Rule>(
    code: &[u8],
    list: &mut [u16],
    rule: S,
    fate: Fate,
    fates: &mut [Fate],
) -> usize
    requires { AllBelow (length code.now / 16) list.old × (length code.now / 16 ≤ length fates.old) }
    ensures put { Put (stays_by (seen_at code.now) S.goes_of S.after_of rule list.old) list.old list.new result }
    ensures fates_after { fates.new ≡ marked fate (stays_by (seen_at code.now) S.goes_of S.after_of rule list.old) fates.old }
{
    let left = sweeps::sweep(code, list, rule);
    mark(&list[..left], fate, fates);
    left
}

// Gives the cells at the positions of a list a fate.
fn mark(list: &[u16], fate: Fate, fates: &mut [Fate])
    requires { AllBelow (length fates.old) list.now }
    ensures { fates.new ≡ marked fate list.now fates.old }
{
    for p in list {
        fates[usize::from(*p)] = fate;
    }
}

// Names behind which cell each unreachable one lies: the nearest earlier Ret or Jmp that sweep two leaves, by its position in the image. The first
// cell is the cell `first` of the image.
pub fn name_ends(code: &[u8], first: usize, fates: &mut [Fate])
    requires { (length code.now / 16 ≤ length fates.old) × (length code.now / 16 ≤ max_instructions) × (first ≤ max_image) }
    ensures { fates.new ≡ over (end_fates first code.now fates.old) fates.old }
{
    let mut end = first;
    for at in 0..code.len() / CELL {
        let fate = fates[at];
        fates[at] = named(fate, end);
        end = end_behind(code, first, at, fate, end);
    }
}

// What is told of a cell behind the last Ret or Jmp that sweep two leaves.
fn named(fate: Fate, end: usize) -> Fate
    ensures { result ≡ named_of fate end }
{
    match fate {
        Fate::Unreachable(_) => Fate::Unreachable(end),
        other => other,
    }
}

// Whether sweep two leaves a cell.
fn is_reached(fate: Fate) -> bool
    ensures { result ≡ reached fate }
{
    !matches!(fate, Fate::RepeatedLabel | Fate::Unreachable(_))
}

// The last Ret or Jmp that sweep two leaves, behind the cell at: that cell, or the one before.
fn end_behind(code: &[u8], first: usize, at: usize, fate: Fate, end: usize) -> usize
    requires { (at < length code.now / 16) × (length code.now / 16 ≤ max_instructions) × (first ≤ max_image) }
    ensures { result ≡ cond (is_end (see_at code.now) at fate) (first + at) end }
{
    let cell = Seen::at(code, at);
    if is_reached(fate) & cell.mark.is_terminal() {
        first + at
    } else {
        end
    }
}
