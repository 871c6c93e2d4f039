// The four sweeps over a list of positions, each of which moves what it keeps to the start of the list; and the cells at the positions left.
ghost use Rattle.std.specs.Prelude.{◌≡◌, Bool, map, ◌/◌, ◌≤◌, ◌<◌, length, drop, get_or};
ghost use Rattle.cells.specs.Cells.{cell_at, flat, over, Put};
ghost use Rattle.cleanup.specs.Reading.{seen_at};
ghost use Rattle.cleanup.specs.ByState.{label_goes, after_label, cuts_off, unreachable_goes, after_end, jump_goes, load_goes, seen_next, stays_by};
ghost use Rattle.cleanup.specs.declared.marks.Seen.{Seen};
ghost use Rattle.cleanup.specs.Positions.{up_from, AllBelow, Survive};

use crate::marks::{Mark, Seen};
use cells::read::CELL;

// What a sweep removes, as it stands behind the cell just kept.
pub trait Rule: Copy {
    ghost goes_of: { Self → Seen → Seen → Bool };

    ghost after_of: { Seen → Self };

    // Whether a cell goes: by the cell just kept, by itself and by the next cell.
    fn goes(self, here: Seen, next: Seen) -> bool
        ensures { result ≡ goes_of self here next };

    // The rule behind a cell that stays.
    fn after(here: Seen) -> Self
        ensures { result ≡ after_of here };
}

// 1. A label equal to the one just kept is removed.
#[derive(Clone, Copy)]
pub struct Labels {
    pub kept: Option<usize>,
}

impl Rule for Labels {
    ghost goes_of = { label_goes };

    ghost after_of = { after_label };

    fn goes(self, here: Seen, _next: Seen) -> bool {
        here.mark == Mark::Label && self.kept == Some(here.operand)
    }

    fn after(here: Seen) -> Labels {
        Labels {
            kept: here.operand_of(Mark::Label),
        }
    }
}

// 2. After a Ret or Jmp everything up to the next label is removed.
#[derive(Clone, Copy)]
pub struct Unreachable {
    pub ended: bool,
}

impl Unreachable {
    // Whether a cell can't be reached.
    pub fn cuts_off(self, here: Seen) -> bool
        ensures { result ≡ cuts_off self here }
    {
        self.ended && here.mark != Mark::Label
    }
}

impl Rule for Unreachable {
    ghost goes_of = { unreachable_goes };

    ghost after_of = { after_end };

    fn goes(self, here: Seen, _next: Seen) -> bool {
        self.cuts_off(here)
    }

    fn after(here: Seen) -> Unreachable {
        Unreachable {
            ended: here.mark.is_terminal(),
        }
    }
}

// 3. A Jmp whose next cell is its own label is removed.
#[derive(Clone, Copy)]
pub struct Jumps;

impl Rule for Jumps {
    ghost goes_of = { jump_goes };

    ghost after_of = { λ _. record {} };

    fn goes(self, here: Seen, next: Seen) -> bool {
        here.mark == Mark::Jmp && next.mark == Mark::Label && here.operand == next.operand
    }

    fn after(_here: Seen) -> Jumps {
        Jumps
    }
}

// 4. A load whose next cell is a load into the same register is removed, whatever they load.
#[derive(Clone, Copy)]
pub struct Loads;

impl Rule for Loads {
    ghost goes_of = { load_goes };

    ghost after_of = { λ _. record {} };

    fn goes(self, here: Seen, next: Seen) -> bool {
        here.mark == Mark::Load && next.mark == Mark::Load && here.operand == next.operand
    }

    fn after(_here: Seen) -> Loads {
        Loads
    }
}

// The positions of the cells that cleanup leaves, at the start of the list; how many.
pub fn survivors(code: &[u8], list: &mut [u16]) -> usize
    requires { (length code.now / 16 ≤ length list.old) × (length code.now / 16 ≤ 65536) }
    ensures { Survive code.now list.old list.new result }
{
    let n = code.len() / CELL;
    fill(&mut list[..n]);
    let n = sweep(code, &mut list[..n], Labels { kept: None });
    let n = sweep(code, &mut list[..n], Unreachable { ended: false });
    let n = sweep(code, &mut list[..n], Jumps);
    sweep(code, &mut list[..n], Loads)
}

// Writes the cells at the positions of a list.
pub fn copy_out(code: &[u8], list: &[u16], out: &mut [u8])
    requires below { AllBelow (length code.now / 16) list.now }
    requires room { length list.now ≤ length out.old / 16 }
    ensures { out.new ≡ over (flat (map (cell_at code.now) list.now)) out.old }
{
    for (i, p) in list.iter().enumerate() {
        cells::read::put_cell(code, usize::from(*p), out, i);
    }
}

// Sweeps a list of positions by a rule; how many are left, at the start of the list. Each cell is read once.
// (A number and no slice: `Put` of cells/specs/Cells says it of the lent list, whose rest stays.)
pub fn sweep<S: Rule>(code: &[u8], list: &mut [u16], rule: S) -> usize
    requires { AllBelow (length code.now / 16) list.old }
    ensures { Put (stays_by (seen_at code.now) S.goes_of S.after_of rule list.old) list.old list.new result }
{
    let mut kept = 0;
    let mut rule = rule;
    let mut here = seen_next(code, list, 0);
    for i in 0..list.len() {
        let next = seen_next(code, list, i + 1);
        if !rule.goes(here, next) {
            list[kept] = list[i];
            kept += 1;
            rule = S::after(here);
        }
        here = next;
    }
    kept
}

// The cell at list[i]; past the end there is nothing to see.
fn seen_next(code: &[u8], list: &[u16], i: usize) -> Seen
    requires { i < length list.now → get_or list.now i 0 < length code.now / 16 }
    ensures { result ≡ seen_next (seen_at code.now) (drop i list.now) }
{
    match list.get(i) {
        Some(p) => Seen::at(code, usize::from(*p)),
        None => Seen {
            mark: Mark::Other,
            operand: 0,
        },
    }
}

// The positions from 0 on.
pub fn fill(list: &mut [u16])
    requires { length list.old ≤ 65536 }
    ensures { list.new ≡ up_from 0 (length list.old) }
{
    for i in 0..list.len() {
        list[i] = i as u16;
    }
}
