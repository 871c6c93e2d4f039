// What became of a cell under the default rewrite (document 02, W6): of one cell of an image, and of all cells of a function at once.
#![tactic(auto)]

pub mod events;
pub mod judge;
pub mod sweeps;

ghost use Rattle.std.specs.Prelude.{◌≡◌, ◌+◌, ◌/◌, ◌≤◌, ◌<◌, length, get_or, Err};
ghost use Rattle.cells.specs.Cells.{cells, over};
ghost use Rattle.image.specs.SiteCheck.{site_answer};
ghost use Rattle.fates.specs.Fates.{code_fates, function_fates, judged};
ghost use Rattle.fates.specs.declared.Fate.TheVariants.{Kept};
ghost use Rattle.fates.specs.declared.FateError.TheVariants.{Refused};
ghost use Rattle.fates.specs.Answer.{told_at, image_fates};
ghost use Rattle.fates.specs.Promises.{FateTold};
ghost use Rattle.fates.specs.Steps.{CodePart, FunctionParts};

use cells::check::{MAX_EVENTS, MAX_INSTRUCTIONS};
use cells::read::CELL;
use cells::refusal::Refusal;
use cells::walk::Functions;
use leaves::verdict::Decline;

// Why a kept command that the default fold could compute was not folded: the first that applies. Nothing: no such command. An enum of its own and
// no Option<Decline>, since `reason_number` of specs/Promises and the worked rows of specs/Cases name each.
#[derive(Clone, Copy)]
pub enum Reason {
    Nothing,
    LeftUnknown,
    RightUnknown,
    Unfit,
    DivisorZero,
    OutOfRange,
}

// Of a verdict without a value.
impl From<Decline> for Reason {
    ghost from_gives = { λ x r. Kept r ≡ judged (Err x) };

    fn from(x: Decline) -> Reason {
        match x {
            Decline::LeftUnknown => Reason::LeftUnknown,
            Decline::RightUnknown => Reason::RightUnknown,
            Decline::Unfit => Reason::Unfit,
            Decline::DivisorZero => Reason::DivisorZero,
            Decline::OutOfRange => Reason::OutOfRange,
            Decline::NotComputed => Reason::Nothing,
        }
    }
}

// Unreachable: behind the Ret or Jmp at that position of the image. Folded: the command that loads the value, and the value's bits.
// (The command by its byte, as `load_of` of specs/Fates has it.)
#[derive(Clone, Copy)]
pub enum Fate {
    RepeatedLabel,
    Unreachable(usize),
    JumpToNext,
    LoadOverwritten,
    Folded(u8, u64),
    EventGone,
    Kept(Reason),
}

// Why no fate is told: a refusal of the site check; or there is nothing to tell (31), of a head or past the end.
#[derive(Clone, Copy)]
pub enum FateError {
    Refused(Refusal),
    NothingToTell,
}

impl From<Refusal> for FateError {
    ghost from_gives = { λ x e. e ≡ Refused x };

    fn from(x: Refusal) -> FateError {
        FateError::Refused(x)
    }
}

// Cells of the longest function, its head left out.
pub const MAX_CELLS: usize = MAX_INSTRUCTIONS + MAX_EVENTS;

// Of the cell at a position of the image, counted from 0, heads too. Any number is a position, and none is multiplied.
pub fn cell_fate(image: &[u8], cell: usize) -> Result<Fate, FateError>
    ensures { FateTold image.now cell result }
{
    image::site_check(image)?;
    find(image, cell)
}

// In the function that has the cell, if it is one of the image's.
fn find(image: &[u8], cell: usize) -> Result<Fate, FateError>
    requires { site_answer image.now ≡ Ok tt }
    ensures { result ≡ told_at (image_fates image.now) cell }
{
    let mut at = 0;
    for f in Functions::of(image) {
        if cell == at {
            return Err(FateError::NothingToTell);
        }
        let next = at + 1 + f.code.len() / CELL + f.events.len() / CELL;
        if cell < next {
            return Ok(fate_in(f.code, f.events, at + 1, cell - at - 1));
        }
        at = next;
    }
    Err(FateError::NothingToTell)
}

// Of the cell k of a function, its head left out; its first cell is the cell `first` of the image.
fn fate_in(code: &[u8], events: &[u8], first: usize, k: usize) -> Fate
    requires { FunctionParts code.now events.now first × (k < length code.now / 16 + length events.now / 16) }
    ensures { result ≡ get_or (function_fates first (cells code.now) (cells events.now)) k Fate.RepeatedLabel }
{
    let mut fates = [Fate::RepeatedLabel; MAX_CELLS];
    function_fates(code, events, first, &mut fates);
    fates[k]
}

// Of all cells of a function, its instruction cells and then its event cells, at the start of a list.
pub fn function_fates(code: &[u8], events: &[u8], first: usize, fates: &mut [Fate])
    requires function_parts { FunctionParts code.now events.now first }
    requires events_in_bounds { length code.now / 16 + length events.now / 16 ≤ length fates.old }
    ensures { fates.new ≡ over (function_fates first (cells code.now) (cells events.now)) fates.old }
{
    let a = code.len() / CELL;
    code_fates(code, first, fates);
    events::event_fates(code, events, &mut fates[a..]);
}

// Of the instruction cells: by the sweeps, then, of those that cleanup leaves, by the fold.
fn code_fates(code: &[u8], first: usize, fates: &mut [Fate])
    requires { CodePart code.now first × (length code.now / 16 ≤ length fates.old) }
    ensures { fates.new ≡ over (code_fates first (cells code.now)) fates.old }
{
    let mut list = [0u16; MAX_INSTRUCTIONS];
    let n = sweeps::mark_sweeps(code, &mut list, fates);
    sweeps::name_ends(code, first, fates);
    judge::judge(code, &list[..n], fates);
}
