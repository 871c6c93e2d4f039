// What the default fold makes of the cells that cleanup leaves: the fold's own walk, by its verdicts, over positions.
ghost use Rattle.std.specs.Prelude.{◌≡◌, ◌≤◌, length};
ghost use Rattle.cleanup.specs.Positions.{see_at};
ghost use Rattle.crystalfold.specs.Fold.{unknown};
ghost use Rattle.fates.specs.Steps.{Judgeable, fold_fates, placed, VerdictTold, ValueTold};

use crate::{Fate, Reason};
use crystalfold::command::Command;
use crystalfold::known::Known;
use crystalfold::rules::RuleSet;
use crystalfold::{arms, command};
use leaves::constant::ConstVal;
use leaves::float;
use leaves::verdict::Decline;

// Gives the cells at the positions of a list the fates of their verdicts. A barrier writes only the entries that were written since the last one,
// so that the whole takes time by the number of cells.
// (The walk of `crystalfold::fold_constants_and_identities` again: that one writes into the cells that it reads, this one into another list.
// One walk for both would be handed what to do with each verdict, and the buffers with it.)
pub fn judge(code: &[u8], list: &[u16], fates: &mut [Fate])
    requires { Judgeable code.now list.now fates.old }
    ensures { fates.new ≡ placed list.now (fold_fates (see_at code.now) unknown list.now) fates.old }
{
    let mut known = Known::nothing();
    for at in list {
        let p = usize::from(*at);
        fates[p] = Fate::Kept(Reason::Nothing);
        match command::decode_at(code, p) {
            Command::Barrier => known.clear(),
            Command::Load(dst, v) => known.note(dst, v),
            Command::Compute(op, dst, lhs, rhs) => {
                let v = arms::fold_value(RuleSet::Default, op, known.of(lhs), known.of(rhs));
                fates[p] = of_verdict(v);
                known.note(dst, v.unwrap_or(ConstVal::Unknown));
            }
            Command::Forget(dst) => known.forget(dst),
            Command::Other => {}
        }
    }
}

// Of a command that cleanup leaves, by its verdict.
pub fn of_verdict(v: Result<ConstVal, Decline>) -> Fate
    ensures { VerdictTold v result }
{
    match v {
        Ok(x) => of_value(x),
        Err(x) => Fate::Kept(Reason::from(x)),
    }
}

// Folded to a value: the load's command, and the bits. Read back, they give the value.
// (The bytes of the commands are those of `load_of` of specs/Fates.)
fn of_value(v: ConstVal) -> Fate
    ensures { ValueTold v result }
{
    match v {
        ConstVal::Unknown => Fate::Kept(Reason::Nothing),
        ConstVal::Quad(q) => Fate::Folded(0x2C, u64::from(u8::from(q))),
        ConstVal::Bool(b) => Fate::Folded(0x28, u64::from(b)),
        ConstVal::F64(x) => Fate::Folded(0x29, float::to_bits(x)),
        ConstVal::I32(a) => Fate::Folded(0x2B, u64::from(a.cast_unsigned())),
        ConstVal::U32(a) => Fate::Folded(0x2E, u64::from(a)),
        ConstVal::Fx(a) => Fate::Folded(0x2A, u64::from(a.cast_unsigned())),
    }
}
