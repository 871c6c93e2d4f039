// CrystalFold: the constant fold over instruction cells, in place. Heads and events among them are barriers, so that it may go over a whole image.
#![tactic(auto)]

ghost use Rattle.std.specs.Prelude.{◌≡◌, ◌/◌, ◌<◌, length};
ghost use Rattle.crystalfold.specs.Rules.{rules_of};
ghost use Rattle.crystalfold.specs.InPlace.{Foldable, Folded, Computed, Listed};

use cells::read::CELL;
use command::Command;
use known::Known;
use leaves::constant::ConstVal;
use rules::RuleSet;

pub mod arms;
pub mod command;
pub mod known;
pub mod load;
pub mod rules;

// Folds in place each command whose operands are known and that has a result; the answer is how many.
pub fn fold_constants_and_identities(instrs: &mut [u8], rules: RuleSet) -> usize
    requires { Foldable instrs.old }
    ensures { Folded rules instrs.old instrs.new result }
{
    let mut known = Known::nothing();
    let mut rewrites: usize = 0;
    for at in 0..instrs.len() / CELL {
        match command::decode_at(instrs, at) {
            Command::Barrier => known.clear(),
            Command::Load(dst, v) => known.note(dst, v),
            Command::Compute(op, dst, lhs, rhs) => {
                let v = fold_command(instrs, at, rules, op, dst, known.of(lhs), known.of(rhs));
                known.note(dst, v);
                rewrites += load::one_if(v);
            }
            Command::Forget(dst) => known.forget(dst),
            Command::Other => {}
        }
    }
    rewrites
}

// A computed command at the position `at`, by its verdict: the load of its value takes its place, or it stays. The answer is what is known of
// dst after it.
// (`dst < 65536` stands in four contracts: a type for it would be made in `decode`, and opened wherever the number is used.)
fn fold_command(
    instrs: &mut [u8],
    at: usize,
    rules: RuleSet,
    op: u8,
    dst: usize,
    left: ConstVal,
    right: ConstVal,
) -> ConstVal
    requires { (at < length instrs.old / 16) × (dst < 65536) }
    ensures { Computed (rules_of rules op) left right at dst instrs.old instrs.new result }
{
    let Ok(v) = arms::fold_value(rules, op, left, right) else {
        return ConstVal::Unknown;
    };
    load::put_load(instrs, at, dst, v);
    v
}

// Lists a register behind the first n. The answer is how many are listed; a full list stays as it is. The count stands beside the list, as the
// worked rows of `Listed` have it (specs/Cases, `lists_hold`).
pub fn list_register(list: &mut [usize], n: usize, register: usize) -> usize
    ensures { Listed n register list.old list.new result }
{
    if n < list.len() {
        list[n] = register;
        return n + 1;
    }
    n
}
