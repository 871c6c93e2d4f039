// The whole rewrite, repeated until it rests (document 02, W11): until one round reports 0.
#![tactic(auto)]

ghost use Rattle.crystalfold.specs.declared.rules.RuleSet.TheVariants.{Default};
ghost use Rattle.rest.specs.Promises.{RestDone};

use cells::check::MAX_IMAGE;
use cells::read::CELL;
use cells::refusal::Refusal;
use crystalfold::rules::RuleSet;
use passes::{OptReport, Pass, Written};

// Rounds of the default rewrite. Whatever the image, the second leaves nothing to do, so that two rounds are made: the first into memory of its
// own, since it may be longer than the second, and what lies behind that in the output stays as it was lent.
pub fn rewrite_until_rest(image: &[u8], out: &mut [u8]) -> Result<Written, Refusal>
    ensures { RestDone Default image.now out.old out.new result }
{
    passes::check(image, out.len())?;
    let mut work = [0; MAX_IMAGE];
    let whole = Pass::Both(RuleSet::Default);
    let first = passes::rewrite_functions(whole, image, &mut work);
    let second = passes::rewrite_functions(whole, &work[..CELL * first.cells], out);
    Ok(Written {
        length: CELL * second.cells,
        report: OptReport::new(first.rewrites + second.rewrites),
    })
}
