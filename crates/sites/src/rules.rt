// 14 and 22 to 26: each cell of a part by itself, with the sites on the cells of the other part.
ghost use Rattle.std.specs.Prelude.{◌≡◌, ◌≤◌, length};
ghost use Rattle.cells.specs.Check.{max_instructions};
ghost use Rattle.cells.specs.Cells.{cells};
ghost use Rattle.sites.specs.Numbered.{count_in};
ghost use Rattle.sites.specs.Validators.{unmatched as «unmatched_of», judge_met, judge_kind, judge_claim, judge_by, rule_answer};

use crate::{Rule, Which, list};
use cells::read;
use cells::refusal::Refusal;
use cells::walk::Part;

// The first cell of a part that a rule refuses, by the sites on the other part's cells.
pub fn check_rule(part: &[u8], sites: &[u32], rule: Rule, position: usize) -> Result<(), Refusal>
    requires { length sites.now ≤ max_instructions }
    ensures { result ≡ rule_answer rule position (count_in sites.now) (cells part.now) }
{
    for cell in part.chunks_exact(read::CELL) {
        judge(cell, sites, rule, position)?;
    }
    Ok(())
}

// A cell by a rule. (An enum and no closure: the definitions of the validators name the rules.)
#[tactic(auto, unfolding(crate::specs::Validators::judge_by))]
fn judge(cell: &[u8], sites: &[u32], rule: Rule, position: usize) -> Result<(), Refusal>
    requires { (length cell.now ≡ 16) × (length sites.now ≤ max_instructions) }
    ensures { result ≡ judge_by rule position (count_in sites.now) cell.now }
{
    match rule {
        Rule::StoreVarClaimed => judge_met(
            sites,
            Which::Activation,
            crate::cell_site(cell, Part::Code, Which::Activation),
            position,
        ),
        Rule::BorrowKnown => judge_met(
            sites,
            Which::Activation,
            crate::cell_site(cell, Part::Events, Which::Activation),
            position,
        ),
        Rule::EventKind => judge_kind(
            cell[0] == crate::WRITE,
            crate::cell_site(cell, Part::Events, Which::Write),
            position,
        ),
        Rule::WriteClaimed => judge_claim(
            sites,
            cell[0] == crate::STORE_VAR,
            crate::cell_site(cell, Part::Code, Which::Write),
            position,
        ),
        Rule::WriteKnown => judge_met(
            sites,
            Which::Write,
            crate::cell_site(cell, Part::Events, Which::Write),
            position,
        ),
    }
}

// 14 and 26: a site that stands on no cell of the other part.
fn judge_met(sites: &[u32], w: Which, s: Option<u32>, position: usize) -> Result<(), Refusal>
    requires { length sites.now ≤ max_instructions }
    ensures { result ≡ judge_met w position (count_in sites.now) s }
{
    let Some(x) = s else {
        return Ok(());
    };
    if list::count(sites, x) == 0 {
        return Err(unmatched(w, position, x as usize));
    }
    Ok(())
}

fn unmatched(w: Which, position: usize, x: usize) -> Refusal
    ensures { result ≡ unmatched_of w position x }
{
    match w {
        Which::Activation => Refusal::ActivationSitesDiffer(position),
        Which::Write => Refusal::WriteSiteUnknown(position, x),
    }
}

// 22 a Borrow event with a write site, 23 a Write event without.
fn judge_kind(write: bool, s: Option<u32>, position: usize) -> Result<(), Refusal>
    ensures { result ≡ judge_kind position write s }
{
    match (write, s) {
        (false, Some(x)) => Err(Refusal::WriteSiteOnBorrow(position, x as usize)),
        (true, None) => Err(Refusal::WriteWithoutSite(position)),
        _ => Ok(()),
    }
}

// 24 a command's write site with no event, 25 a StoreVar's with more than one.
fn judge_claim(sites: &[u32], store: bool, s: Option<u32>, position: usize) -> Result<(), Refusal>
    requires { length sites.now ≤ max_instructions }
    ensures { result ≡ judge_claim position (count_in sites.now) store s }
{
    let Some(x) = s else {
        return Ok(());
    };
    let claims = list::count(sites, x);
    if claims == 0 {
        return Err(Refusal::WriteSiteUnclaimed(position, x as usize));
    }
    if !store {
        return Ok(());
    }
    if 1 < claims {
        return Err(Refusal::StoreVarSiteClaimedTwice(position, x as usize));
    }
    Ok(())
}
