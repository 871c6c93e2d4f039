// Sites that stand twice: 11 and 21 among commands, 13 among events, where 12 comes before it. The outer loop goes over the sites, the inner one
// over the earlier ones where one of them is the same, and the first repeat leaves both, as document 01 names it.
ghost use Rattle.std.specs.Prelude.{◌≡◌, length};
ghost use Rattle.cells.specs.Cells.{cells};
ghost use Rattle.sites.specs.Numbered.{SitesListed, barred as «barred_of», repeated_on, fresh_answer};

use crate::{Which, list};
use cells::read;
use cells::refusal::Refusal;
use cells::walk::Part;

// 11 an activation site on two StoreVars, 21 a write site on two commands; of events 12 a Write event with an activation site, 13 a
// second Borrow event for one. The list has the part's sites; of these the first `met` stand on the cells before.
pub fn check_repeat(
    part: &[u8],
    p: Part,
    w: Which,
    sites: &[u32],
    position: usize,
) -> Result<(), Refusal>
    requires { SitesListed p w (cells part.now) sites.now }
    ensures { result ≡ fresh_answer p w position (cells part.now) }
{
    if sites.is_empty() {
        return Ok(());
    }
    let mut answer = Ok(());
    let mut met = 0;
    'sites: for cell in part.chunks_exact(read::CELL) {
        if let Some(x) = crate::cell_site(cell, p, w) {
            if barred(cell, p) {
                answer = Err(Refusal::ActivationSiteOnWrite(position, x as usize));
                break 'sites;
            }
            let end = list::search_end(&sites[..met], x);
            for &earlier in &sites[..end] {
                if earlier == x {
                    answer = Err(repeated(p, w, position, x as usize));
                    break 'sites;
                }
            }
            met += 1;
        }
    }
    answer
}

// Whether a cell may have no site: a Write event.
fn barred(cell: &[u8], p: Part) -> bool
    requires { length cell.now ≡ 16 }
    ensures { result ≡ barred_of p cell.now }
{
    match p {
        Part::Code => false,
        Part::Events => cell[0] == crate::WRITE,
    }
}

fn repeated(p: Part, w: Which, position: usize, x: usize) -> Refusal
    ensures { result ≡ repeated_on p w position x }
{
    match p {
        Part::Code => match w {
            Which::Activation => Refusal::ActivationSiteRepeated(position, x),
            Which::Write => Refusal::WriteSiteRepeated(position, x),
        },
        Part::Events => Refusal::ActivationSiteClaimedTwice(position, x),
    }
}
