// The two validators of one function's sites: `validate_activation_sites` and `validate_write_sites`.
#![tactic(auto)]

pub mod list;
pub mod repeats;
pub mod rules;

ghost use Rattle.std.specs.Prelude.{◌≡◌, [], ◌+◌, ◌*◌, ◌/◌, ◌≤◌, length, get_or};
ghost use Rattle.cells.specs.Cells.{cells};
ghost use Rattle.cells.specs.Check.{max_instructions, max_events};
ghost use Rattle.sites.specs.Sites.{site_at, site_of, event_site, site_by};
ghost use Rattle.sites.specs.Numbered.{Lent, SitesListed, list_over, ListsAfter, events_answer, claimed_rule, known_rule, validate_sites};
ghost use Rattle.sites.specs.Validators.{validate_activation_sites, validate_write_sites, site_check};

use cells::check::{MAX_EVENTS, MAX_INSTRUCTIONS};
use cells::read;
use cells::refusal::Refusal;
use cells::walk::Part;

// Which of the two sites.
#[derive(Clone, Copy)]
pub enum Which {
    Activation,
    Write,
}

// What each cell of a part is judged by: 14 of the commands, 14 of the events, 22 and 23, 24 and 25, 26.
#[derive(Clone, Copy)]
pub enum Rule {
    StoreVarClaimed,
    BorrowKnown,
    EventKind,
    WriteClaimed,
    WriteKnown,
}

// The commands that have sites, and the kind of a Write event.
pub const STORE_VAR: u8 = 0x4d;

pub const MAKE_RECORD: u8 = 0x32;

pub const WRITE: u8 = 1;

// Up to how many cells a function's lists are short ones.
pub const FEW: usize = 128;

// Every StoreVar's activation site is its own and has exactly one Borrow event, and no other event has one. The two lists are for the sites
// on the commands and on the events.
pub fn validate_activation_sites(
    code: &[u8],
    events: &[u8],
    position: usize,
    sites: &mut [u32],
    claims: &mut [u32],
) -> Result<(), Refusal>
    requires { Lent code.now events.now sites.old claims.old }
    ensures value { result ≡ validate_activation_sites position (cells code.now) (cells events.now) }
    ensures sites_after { (sites.new ≡ list_over Part.Code Which.Activation code.now sites.old) × (claims.new ≡ list_over Part.Events Which.Activation events.now claims.old) }
{
    validate(code, events, Which::Activation, position, sites, claims)
}

// Every command's write site is its own and has a Write event, a StoreVar's exactly one; and every Write event has such a site.
pub fn validate_write_sites(
    code: &[u8],
    events: &[u8],
    position: usize,
    sites: &mut [u32],
    claims: &mut [u32],
) -> Result<(), Refusal>
    requires { Lent code.now events.now sites.old claims.old }
    ensures value { result ≡ validate_write_sites position (cells code.now) (cells events.now) }
    ensures sites_after { (sites.new ≡ list_over Part.Code Which.Write code.now sites.old) × (claims.new ≡ list_over Part.Events Which.Write events.now claims.old) }
{
    validate(code, events, Which::Write, position, sites, claims)
}

// Either of the two. (The documents name each; both keep a function's two parts, its position and the lists lent.)
fn validate(
    code: &[u8],
    events: &[u8],
    w: Which,
    position: usize,
    sites: &mut [u32],
    claims: &mut [u32],
) -> Result<(), Refusal>
    requires { Lent code.now events.now sites.old claims.old }
    ensures value { result ≡ validate_sites w position (cells code.now) (cells events.now) }
    ensures sites_after { (sites.new ≡ list_over Part.Code w code.now sites.old) × (claims.new ≡ list_over Part.Events w events.now claims.old) }
{
    let k = list::collect(code, Part::Code, w, sites);
    let m = list::collect(events, Part::Events, w, claims);
    check_listed(code, &sites[..k], events, &claims[..m], w, position)
}

// By the sites on the commands and on the events.
fn check_listed(
    code: &[u8],
    sites: &[u32],
    events: &[u8],
    claims: &[u32],
    w: Which,
    position: usize,
) -> Result<(), Refusal>
    requires { SitesListed Part.Code w (cells code.now) sites.now × SitesListed Part.Events w (cells events.now) claims.now }
    ensures { result ≡ validate_sites w position (cells code.now) (cells events.now) }
{
    repeats::check_repeat(code, Part::Code, w, sites, position)?;
    check_events(events, claims, w, position)?;
    if sites.is_empty() && claims.is_empty() {
        return Ok(());
    }
    rules::check_rule(code, claims, claimed_rule(w), position)?;
    rules::check_rule(events, sites, known_rule(w), position)
}

// The events by themselves: 12 and 13, or 22 and 23.
fn check_events(events: &[u8], claims: &[u32], w: Which, position: usize) -> Result<(), Refusal>
    requires { SitesListed Part.Events w (cells events.now) claims.now }
    ensures { result ≡ events_answer w position (cells events.now) }
{
    match w {
        Which::Activation => repeats::check_repeat(events, Part::Events, w, claims, position),
        Which::Write => rules::check_rule(events, claims, Rule::EventKind, position),
    }
}

// What the commands are judged by, and the events.
fn claimed_rule(w: Which) -> Rule
    ensures { result ≡ claimed_rule w }
{
    match w {
        Which::Activation => Rule::StoreVarClaimed,
        Which::Write => Rule::WriteClaimed,
    }
}

fn known_rule(w: Which) -> Rule
    ensures { result ≡ known_rule w }
{
    match w {
        Which::Activation => Rule::BorrowKnown,
        Which::Write => Rule::WriteKnown,
    }
}

// Both validators; a function with no cells passes.
pub fn check_sites(code: &[u8], events: &[u8], position: usize) -> Result<(), Refusal>
    requires { (length code.now / 16 ≤ max_instructions) × (length events.now / 16 ≤ max_events) }
    ensures { result ≡ site_check position (cells code.now) (cells events.now) }
{
    if code.len() < read::CELL && events.len() < read::CELL {
        return Ok(());
    }
    if code.len() / read::CELL <= FEW && events.len() / read::CELL <= FEW {
        return check_by(code, events, position, &mut [0; FEW], &mut [0; FEW]);
    }
    check_by(
        code,
        events,
        position,
        &mut [0; MAX_INSTRUCTIONS],
        &mut [0; MAX_EVENTS],
    )
}

// With two lists for the sites.
fn check_by(
    code: &[u8],
    events: &[u8],
    position: usize,
    sites: &mut [u32],
    claims: &mut [u32],
) -> Result<(), Refusal>
    requires { Lent code.now events.now sites.old claims.old }
    ensures value { result ≡ site_check position (cells code.now) (cells events.now) }
    ensures lists_after { ListsAfter position code.now events.now sites.old claims.old sites.new claims.new }
{
    validate_activation_sites(code, events, position, sites, claims)?;
    validate_write_sites(code, events, position, sites, claims)
}

// The site at an offset, where its presence byte stands.
pub fn site_at(c: &[u8], at: usize) -> Option<u32>
    requires { at + 5 ≤ length c.now }
    ensures { result ≡ site_at c.now at }
{
    if c[at] == 1 {
        Some(read::word(c, at + 1) as u32)
    } else {
        None
    }
}

// A command's site.
#[tactic(auto, unfolding(crate::specs::Sites::site_of))]
pub fn site_of(c: &[u8], w: Which) -> Option<u32>
    requires { length c.now ≡ 16 }
    ensures { result ≡ site_of w c.now }
{
    let command = c[0];
    match w {
        Which::Activation => {
            if command == STORE_VAR {
                site_at(c, 5)
            } else {
                None
            }
        }
        Which::Write => {
            if command == STORE_VAR {
                site_at(c, 10)
            } else if command == MAKE_RECORD {
                site_at(c, 7)
            } else {
                None
            }
        }
    }
}

// An event's site.
#[tactic(auto, unfolding(crate::specs::Sites::event_site))]
pub fn event_site(c: &[u8], w: Which) -> Option<u32>
    requires { length c.now ≡ 16 }
    ensures { result ≡ event_site w c.now }
{
    match w {
        Which::Activation => site_at(c, 1),
        Which::Write => site_at(c, 6),
    }
}

// A cell's site, by the part that it is in.
#[tactic(auto, unfolding(crate::specs::Sites::site_by))]
pub fn cell_site(c: &[u8], p: Part, w: Which) -> Option<u32>
    requires { length c.now ≡ 16 }
    ensures { result ≡ site_by p w c.now }
{
    match p {
        Part::Code => site_of(c, w),
        Part::Events => event_site(c, w),
    }
}

// The site of the cell at a position of a part.
pub fn site_by(s: &[u8], p: Part, w: Which, i: usize) -> Option<u32>
    requires { 16 * i + 16 ≤ length s.now }
    ensures { result ≡ site_by p w (get_or (cells s.now) i []) }
{
    let at = read::CELL * i;
    cell_site(&s[at..at + read::CELL], p, w)
}
