// Refusals: the port of `OptError`, one case for each reason.
ghost use Rattle.std.specs.Prelude.{◌≡◌};
ghost use Rattle.cells.specs.Refusals.{numbered as «numbered_of», numbers_of};

// Fields: the function's position from 0; then, where there is one, the cell's position in the image, or the site.
#[derive(Clone, Copy)]
pub enum Refusal {
    Length,
    Head(usize, usize),
    UnknownCommand(usize, usize),
    Operand(usize, usize),
    OutputTooShort,
    ActivationSiteRepeated(usize, usize),
    ActivationSiteOnWrite(usize, usize),
    ActivationSiteClaimedTwice(usize, usize),
    ActivationSitesDiffer(usize),
    WriteSiteRepeated(usize, usize),
    WriteSiteOnBorrow(usize, usize),
    WriteWithoutSite(usize),
    WriteSiteUnclaimed(usize, usize),
    StoreVarSiteClaimedTwice(usize, usize),
    WriteSiteUnknown(usize, usize),
}

// A refusal as document 01 numbers it.
#[derive(Clone, Copy)]
pub struct Numbers {
    pub number: usize,
    pub position: usize,
    pub detail: usize,
}

fn numbered(number: usize, position: usize, detail: usize) -> Numbers
    ensures { result ≡ numbered_of number position detail }
{
    Numbers {
        number,
        position,
        detail,
    }
}

// What document 01 says of each.
impl From<Refusal> for Numbers {
    ghost from_gives = { λ r n. n ≡ numbers_of r };

    fn from(r: Refusal) -> Numbers {
        match r {
            Refusal::Length => numbered(1, 0, 0),
            Refusal::Head(p, d) => numbered(2, p, d),
            Refusal::UnknownCommand(p, d) => numbered(3, p, d),
            Refusal::Operand(p, d) => numbered(4, p, d),
            Refusal::OutputTooShort => numbered(5, 0, 0),
            Refusal::ActivationSiteRepeated(p, d) => numbered(11, p, d),
            Refusal::ActivationSiteOnWrite(p, d) => numbered(12, p, d),
            Refusal::ActivationSiteClaimedTwice(p, d) => numbered(13, p, d),
            Refusal::ActivationSitesDiffer(p) => numbered(14, p, 0),
            Refusal::WriteSiteRepeated(p, d) => numbered(21, p, d),
            Refusal::WriteSiteOnBorrow(p, d) => numbered(22, p, d),
            Refusal::WriteWithoutSite(p) => numbered(23, p, 0),
            Refusal::WriteSiteUnclaimed(p, d) => numbered(24, p, d),
            Refusal::StoreVarSiteClaimedTwice(p, d) => numbered(25, p, d),
            Refusal::WriteSiteUnknown(p, d) => numbered(26, p, d),
        }
    }
}
