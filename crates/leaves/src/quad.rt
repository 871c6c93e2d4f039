// Quad leaves. A quad is what has been told: nothing (N), false (F), true (T) or both (S).
ghost use Rattle.std.specs.Prelude.{◌≡◌, ok_or};
ghost use Rattle.leaves.specs.Quads.{told_false, told_true, of_told, q_and, q_or, q_not, q_impl, q_truth_and, q_truth_or, q_truth_not, q_truth_impl, quad_of, number_of};

#[derive(Clone, Copy, PartialEq, Eq)]
pub enum Quad {
    N,
    F,
    T,
    S,
}

// In the approximation order less told is below: what both, or either, have been told.
pub fn qand(a: Quad, b: Quad) -> Quad
    ensures { result ≡ q_and a b }
{
    of_told(told_false(a) & told_false(b), told_true(a) & told_true(b))
}

pub fn qor(a: Quad, b: Quad) -> Quad
    ensures { result ≡ q_or a b }
{
    of_told(told_false(a) | told_false(b), told_true(a) | told_true(b))
}

pub fn qnot(a: Quad) -> Quad
    ensures { result ≡ q_not a }
{
    of_told(told_true(a), told_false(a))
}

pub fn qimpl(a: Quad, b: Quad) -> Quad
    ensures { result ≡ q_impl a b }
{
    qor(qnot(a), b)
}

// In the truth order more told true, and less told false, is above.
pub fn qtruth_and(a: Quad, b: Quad) -> Quad
    ensures { result ≡ q_truth_and a b }
{
    of_told(told_false(a) | told_false(b), told_true(a) & told_true(b))
}

pub fn qtruth_or(a: Quad, b: Quad) -> Quad
    ensures { result ≡ q_truth_or a b }
{
    of_told(told_false(a) & told_false(b), told_true(a) | told_true(b))
}

pub fn qtruth_not(a: Quad) -> Quad
    ensures { result ≡ q_truth_not a }
{
    qnot(a)
}

pub fn qtruth_impl(a: Quad, b: Quad) -> Quad
    ensures { result ≡ q_truth_impl a b }
{
    qtruth_or(qtruth_not(a), b)
}

// A number that no quad has.
#[derive(Clone, Copy, PartialEq, Eq)]
pub struct NoQuad(pub u8);

// The quad of a number: N 0, F 1, T 2, S 3; no other number has one.
impl TryFrom<u8> for Quad {
    type Error = NoQuad;

    ghost try_from_gives = { λ n r. r ≡ ok_or (quad_of n) (record { 0 = n }) };

    fn try_from(n: u8) -> Result<Quad, NoQuad> {
        match n {
            0 => Ok(Quad::N),
            1 => Ok(Quad::F),
            2 => Ok(Quad::T),
            3 => Ok(Quad::S),
            _ => Err(NoQuad(n)),
        }
    }
}

impl From<Quad> for u8 {
    ghost from_gives = { λ q n. n ≡ number_of q };

    fn from(q: Quad) -> u8 {
        match q {
            Quad::N => 0,
            Quad::F => 1,
            Quad::T => 2,
            Quad::S => 3,
        }
    }
}

fn told_false(q: Quad) -> bool
    ensures { result ≡ told_false q }
{
    matches!(q, Quad::F | Quad::S)
}

fn told_true(q: Quad) -> bool
    ensures { result ≡ told_true q }
{
    matches!(q, Quad::T | Quad::S)
}

fn of_told(f: bool, t: bool) -> Quad
    ensures { result ≡ of_told f t }
{
    match (f, t) {
        (false, false) => Quad::N,
        (true, false) => Quad::F,
        (false, true) => Quad::T,
        (true, true) => Quad::S,
    }
}
