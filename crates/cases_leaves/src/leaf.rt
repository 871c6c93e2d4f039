// A leaf by its number, at two operands, each given by its bits, a quad and a bool by their numbers.
ghost use Rattle.std.specs.Prelude.{◌≡◌, ◌%◌};
ghost use Rattle.cases_leaves.specs.Leaves.{u32_of, i32_of, quad_at, constant_of, of_verdict, reason_of, f64_bits, i32_bits, u32_bits, fx_bits, of_quad, of_number, of_bool, of_factor, f64_leaf, i32_leaf, u32_leaf, fx_leaf, quad_leaf, bool_leaf, equality_leaf, factor_leaf, answer_of};

use leaves::constant::{ConstVal, const_eq};
use leaves::quad::Quad;
use leaves::verdict::Decline;
use leaves::{fixed, float, quad, signed, unsigned};
use std::fmt;

// A value by its bits, or why there is none.
pub type Answer = Result<u64, NoValue>;

// There is none of a number that is no quad's, or where there is no factor; the two reasons of a number leaf; no leaf has the number.
#[derive(Clone, Copy, PartialEq, Eq)]
pub enum NoValue {
    Absent,
    DivisorZero,
    OutOfRange,
    NoLeaf,
}

// A number leaf has two reasons.
impl From<Decline> for NoValue {
    ghost from_gives = { λ decline reason. reason ≡ reason_of decline };

    fn from(decline: Decline) -> NoValue {
        match decline {
            Decline::DivisorZero => NoValue::DivisorZero,
            Decline::OutOfRange => NoValue::OutOfRange,
            _ => NoValue::NoLeaf,
        }
    }
}

impl fmt::Display for NoValue {
    fn fmt<W: fmt::Write>(&self, f: &mut fmt::Formatter<W>) -> fmt::Result {
        f.write_str(match self {
            NoValue::Absent => "none",
            NoValue::DivisorZero => "divisor zero",
            NoValue::OutOfRange => "out of range",
            NoValue::NoLeaf => "no leaf",
        })
    }
}

// The first digit of a leaf's number is its kind, the second the leaf. (The files' format: each number is turned into its call at one place, so an
// enum of the leaves would only be matched a second time.)
#[tactic(auto, unfolding(crate::specs::Leaves::answer_of, crate::specs::Leaves::pick))]
pub fn compute(leaf: u64, a: u64, b: u64) -> Answer
    ensures { result ≡ answer_of leaf a b }
{
    match leaf / 16 {
        1 => f64_leaf(leaf % 16, float::of_bits(a), float::of_bits(b)),
        2 => i32_leaf(leaf % 16, i32_of(a), i32_of(b)),
        3 => u32_leaf(leaf % 16, u32_of(a), u32_of(b)),
        4 => fx_leaf(leaf % 16, i32_of(a), i32_of(b)),
        5 => quad_leaf(leaf % 16, a, b),
        6 => bool_leaf(leaf % 16, a == 1, b == 1),
        7 => equality(leaf % 16, a, b),
        8 => factor_leaf(leaf % 16, i32_of(a), i32_of(b)),
        _ => Err(NoValue::NoLeaf),
    }
}

// 0 reads a value and writes it back; 4 is the Rust's division, 5 IEEE 754's.
// (The second digit is the file's format too, here and in the functions below.)
#[tactic(auto, unfolding(crate::specs::Leaves::pick))]
fn f64_leaf(leaf: u64, a: f64, b: f64) -> Answer
    ensures { result ≡ f64_leaf leaf a b }
{
    match leaf {
        0 => Ok(float::to_bits(a)),
        1 => of_f64(float::add_f64(a, b)),
        2 => of_f64(float::sub_f64(a, b)),
        3 => of_f64(float::mul_f64(a, b)),
        4 => of_f64(float::div_f64(a, b)),
        5 => of_f64(float::ieee_div_f64(a, b)),
        _ => Err(NoValue::NoLeaf),
    }
}

#[tactic(auto, unfolding(crate::specs::Leaves::pick))]
fn i32_leaf(leaf: u64, a: i32, b: i32) -> Answer
    ensures { result ≡ i32_leaf leaf a b }
{
    match leaf {
        1 => of_i32(signed::add_i32(a, b)),
        2 => of_i32(signed::sub_i32(a, b)),
        3 => of_i32(signed::mul_i32(a, b)),
        4 => of_i32(signed::div_i32(a, b)),
        5 => of_i32(signed::mod_i32(a, b)),
        6 => of_bool(a < b),
        7 => of_bool(a <= b),
        _ => Err(NoValue::NoLeaf),
    }
}

#[tactic(auto, unfolding(crate::specs::Leaves::pick))]
fn u32_leaf(leaf: u64, a: u32, b: u32) -> Answer
    ensures { result ≡ u32_leaf leaf a b }
{
    match leaf {
        1 => of_u32(unsigned::add_u32(a, b)),
        2 => of_u32(unsigned::sub_u32(a, b)),
        3 => of_u32(unsigned::mul_u32(a, b)),
        4 => of_u32(unsigned::div_u32(a, b)),
        5 => of_u32(unsigned::mod_u32(a, b)),
        6 => of_bool(a < b),
        7 => of_bool(a <= b),
        _ => Err(NoValue::NoLeaf),
    }
}

#[tactic(auto, unfolding(crate::specs::Leaves::pick))]
fn fx_leaf(leaf: u64, a: i32, b: i32) -> Answer
    ensures { result ≡ fx_leaf leaf a b }
{
    match leaf {
        1 => of_fx(fixed::add_fx(a, b)),
        2 => of_fx(fixed::sub_fx(a, b)),
        3 => of_fx(fixed::mul_fx(a, b)),
        4 => of_fx(fixed::div_fx(a, b)),
        _ => Err(NoValue::NoLeaf),
    }
}

// 0 reads a quad from a number. QNot and QTruthNot have one operand, the left.
#[tactic(auto, unfolding(crate::specs::Leaves::pick))]
fn quad_leaf(leaf: u64, a: u64, b: u64) -> Answer
    ensures { result ≡ quad_leaf leaf a b }
{
    match leaf {
        0 => of_number(Quad::try_from(u8_of(a)).ok()),
        1 => of_quad(quad::qand(quad_of(a), quad_of(b))),
        2 => of_quad(quad::qor(quad_of(a), quad_of(b))),
        3 => of_quad(quad::qimpl(quad_of(a), quad_of(b))),
        4 => of_quad(quad::qnot(quad_of(a))),
        5 => of_quad(quad::qtruth_and(quad_of(a), quad_of(b))),
        6 => of_quad(quad::qtruth_or(quad_of(a), quad_of(b))),
        7 => of_quad(quad::qtruth_impl(quad_of(a), quad_of(b))),
        8 => of_quad(quad::qtruth_not(quad_of(a))),
        _ => Err(NoValue::NoLeaf),
    }
}

// BoolNot has one operand, the left.
#[tactic(auto, unfolding(crate::specs::Leaves::pick))]
fn bool_leaf(leaf: u64, a: bool, b: bool) -> Answer
    ensures { result ≡ bool_leaf leaf a b }
{
    match leaf {
        1 => of_bool(a & b),
        2 => of_bool(a | b),
        3 => of_bool(!a),
        _ => Err(NoValue::NoLeaf),
    }
}

// const_eq of two constants of one kind, which the leaf numbers; or, as 0, of the zeros of two kinds.
fn equality(kind: u64, a: u64, b: u64) -> Answer
    ensures { result ≡ equality_leaf kind a b }
{
    if kind == 0 {
        return of_bool(const_eq(constant(a, 0), constant(b, 0)));
    }
    if 6 < kind {
        return Err(NoValue::NoLeaf);
    }
    of_bool(const_eq(constant(kind, a), constant(kind, b)))
}

// The other factor of a wanted value, the left operand, and a factor, the right one: 1 of a MulFx, 2 of a MulI32.
#[tactic(auto, unfolding(crate::specs::Leaves::pick))]
fn factor_leaf(leaf: u64, wanted: i32, given: i32) -> Answer
    ensures { result ≡ factor_leaf leaf wanted given }
{
    match leaf {
        1 => of_factor(factor::factor_fx(wanted, given)),
        2 => of_factor(factor::factor_i32(wanted, given)),
        _ => Err(NoValue::NoLeaf),
    }
}

// ---- operands, cut to their type: `u8::try_from` and `u32::try_from` would refuse a greater number

fn u8_of(n: u64) -> u8
    ensures { result ≡ n % 256 }
{
    (n % 256) as u8
}

fn u32_of(n: u64) -> u32
    ensures { result ≡ u32_of n }
{
    (n % 4294967296) as u32
}

#[tactic(auto, unfolding(crate::specs::Leaves::i32_of))]
fn i32_of(n: u64) -> i32
    ensures { result ≡ i32_of n }
{
    u32_of(n).cast_signed()
}

// N where the number is no quad's.
#[tactic(auto, unfolding(crate::specs::Leaves::quad_at))]
fn quad_of(n: u64) -> Quad
    ensures { result ≡ quad_at n }
{
    Quad::try_from(u8_of(n)).unwrap_or(Quad::N)
}

// The constant of a kind, numbered as ConstVal's cases are.
// (The kind is a leaf's second digit, the file's format.)
#[tactic(auto, unfolding(crate::specs::Leaves::constant_of))]
fn constant(kind: u64, bits: u64) -> ConstVal
    ensures { result ≡ constant_of kind bits }
{
    match kind {
        1 => ConstVal::Quad(quad_of(bits)),
        2 => ConstVal::Bool(bits == 1),
        3 => ConstVal::F64(float::of_bits(bits)),
        4 => ConstVal::I32(i32_of(bits)),
        5 => ConstVal::U32(u32_of(bits)),
        6 => ConstVal::Fx(i32_of(bits)),
        _ => ConstVal::Unknown,
    }
}

// ---- answers; a value of another kind is no leaf's, so each kind has its own function: one over all kinds would take them all

fn of_f64(v: Result<ConstVal, Decline>) -> Answer
    ensures { result ≡ of_verdict f64_bits v }
{
    match v? {
        ConstVal::F64(a) => Ok(float::to_bits(a)),
        _ => Err(NoValue::NoLeaf),
    }
}

fn of_i32(v: Result<ConstVal, Decline>) -> Answer
    ensures { result ≡ of_verdict i32_bits v }
{
    match v? {
        ConstVal::I32(a) => Ok(u64::from(a.cast_unsigned())),
        _ => Err(NoValue::NoLeaf),
    }
}

fn of_u32(v: Result<ConstVal, Decline>) -> Answer
    ensures { result ≡ of_verdict u32_bits v }
{
    match v? {
        ConstVal::U32(a) => Ok(u64::from(a)),
        _ => Err(NoValue::NoLeaf),
    }
}

fn of_fx(v: Result<ConstVal, Decline>) -> Answer
    ensures { result ≡ of_verdict fx_bits v }
{
    match v? {
        ConstVal::Fx(a) => Ok(u64::from(a.cast_unsigned())),
        _ => Err(NoValue::NoLeaf),
    }
}

fn of_number(r: Option<Quad>) -> Answer
    ensures { result ≡ of_number r }
{
    match r {
        Some(q) => of_quad(q),
        None => Err(NoValue::Absent),
    }
}

fn of_quad(q: Quad) -> Answer
    ensures { result ≡ of_quad q }
{
    Ok(u64::from(u8::from(q)))
}

fn of_factor(f: Option<i32>) -> Answer
    ensures { result ≡ of_factor f }
{
    match f {
        Some(x) => Ok(u64::from(x.cast_unsigned())),
        None => Err(NoValue::Absent),
    }
}

fn of_bool(b: bool) -> Answer
    ensures { result ≡ of_bool b }
{
    Ok(u64::from(b))
}
