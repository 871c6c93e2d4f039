// What a computed command comes to at two operands, by the rules of the fold.
ghost use Rattle.std.specs.Prelude.{◌≡◌};
ghost use Rattle.leaves.specs.Verdicts.{if_known};
ghost use Rattle.machine.specs.Evaluate.{two_f64, two_fx, two_i32, two_u32, two_bool, two_quad, evaluate};
ghost use Rattle.crystalfold.specs.Rules.{rules_of};
ghost use Rattle.crystalfold.specs.Arms.{only_fuller, leaf_of, division_of, f64_leaves, fx_leaves, i32_leaves, u32_leaves, bool_leaves, quad_leaves, equality_leaves};

use crate::rules::RuleSet;
use leaves::constant::ConstVal;
use leaves::verdict::Decline;
use leaves::{constant, fixed, float, quad, signed, unsigned, verdict};

// The commands by their operands' kinds: an arm each, so that its call knows the command.
// (A function for each kind: it opens that variant by `let .. else`, which document 01 asks of an arm; one for all kinds would need a trait for it.)
pub fn fold_value(
    rules: RuleSet,
    op: u8,
    left: ConstVal,
    right: ConstVal,
) -> Result<ConstVal, Decline>
    ensures { result ≡ evaluate (rules_of rules op) left right }
{
    match op {
        0x11 => fold_f64(rules, op, left, right),
        0x25 => fold_f64(rules, op, left, right),
        0x3A => fold_f64(rules, op, left, right),
        0x4E => fold_f64(rules, op, left, right),
        0x12 => fold_fx(op, left, right),
        0x26 => fold_fx(op, left, right),
        0x3B => fold_fx(op, left, right),
        0x4F => fold_fx(op, left, right),
        0x13 => fold_i32(op, left, right),
        0x1A => fold_i32(op, left, right),
        0x1B => fold_i32(op, left, right),
        0x27 => fold_i32(op, left, right),
        0x39 => fold_i32(op, left, right),
        0x3C => fold_i32(op, left, right),
        0x50 => fold_i32(op, left, right),
        0x1C => fold_u32(op, left, right),
        0x1D => fold_u32(op, left, right),
        0x1E => fold_u32(op, left, right),
        0x1F => fold_u32(op, left, right),
        0x20 => fold_u32(op, left, right),
        0x21 => fold_u32(op, left, right),
        0x22 => fold_u32(op, left, right),
        0x16 => fold_bool(op, left, right),
        0x17 => fold_bool(op, left, right),
        0x18 => fold_bool(op, left, right),
        0x3D => fold_quad(op, left, right),
        0x3E => fold_quad(op, left, right),
        0x3F => fold_quad(op, left, right),
        0x40 => fold_quad(op, left, right),
        0x19 => fold_equality(op, left, right),
        0x23 => fold_equality(op, left, right),
        0x41 => fold_truth(rules, op, left, right),
        0x42 => fold_truth(rules, op, left, right),
        0x43 => fold_truth(rules, op, left, right),
        0x44 => fold_truth(rules, op, left, right),
        _ => Err(Decline::NotComputed),
    }
}

// The truth-order quads, which only the fuller rules fold.
fn fold_truth(rules: RuleSet, op: u8, left: ConstVal, right: ConstVal) -> Result<ConstVal, Decline>
    ensures { result ≡ only_fuller rules (evaluate (Some (two_quad (leaf_of op quad_leaves))) left right) }
{
    match rules {
        RuleSet::Default => Err(Decline::NotComputed),
        RuleSet::Fuller => fold_quad(op, left, right),
    }
}

// AddF64, DivF64, MulF64, SubF64
fn fold_f64(rules: RuleSet, op: u8, left: ConstVal, right: ConstVal) -> Result<ConstVal, Decline>
    ensures { result ≡ evaluate (Some (two_f64 (leaf_of op (f64_leaves rules)))) left right }
{
    let (ConstVal::F64(a), ConstVal::F64(b)) = (left, right) else {
        return verdict::declined(left, right);
    };
    match op {
        0x11 => float::add_f64(a, b),
        0x25 => div_f64_by(rules, a, b),
        0x3A => float::mul_f64(a, b),
        0x4E => float::sub_f64(a, b),
        _ => Err(Decline::NotComputed),
    }
}

// DivF64: by zero only the fuller rules fold it.
fn div_f64_by(rules: RuleSet, a: f64, b: f64) -> Result<ConstVal, Decline>
    ensures { result ≡ division_of rules a b }
{
    match rules {
        RuleSet::Default => float::div_f64(a, b),
        RuleSet::Fuller => float::ieee_div_f64(a, b),
    }
}

// AddFx, DivFx, MulFx, SubFx
fn fold_fx(op: u8, left: ConstVal, right: ConstVal) -> Result<ConstVal, Decline>
    ensures { result ≡ evaluate (Some (two_fx (leaf_of op fx_leaves))) left right }
{
    let (ConstVal::Fx(a), ConstVal::Fx(b)) = (left, right) else {
        return verdict::declined(left, right);
    };
    match op {
        0x12 => fixed::add_fx(a, b),
        0x26 => fixed::div_fx(a, b),
        0x3B => fixed::mul_fx(a, b),
        0x4F => fixed::sub_fx(a, b),
        _ => Err(Decline::NotComputed),
    }
}

// AddI32, CmpI32Le, CmpI32Lt, DivI32, ModI32, MulI32, SubI32
fn fold_i32(op: u8, left: ConstVal, right: ConstVal) -> Result<ConstVal, Decline>
    ensures { result ≡ evaluate (Some (two_i32 (leaf_of op i32_leaves))) left right }
{
    let (ConstVal::I32(a), ConstVal::I32(b)) = (left, right) else {
        return verdict::declined(left, right);
    };
    match op {
        0x13 => signed::add_i32(a, b),
        0x1A => Ok(ConstVal::Bool(a <= b)),
        0x1B => Ok(ConstVal::Bool(a < b)),
        0x27 => signed::div_i32(a, b),
        0x39 => signed::mod_i32(a, b),
        0x3C => signed::mul_i32(a, b),
        0x50 => signed::sub_i32(a, b),
        _ => Err(Decline::NotComputed),
    }
}

// CmpU32Le, CmpU32Lt, AddU32, SubU32, MulU32, DivU32, ModU32
fn fold_u32(op: u8, left: ConstVal, right: ConstVal) -> Result<ConstVal, Decline>
    ensures { result ≡ evaluate (Some (two_u32 (leaf_of op u32_leaves))) left right }
{
    let (ConstVal::U32(a), ConstVal::U32(b)) = (left, right) else {
        return verdict::declined(left, right);
    };
    match op {
        0x1C => Ok(ConstVal::Bool(a <= b)),
        0x1D => Ok(ConstVal::Bool(a < b)),
        0x1E => unsigned::add_u32(a, b),
        0x1F => unsigned::sub_u32(a, b),
        0x20 => unsigned::mul_u32(a, b),
        0x21 => unsigned::div_u32(a, b),
        0x22 => unsigned::mod_u32(a, b),
        _ => Err(Decline::NotComputed),
    }
}

// BoolAnd, BoolNot, BoolOr
fn fold_bool(op: u8, left: ConstVal, right: ConstVal) -> Result<ConstVal, Decline>
    ensures { result ≡ evaluate (Some (two_bool (leaf_of op bool_leaves))) left right }
{
    let (ConstVal::Bool(a), ConstVal::Bool(b)) = (left, right) else {
        return verdict::declined(left, right);
    };
    match op {
        0x16 => Ok(ConstVal::Bool(a & b)),
        0x17 => Ok(ConstVal::Bool(!a)),
        0x18 => Ok(ConstVal::Bool(a | b)),
        _ => Err(Decline::NotComputed),
    }
}

// QAnd, QImpl, QNot, QOr, QTruthAnd, QTruthImpl, QTruthNot, QTruthOr
fn fold_quad(op: u8, left: ConstVal, right: ConstVal) -> Result<ConstVal, Decline>
    ensures { result ≡ evaluate (Some (two_quad (leaf_of op quad_leaves))) left right }
{
    let (ConstVal::Quad(a), ConstVal::Quad(b)) = (left, right) else {
        return verdict::declined(left, right);
    };
    match op {
        0x3D => Ok(ConstVal::Quad(quad::qand(a, b))),
        0x3E => Ok(ConstVal::Quad(quad::qimpl(a, b))),
        0x3F => Ok(ConstVal::Quad(quad::qnot(a))),
        0x40 => Ok(ConstVal::Quad(quad::qor(a, b))),
        0x41 => Ok(ConstVal::Quad(quad::qtruth_and(a, b))),
        0x42 => Ok(ConstVal::Quad(quad::qtruth_impl(a, b))),
        0x43 => Ok(ConstVal::Quad(quad::qtruth_not(a))),
        0x44 => Ok(ConstVal::Quad(quad::qtruth_or(a, b))),
        _ => Err(Decline::NotComputed),
    }
}

// CmpEq, CmpNe: of any two known values.
fn fold_equality(op: u8, left: ConstVal, right: ConstVal) -> Result<ConstVal, Decline>
    ensures { result ≡ if_known left right (leaf_of op equality_leaves left right) }
{
    if let ConstVal::Unknown = left {
        return Err(Decline::LeftUnknown);
    }
    if let ConstVal::Unknown = right {
        return Err(Decline::RightUnknown);
    }
    let equal = constant::const_eq(left, right);
    match op {
        0x19 => Ok(ConstVal::Bool(equal)),
        0x23 => Ok(ConstVal::Bool(!equal)),
        _ => Err(Decline::NotComputed),
    }
}
