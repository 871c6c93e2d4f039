// What a command comes to at two operands, each known or not.
ghost use Rattle.std.specs.Prelude.{◌≡◌};
ghost use Rattle.leaves.specs.Verdicts.{declined, declined_right};
ghost use Rattle.leaves.specs.declared.verdict.Decline.TheVariants.{OutOfRange};

use crate::constant::ConstVal;
use std::num::TryFromIntError;

// Why a command has no value, the first reason: the left or only operand is unknown, the right one is, they are not of the command's kinds, the
// divisor is zero, the result is out of range; or the command is not computed at all. A number leaf, which is given both operands, answers a value,
// DivisorZero or OutOfRange.
#[derive(Clone, Copy)]
pub enum Decline {
    LeftUnknown,
    RightUnknown,
    Unfit,
    DivisorZero,
    OutOfRange,
    NotComputed,
}

// A number that its type does not hold.
impl From<TryFromIntError> for Decline {
    ghost from_gives = { λ _ d. d ≡ OutOfRange };

    fn from(_: TryFromIntError) -> Decline {
        Decline::OutOfRange
    }
}

// Why operands that are not both of the command's kind have no value: the first reason.
// (Both functions answer a `Result`, though never a value: their definitions in specs/Verdicts are of `Verdict`, and the fold's arms hand it on.)
pub fn declined(left: ConstVal, right: ConstVal) -> Result<ConstVal, Decline>
    ensures { result ≡ declined left right }
{
    match left {
        ConstVal::Unknown => Err(Decline::LeftUnknown),
        _ => declined_right(right),
    }
}

// The same where the left one is of the kind.
pub fn declined_right(right: ConstVal) -> Result<ConstVal, Decline>
    ensures { result ≡ declined_right right }
{
    match right {
        ConstVal::Unknown => Err(Decline::RightUnknown),
        _ => Err(Decline::Unfit),
    }
}
