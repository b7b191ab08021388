//! The signs that the decimals of two intervals may have against each other.
ghost use Rattle.std.specs.Prelude.{◌≡◌};
ghost use Rattle.interval_num.specs.Alignment.{Align};
ghost use Rattle.interval_num.specs.Soundness.{SignsAreSound};
ghost use Rattle.interval_num.specs.Signs.{signs_of, signs_at, least_sign, greatest_sign};

use crate::alignment::{at_scale, greater_scale};
use crate::interval::Abs;

/// Some of the three signs of a decimal against another: minus where it is less.
#[derive(Clone, Copy, Debug, PartialEq, Eq)]
pub struct SignSet {
    /// The first may be less.
    pub minus: bool,
    /// They may be equal.
    pub zero: bool,
    /// The first may be greater.
    pub plus: bool,
}

impl SignSet {
    /// -1, 0 or 1: the least of the signs, of which there is one.
    pub(crate) fn least(self) -> i128
        ensures { result ≡ least_sign self }
    {
        if self.minus {
            -1
        } else if self.zero {
            0
        } else {
            1
        }
    }

    /// The greatest of the signs.
    pub(crate) fn greatest(self) -> i128
        ensures { result ≡ greatest_sign self }
    {
        if self.plus {
            1
        } else if self.zero {
            0
        } else {
            -1
        }
    }
}

/// The signs that a decimal of `a` may have against one of `b`. Both aligned, the ends are at most 10^37 in magnitude.
pub fn signs(a: Abs, b: Abs) -> SignSet
    requires { Align a b }
    ensures exact { result ≡ signs_of a b }
    ensures sound { SignsAreSound a b result }
{
    if a.s_hi() == b.s_hi() {
        return signs_at(a, b);
    }
    let q = greater_scale(a, b);
    signs_at(at_scale(a, q), at_scale(b, q))
}

/// The signs between two intervals whose ends are at one scale.
pub(crate) fn signs_at(x: Abs, y: Abs) -> SignSet
    ensures { result ≡ signs_at x y }
{
    SignSet {
        minus: x.lo() < y.hi(),
        zero: x.lo() <= y.hi() && y.lo() <= x.hi(),
        plus: y.lo() < x.hi(),
    }
}
