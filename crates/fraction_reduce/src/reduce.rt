// A whole number over another, in lowest terms and tested against the limits.
ghost use Rattle.std.specs.Prelude.{◌<◌};
ghost use Rattle.fraction.specs.Exact.{frac};
ghost use Rattle.fraction.specs.Limits.{tested};
ghost use Rattle.fraction_reduce.specs.Contract.{Reducible, SizesLimited, InLowest, WithSign, Tested};
ghost use Rattle.fraction_reduce.specs.Values.{Answers};

use answer::Reason;
use fraction::{Fraction, LIMIT};
use whole_gcd::greatest;
use whole_size::{narrow, put_back, size_wide};

// Two sizes with no common divisor but 1.
#[derive(Clone, Copy, Debug, PartialEq, Eq)]
pub struct Terms {
    pub top: u64,
    pub bottom: u64,
}

// Two sizes divided by their greatest common divisor.
#[tactic(auto, using(whole::proofs::Divisors::gcd_positive))]
pub(crate) fn lowest(top: u64, bottom: u64) -> Terms
    requires { 0 < bottom }
    ensures { InLowest top bottom result }
{
    let common = greatest(top, bottom);
    Terms {
        top: top / common,
        bottom: bottom / common,
    }
}

// The sign is put back last: all else goes by sizes.
#[tactic(auto, unfolding(fraction::specs::Limits::limit))]
pub fn made(like: i64, top: u64, bottom: u64) -> Fraction
    requires { SizesLimited top bottom }
    ensures { WithSign like top bottom result }
{
    Fraction {
        num: put_back(like, top),
        den: narrow(bottom),
    }
}

// Two sizes in lowest terms, with the sign of another number, where both are within the limits.
#[tactic(auto, using(crate::proofs::Linked::tested_wide, crate::proofs::Linked::tested_deep), unfolding(fraction::specs::Limits::limit))]
fn tested(like: i64, terms: Terms) -> Result<Fraction, Reason>
    ensures { Tested like terms result }
{
    if LIMIT < terms.top || LIMIT < terms.bottom {
        return Err(Reason::Range);
    }
    Ok(made(like, terms.top, terms.bottom))
}

// n / d in lowest terms, where both numbers are within the limits. n / 1 is in lowest terms as it stands, with no gcd.
#[tactic(auto, using(crate::proofs::Linked::reduced_whole))]
pub fn reduced(n: i64, d: u64) -> Result<Fraction, Reason>
    requires { Reducible n d }
    ensures { Answers result (tested (frac n d)) }
{
    let size = size_wide(n);
    if d == 1 {
        return tested(
            n,
            Terms {
                top: size,
                bottom: 1,
            },
        );
    }
    tested(n, lowest(size, d))
}
