// Fractions made exactly, in lowest terms, and tested against the limits: what sums and products are made by.
#![tactic(auto)]

pub mod reduce;

ghost use Rattle.std.specs.Prelude.{◌≡◌, ◌<◌, ◌^◌};
ghost use Rattle.fraction.specs.Exact.{worth};
ghost use Rattle.fraction.specs.InRecord.{InRecord};
ghost use Rattle.fraction_reduce.specs.Contract.{Bottoms};
ghost use Rattle.fraction_reduce.specs.Values.{Good, Stands};

use crate::reduce::{lowest, made};
use fraction::{Fraction, Scaled};
use whole_signed::times;
use whole_size::{size, size_wide};

// The product of two denominators.
pub fn bottoms(a: Fraction, b: Fraction) -> u64
    requires a_good { Good a }
    requires b_good { Good b }
    ensures { Bottoms a b result }
{
    size_wide(times(a.den, b.den))
}

fn power(shift: u8) -> u64
    requires { shift < 16 }
    ensures { result ≡ 2 ^ shift }
{
    1 << shift
}

// A record's fraction in lowest terms: never refused, since neither number gets larger.
pub fn lowered(s: Scaled) -> Fraction
    requires { InRecord s }
    ensures { Stands result (worth s) }
{
    let terms = lowest(size(s.mantissa), power(s.shift));
    made(i64::from(s.mantissa), terms.top, terms.bottom)
}
