// Minus a fraction, and 1 over a fraction: neither is ever refused.
#![tactic(auto)]

ghost use Rattle.fraction.specs.Exact.{neg_ℚ, inverse};
ghost use Rattle.fraction_reduce.specs.Values.{value, Good, Stands};

use fraction::Fraction;
use fraction_reduce::reduce::made;
use whole_signed::{opposite, wide};
use whole_size::size;

// The limits are the same on both sides of zero, so the opposite is within them too.
pub fn negated(a: Fraction) -> Fraction
    requires { Good a }
    ensures { Stands result (neg_ℚ (value a)) }
{
    Fraction {
        num: opposite(a.num),
        den: a.den,
    }
}

// 1 / a, and 0 for 0. A fraction in lowest terms stays so upside down.
pub fn inverted(a: Fraction) -> Fraction
    requires { Good a }
    ensures { Stands result (inverse (value a)) }
{
    let bottom = size(a.num);
    if bottom == 0 {
        return a;
    }
    made(wide(a.num), size(a.den), bottom)
}
