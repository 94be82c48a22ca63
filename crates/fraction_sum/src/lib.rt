// The sum and the difference of two fractions.
#![tactic(auto)]

ghost use Rattle.fraction.specs.Limits.{plus, minus};
ghost use Rattle.fraction_reduce.specs.Values.{value, Good, Answers};
ghost use Rattle.fraction_sum.specs.Contract.{Cross};

use answer::Reason;
use fraction::Fraction;
use fraction_inverse::negated;
use fraction_reduce::bottoms;
use fraction_reduce::reduce::reduced;
use whole_signed::times;

// The numerator of a sum, over the product of the denominators.
fn cross(a: Fraction, b: Fraction) -> i64
    requires a_good { Good a }
    requires b_good { Good b }
    ensures { Cross a b result }
{
    whole_signed::plus(times(a.num, b.den), times(b.num, a.den))
}

// Any two summands.
#[tactic(auto, using(crate::proofs::Summed::crossed))]
fn sum_plain(a: Fraction, b: Fraction) -> Result<Fraction, Reason>
    requires a_good { Good a }
    requires b_good { Good b }
    ensures { Answers result (plus (value a) (value b)) }
{
    reduced(cross(a, b), bottoms(a, b))
}

// a plus b. To add 0 needs no gcd.
pub fn sum(a: Fraction, b: Fraction) -> Result<Fraction, Reason>
    requires a_good { Good a }
    requires b_good { Good b }
    ensures { Answers result (plus (value a) (value b)) }
{
    if a.num == 0 {
        return Ok(b);
    }
    if b.num == 0 {
        return Ok(a);
    }
    sum_plain(a, b)
}

// a minus b.
#[tactic(auto, using(crate::proofs::Summed::opposite_added))]
pub fn difference(a: Fraction, b: Fraction) -> Result<Fraction, Reason>
    requires a_good { Good a }
    requires b_good { Good b }
    ensures { Answers result (minus (value a) (value b)) }
{
    sum(a, negated(b))
}
