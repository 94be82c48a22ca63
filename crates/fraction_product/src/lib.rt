// The product of two fractions.
#![tactic(auto)]

ghost use Rattle.fraction.specs.Limits.{times};
ghost use Rattle.fraction_reduce.specs.Values.{value, Good, Answers};
ghost use Rattle.fraction_product.specs.Contract.{WholeFactor};

use answer::Reason;
use fraction::Fraction;
use fraction_inverse::negated;
use fraction_reduce::bottoms;
use fraction_reduce::reduce::reduced;

// Any two factors.
#[tactic(auto, using(crate::proofs::Multiplied::multiplied))]
fn product_plain(a: Fraction, b: Fraction) -> Result<Fraction, Reason>
    requires a_good { Good a }
    requires b_good { Good b }
    ensures { Answers result (times (value a) (value b)) }
{
    reduced(whole_signed::times(a.num, b.num), bottoms(a, b))
}

// A whole number times a fraction: times 1 and times -1 need no gcd.
fn product_whole(a: Fraction, b: Fraction) -> Result<Fraction, Reason>
    requires { WholeFactor a b }
    ensures { Answers result (times (value a) (value b)) }
{
    if a.num == 1 {
        return Ok(b);
    }
    if a.num == -1 {
        return Ok(negated(b));
    }
    product_plain(a, b)
}

// a times b. The tests before the last line only save the gcd: they answer what the plain product would.
#[tactic(auto, using(crate::proofs::Multiplied::whole_first, crate::proofs::Multiplied::whole_second, crate::proofs::Multiplied::exchanged))]
pub fn product(a: Fraction, b: Fraction) -> Result<Fraction, Reason>
    requires a_good { Good a }
    requires b_good { Good b }
    ensures { Answers result (times (value a) (value b)) }
{
    if a.num == 0 {
        return Ok(a);
    }
    if b.num == 0 {
        return Ok(b);
    }
    if a.den == 1 {
        return product_whole(a, b);
    }
    if b.den == 1 {
        return product_whole(b, a);
    }
    product_plain(a, b)
}
