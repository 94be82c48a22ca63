// The form of the unknown that a difference solves, in the difference's place. It goes only through the columns of a set, outside of
// which the difference holds 0, and through the constant's, which `set_extremes::first` comes to last.
#![tactic(auto)]

ghost use Rattle.fraction.specs.Exact.{neg_ℚ, inverse};
ghost use Rattle.fraction.specs.Limits.{times};
ghost use Rattle.fraction_reduce.specs.Values.{value, Good, Stands, Answers};
ghost use Rattle.run_table.specs.Lists.{both};
ghost use Rattle.run_solve.specs.Contract.{Scalable, ScalableRow, ScalesRow, Formable, Forms};

use answer::Reason;
use fraction::Fraction;
use rules_problem::COLUMNS;

// What divides by the coefficient k and negates, as a factor: it is the same for all columns.
fn factor_of(k: Fraction) -> Fraction
    requires { Good k }
    ensures { Stands result (neg_ℚ (inverse (value k))) }
{
    let inverse = fraction_inverse::inverted(k);
    fraction_inverse::negated(inverse)
}

// The factor times a number of the difference. Times 1 and times -1, which are the factor of most unknowns, need no product.
fn scaled(factor: Fraction, x: Fraction) -> Result<Fraction, Reason>
    requires { Scalable factor x }
    ensures { Answers result (times (value factor) (value x)) }
{
    if factor.den == 1 {
        if factor.num == -1 {
            return Ok(fraction_inverse::negated(x));
        }
        if factor.num == 1 {
            return Ok(x);
        }
    }
    fraction_product::product(factor, x)
}

// The columns of a set, and the constant's: each is multiplied by the factor.
fn scale_columns(
    d_nums: &mut [i32],
    d_dens: &mut [i32],
    factor: Fraction,
    set: u64,
) -> Result<(), Reason>
    requires { ScalableRow factor set (both d_nums.old d_dens.old) }
    ensures { ScalesRow factor set result (both d_nums.old d_dens.old) (both d_nums.new d_dens.new) }
{
    let mut rest = set;
    let mut c: usize = 0;
    while c < COLUMNS {
        let at = set_extremes::first(rest);
        let x = run_table::get(d_nums, d_dens, at);
        let f = scaled(factor, x)?;
        run_table::put(d_nums, d_dens, at, f);
        rest = set_extremes::rest(rest);
        c = at + 1;
    }
    Ok(())
}

// 01, Merge: "every other column is divided by that coefficient and negated". The form takes the difference's place; in the column of
// the unknown itself it holds 0.
pub fn solve_for(d_nums: &mut [i32], d_dens: &mut [i32], p: usize, set: u64) -> Result<(), Reason>
    requires { Formable p set (both d_nums.old d_dens.old) }
    ensures { Forms p set result (both d_nums.old d_dens.old) (both d_nums.new d_dens.new) }
{
    let factor = factor_of(run_table::get(d_nums, d_dens, p));
    run_table::put(d_nums, d_dens, p, Fraction { num: 0, den: 1 });
    scale_columns(d_nums, d_dens, factor, set_members::without(set, p))
}
