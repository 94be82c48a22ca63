// The operations in code on every pair of 24 fractions, the limits' neighbours and cases M and N's numbers among them.
#![tactic(auto)]

ghost use Rattle.std.specs.Prelude.{◌≡◌, true};
ghost use Rattle.fraction_reduce.specs.Values.{Good};

use answer::Reason;
use fraction::Fraction;
use std::{fmt, io};

const PAIRS: [(i32, i32); 24] = [
    (0, 1),
    (1, 1),
    (-1, 1),
    (1, 2),
    (-1, 2),
    (2, 3),
    (-7, 5),
    (32767, 1),
    (-32768, 1),
    (1, 32768),
    (46340, 1),
    (46341, 1),
    (-46341, 46340),
    (1073676289, 1),
    (2147352578, 1),
    (131069, 1),
    (131070, 1),
    (1, 1073741824),
    (2147483647, 1),
    (-2147483647, 1),
    (2147483646, 1),
    (1, 2147483647),
    (-1, 2147483647),
    (2147483647, 2147483646),
];

// What an operation is asked of has to be a fraction in lowest terms within the limits.
fn is_good(f: Fraction) -> bool
    ensures { result ≡ true → Good f }
{
    list_fractions::is_fraction(f.num, f.den)
}

// What an operation gives, as it is printed.
#[derive(Clone, Copy)]
struct Shown(Result<Fraction, Reason>);

impl fmt::Display for Shown {
    fn fmt<W: fmt::Write>(&self, f: &mut fmt::Formatter<W>) -> fmt::Result {
        match self.0 {
            Ok(Fraction { num, den }) => write!(f, "{num}/{den}"),
            Err(reason) => write!(f, "refused {}", reason.number()),
        }
    }
}

// The run divides as it does here: by the inverse, which is never refused.
fn quotient(a: Fraction, b: Fraction) -> Result<Fraction, Reason>
    requires a_good { Good a }
    requires b_good { Good b }
{
    fraction_product::product(a, fraction_inverse::inverted(b))
}

// One line: product, quotient, sum, difference of a and b.
fn show_operations(rt: &impl Print, a: Fraction, b: Fraction) -> io::Result<()>
    requires a_good { Good a }
    requires b_good { Good b }
{
    let product = Shown(fraction_product::product(a, b));
    let quotient = Shown(quotient(a, b));
    let sum = Shown(fraction_sum::sum(a, b));
    let difference = Shown(fraction_sum::difference(a, b));
    println!(rt;
        "{} and {}: {product} {quotient} {sum} {difference}",
        Shown(Ok(a)),
        Shown(Ok(b))
    )
}

fn main(rt: HostRuntime) -> io::Result<()> {
    for (num, den) in PAIRS {
        let a = Fraction { num, den };
        for (num, den) in PAIRS {
            let b = Fraction { num, den };
            if is_good(a) && is_good(b) {
                show_operations(&rt, a, b)?;
            }
        }
    }
    Ok(())
}
