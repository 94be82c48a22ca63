// The greatest common divisor, by Euclid's rule.
#![tactic(auto)]

ghost use Rattle.std.specs.Prelude.{◌≡◌};
ghost use Rattle.whole.specs.Gcd.{gcd};

// The second number falls at each call, so the calls end.
#[tactic(auto, using(whole::proofs::Steps::gcd_stops, whole::proofs::Steps::gcd_step))]
pub fn greatest(a: u64, b: u64) -> u64
    ensures { result ≡ gcd a b }
{
    if b == 0 { a } else { greatest(b, a % b) }
}
