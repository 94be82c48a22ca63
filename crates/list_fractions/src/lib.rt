// The places of a row: whether each holds a fraction in lowest terms within the limits.
#![tactic(auto)]

ghost use Rattle.std.specs.Prelude.{◌≡◌, zip};
ghost use Rattle.std.specs.List.{list_all};
ghost use Rattle.rules_listing.specs.Listing.{is_fraction, all_fractions, places_of};
ghost use Rattle.list_fractions.specs.Listable.{HoldRow};

use fraction::LIMIT;
use rules_problem::COLUMNS;
use whole_gcd::greatest;
use whole_size::size;

// 01, The listing: "a fraction in lowest terms within the limits". A denominator above 0 is within them.
#[tactic(auto, unfolding(rules_listing::specs::Listing::is_fraction, fraction::specs::Limits::limit))]
pub fn is_fraction(num: i32, den: i32) -> bool
    ensures { result ≡ is_fraction num den }
{
    let top = size(num);
    0 < den && top <= LIMIT && greatest(top, size(den)) == 1
}

// Whether two lists hold such fractions, place by place.
fn all_pairs(nums: &[i32], dens: &[i32]) -> bool
    ensures { result ≡ list_all (λ p. is_fraction p.0 p.1) (zip nums.now dens.now) }
{
    nums.iter()
        .zip(dens)
        .all(|(num, den)| is_fraction(*num, *den))
}

// Whether all places of row t hold such fractions.
pub fn all_fractions(nums: &[i32], dens: &[i32], t: usize) -> bool
    requires { HoldRow t nums.now dens.now }
    ensures { result ≡ all_fractions (places_of t nums.now) (places_of t dens.now) }
{
    let first = COLUMNS * t;
    let end = first + COLUMNS;
    all_pairs(&nums[first..end], &dens[first..end])
}
