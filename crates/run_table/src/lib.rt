// The table of a run: fractions in two lists of 32-bit numbers, and where the sets of the run stand.
#![tactic(auto)]

ghost use Rattle.std.specs.Prelude.{◌≡◌, ◌+◌, ◌*◌, ◌<◌, length, set};
ghost use Rattle.run_table.specs.Held.{held_at};

use fraction::Fraction;
use rules_problem::TERMS;

// The sets of a run stand in one list. At t the columns in which row t may hold something else than 0; then for each t the lookups that
// t is an input of, and for each t the lookups before t of the same function; then the pending lookups, which closing has to look at again,
// and last the open ones, those that it has not merged with one before them. What each has to hold whenever a step is over is the
// record `Serving` of specs/Work.antt.
pub const USERS: usize = TERMS;

pub const EARLIER: usize = 2 * TERMS;

pub const PENDING: usize = 3 * TERMS;

pub const OPEN: usize = 3 * TERMS + 1;

pub fn get(nums: &[i32], dens: &[i32], k: usize) -> Fraction
    requires { (k < length nums.now) × (k < length dens.now) }
    ensures { result ≡ held_at nums.now dens.now k }
{
    Fraction {
        num: nums[k],
        den: dens[k],
    }
}

pub fn put(nums: &mut [i32], dens: &mut [i32], k: usize, f: Fraction)
    requires { (k < length nums.old) × (k < length dens.old) }
    ensures { (nums.new ≡ set nums.old k f.num) × (dens.new ≡ set dens.old k f.den) }
{
    let n = f.num;
    let d = f.den;
    nums[k] = n;
    dens[k] = d;
}
