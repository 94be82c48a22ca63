// When two terms have equal rows.
#![tactic(auto)]

ghost use Rattle.std.specs.Prelude.{◌≡◌, ◌+◌, ◌*◌, ◌<◌, ◌≤◌, false, length};
ghost use Rattle.fraction.specs.Exact.{eq_ℚ};
ghost use Rattle.fraction_reduce.specs.Values.{value};
ghost use Rattle.rules_run.specs.Row.{TERMS, COLUMNS, PLACES, same_row};
ghost use Rattle.run_table.specs.Held.{table_at};
ghost use Rattle.run_table.specs.Work.{lent, entered, table_of};
ghost use Rattle.run_equal_rows.specs.Contract.{BothGood, RowsStand, RowsWithin, TermsWithin, Comparable, num_at, same_column, same_at};

use fraction::Fraction;
use rules_problem::{COLUMNS, TERMS};
use run_table::get;

// In lowest terms, equal fractions have the same two numbers.
fn same_fraction(a: Fraction, b: Fraction) -> bool
    requires { BothGood a b }
    ensures { result ≡ eq_ℚ (value a) (value b) }
{
    if a.num == b.num {
        if a.den == b.den {
            return true;
        }
    }
    false
}

// Whether the rows at places left and right hold the same number in column c.
fn same_at(nums: &[i32], dens: &[i32], left: usize, right: usize, c: usize) -> bool
    requires { RowsStand left right nums.now dens.now × (c < COLUMNS) }
    ensures { result ≡ same_column nums.now dens.now left right c }
{
    let a = get(nums, dens, left + c);
    let b = get(nums, dens, right + c);
    same_fraction(a, b)
}

// The rows at places left and right: the constant, then the columns of the set from the last down to the first difference.
fn same_places(nums: &[i32], dens: &[i32], left: usize, right: usize, set: u64) -> bool
    requires { RowsWithin left right set nums.now dens.now }
    ensures { result ≡ same_at nums.now dens.now left right COLUMNS }
{
    if !same_at(nums, dens, left, right, TERMS) {
        return false;
    }
    let mut c = set_extremes::last(set, TERMS);
    while 0 < c {
        if !same_at(nums, dens, left, right, c - 1) {
            return false;
        }
        c = set_extremes::last(set, c - 1);
    }
    true
}

// Whether the rows of t and u hold different numerators in column c: one look instead of a walk.
fn differ_at(nums: &[i32], t: usize, u: usize, c: usize) -> bool
    requires { (t < TERMS) × (u < TERMS) × (c < COLUMNS) × (PLACES ≤ length nums.now) }
    ensures { num_at nums.now t c ≡ num_at nums.now u c → result ≡ false }
{
    nums[COLUMNS * t + c] != nums[COLUMNS * u + c]
}

// Whether terms t and u, of n, have equal rows. An unknown that is not solved stands in its own column, where the rows before
// hold 0: the columns of t and u are looked at first. Both rows hold 0 in the columns of terms outside the set.
fn same_in(nums: &[i32], dens: &[i32], n: usize, t: usize, u: usize, set: u64) -> bool
    requires { TermsWithin n t u set nums.now dens.now }
    ensures { result ≡ same_row (table_at n nums.now dens.now) t u }
{
    if t == u {
        return true;
    }
    if differ_at(nums, t, u, u) {
        return false;
    }
    if differ_at(nums, t, u, t) {
        return false;
    }
    same_places(nums, dens, COLUMNS * t, COLUMNS * u, set)
}

// The same, where each row holds 0 in the columns of terms outside its own set.
pub fn same_row(nums: &[i32], dens: &[i32], n: usize, sets: &[u64], t: usize, u: usize) -> bool
    requires { Comparable n t u (lent nums dens sets) }
    ensures { result ≡ same_row (table_of n (entered nums dens sets)) t u }
{
    let set = set_members::union(sets[t], sets[u]);
    same_in(nums, dens, n, t, u, set)
}
