// Folding a solved form into the rows of the table: into every row that holds the solved unknown, and in a row only into the columns that
// the form can have.
#![tactic(auto)]

ghost use Rattle.fraction_reduce.specs.Values.{value, Answers};
ghost use Rattle.run_table.specs.Lists.{both, lists, at_entry};
ghost use Rattle.run_table.specs.Work.{work};
ghost use Rattle.run_fold.specs.Cell.{gained_by};
ghost use Rattle.run_fold.specs.Contract.{Gainable, GainableRow, GainsRow, FoldableAt, FoldsAt};
ghost use Rattle.run_fold.specs.Contract.{SetsNotable, Noted, FoldableRow, FoldsRow, Passable, Passed, Foldable, Folds};

use answer::Reason;
use fraction::Fraction;
use rules_problem::COLUMNS;
use run_table::{PENDING, USERS};

// A number of a row gains k times the form's: one product, one sum. Where k is 1 the product is the form's own number, which is within the
// limits already, so that only the sum is made.
fn gained(k: Fraction, form: Fraction, old: Fraction) -> Result<Fraction, Reason>
    requires { Gainable k form old }
    ensures { Answers result (gained_by (value k) (value form) (value old)) }
{
    if k.den == 1 {
        if k.num == 1 {
            return fraction_sum::sum(old, form);
        }
    }
    let f = fraction_product::product(k, form)?;
    fraction_sum::sum(old, f)
}

// The row at base gains k times the form in the columns of a set, in rising order, and last in the constant's. Where the form holds 0 a
// column gains 0, and keeps its number.
fn gain_columns(
    nums: &mut [i32],
    dens: &mut [i32],
    base: usize,
    k: Fraction,
    set: u64,
    form_nums: &[i32],
    form_dens: &[i32],
) -> Result<(), Reason>
    requires { GainableRow base k (both nums.old dens.old) (lists form_nums form_dens) }
    ensures { GainsRow base k set (at_entry form_nums form_dens) result (both nums.old dens.old) (both nums.new dens.new) }
{
    let mut rest = set;
    let mut c: usize = 0;
    while c < COLUMNS {
        let at = set_extremes::first(rest);
        rest = set_extremes::rest(rest);
        c = at + 1;
        let form = run_table::get(form_nums, form_dens, at);
        if form.num != 0 {
            let old = run_table::get(nums, dens, base + at);
            let f = gained(k, form, old)?;
            run_table::put(nums, dens, base + at, f);
        }
    }
    Ok(())
}

// The form of p is folded into the row at base: its coefficient k at p becomes 0, and each other column gains k times the form's. Outside
// the form's set the form holds 0, so that only the columns of the set have to be gone through, without p, and the constant's.
fn fold_columns(
    nums: &mut [i32],
    dens: &mut [i32],
    base: usize,
    p: usize,
    set: u64,
    form_nums: &[i32],
    form_dens: &[i32],
) -> Result<(), Reason>
    requires { FoldableAt base p set (both nums.old dens.old) (lists form_nums form_dens) }
    ensures { FoldsAt base p (at_entry form_nums form_dens) result (both nums.old dens.old) (both nums.new dens.new) }
{
    let k = run_table::get(nums, dens, base + p);
    run_table::put(nums, dens, base + p, Fraction { num: 0, den: 1 });
    gain_columns(
        nums,
        dens,
        base,
        k,
        set_members::without(set, p),
        form_nums,
        form_dens,
    )
}

// What the sets say once the form of p is folded into row t: the row can have the columns of the form's set too, and p no more; and the
// lookups that t is an input of have to be looked at again, since the row of their input has changed.
fn note(sets: &mut [u64], t: usize, p: usize, set: u64)
    requires { SetsNotable t p sets.old }
    ensures { Noted t p set sets.old sets.new }
{
    let columns = set_members::without(set_members::union(sets[t], set), p);
    let pending = set_members::union(sets[PENDING], sets[USERS + t]);
    sets[t] = columns;
    sets[PENDING] = pending;
}

// The form of p is folded into row t. Where the row's coefficient at p is 0 the fold changes nothing, and neither do the sets.
// The sets are noted before the row is written, so that they are right also of a row that is refused in its middle.
fn fold_row(
    nums: &mut [i32],
    dens: &mut [i32],
    t: usize,
    p: usize,
    set: u64,
    form_nums: &[i32],
    form_dens: &[i32],
    sets: &mut [u64],
) -> Result<(), Reason>
    requires { FoldableRow t p set (lists form_nums form_dens) (work nums.old dens.old sets.old) }
    ensures { FoldsRow t p set (at_entry form_nums form_dens) result (work nums.old dens.old sets.old) (work nums.new dens.new sets.new) }
{
    let base = COLUMNS * t;
    let k = run_table::get(nums, dens, base + p);
    if k.num == 0 {
        return Ok(());
    }
    note(sets, t, p, set);
    fold_columns(nums, dens, base, p, set, form_nums, form_dens)
}

// The first row from `from` on whose coefficient at p is not 0, or n where there is none. The rows before it are their own folds.
fn next_row(nums: &[i32], n: usize, p: usize, from: usize) -> usize
    requires { Passable n p from nums.now }
    ensures { Passed n p from result nums.now }
{
    let mut t = from;
    while t < n {
        let k = nums[COLUMNS * t + p];
        if k != 0 {
            return t;
        }
        t += 1;
    }
    t
}

// 01, Merge: "in each row with coefficient k there, that coefficient becomes 0, and each other column gains k times the solved
// column". The form stands in the first places of its two lists; its set holds p, and every term's column where the form is not 0.
pub fn fold_rows(
    nums: &mut [i32],
    dens: &mut [i32],
    n: usize,
    p: usize,
    set: u64,
    form_nums: &[i32],
    form_dens: &[i32],
    sets: &mut [u64],
) -> Result<(), Reason>
    requires { Foldable n p set (lists form_nums form_dens) (work nums.old dens.old sets.old) }
    ensures { Folds n p (at_entry form_nums form_dens) result (work nums.old dens.old sets.old) (work nums.new dens.new sets.new) }
{
    let mut t: usize = 0;
    while t < n {
        fold_row(nums, dens, t, p, set, form_nums, form_dens, sets)?;
        t = next_row(nums, n, p, t + 1);
    }
    Ok(())
}
