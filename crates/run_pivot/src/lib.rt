// The unknown that a difference solves. The search goes only through the columns of a set, outside of which the difference holds 0.
#![tactic(auto)]

ghost use Rattle.run_table.specs.Lists.{lists, at_entry, RowHeld, RowWithin};
ghost use Rattle.run_pivot.specs.Contract.{FindsHighest, Pivots};

use rules_problem::TERMS;

// The highest column of the set in which the difference holds something else than 0, the first that is met going down; none where it holds 0 in all.
fn highest(d_nums: &[i32], d_dens: &[i32], set: u64) -> Option<usize>
    requires { RowHeld 0 (lists d_nums d_dens) }
    ensures { FindsHighest set (at_entry d_nums d_dens) result }
{
    let mut end = set_extremes::last(set, TERMS);
    while 0 < end {
        let c = end - 1;
        let f = run_table::get(d_nums, d_dens, c);
        if f.num != 0 {
            return Some(c);
        }
        end = set_extremes::last(set, c);
    }
    None
}

// 01, Merge: "the highest-numbered term with a nonzero coefficient is solved". Unknowns that are preferred come before all others.
// None where no unknown is left in the difference.
pub fn pivot(d_nums: &[i32], d_dens: &[i32], set: u64, preferred: u64) -> Option<usize>
    requires { RowWithin set 0 (lists d_nums d_dens) }
    ensures { Pivots set preferred (at_entry d_nums d_dens) result }
{
    match highest(d_nums, d_dens, set_members::common(set, preferred)) {
        Some(p) => Some(p),
        None => highest(d_nums, d_dens, set),
    }
}
