// The difference of two rows, in a row of its own. It goes only through the columns of a set, outside of which the rows hold 0, and
// through the constant's, which `set_extremes::first` comes to last.
#![tactic(auto)]

ghost use Rattle.run_table.specs.Lists.{both, lists, at_entry};
ghost use Rattle.run_difference.specs.Contract.{Subtractable, Subtracts};

use answer::Reason;
use rules_problem::COLUMNS;

// 01, Merge: "take the difference of the two rows". Its columns are made and tested in rising order; where both rows hold 0, so does it.
pub fn difference(
    nums: &[i32],
    dens: &[i32],
    left: usize,
    right: usize,
    set: u64,
    d_nums: &mut [i32],
    d_dens: &mut [i32],
) -> Result<(), Reason>
    requires { Subtractable left right set (lists nums dens) (both d_nums.old d_dens.old) }
    ensures { Subtracts left right set result (at_entry nums dens) (both d_nums.old d_dens.old) (both d_nums.new d_dens.new) }
{
    let mut rest = set;
    let mut c: usize = 0;
    while c < COLUMNS {
        let at = set_extremes::first(rest);
        let a = run_table::get(nums, dens, left + at);
        let b = run_table::get(nums, dens, right + at);
        let f = fraction_sum::difference(a, b)?;
        run_table::put(d_nums, d_dens, at, f);
        rest = set_extremes::rest(rest);
        c = at + 1;
    }
    Ok(())
}
