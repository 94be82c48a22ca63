// Merging two terms: the difference of their rows, the unknown that it solves, and the fold into every row.
#![tactic(auto)]

ghost use Rattle.std.specs.Prelude.{◌≡◌};
ghost use Rattle.run_table.specs.Lists.{both, row_in};
ghost use Rattle.run_table.specs.Work.{work};
ghost use Rattle.answer.specs.Refusals.{number_of};
ghost use Rattle.run_merge.specs.declared.Halt.TheVariants.{Refused};
ghost use Rattle.run_merge.specs.Contract.{Mergeable, Settleable, Solvable, Solves, Settles, Merges};

use answer::Reason;
use rules_problem::{COLUMNS, TERMS};

// No unknown is preferred.
pub const NONE: u64 = 0;

// Why a merge stops the run: no reading is left, or a number is outside the limits.
#[derive(Clone, Copy, Debug, PartialEq, Eq)]
pub enum Halt {
    Contradiction,
    Refused(u8),
}

impl From<Reason> for Halt {
    ghost from_gives = { λ why halt. halt ≡ Refused (number_of why) };

    fn from(why: Reason) -> Halt {
        Halt::Refused(why.number())
    }
}

// The unknown p is solved from the difference, and its form folded into every row.
fn solve(
    nums: &mut [i32],
    dens: &mut [i32],
    n: usize,
    p: usize,
    set: u64,
    d_nums: &mut [i32],
    d_dens: &mut [i32],
    sets: &mut [u64],
) -> Result<usize, Halt>
    requires { Solvable n p set (both d_nums.old d_dens.old) (work nums.old dens.old sets.old) }
    ensures { Solves n p (row_in (both d_nums.old d_dens.old) 0) result (work nums.old dens.old sets.old) (work nums.new dens.new sets.new) }
{
    run_solve::solve_for(d_nums, d_dens, p, set)?;
    run_fold::fold_rows(nums, dens, n, p, set, d_nums, d_dens, sets)?;
    Ok(1)
}

// 01, Merge: "All zero: nothing. Only the constant nonzero: contradictory, stop. Otherwise the highest-numbered term (..) is solved".
fn settle(
    nums: &mut [i32],
    dens: &mut [i32],
    n: usize,
    set: u64,
    d_nums: &mut [i32],
    d_dens: &mut [i32],
    sets: &mut [u64],
    preferred: u64,
) -> Result<usize, Halt>
    requires { Settleable n set (both d_nums.old d_dens.old) (work nums.old dens.old sets.old) }
    ensures { Settles n preferred (row_in (both d_nums.old d_dens.old) 0) result (work nums.old dens.old sets.old) (work nums.new dens.new sets.new) }
{
    match run_pivot::pivot(d_nums, d_dens, set, preferred) {
        Some(p) => solve(nums, dens, n, p, set, d_nums, d_dens, sets),
        None if run_table::get(d_nums, d_dens, TERMS).num == 0 => Ok(0),
        None => Err(Halt::Contradiction),
    }
}

// 01, Merge: the rows of the terms t and u are merged in the table of n rows. Only the columns of the two rows matter. Of the unknowns that
// could be solved, those in the set `preferred` come first. How many unknowns it solves: 1, or 0 where the rows are equal.
pub fn merge(
    nums: &mut [i32],
    dens: &mut [i32],
    n: usize,
    t: usize,
    u: usize,
    sets: &mut [u64],
    preferred: u64,
) -> Result<usize, Halt>
    requires { Mergeable n t u (work nums.old dens.old sets.old) }
    ensures { Merges n t u preferred result (work nums.old dens.old sets.old) (work nums.new dens.new sets.new) }
{
    let set = set_members::union(sets[t], sets[u]);
    let mut d_nums = [0i32; COLUMNS];
    let mut d_dens = [1i32; COLUMNS];
    run_difference::difference(
        nums,
        dens,
        COLUMNS * t,
        COLUMNS * u,
        set,
        &mut d_nums,
        &mut d_dens,
    )?;
    settle(
        nums,
        dens,
        n,
        set,
        &mut d_nums,
        &mut d_dens,
        sets,
        preferred,
    )
}
