// The end of a run: both lists are left as the rules say, and the answer is given.
#![tactic(auto)]

ghost use Rattle.std.specs.Prelude.{◌*◌, pos};
ghost use Rattle.rules_outcome.specs.Outcome.{Long};
ghost use Rattle.rules_run.specs.Row as rule;
ghost use Rattle.run_fill.specs.Contract.{Filled};
ghost use Rattle.run_table.specs.Work.{work};
ghost use Rattle.run_finish.specs.Lent.{lent_of};
ghost use Rattle.run_finish.specs.Contract.{Roomy, Finishable, Finishes, Clears};

use answer::Answer;
use rules_problem::{COLUMNS, PLACES, TERMS};

// The denominators of rows n to 63 become 1. A fill of one row has a length that the compiler knows, and unrolls.
fn ones_from(dens: &mut [i32], n: usize)
    requires { Roomy n dens.old }
    ensures { Filled (rule.COLUMNS * n) rule.PLACES (pos 1) dens.old dens.new }
{
    for t in n..TERMS {
        run_fill::fill(dens, COLUMNS * t, COLUMNS * t + COLUMNS, 1);
    }
}

// A run that went through: the rows stay, rows n to 63 become 0/1, and the goal's rows are compared.
pub fn with_rows(
    nums: &mut [i32],
    dens: &mut [i32],
    n: usize,
    left: usize,
    right: usize,
    sets: &[u64],
    solved: usize,
) -> Answer
    requires { Finishable n left right (work nums.old dens.old sets.now) }
    ensures { Finishes n left right solved result (work nums.old dens.old sets.now) (lent_of nums.new dens.new) }
{
    let same = run_equal_rows::same_row(nums, dens, n, sets, left, right);
    run_fill::fill(nums, COLUMNS * n, PLACES, 0);
    ones_from(dens, n);
    if same {
        Answer::Entailed { solved }
    } else {
        Answer::NotEntailed { solved }
    }
}

// A run that stopped: every place becomes 0.
#[tactic(auto, using(crate::proofs::Left::clears))]
pub fn cleared(nums: &mut [i32], dens: &mut [i32], answer: Answer) -> Answer
    requires { Long (lent_of nums.old dens.old) }
    ensures { Clears answer result (lent_of nums.old dens.old) (lent_of nums.new dens.new) }
{
    run_fill::fill(nums, 0, PLACES, 0);
    run_fill::fill(dens, 0, PLACES, 0);
    answer
}
