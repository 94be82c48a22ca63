// Steps 1 and 2 of the run: the rows are built, and closed.
#![tactic(auto)]

ghost use Rattle.run_build.specs.Contract.{Beginnable};
ghost use Rattle.run_build.specs.Store.{store};
ghost use Rattle.run_begin.specs.Contract.{Begins};

use answer::{Answer, Refusal};
use rules_problem::TERMS;

// Closing has one turn more than there are terms, and solves at most one unknown in each.
const MOST_SOLVED: usize = TERMS + 1;

// 01, The run, 1 and 2: the rows are built and closed; a stop there has place 0. The sets serve what the run goes on with.
pub fn begin(
    bytes: &[u8],
    n: usize,
    nums: &mut [i32],
    dens: &mut [i32],
    heads: &mut [u16],
    inputs: &mut [u8],
    sets: &mut [u64],
) -> Result<usize, Answer>
    requires { Beginnable bytes.now n (store nums.old dens.old heads.old inputs.old sets.old) }
    ensures { Begins bytes.now n result (store nums.old dens.old heads.old inputs.old sets.old) (store nums.new dens.new heads.new inputs.new sets.new) }
{
    let built = run_build::build(bytes, n, nums, dens, heads, inputs, sets);
    built.map_err(|reason| Refusal { reason, place: 0 })?;
    let closed = run_close::close(nums, dens, n, heads, inputs, sets, 0);
    run_progress::placed(0, closed, MOST_SOLVED)
}
