// Closing the table under congruence.
#![tactic(auto)]

mod wake;

ghost use Rattle.run_table.specs.Work.{work};
ghost use Rattle.run_close.specs.Contract.{Closable, Closes};

use crate::wake::wake;
use run_due_pair::{Pair, RIGHTS};
use run_merge::{Halt, NONE};
use run_table::{OPEN, PENDING};

// 01, Close: the pair due is merged, "repeat until there is none". Each merge there solves one more unknown, so one turn more
// than there are terms leaves no pair due; were it otherwise, every lookup would be looked at again. The right side of a pair that is
// merged is looked at no more: whatever is due with it is due with the left side, which comes first. The count of solved unknowns goes on, or
// closing stops as a merge does.
pub fn close(
    nums: &mut [i32],
    dens: &mut [i32],
    n: usize,
    heads: &[u16],
    inputs: &[u8],
    sets: &mut [u64],
    solved: usize,
) -> Result<usize, Halt>
    requires { Closable n solved heads.now inputs.now (work nums.old dens.old sets.old) }
    ensures { Closes n solved heads.now inputs.now result (work nums.old dens.old sets.old) (work nums.new dens.new sets.new) }
{
    if sets[PENDING] == 0 {
        return Ok(solved);
    }
    let mut waiting = [0u64; RIGHTS + 1];
    let mut count = solved;
    for _ in 0..n + 1 {
        wake(n, sets, &mut waiting);
        let Some(Pair { left, right }) = run_due_pair::find_due(
            nums,
            dens,
            n,
            heads,
            inputs,
            sets,
            &mut waiting,
        ) else {
            return Ok(count);
        };
        sets[OPEN] = set_members::without(sets[OPEN], right);
        count += run_merge::merge(nums, dens, n, left, right, sets, NONE)?;
    }
    sets[PENDING] = set_members::ALL;
    Ok(count)
}
