// Step 3 of the run: each assumption in file order.
#![tactic(auto)]

ghost use Rattle.run_table.specs.Work.{work};
ghost use Rattle.run_assume.specs.Contract.{Assumable, MergesCloses, Assumes, AllAssumable, AssumesAll};

use answer::Answer;
use run_merge::{Halt, NONE};
use run_progress::placed;

// The most unknowns that one assumption solves: one in the merge of its sides, and one in each of at most 65 turns of closing.
const EACH: usize = 66;

// An assumption's sides merged, then the table closed: the count of unknowns solved goes on, or a stop of either does.
fn merge_and_close(
    nums: &mut [i32],
    dens: &mut [i32],
    n: usize,
    heads: &[u16],
    inputs: &[u8],
    sets: &mut [u64],
    left: usize,
    right: usize,
    solved: usize,
) -> Result<usize, Halt>
    requires { Assumable n left right solved heads.now inputs.now (work nums.old dens.old sets.old) }
    ensures { MergesCloses n left right solved heads.now inputs.now result (work nums.old dens.old sets.old) (work nums.new dens.new sets.new) }
{
    let more = run_merge::merge(nums, dens, n, left, right, sets, NONE)?;
    run_close::close(nums, dens, n, heads, inputs, sets, solved + more)
}

// 01, The run, 3: one assumption, its sides merged, then closed.
fn assume_one(
    nums: &mut [i32],
    dens: &mut [i32],
    n: usize,
    heads: &[u16],
    inputs: &[u8],
    sets: &mut [u64],
    place: usize,
    left: usize,
    right: usize,
    solved: usize,
) -> Result<usize, Answer>
    requires { Assumable n left right solved heads.now inputs.now (work nums.old dens.old sets.old) }
    ensures { Assumes n place left right solved heads.now inputs.now result (work nums.old dens.old sets.old) (work nums.new dens.new sets.new) }
{
    let closed = merge_and_close(nums, dens, n, heads, inputs, sets, left, right, solved);
    placed(place, closed, solved + EACH)
}

// 01, The run, 3: "For each assumption in file order: merge its sides, then close."
pub fn assume_all(
    bytes: &[u8],
    n: usize,
    m: usize,
    nums: &mut [i32],
    dens: &mut [i32],
    heads: &[u16],
    inputs: &[u8],
    sets: &mut [u64],
    solved: usize,
) -> Result<usize, Answer>
    requires { AllAssumable bytes.now n m solved heads.now inputs.now (work nums.old dens.old sets.old) }
    ensures { AssumesAll bytes.now n solved result (work nums.old dens.old sets.old) (work nums.new dens.new sets.new) }
{
    let mut count = solved;
    for k in 1..=m {
        let pair = record_items::pair_at(bytes, n, k);
        count = assume_one(
            nums, dens, n, heads, inputs, sets, k, pair.left, pair.right, count,
        )?;
    }
    Ok(count)
}
