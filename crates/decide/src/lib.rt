// The decider: bytes and two lent lists in, the answer out, for every byte string and every length of either list.
#![tactic(auto)]

ghost use Rattle.run_table.specs.Work.{work, lent};
ghost use Rattle.run_build.specs.Store.{store};
ghost use Rattle.run_finish.specs.Lent.{comes_back, lent_of};
ghost use Rattle.decide.specs.Contract.{Runnable, Runs, ReadSound, Decides};
ghost use Rattle.decide.specs.Decided.{Decided};

use answer::{Answer, Reason, Refusal};
use record_reader::Header;
use rules_problem::{PLACES, TERMS};
use run_table::OPEN;

// 01, The run: built and closed, then each assumption.
fn run_all(
    bytes: &[u8],
    n: usize,
    m: usize,
    nums: &mut [i32],
    dens: &mut [i32],
    heads: &mut [u16],
    inputs: &mut [u8],
    sets: &mut [u64],
) -> Result<usize, Answer>
    requires { Runnable bytes.now n m (store nums.old dens.old heads.old inputs.old sets.old) }
    ensures { Runs bytes.now n result (work nums.old dens.old sets.old) (work nums.new dens.new sets.new) }
{
    let solved = run_begin::begin(bytes, n, nums, dens, heads, inputs, sets)?;
    run_assume::assume_all(bytes, n, m, nums, dens, heads, inputs, sets, solved)
}

// A problem that was read: the run, and the lists as it leaves them.
fn decide_sound(bytes: &[u8], header: Header, nums: &mut [i32], dens: &mut [i32]) -> Answer
    requires { ReadSound bytes.now header (lent_of nums.old dens.old) }
    ensures { Decides bytes.now result (lent_of nums.old dens.old) (lent_of nums.new dens.new) }
{
    let n = header.n;
    let mut heads = [0u16; TERMS];
    let mut inputs = [0u8; 3 * TERMS];
    let mut sets = [0u64; OPEN + 1];
    match run_all(
        bytes,
        n,
        header.m,
        nums,
        dens,
        &mut heads,
        &mut inputs,
        &mut sets,
    ) {
        Ok(solved) => run_finish::with_rows(
            nums,
            dens,
            n,
            header.left,
            header.right,
            &sets,
            solved,
        ),
        Err(answer) => run_finish::cleared(nums, dens, answer),
    }
}

// Decides one problem. The numerators and denominators of the finished table, or zeros, are left in the two lists, which are
// unchanged where the problem is refused with 1 to 6.
#[tactic(auto, using(crate::proofs::Whole::decided_short, crate::proofs::Whole::sound_read))]
pub fn decide(bytes: &[u8], nums: &mut [i32], dens: &mut [i32]) -> Answer
    ensures { Decided bytes.now (lent_of nums.old dens.old) (comes_back result (lent_of nums.new dens.new)) }
{
    if nums.len() < PLACES || dens.len() < PLACES {
        return Refusal {
            reason: Reason::Space,
            place: 0,
        }
        .into();
    }
    match record_reader::read_problem(bytes) {
        Ok(header) => decide_sound(bytes, header, nums, dens),
        Err(refusal) => refusal.into(),
    }
}
