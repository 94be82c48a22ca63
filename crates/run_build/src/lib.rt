// Step 1 of the run: the rows of the terms, built in rising order, and the lookups as numbers, with their links.
#![tactic(auto)]

mod call;
mod links;

ghost use Rattle.run_build.specs.Contract.{Beginnable, Builds};
ghost use Rattle.run_build.specs.Store.{store};

use crate::call::note_call;
use crate::links::note_links;
use answer::Reason;
use record_items::term_at;
use run_build_row::build_term;
use run_table::PENDING;

// The rows, the calls and the links of the n terms that the bytes hold, until a row is refused. At the end every lookup is open, and
// one that closing has to look at. The users of a term are added to what its set holds at entry.
pub fn build(
    bytes: &[u8],
    n: usize,
    nums: &mut [i32],
    dens: &mut [i32],
    heads: &mut [u16],
    inputs: &mut [u8],
    sets: &mut [u64],
) -> Result<(), Reason>
    requires { Beginnable bytes.now n (store nums.old dens.old heads.old inputs.old sets.old) }
    ensures { Builds bytes.now n result (store nums.old dens.old heads.old inputs.old sets.old) (store nums.new dens.new heads.new inputs.new sets.new) }
{
    for t in 0..n {
        let term = term_at(bytes, t);
        note_call(term, t, heads, inputs);
        note_links(t, heads, inputs, sets);
        build_term(term, t, nums, dens, sets)?;
    }
    sets[PENDING] = set_members::ALL;
    Ok(())
}
