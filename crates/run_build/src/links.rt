// The links of a lookup, noted in sets: it uses its inputs, comes after the lookups of the same function before it, and is open. They
// say which lookups a later step need look at: larger sets would do no harm but to speed.
ghost use Rattle.run_build.specs.Contract.{Usable, UserNoted, AllUsable, UsersNoted, Traceable, EarlierFound, Linkable, LinksNoted};

use run_table::{EARLIER, OPEN, USERS};

// Lookup t uses this input.
fn note_user(input: u8, t: usize, sets: &mut [u64])
    requires { Usable input t sets.old }
    ensures { UserNoted input t sets.old sets.new }
{
    let place = USERS + input as usize;
    let users = set_members::with(sets[place], t);
    sets[place] = users;
}

// Lookup t uses what stands in its three places. One without an input holds 0, so that t is noted as a user of term 0 too.
#[tactic(auto, using(crate::proofs::Linking::using_more))]
fn note_users(t: usize, inputs: &[u8], sets: &mut [u64])
    requires { AllUsable t inputs.now sets.old }
    ensures { UsersNoted t inputs.now sets.old sets.new }
{
    for i in 0..3 {
        note_user(inputs[3 * t + i], t, sets);
    }
}

// The lookups before t with its head: the latest of them, and those noted for it.
fn earlier_of(heads: &[u16], sets: &[u64], t: usize) -> u64
    requires { Traceable t heads.now sets.now }
    ensures { EarlierFound t heads.now result }
{
    let head = heads[t];
    for i in (0..t).rev() {
        if heads[i] == head {
            return set_members::with(sets[EARLIER + i], i);
        }
    }
    0
}

// Term t, whose head and inputs are noted, is linked, if it is a lookup.
#[tactic(auto, using(crate::proofs::Linking::links_traceable))]
pub(crate) fn note_links(t: usize, heads: &[u16], inputs: &[u8], sets: &mut [u64])
    requires { Linkable t heads.now inputs.now sets.old }
    ensures { LinksNoted t heads.now inputs.now sets.old sets.new }
{
    if heads[t] == 0 {
        return;
    }
    note_users(t, inputs, sets);
    let earlier = earlier_of(heads, sets, t);
    let open = set_members::with(sets[OPEN], t);
    sets[EARLIER + t] = earlier;
    sets[OPEN] = open;
}
