// The next pair of lookups that closing merges: of all pairs due, the one of the smallest right side, and of those the smallest left side.
//
// Not all pairs are looked at. A pair that is not due can fall due only when an input row of one of its sides changes, since equal rows
// stay equal in every merge: a lookup with such an input is pending. Closing turns what is pending into pairs that wait (`waiting`: for each
// lookup those before it to compare it with), and a pair that was compared waits no more. So each pair is compared once, and again only
// after an input row of it has changed.
//
// And a lookup that closing has merged with one before it, its twin, is no longer open, and not looked at again: from then on both have
// equal rows, and so have their inputs. Whatever is due with the later one is then due with the earlier one, and that pair comes first.
//
// What each set has to hold for that stands where the sets are declared: `Serving`, in the specs of `run_table`.
#![tactic(auto)]

ghost use Rattle.std.specs.Prelude.{◌≡◌, ◌<◌, ◌≤◌, length};
ghost use Rattle.rules_run.specs.Row.{TERMS};
ghost use Rattle.run_table.specs.Sets.{SETS, RIGHTS};
ghost use Rattle.run_table.specs.Work.{lent, entered, table_of};
ghost use Rattle.run_due_pair.specs.Found.{same_input, same_inputs, RightPassed};
ghost use Rattle.run_due_pair.specs.Contract.{Alike, InputsComparable, PairComparable, TellsDue, OpenWaiting};
ghost use Rattle.run_due_pair.specs.Contract.{LeftsSearchable, FindsLeft, Searchable, FindsDue};

use rules_problem::TERMS;
use run_equal_rows::same_row;
use run_table::OPEN;

// Of the sets of `waiting`, set j holds the left sides that wait for j, and the last one the right sides that any waits for.
pub const RIGHTS: usize = TERMS;

// A pair due: two lookups, the left one before the right one.
#[derive(Clone, Copy, Debug, PartialEq, Eq)]
pub struct Pair {
    pub left: usize,
    pub right: usize,
}

// Lookups of one function have one head; the head 0 is no lookup.
#[tactic(auto, using(crate::proofs::Steps::no_head, crate::proofs::Steps::heads_told))]
fn same_function(heads: &[u16], i: usize, j: usize) -> bool
    requires { (i < length heads.now) × (j < length heads.now) }
    ensures { Alike i j heads.now result }
{
    heads[i] != 0 && heads[i] == heads[j]
}

// Whether the inputs of i and j at place k have equal rows. A place that a lookup does not use holds 0, on both sides.
#[tactic(auto, unfolding(crate::specs::Found::same_input))]
fn same_input(
    nums: &[i32],
    dens: &[i32],
    n: usize,
    inputs: &[u8],
    sets: &[u64],
    i: usize,
    j: usize,
    k: usize,
) -> bool
    requires { InputsComparable n i j inputs.now (lent nums dens sets) × (k < 3) }
    ensures { result ≡ same_input (table_of n (entered nums dens sets)) inputs.now i j k }
{
    let t = usize::from(inputs[3 * i + k]);
    let u = usize::from(inputs[3 * j + k]);
    same_row(nums, dens, n, sets, t, u)
}

fn same_inputs(
    nums: &[i32],
    dens: &[i32],
    n: usize,
    inputs: &[u8],
    sets: &[u64],
    i: usize,
    j: usize,
) -> bool
    requires { InputsComparable n i j inputs.now (lent nums dens sets) }
    ensures { result ≡ same_inputs (table_of n (entered nums dens sets)) inputs.now i j }
{
    (0..3).all(|k| same_input(nums, dens, n, inputs, sets, i, j, k))
}

// 01, Close: lookups with the same kind and symbol, inputs with equal rows place by place, and unequal rows of their own.
fn is_due(
    nums: &[i32],
    dens: &[i32],
    n: usize,
    heads: &[u16],
    inputs: &[u8],
    sets: &[u64],
    i: usize,
    j: usize,
) -> bool
    requires { PairComparable n i j heads.now inputs.now (lent nums dens sets) }
    ensures { TellsDue n i j heads.now inputs.now (entered nums dens sets) result }
{
    same_function(heads, i, j)
        && same_inputs(nums, dens, n, inputs, sets, i, j)
        && !same_row(nums, dens, n, sets, i, j)
}

// The open lookups in set k of `waiting`: those to compare lookup k with; in the last set the right sides that any waits for.
fn open_waiting(sets: &[u64], waiting: &[u64], k: usize) -> u64
    requires { (k ≤ RIGHTS) × (SETS ≤ length sets.now) × (RIGHTS < length waiting.now) }
    ensures { OpenWaiting k waiting.now sets.now result }
{
    set_members::common(waiting[k], sets[OPEN])
}

// No lookup waits to be compared with j any more.
fn pass(waiting: &mut [u64], j: usize)
    requires { (j < TERMS) × (RIGHTS < length waiting.old) }
    ensures { RightPassed j waiting.old waiting.new }
{
    let rights = set_members::without(waiting[RIGHTS], j);
    waiting[j] = 0;
    waiting[RIGHTS] = rights;
}

// The pair due of right side j with the smallest left side that is one of `lefts`.
fn left_due(
    nums: &[i32],
    dens: &[i32],
    n: usize,
    heads: &[u16],
    inputs: &[u8],
    sets: &[u64],
    lefts: u64,
    j: usize,
) -> Option<Pair>
    requires { LeftsSearchable n j heads.now inputs.now (lent nums dens sets) }
    ensures { FindsLeft n lefts j heads.now inputs.now (entered nums dens sets) result }
{
    let mut rest = lefts;
    let mut i = set_extremes::first(rest);
    while i < j {
        if is_due(nums, dens, n, heads, inputs, sets, i, j) {
            return Some(Pair { left: i, right: j });
        }
        rest = set_extremes::rest(rest);
        i = set_extremes::first(rest);
    }
    None
}

// The pair due, where every pair due of open lookups waits. Of a right side that has no pair due none waits afterwards.
pub fn find_due(
    nums: &[i32],
    dens: &[i32],
    n: usize,
    heads: &[u16],
    inputs: &[u8],
    sets: &[u64],
    waiting: &mut [u64],
) -> Option<Pair>
    requires { Searchable n heads.now inputs.now waiting.old (lent nums dens sets) }
    ensures { FindsDue n heads.now inputs.now waiting.new (entered nums dens sets) result }
{
    let rights = open_waiting(sets, waiting, RIGHTS);
    let mut j = set_extremes::next(rights, 0);
    while j < n {
        let lefts = open_waiting(sets, waiting, j);
        if let Some(pair) = left_due(nums, dens, n, heads, inputs, sets, lefts, j) {
            return Some(pair);
        }
        pass(waiting, j);
        j = set_extremes::next(rights, j + 1);
    }
    None
}
