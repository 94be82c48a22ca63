// The pairs that closing compares: noted for each right side as the set of its left sides.
ghost use Rattle.std.specs.Prelude.{◌≡◌, ℕ, ◌<◌, ◌≤◌, length};
ghost use Rattle.set_members.specs.Sets.{holds};
ghost use Rattle.rules_run.specs.Row.{TERMS};
ghost use Rattle.run_table.specs.Sets.{SETS, RIGHTS};
ghost use Rattle.run_close.specs.Woken.{is_woken, RightWoken, Woken};

use run_due_pair::RIGHTS;
use run_table::{EARLIER, OPEN, PENDING};

// The open lookups before j that j is compared with: those of its function, all of them if j is pending, else those that are.
fn candidates(sets: &[u64], j: usize) -> u64
    requires { (j < TERMS) × (SETS ≤ length sets.now) }
    ensures { (i : ℕ) → holds result i ≡ is_woken sets.now i j }
{
    let earlier = set_members::common(sets[EARLIER + j], sets[OPEN]);
    if set_members::has(sets[PENDING], j) {
        earlier
    } else {
        set_members::common(earlier, sets[PENDING])
    }
}

// Of right side j, every pair with a pending side waits from now on.
fn wake_right(sets: &[u64], waiting: &mut [u64], j: usize)
    requires { (j < TERMS) × (SETS ≤ length sets.now) × (RIGHTS < length waiting.old) }
    ensures { RightWoken j sets.now waiting.old waiting.new }
{
    let woken = candidates(sets, j);
    if woken == 0 {
        return;
    }
    let lefts = set_members::union(waiting[j], woken);
    let rights = set_members::with(waiting[RIGHTS], j);
    waiting[j] = lefts;
    waiting[RIGHTS] = rights;
}

// Every pair of open lookups with a pending side waits from now on.
pub(crate) fn wake(n: usize, sets: &mut [u64], waiting: &mut [u64])
    requires { (n ≤ TERMS) × (SETS ≤ length sets.old) × (RIGHTS < length waiting.old) }
    ensures { Woken n sets.old sets.new waiting.old waiting.new }
{
    if sets[PENDING] == 0 {
        return;
    }
    let mut rest = sets[OPEN];
    let mut j = set_extremes::first(rest);
    while j < n {
        wake_right(sets, waiting, j);
        rest = set_extremes::rest(rest);
        j = set_extremes::first(rest);
    }
    sets[PENDING] = 0;
}
