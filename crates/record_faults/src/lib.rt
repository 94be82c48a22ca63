// The first faulty term record, and the first pair with a side that is no term.
#![tactic(auto)]

ghost use Rattle.std.specs.Prelude.{◌≡◌, ◌+◌};
ghost use Rattle.record_faults.specs.Contract.{RecordsThere, SidesThere, PairsThere, First};
ghost use Rattle.record_faults.specs.Faults.{sound_term, sides_below, sound_pair};

use record_cursor::Cursor;
use record_term::read_term;

// The lowest faulty term.
#[tactic(auto, unfolding(crate::specs::Faults::sound_term))]
pub fn first_faulty(bytes: &[u8], n: usize) -> Option<usize>
    requires { RecordsThere bytes.now n }
    ensures { First 0 n (sound_term bytes.now) result }
{
    for t in 0..n {
        if read_term(bytes, t).is_none() {
            return Some(t);
        }
    }
    None
}

// Whether the two sides from bit `at` on are terms.
#[tactic(auto, using(record_cursor::proofs::There::second_side, std::proofs::lemmas::Bool::Decides::nat_tests), unfolding(crate::specs::Faults::sides_below))]
pub fn both_below(bytes: &[u8], n: usize, at: usize) -> bool
    requires { SidesThere bytes.now at }
    ensures { result ≡ sides_below bytes.now n at }
{
    let left = Cursor { at }.read(bytes, 8);
    (left.value as usize) < n && (left.next.read(bytes, 8).value as usize) < n
}

// The first pair with a side that is no term, from 1.
#[tactic(auto, unfolding(crate::specs::Faults::sound_pair))]
pub fn first_beyond(bytes: &[u8], n: usize, m: usize) -> Option<usize>
    requires { PairsThere bytes.now n m }
    ensures { First 1 (m + 1) (sound_pair bytes.now n) result }
{
    for k in 1..=m {
        if !both_below(bytes, n, 32 + 64 * n + 16 * (k - 1)) {
            return Some(k);
        }
    }
    None
}
