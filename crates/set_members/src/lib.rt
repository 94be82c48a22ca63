// Sets of numbers below 64, as the bits of one number: a bit for each number in the set.
#![tactic(auto)]

ghost use Rattle.std.specs.Prelude.{◌≡◌, not, ◌&&◌, ◌||◌, ℕ, ◌<◌, eqb};
ghost use Rattle.set_members.specs.Sets.{holds};

// The set of all numbers below 64.
pub const ALL: u64 = 18446744073709551615;

// The set and one number more.
#[tactic(auto, using(crate::proofs::Digits::holds_with))]
pub fn with(set: u64, i: usize) -> u64
    requires { i < 64 }
    ensures { (k : ℕ) → holds result k ≡ (eqb k i || holds set k) }
{
    set | (1 << i)
}

// The numbers of either set.
#[tactic(auto, using(crate::proofs::Digits::holds_or))]
pub fn union(a: u64, b: u64) -> u64
    ensures { (k : ℕ) → holds result k ≡ (holds a k || holds b k) }
{
    a | b
}

// The numbers of both sets.
#[tactic(auto, using(crate::proofs::Digits::holds_and))]
pub fn common(a: u64, b: u64) -> u64
    ensures { (k : ℕ) → holds result k ≡ (holds a k && holds b k) }
{
    a & b
}

// Whether a number is in the set.
#[tactic(auto, unfolding(crate::specs::Sets::holds))]
pub fn has(set: u64, i: usize) -> bool
    requires { i < 64 }
    ensures { result ≡ holds set i }
{
    (set >> i) % 2 == 1
}

// The set without one number. The number is put in first, so that taking it out is one change of its bit.
#[tactic(auto, using(crate::proofs::Digits::holds_without))]
pub fn without(set: u64, i: usize) -> u64
    requires { i < 64 }
    ensures { (k : ℕ) → holds result k ≡ (not (eqb k i) && holds set k) }
{
    (set | (1 << i)) ^ (1 << i)
}
