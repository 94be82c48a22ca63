// A term or a pair of a problem that was read.
#![tactic(auto)]

ghost use Rattle.std.specs.Prelude.{◌≡◌};
ghost use Rattle.fraction.specs.Made.{made};
ghost use Rattle.rules_problem.specs.Pairs.{pair_there};
ghost use Rattle.rules_problem.specs.Problem.{term_at};
ghost use Rattle.record_items.specs.Held.{TermHeld, PairHeld, as_pair};

use record_cursor::Cursor;
use record_term::held_term;
use rules_problem::Term;

// The two terms of a pair.
#[derive(Drop)]
pub struct Sides {
    pub left: usize,
    pub right: usize,
}

// Term `t` of a problem that was read.
pub fn term_at(bytes: &[u8], t: usize) -> Term
    requires { TermHeld bytes.now t }
    ensures { made result ≡ term_at bytes.now t }
{
    held_term(bytes, t)
}

// The sides of pair `k`, from 1, of a problem of `n` terms that was read.
#[tactic(auto, using(crate::proofs::Holding::pair_within, crate::proofs::Holding::pair_held, record_cursor::proofs::There::second_side), unfolding(crate::specs::Held::as_pair))]
pub fn pair_at(bytes: &[u8], n: usize, k: usize) -> Sides
    requires { PairHeld bytes.now n k }
    ensures { made (as_pair result) ≡ pair_there bytes.now n k }
{
    let start = Cursor {
        at: 32 + 64 * n + 16 * (k - 1),
    };
    let left = start.read(bytes, 8);
    let right = left.next.read(bytes, 8);
    Sides {
        left: left.value as usize,
        right: right.value as usize,
    }
}
