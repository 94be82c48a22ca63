// The reader: from a byte string to the problem that it holds, or to the refusal that it gets.
#![tactic(auto)]

ghost use Rattle.std.specs.Prelude.{◌≡◌, ◌≤◌, length, Bool, true, false, MatchResult};
ghost use Rattle.record_reader.specs.Contract.{HeaderRead, Framed};
ghost use Rattle.record_reader.specs.Reads.{read_of};

use answer::{Reason, Refusal};
use record_cursor::Cursor;
use rules_problem::TERMS;

// The counts of terms and assumptions, and the sides of the goal: what reading a sound problem answers. Its terms and pairs
// stay in the bytes, where `record_items::term_at` and `record_items::pair_at` read them.
#[derive(Drop)]
pub struct Header {
    pub n: usize,
    pub m: usize,
    pub left: usize,
    pub right: usize,
}

// The four bytes of the header, read one after the other.
#[tactic(auto, using(crate::proofs::Chain::header_read))]
fn read_header(bytes: &[u8]) -> Header
    requires { 4 ≤ length bytes.now }
    ensures { HeaderRead bytes.now result }
{
    let n = Cursor { at: 0 }.read(bytes, 8);
    let m = n.next.read(bytes, 8);
    let left = m.next.read(bytes, 8);
    let right = left.next.read(bytes, 8);
    Header {
        n: n.value as usize,
        m: m.value as usize,
        left: left.value as usize,
        right: right.value as usize,
    }
}

// A test of the table, at place 0.
fn need(passed: bool, reason: Reason) -> Result<(), Refusal>
    ensures { MatchResult result (λ _. passed ≡ true) (λ why. (passed ≡ false) × (why ≡ record { reason = reason; place = 0 })) }
{
    if passed {
        Ok(())
    } else {
        Err(Refusal { reason, place: 0 })
    }
}

// Tests 5 and 6, of a byte string whose length is that of its counts.
#[tactic(auto, using(crate::proofs::Decoding::answers_goal, crate::proofs::Decoding::answers_pair, crate::proofs::Decoding::answers_sound))]
fn judge(bytes: &[u8], header: Header) -> Result<Header, Refusal>
    requires { Framed bytes.now header }
    ensures { result ≡ read_of bytes.now }
{
    if let Some(place) = record_faults::first_faulty(bytes, header.n) {
        return Err(Refusal {
            reason: Reason::Term,
            place,
        });
    }
    need(record_faults::both_below(bytes, header.n, 16), Reason::Pair)?;
    if let Some(place) = record_faults::first_beyond(bytes, header.n, header.m) {
        return Err(Refusal {
            reason: Reason::Pair,
            place,
        });
    }
    Ok(header)
}

// Tests 2 to 6 in their order.
#[tactic(auto, using(crate::proofs::Decoding::answers_short, crate::proofs::Decoding::answers_no_term, crate::proofs::Decoding::answers_many_terms, crate::proofs::Decoding::answers_many_pairs, crate::proofs::Decoding::answers_length))]
pub fn read_problem(bytes: &[u8]) -> Result<Header, Refusal>
    ensures { result ≡ read_of bytes.now }
{
    need(4 <= bytes.len(), Reason::Short)?;
    let header = read_header(bytes);
    need(1 <= header.n, Reason::Count)?;
    need(header.n <= TERMS, Reason::Count)?;
    need(header.m <= TERMS, Reason::Count)?;
    need(
        bytes.len() == 4 + 8 * header.n + 2 * header.m,
        Reason::Length,
    )?;
    judge(bytes, header)
}
