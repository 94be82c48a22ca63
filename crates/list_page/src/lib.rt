// The whole listing of a decided problem, written into a lent buffer: the first line, then the rows; or a refusal, and nothing is written.
#![tactic(auto)]

ghost use Rattle.std.specs.Prelude.{◌≡◌};
ghost use Rattle.rules_problem.specs.Bits.{field};
ghost use Rattle.rules_listing.specs.Page.{rows_listed, long_for, fraction_rows};
ghost use Rattle.list_page.specs.Contract.{RowsLent, RowsFit, RowsWritten, Paged};

use answer::{Answer, Reason, Refusal};
use list_first_line::put_first;
use list_fractions::all_fractions;
use list_row_line::put_row;
use rules_listing::ROOM;
use rules_problem::{PLACES, TERMS};

// A first line and 64 rows, each with the 2,048 bytes that have to follow the place reached: room for every listing.
pub const PAGE: usize = (TERMS + 1) * ROOM;

// 01, The problem record: the first byte of the header is the term count.
#[tactic(auto, using(crate::proofs::Count::no_bytes, crate::proofs::Count::first_byte))]
fn term_count(bytes: &[u8]) -> usize
    ensures { result ≡ field bytes.now 0 8 }
{
    match bytes {
        [n, ..] => usize::from(*n),
        [] => 0,
    }
}

// 01, The listing: "For entailed and not-entailed a line for each term below n follows".
#[tactic(auto, unfolding(rules_listing::specs::Page::rows_listed))]
fn row_count(answer: Answer, n: usize) -> usize
    ensures { result ≡ rows_listed answer n }
{
    match answer {
        Answer::Entailed { .. } | Answer::NotEntailed { .. } => n,
        Answer::Contradictory { .. } | Answer::Refused { .. } => 0,
    }
}

// Whether the lists are long enough to list rows from.
#[tactic(auto, unfolding(rules_listing::specs::Page::long_for))]
fn long_for(nums: &[i32], dens: &[i32], rows: usize) -> bool
    ensures { result ≡ long_for nums.now dens.now rows }
{
    rows == 0 || PLACES <= nums.len() && PLACES <= dens.len()
}

// Whether all places of the first rows hold fractions in lowest terms within the limits.
#[tactic(auto, using(crate::proofs::Rows::row_held_lem, crate::proofs::Rows::fails_more), unfolding(rules_listing::specs::Page::fraction_rows))]
fn fraction_rows(nums: &[i32], dens: &[i32], rows: usize) -> bool
    requires { RowsLent rows nums.now dens.now }
    ensures { result ≡ fraction_rows nums.now dens.now rows }
{
    for t in 0..rows {
        if !all_fractions(nums, dens, t) {
            return false;
        }
    }
    true
}

// The lines of the first rows at a place, each behind the one before. Answers the place behind them.
#[tactic(auto, using(list_text::proofs::Placing::wrote_nothing), unfolding(rules_listing::specs::Page::held_lines))]
fn put_rows(buf: &mut [u8], at: usize, nums: &[i32], dens: &[i32], rows: usize) -> usize
    requires { RowsFit rows nums.now dens.now at buf.old }
    ensures { RowsWritten rows nums.now dens.now at buf.old buf.new result }
{
    let mut end = at;
    for t in 0..rows {
        end = put_row(buf, end, nums, dens, t);
    }
    end
}

// Lists a byte string that was decided so from the start of the buffer, and answers where the listing ends. All that can be refused is
// tested before the first byte is written, so a refusal, at the old place 0, leaves the buffer as it was.
#[tactic(auto, unfolding(rules_listing::specs::Page::list_page, rules_listing::specs::Page::list_rows, list_lines::specs::Contract::listed_by, list_lines::specs::Contract::reached_of, list_lines::specs::Contract::place_of, rules_problem::specs::Problem::refuse))]
pub fn listing_of(
    buf: &mut [u8],
    bytes: &[u8],
    answer: Answer,
    nums: &[i32],
    dens: &[i32],
) -> Result<usize, Refusal>
    ensures { Paged nums.now dens.now bytes.now answer buf.old buf.new result }
{
    let rows = row_count(answer, term_count(bytes));
    if buf.len() / ROOM <= rows || !long_for(nums, dens, rows) {
        return Err(Refusal {
            reason: Reason::Space,
            place: 0,
        });
    }
    if TERMS < rows || !fraction_rows(nums, dens, rows) {
        return Err(Refusal {
            reason: Reason::Row,
            place: 0,
        });
    }
    let first = put_first(buf, 0, answer);
    Ok(put_rows(buf, first, nums, dens, rows))
}
