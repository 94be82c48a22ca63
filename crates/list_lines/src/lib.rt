// The lines of a listing, each at a place of a lent buffer, or refused with nothing changed.
#![tactic(auto)]

ghost use Rattle.std.specs.Prelude.{◌≡◌, ◌+◌, leb};
ghost use Rattle.rules_listing.specs.Listing.{ROOM};
ghost use Rattle.list_lines.specs.Contract.{ListsRow, ListsFirst};

use answer::{Answer, Reason, Refusal};
use list_first_line::put_first;
use list_fractions::all_fractions;
use list_row_line::put_row;
use rules_listing::ROOM;
use rules_problem::{PLACES, TERMS};

// Whether enough bytes follow the place. The place may be beyond the end.
fn has_room(len: usize, at: usize) -> bool
    ensures { result ≡ leb (at + ROOM) len }
{
    ROOM <= len.saturating_sub(at)
}

// Lists row t at a place, or refuses at the old place and changes nothing.
#[tactic(auto, unfolding(rules_listing::specs::Listing::list_row, crate::specs::Contract::listed_by, crate::specs::Contract::reached_of, rules_problem::specs::Problem::refuse))]
pub fn list_row_at(
    buf: &mut [u8],
    at: usize,
    nums: &[i32],
    dens: &[i32],
    t: usize,
) -> Result<usize, Refusal>
    ensures { ListsRow nums.now dens.now t at buf.old buf.new result }
{
    if !has_room(buf.len(), at) || nums.len() < PLACES || dens.len() < PLACES {
        return Err(Refusal {
            reason: Reason::Space,
            place: at,
        });
    }
    if TERMS <= t || !all_fractions(nums, dens, t) {
        return Err(Refusal {
            reason: Reason::Row,
            place: at,
        });
    }
    Ok(put_row(buf, at, nums, dens, t))
}

// Writes an answer's first line at a place, or refuses, at place 0 as no row is listed, and changes nothing.
#[tactic(auto, unfolding(rules_listing::specs::Listing::list_first, crate::specs::Contract::listed_by, crate::specs::Contract::reached_of, rules_problem::specs::Problem::refuse))]
pub fn first_line_at(buf: &mut [u8], at: usize, answer: Answer) -> Result<usize, Refusal>
    ensures { ListsFirst answer at buf.old buf.new result }
{
    if !has_room(buf.len(), at) {
        return Err(Refusal {
            reason: Reason::Space,
            place: 0,
        });
    }
    Ok(put_first(buf, at, answer))
}
