// The line writer: it carries the caller's buffer and the place reached, from line to line.
#![tactic(auto)]

ghost use Rattle.list_writer.specs.Contract.{RowWritten, LineWritten};

use answer::{Answer, Refusal};
use list_lines::{first_line_at, list_row_at};

// 01, The listing: "The line writer carries the caller's buffer and the place reached."
#[derive(Drop)]
pub struct Writer<'a> {
    pub buf: &'a mut [u8],
    pub at: usize,
}

// Lists row t at the place reached, and moves on: "the new place reached, or on refusal the number and the old place".
#[tactic(auto, unfolding(crate::specs::Contract::place_after))]
pub fn list_row(w: &mut Writer, nums: &[i32], dens: &[i32], t: usize) -> Result<usize, Refusal>
    ensures { RowWritten nums.now dens.now t w.old w.new result }
{
    let listed = list_row_at(w.buf, w.at, nums, dens, t);
    w.at = listed.unwrap_or(w.at);
    listed
}

// Writes the first line of an answer at the place reached, and moves on.
#[tactic(auto, unfolding(crate::specs::Contract::place_after))]
pub fn first_line(w: &mut Writer, answer: Answer) -> Result<usize, Refusal>
    ensures { LineWritten answer w.old w.new result }
{
    let written = first_line_at(w.buf, w.at, answer);
    w.at = written.unwrap_or(w.at);
    written
}
