// The line of a row, written at a place of a lent buffer.
#![tactic(auto)]

ghost use Rattle.rules_listing.specs.Listing.{held_line};
ghost use Rattle.list_text.specs.Wrote.{Wrote};
ghost use Rattle.list_pieces.specs.Contract.{PiecesFit};
ghost use Rattle.list_row_line.specs.Contract.{held_pieces, RowFits};

use list_decimal::put_decimal;
use list_pieces::put_pieces;
use list_text::{put_byte, put_text};

// "a row of zeros is the one piece `0`"
fn put_or_zero(buf: &mut [u8], at: usize, nums: &[i32], dens: &[i32], t: usize) -> usize
    requires { PiecesFit t nums.now dens.now at buf.old }
    ensures { Wrote (held_pieces nums.now dens.now t) at buf.old buf.new result }
{
    let end = put_pieces(buf, at, nums, dens, t);
    if end == at {
        return put_text(buf, at, b" 0");
    }
    end
}

// The line of row t at a place: "its number, a colon, then a blank before each piece". Answers the place behind it.
#[tactic(auto, using(crate::proofs::Lines::number_short, crate::proofs::Lines::pieces_short))]
pub fn put_row(buf: &mut [u8], at: usize, nums: &[i32], dens: &[i32], t: usize) -> usize
    requires { RowFits t nums.now dens.now at buf.old }
    ensures { Wrote (held_line nums.now dens.now t) at buf.old buf.new result }
{
    let number = put_decimal(buf, at, t as u64);
    let colon = put_byte(buf, number, b':');
    let end = put_or_zero(buf, colon, nums, dens, t);
    put_byte(buf, end, b'\n')
}
