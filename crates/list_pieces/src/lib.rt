// The pieces of a row's line.
#![tactic(auto)]

ghost use Rattle.std.specs.Prelude.{◌≡◌, [], ◌∷◌};
ghost use Rattle.rules_listing.specs.Line.{sign_of, term_text};
ghost use Rattle.list_text.specs.Wrote.{Fits, Wrote};
ghost use Rattle.list_pieces.specs.Contract.{over_text, piece_of, PieceFits, pieces_of, PiecesFit};

use list_decimal::put_decimal;
use list_text::{put_byte, put_text};
use rules_problem::{COLUMNS, CONSTANT};
use whole_size::size;

// "a sign"
#[tactic(auto, unfolding(rules_listing::specs::Line::sign_of, rules_listing::specs::Text::ascii))]
fn sign(num: i32) -> u8
    ensures { result ∷ [] ≡ sign_of num }
{
    if num < 0 { b'-' } else { b'+' }
}

// "the fraction (no denominator if 1)", without its sign
#[tactic(auto, unfolding(crate::specs::Contract::over_text, rules_listing::specs::Text::ascii))]
fn put_over(buf: &mut [u8], at: usize, top: u64, bottom: u64) -> usize
    requires { Fits (over_text top bottom) at buf.old }
    ensures { Wrote (over_text top bottom) at buf.old buf.new result }
{
    let next = put_decimal(buf, at, top);
    if bottom == 1 {
        return next;
    }
    let over = put_byte(buf, next, b'/');
    put_decimal(buf, over, bottom)
}

// "`*t` with the term number; the constant comes last without `*t`"
#[tactic(auto, using(list_text::proofs::Placing::wrote_nothing), unfolding(rules_listing::specs::Line::term_text, rules_listing::specs::Text::ascii))]
fn put_term(buf: &mut [u8], at: usize, c: usize) -> usize
    requires { Fits (term_text c) at buf.old }
    ensures { Wrote (term_text c) at buf.old buf.new result }
{
    if c == CONSTANT {
        return at;
    }
    let mark = put_text(buf, at, b"*t");
    put_decimal(buf, mark, c as u64)
}

// "A piece stands for a nonzero column": a blank, a sign, the fraction and the term.
fn put_piece(buf: &mut [u8], at: usize, c: usize, num: i32, den: i32) -> usize
    requires { PieceFits c num den at buf.old }
    ensures { Wrote (piece_of c num den) at buf.old buf.new result }
{
    let top = size(num);
    if top == 0 {
        return at;
    }
    let blank = put_byte(buf, at, b' ');
    let signed = put_byte(buf, blank, sign(num));
    let over = put_over(buf, signed, top, size(den));
    put_term(buf, over, c)
}

// The pieces of row t, "columns rising", at a place; answers the place behind them.
pub fn put_pieces(buf: &mut [u8], at: usize, nums: &[i32], dens: &[i32], t: usize) -> usize
    requires { PiecesFit t nums.now dens.now at buf.old }
    ensures { Wrote (pieces_of nums.now dens.now t) at buf.old buf.new result }
{
    let first = COLUMNS * t;
    let mut next = at;
    for c in 0..COLUMNS {
        next = put_piece(buf, next, c, nums[first + c], dens[first + c]);
    }
    next
}
