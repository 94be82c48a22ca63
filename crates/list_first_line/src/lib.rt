// The first line of a listing, written at a place of a lent buffer.
#![tactic(auto)]

ghost use Rattle.list_first_line.specs.Contract.{SaidFits, SaidWritten, FirstFits, FirstWritten};

use answer::Answer;
use list_decimal::put_decimal;
use list_text::{put_byte, put_text};

// "word, place, count, or `refused`, number, place"
#[tactic(auto, using(crate::proofs::Lines::number_length))]
fn put_said(buf: &mut [u8], at: usize, word: &[u8], first: usize, second: usize) -> usize
    requires { SaidFits word.now at buf.old }
    ensures { SaidWritten word.now first second at buf.old buf.new result }
{
    let said = put_text(buf, at, word);
    let number = put_decimal(buf, said, first as u64);
    let blank = put_byte(buf, number, b' ');
    let end = put_decimal(buf, blank, second as u64);
    put_byte(buf, end, b'\n')
}

// The first line of an answer at a place, by its word and its two numbers. Answers the place behind it.
#[tactic(auto, unfolding(rules_listing::specs::Line::first_line, rules_listing::specs::Line::words_of, answer::specs::Said::said, rules_listing::specs::Text::ascii))]
pub fn put_first(buf: &mut [u8], at: usize, answer: Answer) -> usize
    requires { FirstFits at buf.old }
    ensures { FirstWritten answer at buf.old buf.new result }
{
    match answer {
        Answer::Entailed { solved } => put_said(buf, at, b"entailed ", 0, solved),
        Answer::NotEntailed { solved } => put_said(buf, at, b"not-entailed ", 0, solved),
        Answer::Contradictory { place } => put_said(buf, at, b"contradictory ", place, 0),
        Answer::Refused { number, place } => {
            put_said(buf, at, b"refused ", usize::from(number), place)
        }
    }
}
