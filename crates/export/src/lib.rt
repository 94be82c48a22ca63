// The decider and the listing for programs in C or Rust: numbers and slices only.
#![tactic(auto)]

ghost use Rattle.export.specs.Contract.{handed, Handed, RowHanded};

use answer_numbers::in_numbers;

// Decides one problem, as `decide::decide` does. Answers the word: 0 entailed, 1 not-entailed, 2 contradictory, 3 refused.
#[unsafe(no_mangle)]
pub extern "C" fn hamzulaph_decide(
    bytes: &[u8],
    nums: &mut [i32],
    dens: &mut [i32],
    number: &mut u8,
    figure: &mut usize,
) -> u8
    ensures { Handed bytes.now nums.old dens.old nums.new dens.new (handed result number.new figure.new) }
{
    let answer = decide::decide(bytes, nums, dens);
    let t = in_numbers(answer);
    *number = t.number;
    *figure = t.figure;
    t.word
}

// Lists row t at a place of the buffer, as `list_lines::list_row_at` does. Answers the new place reached, or the old one and the refusal's number.
#[unsafe(no_mangle)]
pub extern "C" fn hamzulaph_list_row(
    buf: &mut [u8],
    at: usize,
    nums: &[i32],
    dens: &[i32],
    t: usize,
    number: &mut u8,
) -> usize
    ensures { RowHanded nums.now dens.now t at buf.old buf.new result number.new }
{
    match list_lines::list_row_at(buf, at, nums, dens, t) {
        Ok(place) => {
            *number = 0;
            place
        }
        Err(refusal) => {
            *number = refusal.reason.number();
            refusal.place
        }
    }
}
