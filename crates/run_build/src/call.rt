// The lookups as numbers.
ghost use Rattle.rules_run.specs.Row.{TERMS};
ghost use Rattle.run_build_row.specs.Buildable.{InputsEarlier};
ghost use Rattle.run_build.specs.Contract.{Numbered, Notable, CallNoted};

use rules_problem::{Kind, Term};

// A lookup's head, 256 for each input plus the symbol, and its inputs; 0 where there is none.
#[derive(Drop)]
struct Numbers {
    head: u16,
    first: u8,
    second: u8,
    third: u8,
}

#[tactic(auto, unfolding(run_build_row::specs::Buildable::InputsEarlier, run_table::specs::Notes::head_of, run_table::specs::Notes::input_of, rules_problem::specs::Lookup::call_of, rules_problem::specs::Lookup::inputs_of))]
fn numbers_of(kind: Kind) -> Numbers
    requires { InputsEarlier TERMS kind }
    ensures { Numbered kind result }
{
    match kind {
        Kind::Lookup1 { symbol, input } => Numbers {
            head: 256 + symbol as u16,
            first: input as u8,
            second: 0,
            third: 0,
        },
        Kind::Lookup2 {
            symbol,
            first,
            second,
        } => Numbers {
            head: 512 + symbol as u16,
            first: first as u8,
            second: second as u8,
            third: 0,
        },
        Kind::Lookup3 {
            symbol,
            first,
            second,
            third,
        } => Numbers {
            head: 768 + symbol as u16,
            first: first as u8,
            second: second as u8,
            third: third as u8,
        },
        _ => Numbers {
            head: 0,
            first: 0,
            second: 0,
            third: 0,
        },
    }
}

// The head of term t at place t, its inputs at 3t, 3t + 1 and 3t + 2.
#[tactic(auto, using(crate::proofs::Noted::notable_below))]
pub(crate) fn note_call(term: Term, t: usize, heads: &mut [u16], inputs: &mut [u8])
    requires { Notable term.kind t heads.old inputs.old }
    ensures { CallNoted term.kind t heads.old inputs.old heads.new inputs.new }
{
    let kind = term.kind;
    let numbers = numbers_of(kind);
    let head = numbers.head;
    let first = numbers.first;
    let second = numbers.second;
    let third = numbers.third;
    heads[t] = head;
    inputs[3 * t] = first;
    inputs[3 * t + 1] = second;
    inputs[3 * t + 2] = third;
}
