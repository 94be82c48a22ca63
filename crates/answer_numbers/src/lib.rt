// An answer in numbers.
#![tactic(auto)]

ghost use Rattle.std.specs.Prelude.{◌≡◌};
ghost use Rattle.answer_numbers.specs.Numbers.{numbers_of};

use answer::Answer;

// The number of its word, the number of a refusal, and its count or place.
#[derive(Clone, Copy, Debug, PartialEq, Eq)]
pub struct Numbers {
    pub word: u8,
    pub number: u8,
    pub figure: usize,
}

// An answer by its three numbers.
#[tactic(auto, unfolding(crate::specs::Numbers::numbers_of))]
pub fn in_numbers(answer: Answer) -> Numbers
    ensures { result ≡ numbers_of answer }
{
    match answer {
        Answer::Entailed { solved } => Numbers {
            word: 0,
            number: 0,
            figure: solved,
        },
        Answer::NotEntailed { solved } => Numbers {
            word: 1,
            number: 0,
            figure: solved,
        },
        Answer::Contradictory { place } => Numbers {
            word: 2,
            number: 0,
            figure: place,
        },
        Answer::Refused { number, place } => Numbers {
            word: 3,
            number,
            figure: place,
        },
    }
}

impl From<Answer> for Numbers {
    ghost from_gives = { λ answer numbers. numbers ≡ numbers_of answer };

    fn from(answer: Answer) -> Numbers {
        in_numbers(answer)
    }
}
