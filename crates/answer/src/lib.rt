// The answer of a decision, and why one is refused.
#![tactic(auto)]

ghost use Rattle.std.specs.Prelude.{◌≡◌};
ghost use Rattle.answer.specs.Refusals.{number_of};
ghost use Rattle.answer.specs.declared.Answer.TheVariants.{Refused};

// 01, What comes back: the refusals by their names.
#[derive(Clone, Copy, Debug, PartialEq, Eq)]
pub enum Reason {
    Space,
    Short,
    Count,
    Length,
    Term,
    Pair,
    Range,
    Row,
}

impl Reason {
    // 01, What comes back: the number of a refusal.
    #[tactic(auto, unfolding(crate::specs::Refusals::number_of))]
    pub fn number(self) -> u8
        ensures { result ≡ number_of self }
    {
        match self {
            Reason::Space => 1,
            Reason::Short => 2,
            Reason::Count => 3,
            Reason::Length => 4,
            Reason::Term => 5,
            Reason::Pair => 6,
            Reason::Range => 7,
            Reason::Row => 8,
        }
    }
}

// A refusal with its place.
#[derive(Clone, Copy, Debug, PartialEq, Eq)]
pub struct Refusal {
    pub reason: Reason,
    pub place: usize,
}

// Entailed and NotEntailed carry the count of solved unknowns, Contradictory its place, Refused its number and place.
#[derive(Clone, Copy, Debug, PartialEq, Eq)]
pub enum Answer {
    Entailed { solved: usize },
    NotEntailed { solved: usize },
    Contradictory { place: usize },
    Refused { number: u8, place: usize },
}

impl From<Refusal> for Answer {
    ghost from_gives = { λ refusal answer. answer ≡ Refused (number_of refusal.reason) refusal.place };

    fn from(refusal: Refusal) -> Answer {
        Answer::Refused {
            number: refusal.reason.number(),
            place: refusal.place,
        }
    }
}
