// How far the run has come: it goes on with its count of solved unknowns, or has ended with an answer.
#![tactic(auto)]

ghost use Rattle.std.specs.Prelude.{◌≡◌, ◌≤◌, IfOk};
ghost use Rattle.run_progress.specs.Ran.{ended, Places};

use answer::Answer;
use run_merge::Halt;

// What a stop at an assumption answers.
#[tactic(auto, unfolding(crate::specs::Ran::ended))]
fn ended(place: usize, halt: Halt) -> Answer
    ensures { result ≡ ended place halt }
{
    match halt {
        Halt::Contradiction => Answer::Contradictory { place },
        Halt::Refused(number) => Answer::Refused { number, place },
    }
}

// What closing at an assumption comes to: a stop gets its place.
pub fn placed(place: usize, closing: Result<usize, Halt>, most: usize) -> Result<usize, Answer>
    requires { IfOk closing (λ count. count ≤ most) }
    ensures { Places place closing most result }
{
    closing.map_err(|halt| ended(place, halt))
}
