// Decides problems, one a line in hexadecimal digits, and writes the listing of each. Behind `<` the numerators lent are a place too
// short, behind `>` the denominators. A problem behind `~` says the same as the plain one before it: it is compared with that one by
// word, count and all places of both lists, and `same` is written, or what differs. A line that begins with `#` is a remark, written as
// it stands.
#![tactic(auto)]

ghost use Rattle.std.specs.Prelude.{◌≤◌};
ghost use Rattle.rules_run.specs.Row.{PLACES};

use answer::Answer;
use list_page::PAGE;
use rules_problem::PLACES;
use std::io;
use std::io::Write;

// As much of the text is read.
const TEXT: usize = 131072;

// 645 bytes are enough to judge any length.
const INPUT: usize = 1024;

const TOO_FEW: usize = 4159;

// An answer, and both lists as its decision left them.
#[derive(Drop)]
struct Decision<const NUMS: usize, const DENS: usize> {
    answer: Answer,
    nums: [i32; NUMS],
    dens: [i32; DENS],
}

impl<const NUMS: usize, const DENS: usize> Decision<NUMS, DENS> {
    fn decide(&mut self, bytes: &[u8]) {
        self.answer = decide::decide(bytes, &mut self.nums, &mut self.dens);
    }

    fn list(&self, rt: &impl Print, bytes: &[u8]) -> io::Result<()> {
        write_listing(rt, bytes, self.answer, &self.nums, &self.dens)
    }
}

// The listing of a problem that was decided, or the number with which it is refused. It is one function for all sizes of the lists, so that its text
// takes room on the stack once.
#[tactic(auto, unfolding(list_lines::specs::Contract::place_of))]
fn write_listing(
    rt: &impl Print,
    bytes: &[u8],
    answer: Answer,
    nums: &[i32],
    dens: &[i32],
) -> io::Result<()> {
    let mut text = [0u8; PAGE];
    match list_page::listing_of(&mut text, bytes, answer, nums, dens) {
        Ok(end) => io::writer(rt).write_all(&text[..end]),
        Err(why) => {
            let number = why.reason.number();
            println!(rt; "not listed: {number}")
        }
    }
}

// A decision in lists that are long enough.
type Whole = Decision<PLACES, PLACES>;

fn same_word(one: Answer, other: Answer) -> bool {
    matches!(
        (one, other),
        (Answer::Entailed { .. }, Answer::Entailed { .. })
            | (Answer::NotEntailed { .. }, Answer::NotEntailed { .. })
            | (Answer::Contradictory { .. }, Answer::Contradictory { .. })
            | (Answer::Refused { .. }, Answer::Refused { .. })
    )
}

// The unknowns solved. A contradiction has none: its place is that of an assumption, which another order moves.
fn count(answer: Answer) -> usize {
    match answer {
        Answer::Entailed { solved } | Answer::NotEntailed { solved } => solved,
        Answer::Contradictory { .. } | Answer::Refused { .. } => 0,
    }
}

// The first place at which two lists differ.
fn difference(one: &[i32], other: &[i32]) -> Option<usize> {
    one.iter().zip(other).position(|(x, y)| x != y)
}

// By word, count, and all places of both lists.
fn compare(rt: &impl Print, own: &Whole, base: &Whole) -> io::Result<()> {
    if !same_word(own.answer, base.answer) {
        return println!(rt; "differs: the word");
    }
    if count(own.answer) != count(base.answer) {
        return println!(rt; "differs: the count");
    }
    if let Some(place) = difference(&own.nums, &base.nums) {
        return println!(rt; "differs: the numerator at {place}");
    }
    if let Some(place) = difference(&own.dens, &base.dens) {
        return println!(rt; "differs: the denominator at {place}");
    }
    println!(rt; "same")
}

// A problem that says the same as another, decided in lists of its own that hold something else before. A refused one is not compared.
fn member(rt: &impl Print, bytes: &[u8], base: &Whole) -> io::Result<()> {
    let mut own = Decision {
        answer: base.answer,
        nums: [-1; PLACES],
        dens: [-1; PLACES],
    };
    own.decide(bytes);
    if matches!(own.answer, Answer::Refused { .. }) {
        return own.list(rt, bytes);
    }
    compare(rt, &own, base)
}

// A problem that those behind `~` are compared with after it.
fn plain(rt: &impl Print, bytes: &[u8], base: &mut Whole) -> io::Result<()> {
    base.decide(bytes);
    base.list(rt, bytes)
}

// A problem decided in lists of which one is too short.
fn short<const NUMS: usize, const DENS: usize>(rt: &impl Print, bytes: &[u8]) -> io::Result<()>
    requires { (NUMS ≤ PLACES) × (DENS ≤ PLACES) }
{
    let mut own: Decision<NUMS, DENS> = Decision {
        answer: Answer::Contradictory { place: 0 },
        nums: [0; NUMS],
        dens: [0; DENS],
    };
    own.decide(bytes);
    own.list(rt, bytes)
}

// The bytes that digits say.
fn read<'a>(digits: &[u8], bytes: &'a mut [u8]) -> &'a [u8] {
    let n = try_hex::read(digits, bytes);
    &bytes[..n]
}

fn problem(rt: &impl Print, text: &[u8], base: &mut Whole) -> io::Result<()> {
    let mut bytes = [0u8; INPUT];
    match text {
        [b'<', digits @ ..] => short::<TOO_FEW, PLACES>(rt, read(digits, &mut bytes)),
        [b'>', digits @ ..] => short::<PLACES, TOO_FEW>(rt, read(digits, &mut bytes)),
        [b'~', digits @ ..] => member(rt, read(digits, &mut bytes), base),
        _ => plain(rt, read(text, &mut bytes), base),
    }
}

fn line(rt: &impl Print, text: &[u8], base: &mut Whole) -> io::Result<()> {
    match text {
        [b'#', ..] => io::writer(rt).write_all(text),
        _ => problem(rt, text, base),
    }
}

fn each_line(rt: &impl Print, text: &[u8], base: &mut Whole) -> io::Result<()> {
    for text in text.split_inclusive(|b| *b == b'\n') {
        line(rt, text, base)?;
    }
    Ok(())
}

fn main(rt: HostRuntime) -> io::Result<()> {
    let mut text = [0u8; TEXT];
    let n = input::read_full(&mut rt.stdin(), &mut text)?;
    let mut base = Decision {
        answer: Answer::Contradictory { place: 0 },
        nums: [0; PLACES],
        dens: [0; PLACES],
    };
    each_line(&rt, &text[..n], &mut base)
}
