// The program: one problem from standard input, its listing on standard output. That the bytes are read and written no contract can say.
#![tactic(auto)]

ghost use Rattle.std.specs.Prelude.{◌≤◌, length};
ghost use Rattle.rules_listing.specs.Page.{PAGE};
ghost use Rattle.agree.specs.Contract.{Prints};

use list_page::PAGE;
use rules_problem::PLACES;
use std::io;
use std::io::Write;

// 01, The listing: "645 bytes are enough to judge any length".
const INPUT: usize = 645;

// Decides the problem and lists it at the start of the text: the bytes before the end answered are what the rules lay down.
fn list(bytes: &[u8], text: &mut [u8]) -> usize
    requires { PAGE ≤ length text.old }
    ensures { Prints bytes.now text.new result }
{
    let mut nums = [0i32; PLACES];
    let mut dens = [0i32; PLACES];
    let answer = decide::decide(bytes, &mut nums, &mut dens);
    // There is room for every listing and the decider leaves fractions, so none is refused.
    list_page::listing_of(text, bytes, answer, &nums, &dens).unwrap()
}

fn main(rt: HostRuntime) -> io::Result<()> {
    let mut input = [0u8; INPUT];
    let got = input::read_full(&mut rt.stdin(), &mut input)?;
    let mut text = [0u8; PAGE];
    let end = list(&input[..got], &mut text);
    rt.stdout().write_all(&text[..end])
}
