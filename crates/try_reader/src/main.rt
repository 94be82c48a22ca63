// Reads byte strings, one a line in hexadecimal digits with a remark behind them, and writes what reading each one answers:
// the header of the problem that it holds, or the refusal's number and place.
#![tactic(auto)]

use answer::Refusal;
use record_reader::{Header, read_problem};
use std::io;

// 645 bytes are enough to judge any length.
const INPUT: usize = 1024;

// As much of the text is read.
const TEXT: usize = 65536;

fn answer(rt: &impl Print, bytes: &[u8]) -> io::Result<()> {
    match read_problem(bytes) {
        Ok(Header { n, m, left, right }) => println!(rt; "sound {n} {m} {left} {right}"),
        Err(Refusal { reason, place }) => println!(rt; "refused {} {place}", reason.number()),
    }
}

fn answer_line(rt: &impl Print, line: &[u8]) -> io::Result<()> {
    let mut bytes = [0u8; INPUT];
    let n = try_hex::read(line, &mut bytes);
    answer(rt, &bytes[..n])
}

fn each_line(rt: &impl Print, text: &[u8]) -> io::Result<()> {
    let mut rest = text;
    while !rest.is_empty() {
        answer_line(rt, rest)?;
        rest = &rest[try_hex::line_length(rest)..];
    }
    Ok(())
}

fn main(rt: HostRuntime) -> io::Result<()> {
    let mut text = [0u8; TEXT];
    let n = input::read_full(&mut rt.stdin(), &mut text)?;
    each_line(&rt, &text[..n])
}
