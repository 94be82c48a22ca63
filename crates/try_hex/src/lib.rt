// Lines of hexadecimal digits: the bytes that a line says, and where it ends.
#![tactic(auto)]

ghost use Rattle.std.specs.Prelude.{◌≡◌, ◌≤◌, drop, length};
ghost use Rattle.try_hex.specs.Digits.{digit_of, byte_of, first_of, BytesRead};
ghost use Rattle.try_hex.specs.Lines.{LineEnds};

const NEWLINE: u8 = b'\n';

// The value of a digit.
fn digit(b: u8) -> Option<u8>
    ensures { result ≡ digit_of b }
{
    match b {
        b'0'..=b'9' => Some(b - b'0'),
        b'a'..=b'f' => Some(b - b'a' + 10),
        _ => None,
    }
}

// The byte that two digits say.
#[tactic(auto, unfolding(crate::specs::Digits::byte_of))]
fn pair(high: u8, low: u8) -> Option<u8>
    ensures { result ≡ byte_of high low }
{
    Some(16 * digit(high)? + digit(low)?)
}

// What the two bytes at a place say. The place may be beyond the end.
#[tactic(auto, using(crate::proofs::Saying::first_at, crate::proofs::Saying::first_beyond))]
fn byte(text: &[u8], at: usize) -> Option<u8>
    ensures { result ≡ first_of (drop at text.now) }
{
    pair(*text.get(at)?, *text.get(at + 1)?)
}

// Reads the bytes that a text says from its start, as far as there is room: how many they are.
#[tactic(auto, using(crate::proofs::Saying::reads_full))]
pub fn read(text: &[u8], bytes: &mut [u8]) -> usize
    ensures bytes { BytesRead text.now bytes.old bytes.new result }
    ensures within { result ≤ length bytes.new }
{
    for k in 0..bytes.len() {
        let Some(b) = byte(text, 2 * k) else {
            return k;
        };
        bytes[k] = b;
    }
    bytes.len()
}

// How many bytes the first line of a text has, with the newline that ends it.
#[tactic(auto, using(crate::proofs::Saying::line_ends, crate::proofs::Saying::line_goes_on, crate::proofs::Saying::line_is_all))]
pub fn line_length(text: &[u8]) -> usize
    ensures { LineEnds text.now result }
{
    for (i, b) in text.iter().enumerate() {
        if *b == NEWLINE {
            return i + 1;
        }
    }
    text.len()
}
