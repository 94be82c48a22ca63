// The fractions of the term records and of the lent lists.
#![tactic(auto)]

// 01, The run: the largest numerator and denominator.
pub const LIMIT: u64 = 2147483647;

// A fraction as a term record has it: mantissa / 2^shift.
#[derive(Clone, Copy, Debug, PartialEq, Eq)]
pub struct Scaled {
    pub mantissa: i32,
    pub shift: u8,
}

// A fraction as the lent lists hold it: a signed numerator over a denominator.
#[derive(Clone, Copy, Debug, PartialEq, Eq)]
pub struct Fraction {
    pub num: i32,
    pub den: i32,
}
