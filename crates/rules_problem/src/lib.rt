// The terms of a problem, and the sizes of its table.
#![tactic(auto)]

use fraction::Scaled;

// 01, The problem record: the most terms, and the most pairs.
pub const TERMS: usize = 64;

// 01, The run: a row is "a fraction for each term number (columns 0 to 63) and a constant (column 64)".
pub const COLUMNS: usize = TERMS + 1;

// The column of the constant stands behind those of the terms.
pub const CONSTANT: usize = TERMS;

// 01, What comes back: "row t, column c stands at 65t + c, 4,160 places".
pub const PLACES: usize = TERMS * COLUMNS;

// What a term is; each case carries only the fields that its kind uses. A constant and a gain hold mantissa / 2^shift as
// the record has it, not in lowest terms.
#[derive(Clone, Copy, Debug, PartialEq, Eq)]
pub enum Kind {
    Variable {
        symbol: u8,
    },
    Constant {
        value: Scaled,
    },
    Gain {
        factor: Scaled,
        input: usize,
    },
    Sum {
        left: usize,
        right: usize,
    },
    Difference {
        left: usize,
        right: usize,
    },
    Lookup1 {
        symbol: u8,
        input: usize,
    },
    Lookup2 {
        symbol: u8,
        first: usize,
        second: usize,
    },
    Lookup3 {
        symbol: u8,
        first: usize,
        second: usize,
        third: usize,
    },
}

#[derive(Clone, Copy, Debug, PartialEq, Eq)]
pub struct Term {
    pub kind: Kind,
}
