// The term that a record holds, or that the record is faulty.
#![tactic(auto)]

ghost use Rattle.std.specs.Prelude.{◌≡◌, ◌≤◌, ℕ, Some};
ghost use Rattle.rules_problem.specs.Record.{scaled, kind_of};
ghost use Rattle.record_fields.specs.Contract.{fields_of};
ghost use Rattle.record_term.specs.Contract.{RecordOf, SoundRecord};
ghost use Rattle.record_term.specs.Uses.{fits, sound_kind, judged};
ghost use Rattle.record_term.specs.Terms.{all_zeros, below, term_read};

use fraction::Scaled;
use record_fields::{Fields, read_fields};
use rules_problem::{Kind, Term};

// 01: "mantissa / 2^shift"
#[tactic(auto, using(crate::proofs::Mantissa::signed_mantissa), unfolding(rules_problem::specs::Record::scaled, record_fields::specs::Contract::fields_of))]
fn scaled_of(f: Fields) -> Scaled
    ensures { result ≡ scaled (fields_of f) }
{
    Scaled {
        mantissa: i32::from(f.mantissa.cast_signed()),
        shift: f.shift,
    }
}

// The kind that the fields say, if there is one with that number.
#[tactic(auto, unfolding(crate::specs::Uses::judged, crate::specs::Uses::sound_kind, crate::specs::Uses::fits, crate::specs::Uses::unused, crate::specs::Uses::inputs_of, crate::specs::Terms::all_zeros, crate::specs::Terms::below, rules_problem::specs::Record::every, rules_problem::specs::Record::unless_faulty, rules_problem::specs::Record::kind_of, record_fields::specs::Contract::fields_of))]
fn kind_of(f: Fields) -> Option<Kind>
    ensures { (own : ℕ) → kind_of own (fields_of f) ≡ judged own (fields_of f) result }
{
    let symbol = f.symbol;
    let input1 = usize::from(f.input1);
    let input2 = usize::from(f.input2);
    let input3 = usize::from(f.input3);
    match f.kind {
        1 => Some(Kind::Variable { symbol }),
        2 => Some(Kind::Constant {
            value: scaled_of(f),
        }),
        3 => Some(Kind::Gain {
            factor: scaled_of(f),
            input: input1,
        }),
        4 => Some(Kind::Sum {
            left: input1,
            right: input2,
        }),
        5 => Some(Kind::Difference {
            left: input1,
            right: input2,
        }),
        6 => Some(Kind::Lookup1 {
            symbol,
            input: input1,
        }),
        7 => Some(Kind::Lookup2 {
            symbol,
            first: input1,
            second: input2,
        }),
        8 => Some(Kind::Lookup3 {
            symbol,
            first: input1,
            second: input2,
            third: input3,
        }),
        _ => None,
    }
}

fn all_zero(fields: &[u8]) -> bool
    ensures { result ≡ all_zeros fields.now }
{
    fields.iter().all(|field| *field == 0)
}

fn all_below(own: usize, inputs: &[u8]) -> bool
    ensures { result ≡ below own inputs.now }
{
    inputs.iter().all(|input| usize::from(*input) < own)
}

// Whether the inputs used, from the first on, lie below `own`, and what is not used is zero: the symbol, the other inputs, the mantissa
// with its shift.

fn fits(own: usize, f: Fields, symbol: bool, inputs: usize, scaled: bool) -> bool
    requires { inputs ≤ 3 }
    ensures { result ≡ fits own (fields_of f) symbol inputs scaled }
{
    let all = [f.input1, f.input2, f.input3];
    (symbol | (f.symbol == 0))
        & all_zero(&all[inputs..])
        & (scaled | (f.mantissa == 0) & (f.shift == 0))
        & (f.padding == 0)
        & all_below(own, &all[..inputs])
}

// Whether a record of a kind is sound, by the table of kinds: whether it uses its symbol, how many inputs, and whether its mantissa.
#[tactic(auto, unfolding(crate::specs::Uses::sound_kind))]
fn is_sound(own: usize, f: Fields, kind: Kind) -> bool
    ensures { result ≡ sound_kind own (fields_of f) kind }
{
    match kind {
        Kind::Variable { .. } => fits(own, f, true, 0, false),
        Kind::Constant { .. } => fits(own, f, false, 0, true),
        Kind::Gain { .. } => fits(own, f, false, 1, true),
        Kind::Sum { .. } => fits(own, f, false, 2, false),
        Kind::Difference { .. } => fits(own, f, false, 2, false),
        Kind::Lookup1 { .. } => fits(own, f, true, 1, false),
        Kind::Lookup2 { .. } => fits(own, f, true, 2, false),
        Kind::Lookup3 { .. } => fits(own, f, true, 3, false),
    }
}

// The term with the number `own`, whose record lies within the bytes.
pub fn read_term(bytes: &[u8], own: usize) -> Option<Term>
    requires { RecordOf bytes.now own }
    ensures { result ≡ term_read bytes.now own }
{
    let f = read_fields(bytes, 4 + 8 * own);
    let kind = kind_of(f)?;
    if is_sound(own, f, kind) {
        Some(Term { kind })
    } else {
        None
    }
}

// The term with the number `own`, whose record lies within the bytes and is not judged again.
pub fn held_term(bytes: &[u8], own: usize) -> Term
    requires { SoundRecord bytes.now own }
    ensures { term_read bytes.now own ≡ Some result }
{
    let held = read_fields(bytes, 4 + 8 * own);
    Term {
        kind: kind_of(held).unwrap(),
    }
}
