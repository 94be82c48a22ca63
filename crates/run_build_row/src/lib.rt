// The row of one term, built from the rows before it.
#![tactic(auto)]

ghost use Rattle.std.specs.Prelude.{◌≡◌, ℕ, Ok};
ghost use Rattle.set_members.specs.Sets.{holds};
ghost use Rattle.fraction.specs.Exact.{one_ℚ};
ghost use Rattle.fraction.specs.InRecord.{InRecord};
ghost use Rattle.fraction_reduce.specs.Values.{value, Answers};
ghost use Rattle.run_table.specs.Lists.{both, lists, at_entry};
ghost use Rattle.run_table.specs.Work.{work};
ghost use Rattle.run_build_row.specs.Buildable.{FractionOf, FactorOf};
ghost use Rattle.run_build_row.specs.Contract.{column_built, cell_at, Room, CellReadable, Combinable, Blanks, Coverable};
ghost use Rattle.run_build_row.specs.Contract.{Blanked, Placeable, StandsAlone, Makeable, Joinable, Makes, TermBuildable, TermBuilt};
ghost use Rattle.run_build_row.specs.Sparse.{may_hold};

use answer::Reason;
use fraction::Fraction;
use rules_problem::{COLUMNS, Kind, TERMS, Term};

// The column of the constant stands behind those of the terms.
const CONSTANT: usize = TERMS;

// Column c of row t.
fn cell(nums: &[i32], dens: &[i32], t: usize, c: usize) -> Fraction
    requires { CellReadable t c (lists nums dens) }
    ensures { result ≡ cell_at t c (at_entry nums dens) }
{
    run_table::get(nums, dens, COLUMNS * t + c)
}

// Column c of the row of a gain, a sum or a difference; a gain's factor is handed in, in lowest terms.
#[tactic(auto, using(crate::proofs::Combining::earlier_read, crate::proofs::Combining::earlier_good), unfolding(crate::specs::Buildable::Combined, crate::specs::Buildable::InputsEarlier))]
fn built_column(
    kind: Kind,
    factor: Fraction,
    t: usize,
    c: usize,
    nums: &[i32],
    dens: &[i32],
) -> Result<Fraction, Reason>
    requires { Combinable kind factor t c (lists nums dens) }
    ensures { Answers result (column_built kind t (at_entry nums dens) c) }
{
    match kind {
        Kind::Gain {
            factor: written,
            input,
        } => fraction_product::product(factor, cell(nums, dens, input, c)),
        Kind::Sum { left, right } => {
            fraction_sum::sum(cell(nums, dens, left, c), cell(nums, dens, right, c))
        }
        Kind::Difference { left, right } => {
            fraction_sum::difference(cell(nums, dens, left, c), cell(nums, dens, right, c))
        }
        Kind::Variable { .. }
        | Kind::Constant { .. }
        | Kind::Lookup1 { .. }
        | Kind::Lookup2 { .. }
        | Kind::Lookup3 { .. } => unreachable!(),
    }
}

// The fraction of a constant or a gain in lowest terms; 0 for the other kinds, which hold none.
#[tactic(auto, using(crate::proofs::Lowering::constant_factor, crate::proofs::Lowering::gain_factor), unfolding(crate::specs::Buildable::FractionOf))]
fn factor_of(kind: Kind) -> Fraction
    requires { FractionOf InRecord kind }
    ensures { FactorOf kind result }
{
    match kind {
        Kind::Constant { value } => fraction_reduce::lowered(value),
        Kind::Gain { factor, .. } => fraction_reduce::lowered(factor),
        _ => Fraction { num: 0, den: 1 },
    }
}

// Row t with 0 in every column; no other place has changed.
fn blank_row(t: usize, nums: &mut [i32], dens: &mut [i32])
    requires { Room t (both nums.old dens.old) }
    ensures { Blanks t (both nums.old dens.old) (both nums.new dens.new) }
{
    let from = COLUMNS * t;
    // 65 places of 0 at once would be a call of the C library, and take longer.
    run_fill::fill(nums, from, from + TERMS, 0);
    nums[from + CONSTANT] = 0;
    run_fill::fill(dens, from, from + COLUMNS, 1);
}

// The terms' columns in which the row of term t can hold something else than 0, by those of the rows before it.
#[tactic(auto, using(set_members::proofs::Digits::holds_none), unfolding(crate::specs::Buildable::InputsEarlier, crate::specs::Sparse::may_hold, run_table::specs::Sets::columns_of))]
fn columns_of(kind: Kind, t: usize, sets: &[u64]) -> u64
    requires { Coverable kind t sets.now }
    ensures { (c : ℕ) → holds result c ≡ may_hold sets.now t kind c }
{
    match kind {
        Kind::Constant { .. } => 0,
        Kind::Gain { input, .. } => sets[input],
        Kind::Sum { left, right } | Kind::Difference { left, right } => {
            set_members::union(sets[left], sets[right])
        }
        Kind::Variable { .. }
        | Kind::Lookup1 { .. }
        | Kind::Lookup2 { .. }
        | Kind::Lookup3 { .. } => set_members::with(0, t),
    }
}

// f in column `only` of row t, which is blank.
fn alone_row(t: usize, only: usize, f: Fraction, nums: &mut [i32], dens: &mut [i32])
    requires { Placeable t only f (both nums.old dens.old) }
    ensures { StandsAlone t only (value f) (Ok tt) (both nums.old dens.old) (both nums.new dens.new) }
{
    run_table::put(nums, dens, COLUMNS * t + only, f);
}

// 01, The run, 1: "An unknown's row is 1 at itself".
fn unknown_row(t: usize, nums: &mut [i32], dens: &mut [i32])
    requires { Blanked t (both nums.old dens.old) }
    ensures { StandsAlone t t one_ℚ (Ok tt) (both nums.old dens.old) (both nums.new dens.new) }
{
    alone_row(t, t, Fraction { num: 1, den: 1 }, nums, dens);
}

// The row of a gain, a sum or a difference, from column to column of the set and last the constant's, until one is refused. The row is
// blank, and the rule makes 0 outside the set.
fn built_row(
    kind: Kind,
    factor: Fraction,
    t: usize,
    columns: u64,
    nums: &mut [i32],
    dens: &mut [i32],
) -> Result<(), Reason>
    requires { Joinable kind factor t columns (both nums.old dens.old) }
    ensures { Makes kind t columns result (both nums.old dens.old) (both nums.new dens.new) }
{
    let mut rest = columns;
    let mut c: usize = 0;
    while c < COLUMNS {
        let at = set_extremes::first(rest);
        let f = built_column(kind, factor, t, at, nums, dens)?;
        run_table::put(nums, dens, COLUMNS * t + at, f);
        rest = set_extremes::rest(rest);
        c = at + 1;
    }
    Ok(())
}

// The row of term t, which is blank, and for which the rule makes 0 outside the set.
#[tactic(auto, unfolding(crate::specs::Buildable::Combined))]
fn term_row(
    kind: Kind,
    factor: Fraction,
    t: usize,
    columns: u64,
    nums: &mut [i32],
    dens: &mut [i32],
) -> Result<(), Reason>
    requires { Makeable kind factor t columns (both nums.old dens.old) }
    ensures { Makes kind t columns result (both nums.old dens.old) (both nums.new dens.new) }
{
    match kind {
        Kind::Variable { .. }
        | Kind::Lookup1 { .. }
        | Kind::Lookup2 { .. }
        | Kind::Lookup3 { .. } => unknown_row(t, nums, dens),
        Kind::Constant { .. } => alone_row(t, CONSTANT, factor, nums, dens),
        Kind::Gain { .. } | Kind::Sum { .. } | Kind::Difference { .. } => {
            built_row(kind, factor, t, columns, nums, dens)?
        }
    }
    Ok(())
}

// Row t, built from the rows before it, and noted which columns it may have. Nothing is asked of what its places hold at entry.
pub fn build_term(
    term: Term,
    t: usize,
    nums: &mut [i32],
    dens: &mut [i32],
    sets: &mut [u64],
) -> Result<(), Reason>
    requires { TermBuildable term.kind t (work nums.old dens.old sets.old) }
    ensures { TermBuilt term.kind t result (work nums.old dens.old sets.old) (work nums.new dens.new sets.new) }
{
    let kind = term.kind;
    let factor = factor_of(kind);
    let columns = columns_of(kind, t, sets);
    blank_row(t, nums, dens);
    let step = term_row(kind, factor, t, columns, nums, dens);
    sets[t] = columns;
    step
}
