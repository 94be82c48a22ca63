// The least and the greatest number of a set of numbers below 64, and the loops that go through such a set.
#![tactic(auto)]

ghost use Rattle.std.specs.Prelude.{◌≡◌, ◌<◌, ◌≤◌, Some};
ghost use Rattle.std.specs.Iterator.{at_most};
ghost use Rattle.set_extremes.specs.Extremes.{LeastBelow, Next, Rest, Last};
ghost use Rattle.set_extremes.specs.Through.{Takes, TakesLast, TakesColumn, columns_left, Greatest};

// The least number of a set that is not empty.
#[tactic(auto, using(crate::proofs::Lowest::trailing_within, crate::proofs::Lowest::least_below))]
fn least(set: u64) -> usize
    requires { 0 < set }
    ensures { LeastBelow set result }
{
    u64::trailing_zeros(set) as usize
}

// The least number of the set from one number on, or 64 where there is none: a loop goes from number to number by it.
#[tactic(auto, using(crate::proofs::Onward::none_beyond, crate::proofs::Onward::onward_most))]
pub fn next(set: u64, from: usize) -> usize
    requires { from ≤ 64 }
    ensures { Next set from result }
{
    if from == 64 {
        return 64;
    }
    let rest = set >> from;
    if rest == 0 {
        return 64;
    }
    from + least(rest)
}

// The least number of a set, or 64 of the empty set.
#[tactic(auto, using(crate::proofs::Onward::least_first))]
pub fn first(set: u64) -> usize
    ensures { Next set 0 result }
{
    if 0 < set {
        return least(set);
    }
    64
}

// The set without its least number: a loop that comes to each number once needs no more, and takes less than by `next`.
#[tactic(auto, using(crate::proofs::Taken::least_taken, crate::proofs::Taken::none_taken))]
pub fn rest(set: u64) -> u64
    ensures { Rest set result }
{
    if set == 0 {
        return 0;
    }
    set & (set - 1)
}

// The greatest number of a set that is not empty.
#[tactic(auto, using(crate::proofs::Through::greatest_found, crate::proofs::Downward::leading_within, crate::proofs::Through::leading_less))]
fn greatest(set: u64) -> usize
    requires { 0 < set }
    ensures { Greatest set result }
{
    63 - u64::leading_zeros(set) as usize
}

// One more than the greatest number of a set, or 0 of the empty set.
#[tactic(auto, using(crate::proofs::Downward::leading_within, crate::proofs::Downward::top_last))]
fn top(set: u64) -> usize
    ensures { Last set 64 result }
{
    64 - u64::leading_zeros(set) as usize
}

// One more than the greatest number of the set below an end, or 0 where there is none: a loop goes down from number to number by it.
#[tactic(auto, using(crate::proofs::Downward::last_all))]
pub fn last(set: u64, end: usize) -> usize
    requires { end ≤ 64 }
    ensures { Last set end result }
{
    if end == 64 {
        return top(set);
    }
    top(set & ((1 << end) - 1))
}

// The numbers of a set that a loop has yet to come to.
#[derive(Clone, Debug, Drop)]
pub struct MembersLeft {
    pub rest: u64,
}

// The numbers of a set, in rising order; in falling order by `rev`.
pub fn members(set: u64) -> MembersLeft
    ensures { result.rest ≡ set }
{
    MembersLeft { rest: set }
}

impl Iterator for MembersLeft {
    type Item = usize;

    ghost next_gives = { λ s r t. Takes s.rest r t.rest };

    ghost remaining = { λ s. at_most s.rest };

    #[tactic(auto, using(crate::proofs::Through::least_turn))]
    fn next(&mut self) -> Option<usize> {
        let set = self.rest;
        if set == 0 {
            return None;
        }
        self.rest = set & (set - 1);
        Some(least(set))
    }
}

impl DoubleEndedIterator for MembersLeft {
    ghost next_back_gives = { λ s r t. TakesLast s.rest r t.rest };

    #[tactic(auto, using(crate::proofs::Through::last_turn))]
    fn next_back(&mut self) -> Option<usize> {
        let set = self.rest;
        if set == 0 {
            return None;
        }
        let at = greatest(set);
        self.rest = set & ((1 << at) - 1);
        Some(at)
    }
}

// The columns of a row that a loop has yet to come to: those of a set and then the constant's; or it has come to all.
#[derive(Clone, Debug, Drop)]
pub struct ColumnsLeft {
    pub rest: Option<u64>,
}

// The columns of a set, in rising order, and last the constant's, which is column 64.
pub fn columns(set: u64) -> ColumnsLeft
    ensures { result.rest ≡ Some set }
{
    ColumnsLeft { rest: Some(set) }
}

impl Iterator for ColumnsLeft {
    type Item = usize;

    ghost next_gives = { λ s r t. TakesColumn s.rest r t.rest };

    ghost remaining = { λ s. at_most (columns_left s.rest) };

    #[tactic(auto, using(crate::proofs::Through::column_turn, crate::proofs::Through::constant_turn))]
    fn next(&mut self) -> Option<usize> {
        let set = self.rest?;
        if set == 0 {
            self.rest = None;
            return Some(64);
        }
        self.rest = Some(set & (set - 1));
        Some(least(set))
    }
}
