// Fills places of a list with one number.
#![tactic(auto)]

ghost use Rattle.run_fill.specs.Contract.{Fillable, Filled};

// The number x at each place from `from` up to `end`.
pub fn fill(list: &mut [i32], from: usize, end: usize, x: i32)
    requires { Fillable from end list.old }
    ensures { Filled from end x list.old list.new }
{
    list[from..end].fill(x);
}
