// The signed operations, one to a function: what each gives as a whole number.
#![tactic(auto)]

ghost use Rattle.std.specs.Prelude.{◌≡◌, ◌<◌, ◌^◌, ◌+ℤ◌, neg_ℤ, nat_abs};
ghost use Rattle.whole_signed.specs.Contract.{Summands, Product};

// The same number in 64 bits.
pub fn wide(a: i32) -> i64
    ensures { result ≡ a }
{
    i64::from(a)
}

// Two factors of 32 bits always fit: 2^31 times 2^31 is 2^62.
pub fn times(a: i32, b: i32) -> i64
    ensures { Product a b result }
{
    wide(a) * wide(b)
}

// The bounds leave room for the sum: two products of numbers within the limits meet them.
pub fn plus(a: i64, b: i64) -> i64
    requires { Summands a b }
    ensures { result ≡ a +ℤ b }
{
    a + b
}

// An i32 also holds -2^31, whose opposite it does not hold.
pub fn opposite(a: i32) -> i32
    requires { nat_abs a < 2 ^ 31 }
    ensures { result ≡ neg_ℤ a }
{
    -a
}
