// The size of a number, and a size with its sign put back.
#![tactic(auto)]

ghost use Rattle.std.specs.Prelude.{◌≡◌, ◌<◌, ◌^◌, nat_abs, pos};
ghost use Rattle.whole.specs.Signed.{signed};

use whole_signed::opposite;

// How far a number is from 0: what gcd, reduction and limits go by.
pub fn size_wide(a: i64) -> u64
    requires { nat_abs a < 2 ^ 63 }
    ensures { result ≡ nat_abs a }
{
    a.unsigned_abs()
}

// The same at 32 bits, where every number has a size that fits.
pub fn size(a: i32) -> u64
    ensures { result ≡ nat_abs a }
{
    u64::from(a.unsigned_abs())
}

// A size within the limit, as it is.
pub fn narrow(size: u64) -> i32
    requires { size < 2 ^ 31 }
    ensures { result ≡ pos size }
{
    size as i32
}

// A size within the limit, with the sign of another number.
pub fn put_back(like: i64, size: u64) -> i32
    requires { size < 2 ^ 31 }
    ensures { result ≡ signed like size }
{
    let upward = narrow(size);
    let negative = like.is_negative();
    if negative { opposite(upward) } else { upward }
}
