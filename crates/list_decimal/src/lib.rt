// Numbers in decimal, written into a lent buffer.
#![tactic(auto)]

ghost use Rattle.rules_listing.specs.Text.{decimal};
ghost use Rattle.list_text.specs.Wrote.{Fits, Wrote};

use list_text::put_byte;

// Writes a number in decimal at a place, and says where the next text goes. The digits before the last are those of a tenth, rounded down.
pub fn put_decimal(buf: &mut [u8], at: usize, x: u64) -> usize
    requires { Fits (decimal x) at buf.old }
    ensures { Wrote (decimal x) at buf.old buf.new result }
{
    if x < 10 {
        return put_byte(buf, at, (48 + x) as u8);
    }
    let next = put_decimal(buf, at, x / 10);
    put_byte(buf, next, (48 + x % 10) as u8)
}
