// Bytes and texts, written into a lent buffer.
#![tactic(auto)]

ghost use Rattle.std.specs.Prelude.{[], ◌∷◌};
ghost use Rattle.list_text.specs.Wrote.{Fits, Wrote};

// Writes one byte at a place, and says where the next one goes.
#[tactic(auto, unfolding(rules_listing::specs::Listing::put_at))]
pub fn put_byte(buf: &mut [u8], at: usize, b: u8) -> usize
    requires { Fits (b ∷ []) at buf.old }
    ensures { Wrote (b ∷ []) at buf.old buf.new result }
{
    buf[at] = b;
    at + 1
}

// Writes a text at a place, and says where the next one goes.
#[tactic(auto, unfolding(rules_listing::specs::Listing::put_at))]
pub fn put_text(buf: &mut [u8], at: usize, text: &[u8]) -> usize
    requires { Fits text.now at buf.old }
    ensures { Wrote text.now at buf.old buf.new result }
{
    let end = at + text.len();
    buf[at..end].copy_from_slice(text);
    end
}
