// The bit cursor: it gives a field of a byte string, or of 64 bits that are one number, and the cursor after it.
#![tactic(auto)]

ghost use Rattle.std.specs.Prelude.{◌≡◌, ◌+◌, ◌<◌, ◌^◌};
ghost use Rattle.record_cursor.specs.Contract.{Takeable, Readable, Cuttable, ByteRead, PieceRead, PieceCut};
ghost use Rattle.record_cursor.specs.Taken.{number_at, taken_at};

// A bit position; bit 0 is the most significant bit of the first byte.
#[derive(Drop)]
pub struct Cursor {
    pub at: usize,
}

// A field that is there, with the cursor after it.
#[derive(Drop)]
pub struct Piece {
    pub value: u32,
    pub next: Cursor,
}

// The byte at an index; past the end, 0.
fn byte_at(bytes: &[u8], index: usize) -> u32
    ensures { ByteRead bytes.now index result }
{
    bytes.get(index).map_or(0, |byte| u32::from(*byte))
}

// The 24 bits from a byte on.
#[tactic(auto, using(crate::proofs::Bits::three_bytes))]
fn window(bytes: &[u8], first: usize) -> u32
    requires { first + 2 < 2 ^ 64 }
    ensures { result ≡ number_at bytes.now first 3 }
{
    let high = byte_at(bytes, first);
    let middle = byte_at(bytes, first + 1);
    let low = byte_at(bytes, first + 2);
    (high * 256 + middle) * 256 + low
}

impl Cursor {
    // The field of `width` bits from the cursor. A field lies in three bytes at most, so they are taken together.
    #[tactic(auto, using(crate::proofs::Bits::power_made), unfolding(crate::specs::Taken::taken_at))]
    fn take(self, bytes: &[u8], width: u32) -> Option<Piece>
        requires { Takeable self.at width }
        ensures { result ≡ taken_at bytes.now self.at width }
    {
        let at = self.at;
        let end = at + width as usize;
        if bytes.len() < end / 8 + (end % 8 + 7) / 8 {
            return None;
        }
        let after = 24 - ((at % 8) as u32 + width);
        let value = (window(bytes, at / 8) >> after) % (1 << width);
        Some(Piece {
            value,
            next: Cursor { at: end },
        })
    }

    // A field whose bits are there. The cursor after it is the same either way, so that the compiler knows where it stands.
    pub fn read(self, bytes: &[u8], width: u32) -> Piece
        requires { Readable bytes.now self.at width }
        ensures { PieceRead bytes.now self.at width result }
    {
        let past = Piece {
            value: 0,
            next: Cursor {
                at: self.at + width as usize,
            },
        };
        self.take(bytes, width).unwrap_or(past)
    }

    // A field of 64 bits that are at hand as one number: the cursor counts from the highest of them.
    pub fn cut(self, bits: u64, width: u32) -> Piece
        requires { Cuttable self.at width }
        ensures { PieceCut bits self.at width result }
    {
        let stop = self.at + width as usize;
        let value = (bits >> ((64 - stop) as u32)) % (1 << width);
        Piece {
            value: value as u32,
            next: Cursor { at: stop },
        }
    }
}
