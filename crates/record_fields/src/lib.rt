// The fields of a term record, cut from its eight bytes by the cursor.
#![tactic(auto)]

ghost use Rattle.std.specs.Prelude.{◌≡◌};
ghost use Rattle.record_cursor.specs.Taken.{number_at};
ghost use Rattle.record_fields.specs.Contract.{RecordThere, FieldsRead};

use record_cursor::Cursor;

// The fields as the record has them; a shift has 4 bits.
#[derive(Clone, Copy)]
pub struct Fields {
    pub kind: u8,
    pub symbol: u8,
    pub input1: u8,
    pub input2: u8,
    pub input3: u8,
    pub mantissa: u16,
    pub shift: u8,
    pub padding: u8,
}

// The eight bytes from `first` on as one number, the first the highest.
fn eight_bytes(bytes: &[u8], first: usize) -> u64
    requires { RecordThere bytes.now first }
    ensures { result ≡ number_at bytes.now first 8 }
{
    let eight: [u8; 8] = bytes[first..first + 8].try_into().unwrap();
    u64::from_be_bytes(eight)
}

// The record from byte `first` on: its eight bytes are read once, and the cursor cuts the fields from them.
#[tactic(auto, using(crate::proofs::Chain::fields_cut))]
pub fn read_fields(bytes: &[u8], first: usize) -> Fields
    requires { RecordThere bytes.now first }
    ensures { FieldsRead bytes.now first result }
{
    let bits = eight_bytes(bytes, first);
    let kind = Cursor { at: 0 }.cut(bits, 4);
    let symbol = kind.next.cut(bits, 8);
    let input1 = symbol.next.cut(bits, 8);
    let input2 = input1.next.cut(bits, 8);
    let input3 = input2.next.cut(bits, 8);
    let mantissa = input3.next.cut(bits, 16);
    let shift = mantissa.next.cut(bits, 4);
    let padding = shift.next.cut(bits, 8);
    Fields {
        kind: kind.value as u8,
        symbol: symbol.value as u8,
        input1: input1.value as u8,
        input2: input2.value as u8,
        input3: input3.value as u8,
        mantissa: mantissa.value as u16,
        shift: shift.value as u8,
        padding: padding.value as u8,
    }
}
