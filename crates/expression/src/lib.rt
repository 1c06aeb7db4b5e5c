// The value of an expression over the bytes of a sheet.
// Rests on `leaves` for what has no operands, on `kernel` for values and on `data` for what a word stands for.
#![tactic(auto)]

pub mod value;

ghost use Rattle.std.specs.Prelude.{◌≡◌, false};
ghost use Rattle.sheet.specs.Data.{plain_byte};
ghost use Rattle.expression.specs.Places.{Placement, whole_value};

use kernel::Value;
use sheet::data;
use sheet_walk::Place;
use wires::Wires;

// What values are worked out from: the bytes of the sheet and of the memory, the wires known so far, and the words of wires, inputs and
// kept wires' cells. It is lent as one, so that a call hands on one address and copies no slice.
#[derive(Clone, Copy)]
pub struct Basis<'a> {
    pub sheet: &'a [u8],
    pub memory: &'a [u8],
    pub words: &'a [u32; 144],
    pub known: Wires,
}

// The value of a wire with this type byte, whose expression stands here.
pub fn value_of_wire(basis: &Basis, byte: u8, here: Place) -> Value
    requires { Placement basis.now.sheet.now basis.now.memory.now basis.now.words.now
        basis.now.known.bits 16 (plain_byte byte) here.at here.cell }
    ensures { (p : Placement basis.now.sheet.now basis.now.memory.now basis.now.words.now
        basis.now.known.bits 16 (plain_byte byte) here.at here.cell)
        → result ≡ whole_value p false }
{
    match value::value_whole(basis, here) {
        Some(v) => Value::Known(data::datum_of(data::plain(byte), v.word)),
        None => Value::Unknown,
    }
}
