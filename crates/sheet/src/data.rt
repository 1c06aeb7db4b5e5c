// The 32 bits that stand for a datum in rows and cells. Rests on `numbers` for the bits of a number.
// A type is given by its type byte: 0 is Boolean, any other is number.
ghost use Rattle.std.specs.Prelude.{◌≡◌};
ghost use Rattle.sheet.specs.Data.{type_of_byte, plain_byte, is_kept, datum_of, word_of, stands_for};
ghost use Rattle.sheet.specs.declared.Datum.TheVariants.{Boolean};

use crate::Datum;

// The byte of a wire's type, from the wire's type byte.
pub fn plain(byte: u8) -> u8
    ensures { result ≡ plain_byte byte }
{
    byte % 2
}

// Whether a wire with this type byte is kept.
pub fn is_kept(byte: u8) -> bool
    ensures { result ≡ is_kept byte }
{
    2 <= byte
}

// The datum of the type that a word stands for.
pub fn datum_of(byte: u8, word: u32) -> Datum
    ensures { result ≡ datum_of (type_of_byte byte) word }
{
    if byte == 0 {
        Datum::Boolean(word == 1)
    } else {
        Datum::Number(numbers::of_bits(word))
    }
}

// The word that stands for a datum.
pub fn word_of(datum: Datum) -> u32
    ensures { result ≡ word_of datum }
{
    match datum {
        Datum::Boolean(b) => word_of_bool(b),
        Datum::Number(z) => numbers::to_bits(z),
    }
}

// The word that stands for a Boolean.
pub fn word_of_bool(b: bool) -> u32
    ensures { result ≡ word_of (Boolean b) }
{
    if b { 1 } else { 0 }
}

// Whether a word stands for a datum of the type: of a Boolean 0 or 1.
pub fn stands_for(byte: u8, word: u32) -> bool
    ensures { result ≡ stands_for (type_of_byte byte) word }
{
    if byte == 0 { word < 2 } else { true }
}
