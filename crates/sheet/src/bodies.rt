// The body behind a kind byte, in one byte or in four. Rests on `kinds` for its length and on `numbers` for its word.
ghost use Rattle.std.specs.Prelude.{◌≡◌};
ghost use Rattle.sheet.specs.Readings.{named_at, body_at, Whole};

use crate::kinds::Kind;

// The number that a body of one byte holds; 0 where the body is another.
pub fn named_at(sheet: &[u8], at: usize) -> u8
    requires { Whole sheet.now at }
    ensures { result ≡ named_at sheet.now at }
{
    if Kind::of(sheet[at]).body() == 1 {
        sheet[at + 1]
    } else {
        0
    }
}

// The number that the body holds, in one byte or in four.
pub fn body_at(sheet: &[u8], at: usize) -> u32
    requires { Whole sheet.now at }
    ensures { result ≡ body_at sheet.now at }
{
    if Kind::of(sheet[at]).body() == 4 {
        numbers::word_at(sheet, at + 1)
    } else {
        named_at(sheet, at) as u32
    }
}
