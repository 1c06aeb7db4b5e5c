// The operations of kinds 4 to 11 on the words of their operands.
// Rests on `kernel` for what they mean, on `numbers` for arithmetic and comparison, and on `data` for the word of a Boolean.
#![tactic(auto)]

ghost use Rattle.std.specs.Prelude.{◌≡◌, cond};
ghost use Rattle.kernel.specs.Operations.{unary_of, binary_of};
ghost use Rattle.operations.specs.Words.{unary_word, binary_word};

use sheet::data;
use sheet::kinds::Kind;

// Not, and negate, as which every other kind counts.
pub fn unary(kind: u8, v: u32) -> u32
    ensures { result ≡ unary_word (unary_of kind) v }
{
    match Kind::try_from(kind) {
        Ok(Kind::Not) => data::word_of_bool(v != 1),
        _ => numbers::to_bits(numbers::negate(numbers::of_bits(v))),
    }
}

// And, or, add, subtract and less, and equal, as which every other kind counts.
pub fn binary(kind: u8, v: u32, w: u32) -> u32
    ensures { result ≡ binary_word (binary_of kind) v w }
{
    let m = numbers::of_bits(v);
    let n = numbers::of_bits(w);
    match Kind::try_from(kind) {
        Ok(Kind::And) => data::word_of_bool((v == 1) & (w == 1)),
        Ok(Kind::Or) => data::word_of_bool((v == 1) | (w == 1)),
        Ok(Kind::Add) => numbers::to_bits(numbers::add(m, n)),
        Ok(Kind::Subtract) => numbers::to_bits(numbers::subtract(m, n)),
        Ok(Kind::Less) => data::word_of_bool(numbers::less(m, n)),
        _ => data::word_of_bool(numbers::equal(m, n)),
    }
}

// The one of two words that a condition takes.
pub fn choose(condition: bool, v: u32, w: u32) -> u32
    ensures { result ≡ cond condition v w }
{
    if condition { v } else { w }
}
