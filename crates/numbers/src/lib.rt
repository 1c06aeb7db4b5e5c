// The 32-bit numbers that wires carry: their bits, what the operations make of them, and their four bytes in a row or a cell;
// and a byte as a length.
#![tactic(auto)]

ghost use Rattle.std.specs.Prelude.{◌≡◌, ◌+◌, ◌<◌, ◌≤◌, neg_ℤ, ◌+ℤ◌, ◌-ℤ◌, length};
ghost use Rattle.std.proofs.lemmas.List.Edits.{sets};
ghost use Rattle.std.specs.Int.Signed.{lt_z};
ghost use Rattle.std.specs.Int.{w32};
ghost use Rattle.std.proofs.Common.{of_z, to_z};
ghost use Rattle.numbers.specs.Numbers.{settled, equals};
ghost use Rattle.numbers.specs.Words.{word_at, word_bytes};

// The number whose 32 bits these are, in two's complement.
pub fn of_bits(bits: u32) -> i32
    ensures { result ≡ to_z w32 bits }
{
    bits.cast_signed()
}

// The 32 bits of a number, in two's complement.
pub fn to_bits(number: i32) -> u32
    ensures { result ≡ of_z w32 number }
{
    number.cast_unsigned()
}

// The one place that says what becomes of a result that 32 bits may not hold: it stops at the end that it passed.
// No `saturating_add` at each operation, as the rule would stand in three places.
fn settle(z: i64) -> i32
    ensures { result ≡ settled z }
{
    z.clamp(i32::MIN as i64, i32::MAX as i64) as i32
}

// The sum of two numbers, settled.
pub fn add(a: i32, b: i32) -> i32
    ensures { result ≡ settled (a +ℤ b) }
{
    settle(a as i64 + b as i64)
}

// The difference of two numbers, settled.
pub fn subtract(a: i32, b: i32) -> i32
    ensures { result ≡ settled (a -ℤ b) }
{
    settle(a as i64 - b as i64)
}

// A number with its sign changed, settled.
pub fn negate(a: i32) -> i32
    ensures { result ≡ settled (neg_ℤ a) }
{
    settle(-(a as i64))
}

// Whether the first number is the smaller one.
pub fn less(a: i32, b: i32) -> bool
    ensures { result ≡ lt_z a b }
{
    a < b
}

// Whether two numbers are the same.
pub fn equal(a: i32, b: i32) -> bool
    ensures { result ≡ equals a b }
{
    a == b
}

// The word at a place, lowest byte first.
pub fn word_at(bytes: &[u8], at: usize) -> u32
    requires { at + 4 ≤ length bytes.now }
    ensures { result ≡ word_at bytes.now at }
{
    u32::from_le_bytes([bytes[at], bytes[at + 1], bytes[at + 2], bytes[at + 3]])
}

// A byte as a length, public as its clause is cited: the prover knows the bounds of a parameter, but not those of an element.
pub fn length_of(byte: u8) -> usize
    ensures { (result ≡ byte) × (result < 256) }
{
    byte as usize
}

// Stores a word at a place, lowest byte first, and changes nothing else.
pub fn put_word(bytes: &mut [u8], at: usize, word: u32)
    requires { at + 4 ≤ length bytes.old }
    ensures { bytes.new ≡ sets bytes.old at (word_bytes word) }
{
    bytes[at..at + 4].copy_from_slice(&word.to_le_bytes());
}
