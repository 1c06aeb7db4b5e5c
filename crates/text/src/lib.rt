// Text, put piece after piece into a lent buffer.
// Rests on `numbers` for the numbers of an output row.
#![tactic(auto)]

ghost use Rattle.std.specs.Prelude.{◌≡◌, ◌+◌, ◌*◌, ◌≤◌, [], ◌∷◌, length};
ghost use Rattle.text.specs.Buffers.{Puts};
ghost use Rattle.text.specs.Digits.{digits, decimal};
ghost use Rattle.text.specs.Pieces.{spaced, spaced_all, numbers_of};

// Puts bytes into a buffer at a place of their own. The place past them.
pub fn put_bytes(buffer: &mut [u8], at: usize, text: &[u8]) -> usize
    requires { at + length text.now ≤ length buffer.old }
    ensures { Puts buffer.old at text.now buffer.new result }
{
    let past = at + text.len();
    buffer[at..past].copy_from_slice(text);
    past
}

// The text that was put so far: the first `size` bytes of a lent buffer.
#[derive(Drop)]
pub struct Text<'a> {
    pub buffer: &'a mut [u8],
    pub size: usize,
}

impl<'a> Text<'a> {
    // No text yet, in a buffer that holds anything.
    pub fn new(buffer: &'a mut [u8]) -> Text<'a>
        ensures same_reference { result.buffer.ghost_name ≡ buffer.entry.ghost_name }
        ensures untouched { result.buffer.now ≡ buffer.old }
        ensures size { result.size ≡ 0 }
    {
        Text { buffer, size: 0 }
    }

    // Puts bytes as they are.
    pub fn put(&mut self, bytes: &[u8])
        requires { self.old.size + length bytes.now ≤ length self.old.buffer.now }
        ensures same_reference { self.new.buffer.ghost_name ≡ self.old.buffer.ghost_name }
        ensures same_length { length self.new.buffer.now ≡ length self.old.buffer.now }
        ensures puts { Puts self.old.buffer.now self.old.size bytes.now self.new.buffer.now self.new.size }
    {
        self.size = put_bytes(self.buffer, self.size, bytes);
    }

    // Puts one byte.
    pub fn put_byte(&mut self, byte: u8)
        requires { self.old.size + 1 ≤ length self.old.buffer.now }
        ensures same_reference { self.new.buffer.ghost_name ≡ self.old.buffer.ghost_name }
        ensures same_length { length self.new.buffer.now ≡ length self.old.buffer.now }
        ensures puts { Puts self.old.buffer.now self.old.size (byte ∷ []) self.new.buffer.now self.new.size }
    {
        self.buffer[self.size] = byte;
        self.size += 1;
    }

    // Puts a number's digits: those of its tenth part, then the last one.
    // By hand and not by `write!`, whose contract allows an Err at any time: here (`Puts`) and in `lines` (`Holds`) nothing fails.
    pub fn put_digits(&mut self, n: u32)
        requires { self.old.size + 10 ≤ length self.old.buffer.now }
        ensures same_reference { self.new.buffer.ghost_name ≡ self.old.buffer.ghost_name }
        ensures same_length { length self.new.buffer.now ≡ length self.old.buffer.now }
        ensures puts { Puts self.old.buffer.now self.old.size (digits n) self.new.buffer.now self.new.size }
        ensures upper_bound { self.new.size ≤ self.old.size + 10 }
    {
        if n < 10 {
            self.put_byte(b'0' + n as u8);
            return;
        }
        self.put_digits(n / 10);
        self.put_byte(b'0' + (n % 10) as u8);
    }

    // Puts a signed number: a sign where it is below zero, then the digits of its magnitude.
    pub fn put_number(&mut self, z: i32)
        requires { self.old.size + 11 ≤ length self.old.buffer.now }
        ensures same_reference { self.new.buffer.ghost_name ≡ self.old.buffer.ghost_name }
        ensures same_length { length self.new.buffer.now ≡ length self.old.buffer.now }
        ensures puts { Puts self.old.buffer.now self.old.size (decimal z) self.new.buffer.now self.new.size }
        ensures upper_bound { self.new.size ≤ self.old.size + 11 }
    {
        if z < 0 {
            self.put_byte(b'-');
            self.put_digits(z.unsigned_abs());
            return;
        }
        self.put_digits(z.unsigned_abs());
    }

    // Puts a space and a number's digits.
    pub fn put_spaced(&mut self, n: u32)
        requires { self.old.size + 11 ≤ length self.old.buffer.now }
        ensures same_reference { self.new.buffer.ghost_name ≡ self.old.buffer.ghost_name }
        ensures same_length { length self.new.buffer.now ≡ length self.old.buffer.now }
        ensures puts { Puts self.old.buffer.now self.old.size (spaced n) self.new.buffer.now self.new.size }
        ensures upper_bound { self.new.size ≤ self.old.size + 11 }
    {
        self.put_byte(b' ');
        self.put_digits(n);
    }

    // Puts a space and the signed number for each four bytes of an output row.
    // The row is taken apart as its definition (`numbers_of`) does it, four bytes and the rest.
    pub fn put_numbers(&mut self, output: &[u8])
        requires { self.old.size + 3 * length output.now ≤ length self.old.buffer.now }
        ensures same_reference { self.new.buffer.ghost_name ≡ self.old.buffer.ghost_name }
        ensures same_length { length self.new.buffer.now ≡ length self.old.buffer.now }
        ensures puts { Puts self.old.buffer.now self.old.size (spaced_all (numbers_of output.now))
            self.new.buffer.now self.new.size }
        ensures upper_bound { self.new.size ≤ self.old.size + 3 * length output.now }
    {
        if output.len() < 4 {
            return;
        }
        self.put_byte(b' ');
        self.put_number(numbers::of_bits(numbers::word_at(output, 0)));
        self.put_numbers(&output[4..]);
    }
}
