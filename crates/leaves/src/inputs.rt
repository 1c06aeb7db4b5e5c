// The inputs' words, put behind those of the wires. Rests on `numbers` for the words of a row.
ghost use Rattle.std.specs.Prelude.{◌≡◌, ◌≤◌, length};
ghost use Rattle.leaves.specs.Words.{word_count, InputsPut};

use crate::leaf;

// Puts the entries of an input row; what the words of the wires become is free, as none is known yet.
pub fn put_inputs(input: &[u8], words: &mut [u32; 144])
    requires { (length input.now ≤ 64) × (length words.old ≡ word_count) }
    ensures { InputsPut input.now words.new × (length words.new ≡ word_count) }
{
    for i in 0..input.len() / 4 {
        words[leaf::FIRST_INPUT + i] = numbers::word_at(input, 4 * i);
    }
}
