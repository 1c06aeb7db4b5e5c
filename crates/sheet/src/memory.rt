// One cell of a memory, read and stored: 5 bytes, a mark and a value. Rests on `data` and on `numbers` for the value's word.
ghost use Rattle.std.specs.Prelude.{◌≡◌, ◌+◌, ◌*◌, ◌≤◌, not, ◌∷◌, eqb, length};
ghost use Rattle.std.proofs.lemmas.List.Edits.{sets};
ghost use Rattle.numbers.specs.Words.{word_bytes};
ghost use Rattle.sheet.specs.Memory.{mark_at, cell_word_at, cell_bytes};

use crate::{Cell, data};

// Whether the cell with number k is started.
pub fn is_started(memory: &[u8], k: usize) -> bool
    requires { 5 * k + 5 ≤ length memory.now }
    ensures { result ≡ not (eqb (mark_at memory.now k) 0) }
{
    memory[5 * k] != 0
}

// The word of its value.
pub fn word_in(memory: &[u8], k: usize) -> u32
    requires { 5 * k + 5 ≤ length memory.now }
    ensures { result ≡ cell_word_at memory.now k }
{
    numbers::word_at(memory, 5 * k + 1)
}

// Stores the cell with number k, and changes nothing else.
pub fn put_cell(memory: &mut [u8], k: usize, cell: Cell)
    requires { 5 * k + 5 ≤ length memory.old }
    ensures { memory.new ≡ sets memory.old (5 * k) (cell_bytes cell) }
{
    let at = 5 * k;
    match cell {
        Cell::NotStarted => put_bytes(memory, at, 0, 0),
        Cell::Started(datum) => put_bytes(memory, at, 1, data::word_of(datum)),
    }
}

// Stores a mark and behind it a value, and changes nothing else.
fn put_bytes(memory: &mut [u8], at: usize, mark: u8, value: u32)
    requires { at + 5 ≤ length memory.old }
    ensures { memory.new ≡ sets memory.old at (mark ∷ word_bytes value) }
{
    memory[at] = mark;
    numbers::put_word(memory, at + 1, value);
}
