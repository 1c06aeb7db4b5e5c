// What the cells of kept wires hold, as words behind those of the inputs, and kind 18, which gives the one of the wire that it names. They
// are put before anything is stored, as every stored value is taken from the old memory. Rests on `memory` for a cell's word.
ghost use Rattle.std.specs.Prelude.{◌≡◌, ℕ, ◌≤◌, ◌<◌, length, get_or};
ghost use Rattle.leaves.specs.Words.{first_last, word_count, KeptCells, LastsPut};
ghost use Rattle.leaves.specs.Leaves.{Last, last_word, last_valued};

use crate::Valued;
use sheet::{data, memory};
use sheet_walk::Place;

// Where these words begin, behind those of all inputs that there can be.
pub const FIRST_LAST: usize = 80;

// Puts the words of the kept wires' cells, by the types and first cells of the wires; the words before them stay.
pub fn put_lasts(types: &[u8], firsts: &[u8; 64], memory: &[u8], words: &mut [u32; 144])
    requires { KeptCells types.now firsts.now memory.now × (length types.now ≤ 64) × (length words.old ≡ word_count) }
    ensures { LastsPut types.now firsts.now memory.now words.new
        × (length words.new ≡ word_count)
        × ((i : ℕ) → i < first_last → get_or words.new i 0 ≡ get_or words.old i 0) }
{
    for (w, byte) in types.iter().enumerate() {
        if data::is_kept(*byte) {
            words[FIRST_LAST + w] = memory::word_in(memory, numbers::length_of(firsts[w]) - 1);
        }
    }
}

// The word that kind 18 gives.
fn word_of(sheet: &[u8], words: &[u32; 144], at: usize) -> u32
    requires { Last sheet.now at }
    ensures { result ≡ last_word sheet.now words.now at }
{
    words[FIRST_LAST + sheet[at + 1] as usize]
}

// Its value, which is known; it has no cells.
pub fn value_last(sheet: &[u8], words: &[u32; 144], here: Place) -> Valued
    requires { Last sheet.now here.at }
    ensures { result ≡ last_valued sheet.now words.now here }
{
    Valued {
        word: word_of(sheet, words, here.at),
        end: Place {
            at: here.at + 2,
            cell: here.cell,
        },
    }
}
