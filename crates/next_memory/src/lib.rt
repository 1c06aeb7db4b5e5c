// The next memory: one wire after the other stores its word, where it is kept, and its expression advances, where that may own cells.
// Rests on `advance` of `storing` for one expression, on `memory` for the cell of a kept wire, and on the map for where a wire stands.
#![tactic(auto)]

ghost use Rattle.std.specs.Prelude.{◌≡◌, false, ◌+◌, ◌-◌, ◌*◌, ◌<◌, ◌≤◌, length, get_or};
ghost use Rattle.std.proofs.lemmas.List.Edits.{sets};
ghost use Rattle.sheet.specs.Data.{wire_type, datum_of};
ghost use Rattle.sheet.specs.Sheets.{own_cells};
ghost use Rattle.sheet.specs.Memory.{memory_bytes};
ghost use Rattle.kernel.proofs.Laws.Kept.{own_stored};
ghost use Rattle.kernel.specs.declared.Value.TheVariants.{Known};
ghost use Rattle.rounds.specs.Settled.{Settled, stored_of};

use sheet::{Cell, data, memory};
use sheet_expressions::map::{self, Map};
use sheet_walk::Place;
use storing::advance::{self, Fixed};

// Stores the cells of all wires under the finished values, which the words hold. These are just what the expressions give, so that a kept wire's
// word is stored as it is, and nothing is worked out again where an expression owns no cell. The memory is written, so that it stands in no
// struct with what is only read.
pub fn store(sheet: &[u8], memory: &mut [u8], types: &[u8], map: &Map, words: &[u32; 144])
    requires { Settled sheet.now memory.old types.now map.now.places map.now.firsts words.now }
    ensures { (f : Settled sheet.now memory.old types.now map.now.places map.now.firsts words.now)
        → memory.new ≡ stored_of f }
{
    let fixed = Fixed { sheet, words };
    for w in 0..types.len() {
        let here = Place {
            at: map::place(map.places[w]),
            cell: numbers::length_of(map.firsts[w]),
        };
        store_own(memory, types[w], words[w], here.cell);
        if may_own(types, &map.firsts, w, here.cell) {
            advance::advance_expression(&fixed, memory, 16, data::plain(types[w]), here, false);
        }
    }
}

// Stores the word of a wire with this type byte in the wire's own cell, if it is kept: the one before `cell`, the first of its expression.
fn store_own(memory: &mut [u8], byte: u8, word: u32, cell: usize)
    requires { (own_cells byte ≤ cell) × (5 * cell ≤ length memory.old) }
    ensures { memory.new
        ≡ sets memory.old (5 * (cell - own_cells byte)) (memory_bytes (own_stored byte (Known (datum_of (wire_type byte) word)))) }
{
    if data::is_kept(byte) {
        let value = data::datum_of(data::plain(byte), word);
        memory::put_cell(memory, cell - 1, Cell::Started(value));
    }
}

// Whether the expression of wire w, whose first cell would be `cell`, may own cells: w is the last wire, or the next wire's expression has
// another first cell than if that of w owned none.
fn may_own(types: &[u8], firsts: &[u8; 64], w: usize, cell: usize) -> bool
    requires { (w < length types.now) × (length types.now ≤ 64) × (cell < 256) }
    ensures { result ≡ false → (w + 1 < length types.now)
        × (get_or firsts.now (w + 1) 0 ≡ cell + own_cells (get_or types.now (w + 1) 0)) }
{
    let next = w + 1;
    if types.len() <= next {
        return true;
    }
    let mut following = cell;
    if data::is_kept(types[next]) {
        following += 1;
    }
    numbers::length_of(firsts[next]) != following
}
