// The cell that an expression owns, as it is at the start.
// Rests on `kinds` and `bodies` for the expression, and on `data` and `memory` for the cell.
#![tactic(auto)]

ghost use Rattle.std.specs.Prelude.{◌≡◌, ◌+◌, ◌*◌, ◌≤◌, length, get_or};
ghost use Rattle.std.proofs.lemmas.List.Edits.{sets};
ghost use Rattle.sheet.specs.Readings.{body_at, Whole};
ghost use Rattle.sheet.specs.Memory.{own_cell};
ghost use Rattle.sheet_cells.specs.Owned.{own_bytes};

use sheet::kinds::Kind;
use sheet::{Cell, Datum, bodies, data, memory};

// Puts the cell that the expression at `at` owns, if it owns one, as the cell with number k.
pub fn put_own(sheet: &[u8], at: usize, memory: &mut [u8], k: usize)
    requires whole { Whole sheet.now at }
    requires at_in_bounds { 5 * k + length (own_bytes sheet.now at) ≤ length memory.old }
    ensures { memory.new ≡ sets memory.old (5 * k) (own_bytes sheet.now at) }
{
    if Kind::of(sheet[at]).cells() != 0 {
        memory::put_cell(memory, k, own_cell(sheet, at));
    }
}

// The cell of the expression at `at`, as it is at the start: a pre's has its constant, a machine's is false, which is state 0, and an fby's is
// not started. No other kind owns one.
pub fn own_cell(sheet: &[u8], at: usize) -> Cell
    requires { Whole sheet.now at }
    ensures { result ≡ own_cell (get_or sheet.now at 0) (body_at sheet.now at) }
{
    let kind = Kind::of(sheet[at]);
    match kind {
        Kind::BooleanPre | Kind::NumberPre => {
            let constant = bodies::body_at(sheet, at);
            Cell::Started(data::datum_of(kind.own_type(), constant))
        }
        Kind::Machine => Cell::Started(Datum::Boolean(false)),
        _ => Cell::NotStarted,
    }
}
