// The unknown wires that an expression waits for, over the sheet's bytes: those that its operands wait for, as far as they count.
// Rests on `count` for these, on `wires` for sets, on `sheet` for the table of kinds, and on `sheet_walk` for the walk past the others.
ghost use Rattle.std.specs.Prelude.{◌≡◌, ℕ, ◌<◌};
ghost use Rattle.expression.specs.Places.{Placed, kind_at};
ghost use Rattle.waiting.specs.Waiting.{Behind, AwaitsAt};

use crate::count;
use expression::Basis;
use sheet::kinds::Kind;
use sheet_walk::{Place, skip};
use wires::Wires;

// The unknown wires that an expression waits for, and the end of the expression.
#[derive(Clone, Copy)]
pub struct Waited {
    pub wires: Wires,
    pub end: Place,
}

// The walk past so many expressions.
fn skip_all(sheet: &[u8], here: Place, count: usize) -> Place
    requires { (n : ℕ) × (j : ℕ) × Behind sheet.now count here.at here.cell n j }
    ensures { (n j : ℕ) → Behind sheet.now count here.at here.cell n j → result ≡ record { at = n; cell = j } }
{
    let mut end = here;
    for _passed in 0..count {
        end = skip(sheet, end);
    }
    end
}

// A constant or an input waits for nothing, a wire for itself where it is unknown.
fn awaited_leaf(basis: &Basis, level: usize, here: Place, fresh: bool) -> Waited
    requires placed { Placed basis.now level here }
    requires at_bound { kind_at basis.now here < 4 }
    ensures { AwaitsAt basis.now level here fresh result }
{
    let kind = Kind::of(basis.sheet[here.at]);
    let end = Place {
        at: here.at + 1 + kind.body(),
        ..here
    };
    let none = Wires::none();
    let wires = match kind {
        Kind::Wire => none
            .with(basis.sheet[here.at + 1] as usize)
            .minus(basis.known),
        _ => none,
    };
    Waited { wires, end }
}

// The unknown wires that the expression which stands here waits for.
pub fn awaited(basis: &Basis, level: usize, here: Place, fresh: bool) -> Waited
    requires { Placed basis.now level here }
    ensures { AwaitsAt basis.now level here fresh result }
{
    if Kind::of(basis.sheet[here.at]).is_leaf() {
        return awaited_leaf(basis, level, here, fresh);
    }
    let counted = count::count(basis, level, here, fresh);
    let mut found = Wires::none();
    let mut next = counted.here;
    for _passed in 0..counted.operands {
        let operand = awaited(basis, level - 1, next, counted.fresh);
        found = found.joined(operand.wires);
        next = operand.end;
    }
    Waited {
        wires: found,
        end: skip_all(basis.sheet, next, counted.rest),
    }
}
