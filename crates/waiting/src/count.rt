// Which operands of an expression count, where its value is unknown (document 02, K5): those from which it is worked out.
// Rests on `expression` for the value of a condition, on `cells` of `leaves`, on `sheet` for the table of kinds, and on `sheet_walk`.
ghost use Rattle.std.specs.Prelude.{◌≡◌, ◌≤◌};
ghost use Rattle.expression.specs.Places.{Placed, kind_at};
ghost use Rattle.waiting.specs.Waiting.{CountsAt};

use expression::{Basis, value};
use leaves::cells;
use sheet::kinds::Kind;
use sheet_walk::{Place, skip, skip_if};

// The operands from which an unknown value is worked out: so many, one behind the other from here on, whether they are fresh, and how many
// others stand behind them.
#[derive(Clone, Copy)]
pub struct Counted {
    pub here: Place,
    pub operands: usize,
    pub rest: usize,
    pub fresh: bool,
}

// Of a present, kind 13: the condition while it is unknown, and then the chosen arm. A known condition waits for nothing.
fn count_present(basis: &Basis, level: usize, here: Place, fresh: bool) -> Counted
    requires placed { Placed basis.now level here }
    requires at_value { kind_at basis.now here ≡ 13 }
    ensures { CountsAt basis.now level here fresh result }
{
    let first = Place {
        at: here.at + 1,
        ..here
    };
    let Some(condition) = value::value_expression(basis, level - 1, first, fresh) else {
        return Counted {
            here: first,
            operands: 1,
            rest: 2,
            fresh,
        };
    };
    if condition.word == 1 {
        return Counted {
            here: condition.end,
            operands: 1,
            rest: 1,
            fresh,
        };
    }
    Counted {
        here: skip(basis.sheet, condition.end),
        operands: 1,
        rest: 0,
        fresh,
    }
}

// Of a reset, kind 14: the condition while it is unknown, and then the operand, which a true condition makes fresh.
fn count_reset(basis: &Basis, level: usize, here: Place, fresh: bool) -> Counted
    requires placed { Placed basis.now level here }
    requires at_value { kind_at basis.now here ≡ 14 }
    ensures { CountsAt basis.now level here fresh result }
{
    let first = Place {
        at: here.at + 1,
        ..here
    };
    let Some(condition) = value::value_expression(basis, level - 1, first, fresh) else {
        return Counted {
            here: first,
            operands: 1,
            rest: 1,
            fresh,
        };
    };
    Counted {
        here: condition.end,
        operands: 1,
        rest: 0,
        fresh: (condition.word == 1) | fresh,
    }
}

// Of an fby, kind 17: the left operand, unless its cell is seen as started.
fn count_fby(basis: &Basis, level: usize, here: Place, fresh: bool) -> Counted
    requires placed { Placed basis.now level here }
    requires at_value { kind_at basis.now here ≡ 17 }
    ensures { CountsAt basis.now level here fresh result }
{
    let first = Place {
        at: here.at + 1,
        cell: here.cell + 1,
    };
    if cells::is_seen(basis.memory, here.cell, fresh) {
        return Counted {
            here: first,
            operands: 0,
            rest: 2,
            fresh,
        };
    }
    Counted {
        here: first,
        operands: 1,
        rest: 1,
        fresh,
    }
}

// Of a machine, kind 19: the condition that is asked while it is unknown, and then the body that runs, which is fresh where its state is
// entered.
fn count_machine(basis: &Basis, level: usize, here: Place, fresh: bool) -> Counted
    requires placed { Placed basis.now level here }
    requires at_value { kind_at basis.now here ≡ 19 }
    ensures { CountsAt basis.now level here fresh result }
{
    let first = Place {
        at: here.at + 1,
        cell: here.cell + 1,
    };
    let state = cells::is_second_state(basis.memory, here.cell, fresh);
    let asked = skip_if(state, basis.sheet, first);
    let Some(condition) = value::value_expression(basis, level - 1, asked, fresh) else {
        return Counted {
            here: asked,
            operands: 1,
            rest: 2 + !state as usize,
            fresh,
        };
    };
    let bodies = skip_if(!state, basis.sheet, condition.end);
    let holds = condition.word == 1;
    let second = state != holds;
    let run = skip_if(second, basis.sheet, bodies);
    Counted {
        here: run,
        operands: 1,
        rest: !second as usize,
        fresh: holds | fresh,
    }
}

// By the kind: of any other all operands that are read within the instant, whatever their values.
pub fn count(basis: &Basis, level: usize, here: Place, fresh: bool) -> Counted
    requires placed { Placed basis.now level here }
    requires bound { 4 ≤ kind_at basis.now here }
    ensures { CountsAt basis.now level here fresh result }
{
    let kind = Kind::of(basis.sheet[here.at]);
    match kind {
        Kind::Present => count_present(basis, level, here, fresh),
        Kind::Reset => count_reset(basis, level, here, fresh),
        Kind::Fby => count_fby(basis, level, here, fresh),
        Kind::Machine => count_machine(basis, level, here, fresh),
        _ => {
            let operands = kind.read_operands();
            Counted {
                here: Place {
                    at: here.at + 1 + kind.body(),
                    cell: here.cell + kind.cells(),
                },
                operands,
                rest: kind.operands() - operands,
                fresh,
            }
        }
    }
}
