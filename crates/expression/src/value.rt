// The value of an expression, if it is known. An operand that is unknown ends it.
// Rests on `operations` for what a kind does with its operands, on `leaf`, `lasts` and `cells` of `leaves`, on `sheet` for the table of kinds,
// and on `sheet_walk` for the walk past an operand.
ghost use Rattle.std.specs.Prelude.{◌≡◌, false, ◌≤◌, ◌<◌};
ghost use Rattle.expression.specs.Places.{Placed, YieldsAt, kind_at};

use crate::Basis;
use leaves::{Valued, cells, lasts, leaf};
use sheet::kinds::Kind;
use sheet::memory;
use sheet_walk::{Place, skip, skip_if};

// The value of the expression that stands here. One without operands is valued without a call of its own: these are half of all.
// It is folded into each caller: as a function of its own it hands a value back through memory, and a sheet of ifs takes 1.4 times as long.
#[cycle(valuing)]
#[inline(always)]
pub fn value_expression(basis: &Basis, level: usize, here: Place, fresh: bool) -> Option<Valued>
    requires { Placed basis.now level here }
    ensures { YieldsAt basis.now level here fresh result }
{
    if Kind::of(basis.sheet[here.at]).is_leaf() {
        return leaf::value_leaf(basis.sheet, basis.known, basis.words, here).ok();
    }
    value_by_kind(basis, level, here, fresh)
}

// The value of a whole wire's expression, which is not fresh. A leaf, as each wire of a chain is, takes no call; what is lent is copied
// behind that test, so that it stands in memory for the others alone.
pub(crate) fn value_whole(basis: &Basis, here: Place) -> Option<Valued>
    requires { Placed basis.now 16 here }
    ensures { YieldsAt basis.now 16 here false result }
{
    if Kind::of(basis.sheet[here.at]).is_leaf() {
        return leaf::value_leaf(basis.sheet, basis.known, basis.words, here).ok();
    }
    let lent = *basis;
    value_by_kind(&lent, 16, here, false)
}

// The value of an operation on one operand, kinds 4 and 5.
#[cycle(valuing)]
fn value_unary(basis: &Basis, level: usize, here: Place, fresh: bool) -> Option<Valued>
    requires placed { Placed basis.now level here }
    requires bound { (4 ≤ kind_at basis.now here) × (kind_at basis.now here < 6) }
    ensures { YieldsAt basis.now level here fresh result }
{
    let below = level - 1;
    let first = Place {
        at: here.at + 1,
        ..here
    };
    let operand = value_expression(basis, below, first, fresh)?;
    Some(Valued {
        word: operations::unary(basis.sheet[here.at], operand.word),
        end: operand.end,
    })
}

// The value of an operation on two operands, kinds 6 to 11.
#[cycle(valuing)]
fn value_binary(basis: &Basis, level: usize, here: Place, fresh: bool) -> Option<Valued>
    requires placed { Placed basis.now level here }
    requires bound { (6 ≤ kind_at basis.now here) × (kind_at basis.now here < 12) }
    ensures { YieldsAt basis.now level here fresh result }
{
    let below = level - 1;
    let first = Place {
        at: here.at + 1,
        ..here
    };
    let left = value_expression(basis, below, first, fresh)?;
    let right = value_expression(basis, below, left.end, fresh)?;
    Some(Valued {
        word: operations::binary(basis.sheet[here.at], left.word, right.word),
        end: right.end,
    })
}

// The value of an if, kind 12: all three operands are valued.
#[cycle(valuing)]
fn value_conditional(basis: &Basis, level: usize, here: Place, fresh: bool) -> Option<Valued>
    requires placed { Placed basis.now level here }
    requires at_value { kind_at basis.now here ≡ 12 }
    ensures { YieldsAt basis.now level here fresh result }
{
    let below = level - 1;
    let first = Place {
        at: here.at + 1,
        ..here
    };
    let condition = value_expression(basis, below, first, fresh)?;
    let then = value_expression(basis, below, condition.end, fresh)?;
    let otherwise = value_expression(basis, below, then.end, fresh)?;
    Some(Valued {
        word: operations::choose(condition.word == 1, then.word, otherwise.word),
        end: otherwise.end,
    })
}

// The value of a present, kind 13: the arm that the condition takes is valued, and the other passed over. An arm is seldom a leaf,
// and goes by its kind at once.
#[cycle(valuing)]
fn value_present(basis: &Basis, level: usize, here: Place, fresh: bool) -> Option<Valued>
    requires placed { Placed basis.now level here }
    requires at_value { kind_at basis.now here ≡ 13 }
    ensures { YieldsAt basis.now level here fresh result }
{
    let below = level - 1;
    let first = Place {
        at: here.at + 1,
        ..here
    };
    let condition = value_expression(basis, below, first, fresh)?;
    if condition.word == 1 {
        let yes = value_by_kind(basis, below, condition.end, fresh)?;
        return Some(Valued {
            word: yes.word,
            end: skip(basis.sheet, yes.end),
        });
    }
    let no = skip(basis.sheet, condition.end);
    value_by_kind(basis, below, no, fresh)
}

// The value of a reset, kind 14: a true condition makes its operand fresh.
#[cycle(valuing)]
fn value_reset(basis: &Basis, level: usize, here: Place, fresh: bool) -> Option<Valued>
    requires placed { Placed basis.now level here }
    requires at_value { kind_at basis.now here ≡ 14 }
    ensures { YieldsAt basis.now level here fresh result }
{
    let below = level - 1;
    let first = Place {
        at: here.at + 1,
        ..here
    };
    let condition = value_expression(basis, below, first, fresh)?;
    let anew = (condition.word == 1) | fresh;
    value_by_kind(basis, below, condition.end, anew)
}

// The value of a pre, kinds 15 and 16, which its cell has or its constant; its operand is passed over.
fn value_pre(basis: &Basis, level: usize, here: Place, fresh: bool) -> Option<Valued>
    requires placed { Placed basis.now level here }
    requires bound { (15 ≤ kind_at basis.now here) × (kind_at basis.now here < 17) }
    ensures { YieldsAt basis.now level here fresh result }
{
    let operand = Place {
        at: here.at + 1 + Kind::of(basis.sheet[here.at]).body(),
        cell: here.cell + 1,
    };
    Some(Valued {
        word: cells::pre_word(basis.sheet, basis.memory, here.at, here.cell, fresh),
        end: skip(basis.sheet, operand),
    })
}

// The value of a machine, kind 19: the condition of the current state is asked, and by it a body runs, which is fresh where its state is
// entered; the other two operands are passed over.
#[cycle(valuing)]
fn value_machine(basis: &Basis, level: usize, here: Place, fresh: bool) -> Option<Valued>
    requires placed { Placed basis.now level here }
    requires at_value { kind_at basis.now here ≡ 19 }
    ensures { YieldsAt basis.now level here fresh result }
{
    let below = level - 1;
    let state = cells::is_second_state(basis.memory, here.cell, fresh);
    let first = Place {
        at: here.at + 1,
        cell: here.cell + 1,
    };
    let asked = skip_if(state, basis.sheet, first);
    let condition = value_expression(basis, below, asked, fresh)?;
    let bodies = skip_if(!state, basis.sheet, condition.end);
    let holds = condition.word == 1;
    let second = state != holds;
    let run = skip_if(second, basis.sheet, bodies);
    let anew = holds | fresh;
    let body = value_by_kind(basis, below, run, anew)?;
    Some(Valued {
        word: body.word,
        end: skip_if(!second, basis.sheet, body.end),
    })
}

// The value of an fby, kind 17: its cell's where it sees it started, and else its left operand's.
#[cycle(valuing)]
fn value_fby(basis: &Basis, level: usize, here: Place, fresh: bool) -> Option<Valued>
    requires placed { Placed basis.now level here }
    requires at_value { kind_at basis.now here ≡ 17 }
    ensures { YieldsAt basis.now level here fresh result }
{
    let below = level - 1;
    let first = Place {
        at: here.at + 1,
        cell: here.cell + 1,
    };
    if cells::is_seen(basis.memory, here.cell, fresh) {
        let right = skip(basis.sheet, first);
        return Some(Valued {
            word: memory::word_in(basis.memory, here.cell),
            end: skip(basis.sheet, right),
        });
    }
    let left = value_expression(basis, below, first, fresh)?;
    Some(Valued {
        word: left.word,
        end: skip(basis.sheet, left.end),
    })
}

// The value of an expression by its kind.
#[cycle(valuing)]
fn value_by_kind(basis: &Basis, level: usize, here: Place, fresh: bool) -> Option<Valued>
    requires { Placed basis.now level here }
    ensures { YieldsAt basis.now level here fresh result }
{
    match Kind::of(basis.sheet[here.at]) {
        Kind::BooleanConstant | Kind::NumberConstant | Kind::Wire | Kind::Input => {
            leaf::value_leaf(basis.sheet, basis.known, basis.words, here).ok()
        }
        Kind::Conditional => value_conditional(basis, level, here, fresh),
        Kind::Present => value_present(basis, level, here, fresh),
        Kind::Reset => value_reset(basis, level, here, fresh),
        Kind::BooleanPre | Kind::NumberPre => value_pre(basis, level, here, fresh),
        Kind::Fby => value_fby(basis, level, here, fresh),
        Kind::Last => Some(lasts::value_last(basis.sheet, basis.words, here)),
        Kind::Machine => value_machine(basis, level, here, fresh),
        Kind::Not | Kind::Negate => value_unary(basis, level, here, fresh),
        _ => value_binary(basis, level, here, fresh),
    }
}
