// An expression advanced: its value, which is known under finished wires, and its cells stored in place. What an expression reads of the
// memory are its own cells, so that its operands advance one after the other in one memory.
// Rests on `operations`, on `leaf`, `lasts` and `cells` of `leaves`, and on `rest` for the operands that do not run.
ghost use Rattle.std.specs.Prelude.{◌≡◌, ◌≤◌, ◌<◌};
ghost use Rattle.storing.specs.Advances.{ReadyUnder, Advances, kind_under};

use crate::rest;
use leaves::{Valued, cells, lasts, leaf};
use sheet::kinds::Kind;
use sheet::{Cell, Datum, data, memory};
use sheet_walk::Place;

// What stays as it is while cells are stored: the sheet, and the words of the finished wires, of the inputs and of the kept wires' cells. It is
// lent as one, so that a call hands on one address.
#[derive(Clone, Copy)]
pub struct Fixed<'a> {
    pub sheet: &'a [u8],
    pub words: &'a [u32; 144],
}

// Advances the expression that stands here, of which the type byte `asked` is asked. One without operands has no cells, and is valued
// without a call of its own.
#[cycle(advancing)]
pub fn advance_expression(
    fixed: &Fixed,
    memory: &mut [u8],
    level: usize,
    asked: u8,
    here: Place,
    fresh: bool,
) -> Valued
    requires { ReadyUnder fixed.now memory.old level asked here }
    ensures { (p : ReadyUnder fixed.now memory.old level asked here) → Advances p fresh result memory.new }
{
    if Kind::of(fixed.sheet[here.at]).is_leaf() {
        return leaf::known_leaf(fixed.sheet, fixed.words, here);
    }
    advance_by_kind(fixed, memory, level, asked, here, fresh)
}

// An operation on one operand, kinds 4 and 5.
#[cycle(advancing)]
fn advance_unary(
    fixed: &Fixed,
    memory: &mut [u8],
    level: usize,
    asked: u8,
    here: Place,
    fresh: bool,
) -> Valued
    requires ready { ReadyUnder fixed.now memory.old level asked here }
    requires bound { (4 ≤ kind_under fixed.now here) × (kind_under fixed.now here < 6) }
    ensures { (p : ReadyUnder fixed.now memory.old level asked here) → Advances p fresh result memory.new }
{
    let kind = Kind::of(fixed.sheet[here.at]);
    let type_asked = kind.operation_type();
    let below = level - 1;
    let first = Place {
        at: here.at + 1,
        ..here
    };
    let operand = advance_expression(fixed, memory, below, type_asked, first, fresh);
    Valued {
        word: operations::unary(fixed.sheet[here.at], operand.word),
        end: operand.end,
    }
}

// An operation on two operands, kinds 6 to 11, which advance in turn.
#[cycle(advancing)]
fn advance_binary(
    fixed: &Fixed,
    memory: &mut [u8],
    level: usize,
    asked: u8,
    here: Place,
    fresh: bool,
) -> Valued
    requires ready { ReadyUnder fixed.now memory.old level asked here }
    requires bound { (6 ≤ kind_under fixed.now here) × (kind_under fixed.now here < 12) }
    ensures { (p : ReadyUnder fixed.now memory.old level asked here) → Advances p fresh result memory.new }
{
    let kind = Kind::of(fixed.sheet[here.at]);
    let type_asked = kind.operation_type();
    let below = level - 1;
    let first = Place {
        at: here.at + 1,
        ..here
    };
    let left = advance_expression(fixed, memory, below, type_asked, first, fresh);
    let right = advance_expression(fixed, memory, below, type_asked, left.end, fresh);
    Valued {
        word: operations::binary(fixed.sheet[here.at], left.word, right.word),
        end: right.end,
    }
}

// An if, kind 12: all three operands advance.
#[cycle(advancing)]
fn advance_conditional(
    fixed: &Fixed,
    memory: &mut [u8],
    level: usize,
    asked: u8,
    here: Place,
    fresh: bool,
) -> Valued
    requires ready { ReadyUnder fixed.now memory.old level asked here }
    requires at_value { kind_under fixed.now here ≡ 12 }
    ensures { (p : ReadyUnder fixed.now memory.old level asked here) → Advances p fresh result memory.new }
{
    let below = level - 1;
    let first = Place {
        at: here.at + 1,
        ..here
    };
    let condition = advance_expression(fixed, memory, below, 0, first, fresh);
    let then = advance_expression(fixed, memory, below, asked, condition.end, fresh);
    let otherwise = advance_expression(fixed, memory, below, asked, then.end, fresh);
    Valued {
        word: operations::choose(condition.word == 1, then.word, otherwise.word),
        end: otherwise.end,
    }
}

// A present, kind 13: the condition's arm advances, and the other rests.
#[cycle(advancing)]
fn advance_present(
    fixed: &Fixed,
    memory: &mut [u8],
    level: usize,
    asked: u8,
    here: Place,
    fresh: bool,
) -> Valued
    requires ready { ReadyUnder fixed.now memory.old level asked here }
    requires at_value { kind_under fixed.now here ≡ 13 }
    ensures { (p : ReadyUnder fixed.now memory.old level asked here) → Advances p fresh result memory.new }
{
    let below = level - 1;
    let first = Place {
        at: here.at + 1,
        ..here
    };
    let condition = advance_expression(fixed, memory, below, 0, first, fresh);
    if condition.word == 1 {
        let yes = advance_by_kind(fixed, memory, below, asked, condition.end, fresh);
        return Valued {
            word: yes.word,
            end: rest::rest(fixed.sheet, yes.end, fresh, memory),
        };
    }
    let no = rest::rest(fixed.sheet, condition.end, fresh, memory);
    advance_by_kind(fixed, memory, below, asked, no, fresh)
}

// A reset, kind 14: a true condition makes its operand fresh before that advances.
#[cycle(advancing)]
fn advance_reset(
    fixed: &Fixed,
    memory: &mut [u8],
    level: usize,
    asked: u8,
    here: Place,
    fresh: bool,
) -> Valued
    requires ready { ReadyUnder fixed.now memory.old level asked here }
    requires at_value { kind_under fixed.now here ≡ 14 }
    ensures { (p : ReadyUnder fixed.now memory.old level asked here) → Advances p fresh result memory.new }
{
    let below = level - 1;
    let first = Place {
        at: here.at + 1,
        ..here
    };
    let condition = advance_expression(fixed, memory, below, 0, first, fresh);
    let anew = (condition.word == 1) | fresh;
    advance_by_kind(fixed, memory, below, asked, condition.end, anew)
}

// A pre, kinds 15 and 16: its cell is read, then its operand advances, whose value the cell gets.
#[cycle(advancing)]
fn advance_pre(
    fixed: &Fixed,
    memory: &mut [u8],
    level: usize,
    asked: u8,
    here: Place,
    fresh: bool,
) -> Valued
    requires ready { ReadyUnder fixed.now memory.old level asked here }
    requires bound { (15 ≤ kind_under fixed.now here) × (kind_under fixed.now here < 17) }
    ensures { (p : ReadyUnder fixed.now memory.old level asked here) → Advances p fresh result memory.new }
{
    let below = level - 1;
    let first = Place {
        at: here.at + 1 + Kind::of(fixed.sheet[here.at]).body(),
        cell: here.cell + 1,
    };
    let word = cells::pre_word(fixed.sheet, memory, here.at, here.cell, fresh);
    let operand = advance_expression(fixed, memory, below, asked, first, fresh);
    memory::put_cell(
        memory,
        here.cell,
        Cell::Started(data::datum_of(asked, operand.word)),
    );
    Valued {
        word,
        end: operand.end,
    }
}

// A machine, kind 19: the condition of the current state advances, and by it a body, which is fresh where its state is entered; the other two
// operands rest. Its cell, which is read first, gets the state whose body ran.
#[cycle(advancing)]
fn advance_machine(
    fixed: &Fixed,
    memory: &mut [u8],
    level: usize,
    asked: u8,
    here: Place,
    fresh: bool,
) -> Valued
    requires ready { ReadyUnder fixed.now memory.old level asked here }
    requires at_value { kind_under fixed.now here ≡ 19 }
    ensures { (p : ReadyUnder fixed.now memory.old level asked here) → Advances p fresh result memory.new }
{
    let below = level - 1;
    let first = Place {
        at: here.at + 1,
        cell: here.cell + 1,
    };
    let state = cells::is_second_state(memory, here.cell, fresh);
    let start = rest::rest_if(state, fixed.sheet, first, fresh, memory);
    let condition = advance_expression(fixed, memory, below, 0, start, fresh);
    let bodies = rest::rest_if(!state, fixed.sheet, condition.end, fresh, memory);
    let holds = condition.word == 1;
    let second = state != holds;
    let run = rest::rest_if(second, fixed.sheet, bodies, fresh, memory);
    let anew = holds | fresh;
    let body = advance_by_kind(fixed, memory, below, asked, run, anew);
    let end = rest::rest_if(!second, fixed.sheet, body.end, fresh, memory);
    memory::put_cell(memory, here.cell, Cell::Started(Datum::Boolean(second)));
    Valued {
        word: body.word,
        end,
    }
}

// An fby, kind 17: its cell is read, then both its operands advance, and the cell gets the right one's value.
#[cycle(advancing)]
fn advance_fby(
    fixed: &Fixed,
    memory: &mut [u8],
    level: usize,
    asked: u8,
    here: Place,
    fresh: bool,
) -> Valued
    requires ready { ReadyUnder fixed.now memory.old level asked here }
    requires at_value { kind_under fixed.now here ≡ 17 }
    ensures { (p : ReadyUnder fixed.now memory.old level asked here) → Advances p fresh result memory.new }
{
    let below = level - 1;
    let first = Place {
        at: here.at + 1,
        cell: here.cell + 1,
    };
    let seen = cells::is_seen(memory, here.cell, fresh);
    let held = memory::word_in(memory, here.cell);
    let left = advance_expression(fixed, memory, below, asked, first, fresh);
    let right = advance_expression(fixed, memory, below, asked, left.end, fresh);
    memory::put_cell(
        memory,
        here.cell,
        Cell::Started(data::datum_of(asked, right.word)),
    );
    Valued {
        word: operations::choose(seen, held, left.word),
        end: right.end,
    }
}

// An expression by its kind.
#[cycle(advancing)]
fn advance_by_kind(
    fixed: &Fixed,
    memory: &mut [u8],
    level: usize,
    asked: u8,
    here: Place,
    fresh: bool,
) -> Valued
    requires { ReadyUnder fixed.now memory.old level asked here }
    ensures { (p : ReadyUnder fixed.now memory.old level asked here) → Advances p fresh result memory.new }
{
    match Kind::of(fixed.sheet[here.at]) {
        Kind::BooleanConstant | Kind::NumberConstant | Kind::Wire | Kind::Input => {
            leaf::known_leaf(fixed.sheet, fixed.words, here)
        }
        Kind::Conditional => advance_conditional(fixed, memory, level, asked, here, fresh),
        Kind::Present => advance_present(fixed, memory, level, asked, here, fresh),
        Kind::Reset => advance_reset(fixed, memory, level, asked, here, fresh),
        Kind::BooleanPre | Kind::NumberPre => advance_pre(fixed, memory, level, asked, here, fresh),
        Kind::Fby => advance_fby(fixed, memory, level, asked, here, fresh),
        Kind::Last => lasts::value_last(fixed.sheet, fixed.words, here),
        Kind::Machine => advance_machine(fixed, memory, level, asked, here, fresh),
        Kind::Not | Kind::Negate => advance_unary(fixed, memory, level, asked, here, fresh),
        _ => advance_binary(fixed, memory, level, asked, here, fresh),
    }
}
