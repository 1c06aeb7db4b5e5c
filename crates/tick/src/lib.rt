// The tick of a board: all checks, then the first due sheet in ring order is served, on its own parts of memory and rows. Rests on `board_frame` and
// `board_check` for the checks, on `board_marks` for the marks and the ring, and on `board_serving` for the instant.
#![tactic(auto)]

ghost use Rattle.std.specs.Prelude.{◌≡◌};
ghost use Rattle.board.specs.Serving.{every_cell};
ghost use Rattle.board.specs.Ticks.{tick_call, served_answer, packed_tick, PackableTick};
ghost use Rattle.tick.specs.Ticking.{turn_of, Leaves, Parted, ServesPart};

use board::{Standing, Ticked};
use board_check::Span;
use sheet::{Refusal, Refused};

// The tick: 22, 1 to 11 of each sheet and 12 to 16 of the whole refuse it, and then nothing is changed, marks and number neither; else the
// due marks are stored, and the first due sheet after the one served last is served: its mark is cleared, and its number kept.
// The buffers stay parameters of their own: two are lent for writing, and `memory.old` behind a struct's loan reads no plainer.
pub fn tick(
    board: &[u8],
    memory: &mut [u8],
    input: &[u8],
    output: &mut [u8],
    due: u8,
    restart: u8,
    standing: &mut Standing,
) -> Result<Ticked, Refused>
    ensures { Leaves (tick_call every_cell board.now
        (turn_of memory.old input.now output.old due restart) standing.old)
        result standing.new memory.new output.new }
{
    let count = board_frame::frame(board)?;
    let marks = board_marks::due_marks(due, standing.stored, count);
    let sheet = board_marks::first_due(marks, count, standing.number);
    let span = board_check::check(board, count, sheet, memory, input, output)?;
    if sheet == count {
        standing.stored = board_marks::byte_of(marks);
        return Ok(Ticked::NoneDue);
    }
    let restarts = board_marks::set_of(restart).has(sheet);
    let answer = serve_part(board, memory, input, output, span, restarts);
    standing.stored = board_marks::byte_of(marks.without(sheet));
    standing.number = sheet as u8;
    Ok(served(sheet, answer))
}

// What a tick answers that serves a sheet, by its instant.
fn served(sheet: usize, answer: Result<usize, Refused>) -> Ticked
    ensures { result ≡ served_answer sheet answer }
{
    match answer {
        Err(Refused { why: _, place }) => Ticked::LeftUnknown { sheet, wire: place },
        Ok(rounds) => Ticked::Served { sheet, rounds },
    }
}

// Lends a sheet its own parts, and nothing else of memory and rows.
fn serve_part(
    board: &[u8],
    memory: &mut [u8],
    input: &[u8],
    output: &mut [u8],
    span: Span,
    restarts: bool,
) -> Result<usize, Refused>
    requires { Parted board.now memory.old input.now output.old span }
    ensures { (p : Parted board.now memory.old input.now output.old span)
        → ServesPart p restarts result memory.new output.new }
{
    let from = span.from;
    let to = span.to;
    let sheet_from = from.at + 2;
    let sheet_to = to.at;
    let cells_from = 5 * from.cells;
    let cells_to = 5 * to.cells;
    let inputs_from = 4 * from.inputs;
    let inputs_to = 4 * to.inputs;
    let outputs_from = 4 * from.outputs;
    let outputs_to = 4 * to.outputs;
    board_serving::serve(
        &board[sheet_from..sheet_to],
        &mut memory[cells_from..cells_to],
        &input[inputs_from..inputs_to],
        &mut output[outputs_from..outputs_to],
        restarts,
    )
}

// The answer as one number: the rounds, 0 where none is due, or the packed refusal.
pub fn packed(answer: Result<Ticked, Refused>) -> u32
    requires { PackableTick answer }
    ensures { result ≡ packed_tick answer }
{
    match answer {
        Err(refused) => refused.packed(),
        Ok(Ticked::NoneDue) => 0,
        Ok(Ticked::Served { sheet: _, rounds }) => rounds as u32,
        Ok(Ticked::LeftUnknown { sheet: _, wire }) => Refusal::StaysUnknown.at(wire).packed(),
    }
}
