// The main loop of a meter: one board of a tariff, a relay and a display sheet, served tick after tick, with a line for each tick.
// Rests on `tick` for the tick, on `sheet_start` for each sheet's starting memory, on `text` for bytes, and on `std` for the output.
#![tactic(auto)]

ghost use Rattle.std.specs.Prelude.{◌≡◌, ◌≤◌, ◌<◌, length};

use board::{Standing, Ticked};
use sheet::Refused;
use std::io;
use text::{Text, put_bytes};

// A row for each tick: due marks and restart marks, 1 for the tariff, 2 for the relay and 4 for the display, and then all inputs
// in board order: pulse, night; contact, opened, service; button.
const TICKS: [[u8; 8]; 14] = [
    [7, 0, 1, 0, 1, 0, 0, 1], // all three are due: the tariff is served,
    [0, 0, 0, 0, 1, 0, 0, 1], // then the relay,
    [0, 0, 0, 0, 1, 0, 0, 1], // then the display
    [0, 0, 0, 0, 1, 0, 0, 0], // none is due
    [3, 0, 1, 0, 1, 0, 0, 0], // the tariff is served, and the relay waits
    [3, 0, 1, 1, 1, 0, 0, 0], // the relay is marked again while it waits, and served once
    [0, 0, 1, 1, 1, 0, 0, 0], // the tariff, marked in the tick before, is served
    [2, 0, 0, 1, 1, 1, 0, 0], // the cover is opened: the relay opens
    [252, 0, 0, 1, 1, 0, 0, 1], // the display is due, and marks above the count are dropped
    [5, 1, 1, 1, 1, 0, 0, 1], // the tariff is served from its starting memory
    [0, 0, 0, 1, 1, 0, 0, 1], // the display goes on from page 2 to page 0
    [2, 1, 0, 0, 1, 0, 1, 0], // a restart mark of the tariff counts for nothing where the relay is served; the tamper flag stays
    [1, 0, 1, 0, 1, 0, 0, 0], // the tariff goes on
    [248, 0, 0, 0, 1, 0, 0, 0], // no sheet has these marks
];

// Starts a new board, and makes its ticks, each with the stored marks and the number that the one before left.
// A write that fails ends it with that error.
fn main(rt: HostRuntime) -> io::Result<()> {
    let mut board = [0u8; 175];
    let mut memory = [0u8; 40];
    let mut output = [0u8; 32];
    put_board(&mut board);
    start(&board, &mut memory);
    let mut standing = Standing {
        stored: 0,
        number: 255,
    };
    for (row, given) in TICKS.iter().enumerate() {
        make_tick(
            &rt,
            row,
            given,
            &board,
            &mut memory,
            &mut output,
            &mut standing,
        )?;
    }
    Ok(())
}

// Puts the count and the three sheets, one behind the other: the places are those of the board, and the bytes those of the sheet on one page
// (README.md).
fn put_board(board: &mut [u8; 175]) {
    board[0] = 3;
    put_tariff(board);
    put_relay(board);
    put_display(board);
}

// Puts the tariff: the sheet of examples/tariff behind its length, with 2 inputs, 3 outputs and 2 cells.
fn put_tariff(board: &mut [u8; 175]) {
    put_bytes(board, 1, &[66, 0]);
    put_bytes(board, 3, &[2, 0, 0]); // Boolean inputs: pulse, night
    put_bytes(board, 6, &[4, 1, 1, 1, 1]); // number wires
    put_bytes(board, 11, &[3, 0, 1, 3]); // outputs: day, night, total
    put_bytes(board, 15, &[8, 16, 0, 0, 0, 0, 2, 0]); // wire 0, day: day before +
    put_bytes(board, 23, &[12, 3, 1, 1, 0, 0, 0, 0, 2, 2]); // (if night then 0 else step)
    put_bytes(board, 33, &[8, 16, 0, 0, 0, 0, 2, 1]); // wire 1, night: night before +
    put_bytes(board, 41, &[12, 3, 1, 2, 2, 1, 0, 0, 0, 0]); // (if night then step else 0)
    put_bytes(board, 51, &[12, 3, 0, 1, 1, 0, 0, 0, 1, 0, 0, 0, 0]); // wire 2, step: if pulse then 1 else 0
    put_bytes(board, 64, &[8, 2, 0, 2, 1]); // wire 3, total: day + night
}

// Puts the relay: the sheet of examples/relay behind its length, with 3 inputs, 4 outputs and 5 cells.
fn put_relay(board: &mut [u8; 175]) {
    put_bytes(board, 69, &[58, 0]);
    put_bytes(board, 71, &[3, 0, 0, 0]); // Boolean inputs: contact, opened, service
    put_bytes(board, 75, &[4, 0, 0, 0, 2]); // Boolean wires, the last one kept
    put_bytes(board, 80, &[4, 0, 1, 2, 3]); // outputs: steady, tripped, closed, tamper
    put_bytes(board, 85, &[7, 6, 3, 0, 15, 0, 3, 0]); // wire 0, steady: (contact and before) or
    put_bytes(board, 93, &[6, 7, 3, 0, 15, 0, 3, 0, 15, 0, 2, 0]); // ((contact or before) and steady before)
    put_bytes(board, 105, &[14, 3, 2, 7, 3, 1, 15, 0, 2, 1]); // wire 1, tripped: reset every service of (opened or tripped before)
    put_bytes(board, 115, &[6, 2, 0, 4, 2, 1]); // wire 2, closed: steady and not tripped
    put_bytes(board, 121, &[14, 3, 2, 7, 18, 3, 3, 1]); // wire 3, tamper, kept: reset every service of (last tamper or opened)
}

// Puts the display: a sheet of pages 0 to 2 behind its length, with 1 input, 1 output and 1 cell.
fn put_display(board: &mut [u8; 175]) {
    put_bytes(board, 129, &[44, 0]);
    put_bytes(board, 131, &[1, 0]); // Boolean input: button
    put_bytes(board, 133, &[3, 1, 1, 1]); // number wires
    put_bytes(board, 137, &[1, 0]); // output: page
    put_bytes(board, 139, &[12, 3, 0, 2, 2, 2, 1]); // wire 0, page: if button then next else before
    put_bytes(board, 146, &[16, 0, 0, 0, 0, 2, 0]); // wire 1, before: 0 at first, then page an instant before
    put_bytes(board, 153, &[12, 10, 2, 1, 1, 2, 0, 0, 0]); // wire 2, next: if before < 2
    put_bytes(board, 162, &[8, 2, 1, 1, 1, 0, 0, 0]); // then before + 1
    put_bytes(board, 170, &[1, 0, 0, 0, 0]); // else 0
}

// Fills each sheet's own part of the memory with its starting cells. Each sheet is well formed and each part has its length, so that no start refuses.
fn start(board: &[u8; 175], memory: &mut [u8])
    requires { length memory.old ≡ 40 }
{
    let whole = &board[..];
    let _ = sheet_start::start(&whole[3..69], &mut memory[0..10]);
    let _ = sheet_start::start(&whole[71..129], &mut memory[10..35]);
    let _ = sheet_start::start(&whole[131..175], &mut memory[35..40]);
}

// Makes the tick of a row, and prints its line.
fn make_tick(
    rt: &impl Print,
    row: usize,
    given: &[u8; 8],
    board: &[u8; 175],
    memory: &mut [u8; 40],
    output: &mut [u8; 32],
    standing: &mut Standing,
) -> io::Result<()> {
    let input = input_row(given);
    let answer = tick::tick(board, memory, &input, output, given[0], given[1], standing);
    print!(rt; "tick {row} due {} restart {}", given[0], given[1])?;
    print_answer(rt, answer, output)?;
    println!(rt; ", waiting {}", standing.stored)
}

// The input row of a tick: four bytes for each of the six inputs.
fn input_row(given: &[u8; 8]) -> [u8; 24] {
    let mut input = [0u8; 24];
    for k in 0..6 {
        input[4 * k] = given[k + 2];
    }
    input
}

// Prints what a tick answers.
fn print_answer(rt: &impl Print, answer: Result<Ticked, Refused>, output: &[u8]) -> io::Result<()>
    requires { length output.now ≡ 32 }
{
    match answer {
        Err(refused) => print!(rt; ": refused {} at {}", refused.why.number(), refused.place),
        Ok(Ticked::NoneDue) => print!(rt; ": none"),
        Ok(Ticked::Served { sheet, rounds }) => print_served(rt, sheet, rounds, output),
        Ok(Ticked::LeftUnknown { sheet, wire }) => {
            print!(rt; ": refused 20 in sheet {sheet} at wire {wire}")
        }
    }
}

// Prints the name, the rounds and the outputs of the sheet that was served, from its own part of the output row.
fn print_served(rt: &impl Print, sheet: usize, rounds: usize, output: &[u8]) -> io::Result<()>
    requires { length output.now ≡ 32 }
{
    match sheet {
        0 => print_sheet(rt, "tariff", rounds, &output[0..12]),
        1 => print_sheet(rt, "relay", rounds, &output[12..28]),
        _ => print_sheet(rt, "display", rounds, &output[28..32]),
    }
}

// Prints a sheet's name, rounds and outputs.
fn print_sheet(rt: &impl Print, name: &str, rounds: usize, output: &[u8]) -> io::Result<()>
    requires { length output.now ≤ 16 }
{
    let mut bytes = [0u8; 48];
    let mut text = Text::new(&mut bytes);
    text.put_numbers(output);
    let size = text.size;
    print!(rt; ": {name} in {rounds} rounds, outputs")?;
    rt.write_all(&bytes[..size])
}
