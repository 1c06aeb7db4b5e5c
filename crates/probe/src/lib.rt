// The calls that the C library does not have, for the tests to reach from C; no part of what is delivered. Each returns a packed
// number as those of the C library do. Rests on `maker`, `in_rounds`, `tick` and `joining` for the calls themselves.
#![tactic(auto)]

ghost use Rattle.std.specs.Prelude.{◌≡◌, length};
ghost use Rattle.kernel.specs.Calls.{rounds_call, packed_rounds};
ghost use Rattle.maker.specs.Making.{maker_call, packed_made};
ghost use Rattle.board.specs.Ticks.{PackableTick};
ghost use Rattle.join.specs.Calls.{join_call, packed_joining};
ghost use Rattle.probe.specs.Ticks.{probe_tick, Probes, state_after};

use board::{Standing, Ticked};
use sheet::Refused;

// The maker of a schedule: the greatest depth, or a refusal; the list gets the schedule.
#[unsafe(no_mangle)]
pub extern "C" fn probe_schedule(sheet: &[u8], list: &mut [u8]) -> u32
    ensures value { result ≡ packed_made (maker_call sheet.now list.old).answer }
    ensures list_after { list.new ≡ (maker_call sheet.now list.old).list }
{
    match maker::make(sheet, list) {
        Err(refused) => refused.packed(),
        Ok(depth) => depth as u32,
    }
}

// The preview of the instant in rounds: the rounds, or a refusal; the row gets the outputs.
#[unsafe(no_mangle)]
pub extern "C" fn probe_preview(sheet: &[u8], memory: &[u8], input: &[u8], output: &mut [u8]) -> u32
    ensures value { result
        ≡ packed_rounds (rounds_call sheet.now memory.now input.now output.old).answer }
    ensures output_after { output.new
        ≡ (rounds_call sheet.now memory.now input.now output.old).output }
{
    let answer = in_rounds::preview(sheet, memory, input, output);
    in_rounds::packed(answer)
}

// The tick of a board, with marks and numbers in 8 bytes of state: due marks, restart marks, stored marks, the number of the sheet served last; the last
// two are written anew, and behind them the sheet that is served. A state of another length, and a board of more than 65,535 bytes, do nothing.
#[unsafe(no_mangle)]
pub extern "C" fn probe_tick(
    board: &[u8],
    memory: &mut [u8],
    input: &[u8],
    output: &mut [u8],
    state: &mut [u8],
) -> u32
    ensures { Probes (probe_tick board.now memory.old input.now output.old state.old)
        result memory.new output.new state.new }
{
    if state.len() != 8 {
        return 0;
    }
    if 65536 <= board.len() {
        return 0;
    }
    let mut standing = Standing {
        stored: state[2],
        number: state[3],
    };
    let answer = tick::tick(
        board,
        memory,
        input,
        output,
        state[0],
        state[1],
        &mut standing,
    );
    note(state, answer, standing);
    tick::packed(answer)
}

// Notes in a state what a tick answered and handed back.
fn note(state: &mut [u8], answer: Result<Ticked, Refused>, standing: Standing)
    requires packable_tick { PackableTick answer }
    requires state_len { length state.old ≡ 8 }
    ensures { state.new ≡ state_after state.old answer standing }
{
    state[2] = standing.stored;
    state[3] = standing.number;
    match answer {
        Err(_) | Ok(Ticked::NoneDue) => {}
        Ok(Ticked::Served { sheet, rounds: _ }) => {
            state[4] = sheet as u8;
        }
        Ok(Ticked::LeftUnknown { sheet, wire: _ }) => {
            state[4] = sheet as u8;
        }
    }
}

// Two sheets into one: 0, or a refusal, with the highest bit where it is the second sheet's; the buffer gets the joined sheet.
#[unsafe(no_mangle)]
pub extern "C" fn probe_join(first: &[u8], second: &[u8], joined: &mut [u8]) -> u32
    ensures value { result ≡ packed_joining (join_call first.now second.now joined.old).answer }
    ensures joined_after { joined.new ≡ (join_call first.now second.now joined.old).joined }
{
    let answer = joining::join(first, second, joined);
    joining::packed(answer)
}
