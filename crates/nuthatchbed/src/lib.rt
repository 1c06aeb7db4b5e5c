// The four calls of the C library, each a packed number: a refusal's number times 65,536 plus its place, else what the call gives.
// Rests on `sheet_check`, `sheet_start`, `in_rounds` and `along_schedule` for the calls themselves.
#![tactic(auto)]

ghost use Rattle.std.specs.Prelude.{◌≡◌};
ghost use Rattle.sheet.specs.Sheets.{check_of, packed_checked};
ghost use Rattle.sheet.specs.Memory.{start_call, packed_started};
ghost use Rattle.kernel.specs.Calls.{rounds_call, scheduled_call, packed_rounds, packed_scheduled};

// The check: the cells, or a refusal.
#[unsafe(no_mangle)]
pub extern "C" fn nuthatchbed_check(sheet: &[u8]) -> u32
    ensures { result ≡ packed_checked (check_of sheet.now) }
{
    match sheet_check::check(sheet) {
        Err(refused) => refused.packed(),
        Ok(counts) => counts.cells as u32,
    }
}

// The start: 0, or a refusal; the memory gets its starting cells.
#[unsafe(no_mangle)]
pub extern "C" fn nuthatchbed_start(sheet: &[u8], memory: &mut [u8]) -> u32
    ensures value { result ≡ packed_started (start_call sheet.now memory.old).answer }
    ensures memory_after { memory.new ≡ (start_call sheet.now memory.old).memory }
{
    match sheet_start::start(sheet, memory) {
        Err(not_started) => not_started.packed(),
        Ok(()) => 0,
    }
}

// The instant in rounds: the rounds, or a refusal; the memory becomes the next memory, and the row gets the outputs.
#[unsafe(no_mangle)]
pub extern "C" fn nuthatchbed_rounds(
    sheet: &[u8],
    memory: &mut [u8],
    input: &[u8],
    output: &mut [u8],
) -> u32
    ensures value { result ≡ packed_rounds (rounds_call sheet.now memory.old input.now output.old).answer }
    ensures memory_after { memory.new
        ≡ (rounds_call sheet.now memory.old input.now output.old).memory }
    ensures output_after { output.new
        ≡ (rounds_call sheet.now memory.old input.now output.old).output }
{
    let answer = in_rounds::instant(sheet, memory, input, output);
    in_rounds::packed(answer)
}

// The instant along a schedule: 0, or a refusal; memory and row as in rounds.
#[unsafe(no_mangle)]
pub extern "C" fn nuthatchbed_scheduled(
    sheet: &[u8],
    memory: &mut [u8],
    input: &[u8],
    output: &mut [u8],
    schedule: &[u8],
) -> u32
    ensures value { result ≡ packed_scheduled (scheduled_call sheet.now memory.old input.now
        output.old schedule.now).answer }
    ensures memory_after { memory.new ≡ (scheduled_call sheet.now memory.old input.now
        output.old schedule.now).memory }
    ensures output_after { output.new ≡ (scheduled_call sheet.now memory.old input.now
        output.old schedule.now).output }
{
    match along_schedule::instant(sheet, memory, input, output, schedule) {
        Err(not_run) => not_run.packed(),
        Ok(_) => 0,
    }
}
