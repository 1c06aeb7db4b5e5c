// Calls whose agreement is promised, made one after another: the two instants on copies of one memory, demand 3 of the order, and a
// preview before its instant, K3. Rests on their contracts.
#![tactic(auto)]

ghost use Rattle.std.specs.Prelude.{◌≡◌, length};
ghost use Rattle.kernel.specs.Calls.{rounds_call, scheduled_call, Shows, Leaves};
ghost use Rattle.kernel.proofs.Laws.Previews.{PreviewAgrees};
ghost use Rattle.agreement.specs.Agreement.{Beside, BothGiven, Agreed};

use sheet::Refused;

// The instant in rounds, on `memory` and `output`, and the instant along a schedule, on `copy` and `other`; the rounds, where both are
// accepted.
pub fn both(
    sheet: &[u8],
    input: &[u8],
    memory: &mut [u8],
    output: &mut [u8],
    copy: &mut [u8],
    other: &mut [u8],
    schedule: &[u8],
) -> Option<usize>
    ensures beside { Beside
        (rounds_call sheet.now memory.old input.now output.old)
        (scheduled_call sheet.now copy.old input.now other.old schedule.now)
        result memory.new output.new copy.new other.new }
    ensures agreed { (g : BothGiven sheet.now memory.old input.now output.old
        copy.old other.old schedule.now)
        → Agreed g.given result memory.new output.new copy.new other.new }
{
    let in_turn = in_rounds::instant(sheet, memory, input, output);
    let along = along_schedule::instant(sheet, copy, input, other, schedule);
    match (in_turn, along) {
        (Ok(rounds), Ok(())) => Some(rounds),
        _ => None,
    }
}

// What a preview answers, and the instant in rounds behind it.
#[derive(Clone, Copy)]
pub struct Previewed {
    pub preview: Result<usize, Refused>,
    pub instant: Result<usize, Refused>,
}

// A preview, with the output row `shown`, and then the instant in rounds, with `output`, of the same sheet, memory and input row.
pub fn preview_first(
    sheet: &[u8],
    memory: &mut [u8],
    input: &[u8],
    shown: &mut [u8],
    output: &mut [u8],
) -> Previewed
    ensures preview { Shows (rounds_call sheet.now memory.old input.now shown.old)
        result.preview shown.new }
    ensures instant { Leaves (rounds_call sheet.now memory.old input.now output.old)
        result.instant memory.new output.new }
    ensures agrees { length shown.old ≡ length output.old
        → PreviewAgrees result.preview result.instant memory.old shown.old output.old
        memory.new shown.new output.new }
{
    let preview = in_rounds::preview(sheet, memory, input, shown);
    let instant = in_rounds::instant(sheet, memory, input, output);
    Previewed { preview, instant }
}
