// A sheet of a board is served: its instant in rounds on its own parts, from its starting memory where it is restarted.
// Rests on `in_rounds` for the instant and on `sheet_start` for the starting memory.
#![tactic(auto)]

ghost use Rattle.std.specs.Prelude.{◌≡◌, true, length};
ghost use Rattle.kernel.specs.Calls.{Leaves};
ghost use Rattle.board.specs.Serving.{every_cell, served_call};
ghost use Rattle.board_serving.specs.Fitting.{Fits};

use sheet::Refused;

// The instant of a sheet on its own parts of memory, input row and output row.
pub fn serve(
    sheet: &[u8],
    memory: &mut [u8],
    input: &[u8],
    output: &mut [u8],
    restarts: bool,
) -> Result<usize, Refused>
    requires { Fits sheet.now memory.old }
    ensures { Leaves (served_call every_cell restarts sheet.now memory.old input.now output.old)
        result memory.new output.new }
{
    if restarts {
        return serve_anew(sheet, memory, input, output);
    }
    in_rounds::instant(sheet, memory, input, output)
}

// The instant of a restarted sheet, on a memory of its own, as long as the part.
fn serve_anew(
    sheet: &[u8],
    memory: &mut [u8],
    input: &[u8],
    output: &mut [u8],
) -> Result<usize, Refused>
    requires { Fits sheet.now memory.old }
    ensures { Leaves (served_call every_cell true sheet.now memory.old input.now output.old)
        result memory.new output.new }
{
    let size = memory.len();
    let mut fresh = [0u8; 320];
    run_anew(sheet, &mut fresh[..size], memory, input, output)
}

// The instant runs on `fresh`, from the starting memory, and the part is written only where it is accepted.
fn run_anew(
    sheet: &[u8],
    fresh: &mut [u8],
    memory: &mut [u8],
    input: &[u8],
    output: &mut [u8],
) -> Result<usize, Refused>
    requires { Fits sheet.now memory.old × (length fresh.old ≡ length memory.old) }
    ensures { Leaves (served_call every_cell true sheet.now memory.old input.now output.old)
        result memory.new output.new }
{
    let _ = sheet_start::start(sheet, fresh);
    let rounds = in_rounds::instant(sheet, fresh, input, output)?;
    memory.copy_from_slice(fresh);
    Ok(rounds)
}
