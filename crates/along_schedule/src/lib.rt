// The instant along a schedule: the checks, one pass over the wires, then the next memory and the outputs. Rests on `given` for the
// checks 1 to 16, on `schedule` for 17 to 19, on `pass` for the values, on `next_memory` for the storing, and on `rounds` for the row.
#![tactic(auto)]

ghost use Rattle.kernel.specs.Calls.{scheduled_call, Leaves};

use sheet::Refused;
use sheet_expressions::map::Map;

// The instant along a schedule, after whose pass no wire is unknown.
pub fn instant(
    sheet: &[u8],
    memory: &mut [u8],
    input: &[u8],
    output: &mut [u8],
    schedule: &[u8],
) -> Result<(), Refused>
    ensures { Leaves (scheduled_call sheet.now memory.old input.now output.old
        schedule.now) result memory.new output.new }
{
    let mut map = Map::empty();
    let mut words = [0u32; 144];
    let parts = given::given_of(sheet, memory, input, output, &mut map, &mut words)?;
    let types = parts.types;
    schedule::check_schedule(schedule, types.len(), &map.reads)?;
    let instant = rounds::Instant {
        sheet,
        memory,
        types,
        places: &map.places,
        firsts: &map.firsts,
    };
    pass::pass(&instant, schedule, &mut words);
    next_memory::store(sheet, memory, types, &map, &words);
    rounds::write_row(parts.outputs, &words, output);
    Ok(())
}
