// The maker of a schedule: it fills a lent list with the wires of a sheet, each after all that it reads within the instant.
// Rests on the check of a sheet for the map, which has what each wire reads, and on `closure` where there is no such list.
#![tactic(auto)]

mod depths;
mod placing;

ghost use Rattle.std.specs.Prelude.{◌≡◌, ◌≤◌, length};
ghost use Rattle.sheet.specs.Sheets.{Sheet};
ghost use Rattle.sheet.specs.Typing.{WellTyped};
ghost use Rattle.kernel.specs.Instants.{wire_count};
ghost use Rattle.sheet_expressions.specs.Map.{EachHoldsJust};
ghost use Rattle.maker.specs.Reaching.{reads_of};
ghost use Rattle.maker.specs.Making.{maker_call};
ghost use Rattle.maker.specs.Placing.{Makes};

use sheet::{Refusal, Refused};
use sheet_expressions::map::Map;

// The maker: 1 to 11, 17 where the list has not one byte for each wire, 21 where there is no schedule; else the list gets one, and the
// answer is the greatest depth.
pub fn make(sheet: &[u8], list: &mut [u8]) -> Result<usize, Refused>
    ensures value { result ≡ (maker_call sheet.now list.old).answer }
    ensures list_after { list.new ≡ (maker_call sheet.now list.old).list }
{
    let mut map = Map::empty();
    let counts = sheet_check::check_map(sheet, &mut map)?;
    make_list(&mut map.reads, counts.wires, list)
}

// The maker on so many wires, each of which reads what its set holds.
fn make_list(reads: &mut [u64; 64], wires: usize, list: &mut [u8]) -> Result<usize, Refused>
    requires { (wires ≤ 64) × (64 ≤ length reads.old) }
    ensures { (s : Sheet) → WellTyped s → wire_count s ≡ wires → EachHoldsJust reads.old wires (reads_of s)
        → Makes s list.old result list.new }
{
    if list.len() != wires {
        return Err(Refusal::ScheduleLength.at(0));
    }
    let mut order = [0u8; 64];
    let positions = placing::place_all(reads, wires, &mut order);
    if positions.filled < wires {
        return Err(Refusal::NoSchedule.at(closure::lowest_loop(reads, wires)));
    }
    list.copy_from_slice(&order[..wires]);
    Ok(positions.depth as usize)
}
