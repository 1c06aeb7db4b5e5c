// The checks 17 to 19 of a schedule. Rests on the set of wires, and on `sheet_expressions` for the map of a sheet.
#![tactic(auto)]

ghost use Rattle.std.specs.Prelude.{◌≡◌, List, ℕ, ◌<◌, ◌≤◌, length};
ghost use Rattle.sheet.specs.Outcomes.{done_of, lowest};
ghost use Rattle.sheet.specs.Sheets.{Sheet};
ghost use Rattle.sheet_expressions.specs.Map.{EachHoldsJust};
ghost use Rattle.kernel.specs.Instants.{reads_at};
ghost use Rattle.kernel.specs.Schedules.{entry_at, not_new, too_early, schedule_of};

use sheet::{Refusal, Refused};
use wires::Wires;

// The first position whose entry is none of the wires or was named before; the count of the wires where there is none, as `lowest` of the
// definitions has it, which an `Option` would have to be turned into.
fn first_not_new(list: &[u8], wires: usize) -> usize
    requires { (wires ≤ 64) × (length list.now ≡ wires) }
    ensures { result ≡ lowest (not_new list.now wires) wires }
{
    let mut named = Wires::none();
    for p in 0..wires {
        let wire = list[p] as usize;
        if wires <= wire {
            return p;
        }
        if named.has(wire) {
            return p;
        }
        named = named.with(wire);
    }
    wires
}

// The first position whose wire reads, within the instant, a wire not named before it; the count of the wires where there is none.
fn first_too_early(list: &[u8], wires: usize, reads: &[u64; 64]) -> usize
    requires { (wires ≤ 64) × (length list.now ≡ wires) × ((p : ℕ) → p < wires → entry_at list.now p < wires) }
    ensures { (reads_of : ℕ → List ℕ) → EachHoldsJust reads.now wires reads_of
        → result ≡ lowest (too_early list.now reads_of) wires }
{
    let mut named = Wires::none();
    for p in 0..wires {
        let wire = list[p] as usize;
        let bits = reads[wire];
        let read = Wires { bits };
        let grown = named.with(wire);
        if !read.within(named) {
            return p;
        }
        named = grown;
    }
    wires
}

// The checks of `list` as a schedule of wires, each of which reads within the instant what its set holds.
pub fn check_schedule(list: &[u8], wires: usize, reads: &[u64; 64]) -> Result<(), Refused>
    requires { wires ≤ 64 }
    ensures { (s : Sheet) → length s.expressions ≡ wires
        → EachHoldsJust reads.now wires (reads_at s.expressions)
        → result ≡ done_of (schedule_of s list.now) }
{
    if list.len() != wires {
        return Err(Refusal::ScheduleLength.at(0));
    }
    let entry = first_not_new(list, wires);
    if entry < wires {
        return Err(Refusal::ScheduleEntry.at(entry));
    }
    let early = first_too_early(list, wires, reads);
    if early < wires {
        return Err(Refusal::ScheduleOrder.at(early));
    }
    Ok(())
}
