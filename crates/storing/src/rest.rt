// An arm or an operand of a machine that does not advance: its cells stay as they are, or get their starting memory where it is fresh.
// Rests on `skip` for the walk past it and on `sheet_cells` for its cells at the start.
ghost use Rattle.std.specs.Prelude.{◌≡◌, true, length};
ghost use Rattle.storing.specs.Advances.{Room, Restarts, Arm, Rests, RestsIf};

use sheet::kinds::Kind;
use sheet_walk::Place;

// The walk past the expression that stands here, which puts each cell that it meets as it is at the start. No `for`, as in `skip`.
fn restart(sheet: &[u8], here: Place, memory: &mut [u8]) -> Place
    requires { Room sheet.now (length memory.old) here }
    ensures { (p : Room sheet.now (length memory.old) here) → Restarts p.place memory.old result memory.new }
{
    let mut next = here.at;
    let mut count = here.cell;
    let mut pending = 1;
    while 0 < pending {
        let kind = Kind::of(sheet[next]);
        sheet_cells::put_own(sheet, next, memory, count);
        pending = pending - 1 + kind.operands();
        count += kind.cells();
        next += 1 + kind.body();
    }
    Place {
        at: next,
        cell: count,
    }
}

// The end of the arm that stands here, whose cells do not advance.
pub fn rest(sheet: &[u8], here: Place, fresh: bool, memory: &mut [u8]) -> Place
    requires { Arm sheet.now memory.old here }
    ensures { (p : Arm sheet.now memory.old here) → Rests p fresh result memory.new }
{
    if fresh {
        restart(sheet, here, memory)
    } else {
        sheet_walk::skip(sheet, here)
    }
}

// The same where the test holds; where it fails, nothing is done.
pub fn rest_if(test: bool, sheet: &[u8], here: Place, fresh: bool, memory: &mut [u8]) -> Place
    requires { test ≡ true → Arm sheet.now memory.old here }
    ensures { RestsIf test sheet.now memory.old here fresh result memory.new }
{
    if test {
        rest(sheet, here, fresh, memory)
    } else {
        here
    }
}
