// Where an expression of a sheet stands, and the walk past one of a sheet that passes the check: each of its kind bytes is met once, and
// says how far the next one is and how many operands are still ahead. Rests on `sheet` for the table of kinds.
#![tactic(auto)]

ghost use Rattle.std.specs.Prelude.{◌≡◌, true};
ghost use Rattle.sheet_walk.specs.Skips.{Readable, SkipsIf};

use sheet::kinds::Kind;

// Where an expression stands: at which byte of the sheet, and the number of its first cell.
#[derive(Clone, Copy)]
pub struct Place {
    pub at: usize,
    pub cell: usize,
}

// The end of the expression that stands here: the place of the next one. No `for`, as each step is as long as what it reads says.
pub fn skip(sheet: &[u8], here: Place) -> Place
    requires { Readable sheet.now here.at here.cell }
    ensures { (p : Readable sheet.now here.at here.cell) → result ≡ record { at = p.next; cell = p.count } }
{
    let mut next = here.at;
    let mut count = here.cell;
    let mut pending = 1;
    while 0 < pending {
        let kind = Kind::of(sheet[next]);
        pending = pending - 1 + kind.operands();
        count += kind.cells();
        next += 1 + kind.body();
    }
    Place {
        at: next,
        cell: count,
    }
}

// The walk past the expression that stands here where the test holds; where it fails, no step.
pub fn skip_if(test: bool, sheet: &[u8], here: Place) -> Place
    requires { test ≡ true → Readable sheet.now here.at here.cell }
    ensures { SkipsIf test sheet.now here result }
{
    if test { skip(sheet, here) } else { here }
}
