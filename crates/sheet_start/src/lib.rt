// The start of a memory: each cell that the check of a sheet noted is put as it is at the start.
// Rests on `check_map`, on `sheet_cells` for the cell that an expression owns, on `data` for a kept wire's, and on `memory` for bytes.
#![tactic(auto)]

ghost use Rattle.std.specs.Prelude.{◌≡◌, cond, ◌*◌, length, Ok};
ghost use Rattle.sheet.specs.Memory.{memory_bytes, start_memory, start_call};
ghost use Rattle.sheet.specs.Readings.{Whole};
ghost use Rattle.sheet_expressions.specs.Map.{owner_in, no_owner, start_in};
ghost use Rattle.sheet.specs.declared.Refusal.TheVariants.{MemoryLength};
ghost use Rattle.sheet.specs.Outcomes.{refused_at};
ghost use Rattle.sheet_start.specs.Owners.{Noted, Starts};

use sheet::{Cell, Refusal, Refused, data, memory};
use sheet_expressions::map::Map;

// The start: the memory gets its starting cells, or it is left as it is where 1 to 12 refuse.
pub fn start(sheet: &[u8], memory: &mut [u8]) -> Result<(), Refused>
    ensures value { result ≡ (start_call sheet.now memory.old).answer }
    ensures memory_after { memory.new ≡ (start_call sheet.now memory.old).memory }
{
    let mut map = Map::empty();
    let counts = sheet_check::check_map(sheet, &mut map)?;
    start_cells(sheet, &map.cells, counts.cells, memory)
}

// The start of a sheet that passes the check: 12 where the memory has another length.
fn start_cells(
    sheet: &[u8],
    cells: &[u16; 64],
    count: usize,
    memory: &mut [u8],
) -> Result<(), Refused>
    requires { Noted sheet.now cells.now count }
    ensures { (p : Noted sheet.now cells.now count)
        → Starts p.forms memory.old result memory.new }
{
    if memory.len() == 5 * count {
        fill(sheet, cells, count, memory);
        return Ok(());
    }
    Err(Refusal::MemoryLength.at(0))
}

// Puts each of the cells, which are noted, as it is at the start.
fn fill(sheet: &[u8], cells: &[u16; 64], count: usize, memory: &mut [u8])
    requires noted { Noted sheet.now cells.now count }
    requires memory_len { length memory.old ≡ 5 * count }
    ensures { (p : Noted sheet.now cells.now count)
        → memory.new ≡ memory_bytes (start_memory p.forms) }
{
    for k in 0..count {
        memory::put_cell(memory, k, start_cell(sheet, cells[k]));
    }
}

// The cell of an entry, as it is at the start: one that has no owner is a kept wire's, and false or 0.
fn start_cell(sheet: &[u8], entry: u16) -> Cell
    requires { (owner_in entry ≡ no_owner → ⊥) → Whole sheet.now (owner_in entry) }
    ensures { result ≡ start_in sheet.now entry }
{
    let owner = (entry / 4) as usize;
    if owner == 4096 {
        return Cell::Started(data::datum_of((entry % 4) as u8, 0));
    }
    sheet_cells::own_cell(sheet, owner)
}
