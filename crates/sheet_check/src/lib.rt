// The check of a sheet, from its first byte on: its length, the header's three sections, one expression for each wire; and the map
// that it draws on the way. Rests on `sheet_header`, on `sheet_expressions` and on `sheet_names`.
#![tactic(auto)]

ghost use Rattle.std.specs.Prelude.{◌≡◌, true, false, ℕ, ◌≤◌, length};
ghost use Rattle.sheet.specs.Headers.{section_of};
ghost use Rattle.sheet.specs.Sheets.{Sheet, before, checked_of, expressions_from, outputs_from, wires_from, check_of};
ghost use Rattle.sheet.specs.Laws.Headers.{SheetRead};
ghost use Rattle.sheet.specs.declared.Refusal.TheVariants.{TypeByte, OutputWire};
ghost use Rattle.sheet_expressions.specs.Map.{TypeBytes, Drawn, Mapped, wires_of, WhereGot};

use sheet::{Counts, Refusal, Refused};
use sheet_expressions::map::Map;
use sheet_names::Names;

// The check of any bytes: the four counts of a sheet, or the first refusal with its place.
pub fn check(sheet: &[u8]) -> Result<Counts, Refused>
    ensures { result ≡ check_of sheet.now }
{
    let mut map = Map::empty();
    check_map(sheet, &mut map)
}

// The check, which draws the map of a sheet that passes.
pub fn check_map(sheet: &[u8], map: &mut Map) -> Result<Counts, Refused>
    ensures value { result ≡ check_of sheet.now }
    ensures mapped { (s : Sheet) (n k : ℕ) (v : SheetRead sheet.now s n k)
        → Mapped (wires_of v) map.new }
{
    if sheet.len() == 0 {
        return Err(Refusal::SheetLength.at(0));
    }
    if 4096 < sheet.len() {
        return Err(Refusal::SheetLength.at(0));
    }
    let found = sheet_header::section(sheet, 0, 0, 17, 2, false, Refusal::TypeByte)?;
    wires_from(
        sheet,
        &sheet[found.next - found.count..found.next],
        found.next,
        map,
    )
}

// The rest of a sheet from `at` on: the wires, each with its type, kept or not.
fn wires_from(sheet: &[u8], inputs: &[u8], at: usize, map: &mut Map) -> Result<Counts, Refused>
    requires { TypeBytes 2 inputs.now × (length sheet.now ≤ 4096) }
    ensures value { result ≡ checked_of (wires_from sheet.now inputs.now at) }
    ensures where_got { WhereGot (section_of sheet.now at 1 65 4 false TypeByte) (λ n k.
        WhereGot (section_of sheet.now n 1 17 (length (before sheet.now n k)) true OutputWire) (λ m j.
        Drawn inputs.now (before sheet.now n k) sheet.now m map.new)) }
{
    let found = sheet_header::section(sheet, at, 1, 65, 4, false, Refusal::TypeByte)?;
    outputs_from(
        sheet,
        inputs,
        &sheet[found.next - found.count..found.next],
        found.next,
        map,
    )
}

// The rest from the outputs on, each of them a wire and above the one before.
fn outputs_from(
    sheet: &[u8],
    inputs: &[u8],
    wires: &[u8],
    at: usize,
    map: &mut Map,
) -> Result<Counts, Refused>
    requires { TypeBytes 2 inputs.now × TypeBytes 4 wires.now × (length sheet.now ≤ 4096) }
    ensures value { result ≡ checked_of (outputs_from sheet.now inputs.now wires.now at) }
    ensures where_got { WhereGot (section_of sheet.now at 1 17 (length wires.now) true OutputWire) (λ n k.
        Drawn inputs.now wires.now sheet.now n map.new) }
{
    let found = sheet_header::section(sheet, at, 1, 17, wires.len(), true, Refusal::OutputWire)?;
    expressions_from(
        sheet,
        inputs,
        wires,
        &sheet[found.next - found.count..found.next],
        found.next,
        map,
    )
}

// The rest from the expressions on, one for each wire, and nothing behind them.
fn expressions_from(
    sheet: &[u8],
    inputs: &[u8],
    wires: &[u8],
    outputs: &[u8],
    at: usize,
    map: &mut Map,
) -> Result<Counts, Refused>
    requires { TypeBytes 2 inputs.now × TypeBytes 4 wires.now × (length sheet.now ≤ 4096) × (at ≤ length sheet.now) }
    ensures value { result ≡ checked_of (expressions_from sheet.now inputs.now wires.now
        outputs.now at) }
    ensures drawn { Drawn inputs.now wires.now sheet.now at map.new }
{
    let mut names = Names::of(inputs, wires);
    let found = sheet_expressions::check_wires(&sheet, &mut names, wires, at, map)?;
    if found.next < sheet.len() {
        return Err(Refusal::LeftOver.at(found.next));
    }
    Ok(Counts {
        inputs: inputs.len(),
        wires: wires.len(),
        outputs: outputs.len(),
        cells: found.count,
    })
}
