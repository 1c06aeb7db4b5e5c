// The expressions of a sheet: an expression's own bytes, then its operands, one level deeper; on the way cells are noted and reads
// gathered. Of the cells that are counted, those of the kept wires ahead have higher numbers than any that is noted. Rests on `sheet_own`
// for the own bytes, on `sheet_names` for the names and for what is ahead, and on `sheet` for the table of kinds.
#![tactic(auto)]

pub mod map;

ghost use Rattle.std.specs.Prelude.{◌≡◌, cond, ◌-◌, ◌<◌, ◌≤◌, length, take};
ghost use Rattle.sheet.specs.Expressions.{cell_forms};
ghost use Rattle.sheet.specs.Kinds.{read_count_of, operands_of};
ghost use Rattle.sheet.specs.KindBytes.{byte_of};
ghost use Rattle.sheet.specs.Reads.{wires_read, all_read};
ghost use Rattle.sheet.specs.Readings.{read_each, read_expression};
ghost use Rattle.sheet.specs.Sheets.{forms_of, own_cells, kept_count};
ghost use Rattle.sheet_names.specs.Naming.{ahead_in};
ghost use Rattle.sheet_own.specs.Own.{Lookup};
ghost use Rattle.sheet_expressions.specs.Map.{TypeBytes, WiresLookup, Checks, NodeAt, KeptNoted, WiresChecked};

use map::Map;
use sheet::kinds::Kind;
use sheet::{Got, Refusal, Refused, kinds};
use sheet_names::Names;
use wires::Wires;

// One of two sets, by a test: without a branch.
fn either(test: bool, yes: u64, no: u64) -> u64
    ensures { result ≡ cond test yes no }
{
    if test { yes } else { no }
}

// The operands of an expression of this kind, in order, from `at` on; the first that is refused ends the reading. What is read by one
// that is not read within the instant does not count. The sheet is behind one more reference, so that a call copies no slice.
// It is folded into `check_one`: as a function of its own it costs a fifth of the check.
#[cycle(checking)]
#[inline(always)]
fn check_operands(
    sheet: &&[u8],
    names: &Names,
    kind: Kind,
    level: usize,
    asked: u8,
    at: usize,
    count: usize,
    cells: &mut [u16; 64],
    reads: &mut u64,
) -> Result<Got, Refused>
    requires { Lookup names.now × (asked < 2) × (count ≤ 64) × (length sheet.now.now ≤ 4096)
        × (ahead_in names.now ≤ count) }
    ensures { (l : Lookup names.now)
        → Checks sheet.now.now forms_of (λ es. all_read (take (read_count_of (byte_of kind)) es))
        (read_each (read_expression l.inputs l.wires sheet.now.now level) (operands_of (byte_of kind) asked) at count)
        (count - ahead_in names.now) result
        cells.old cells.new reads.old reads.new }
{
    let operands = kind.operands();
    let counted = kind.read_operands();
    let types = kind.operand_types(asked);
    let mut next = at;
    let mut behind = count;
    for i in 0..operands {
        let before = *reads;
        let asked_here = kinds::operand_type(types, i);
        let one = check_operand(sheet, names, level, asked_here, next, behind, cells, reads)?;
        *reads = either(i < counted, *reads, before);
        next = one.next;
        behind = one.count;
    }
    Ok(Got {
        next,
        count: behind,
    })
}

// The expression at `at`, which has operands: its own bytes, then they.
#[cycle(checking)]
fn check_node(
    sheet: &&[u8],
    names: &Names,
    level: usize,
    asked: u8,
    at: usize,
    count: usize,
    cells: &mut [u16; 64],
    reads: &mut u64,
) -> Result<Got, Refused>
    requires { Lookup names.now × NodeAt sheet.now.now level asked at count × (ahead_in names.now ≤ count) }
    ensures { (l : Lookup names.now)
        → Checks sheet.now.now cell_forms wires_read
        (read_expression l.inputs l.wires sheet.now.now level asked at count) (count - ahead_in names.now) result
        cells.old cells.new reads.old reads.new }
{
    let own = sheet_own::check_own(*sheet, at, count)?;
    let kind = Kind::of(sheet[at]);
    if !kind.fits(asked) {
        return Err(Refusal::TypeAsked.at(at));
    }
    let number = count - names.ahead();
    sheet_own::note_own(kind, asked, at, number, cells);
    check_operands(
        sheet,
        names,
        kind,
        level - 1,
        asked,
        own.next,
        own.count,
        cells,
        reads,
    )
}

// The expression at `at` behind `count` cells: 2, 6 and 8, then what its kind asks.
#[cycle(checking)]
fn check_one(
    sheet: &&[u8],
    names: &Names,
    level: usize,
    asked: u8,
    at: usize,
    count: usize,
    cells: &mut [u16; 64],
    reads: &mut u64,
) -> Result<Got, Refused>
    requires { Lookup names.now × (asked < 2) × (count ≤ 64) × (length sheet.now.now ≤ 4096)
        × (ahead_in names.now ≤ count) }
    ensures { (l : Lookup names.now)
        → Checks sheet.now.now cell_forms wires_read
        (read_expression l.inputs l.wires sheet.now.now level asked at count) (count - ahead_in names.now) result
        cells.old cells.new reads.old reads.new }
{
    if sheet.len() <= at {
        return Err(Refusal::Cut.at(sheet.len()));
    }
    let Ok(kind) = Kind::try_from(sheet[at]) else {
        return Err(Refusal::Kind.at(at));
    };
    if level == 0 {
        return Err(Refusal::Level.at(at));
    }
    if kind.is_leaf() {
        return sheet_own::check_leaf(*sheet, names, asked, at, count, reads);
    }
    match kind {
        Kind::Last => sheet_own::check_last(*sheet, names, asked, at, count),
        _ => check_node(sheet, names, level, asked, at, count, cells, reads),
    }
}

// The expression of an operand. A leaf is checked without a call of its own: these are half of all.
#[cycle(checking)]
fn check_operand(
    sheet: &&[u8],
    names: &Names,
    level: usize,
    asked: u8,
    at: usize,
    count: usize,
    cells: &mut [u16; 64],
    reads: &mut u64,
) -> Result<Got, Refused>
    requires { Lookup names.now × (asked < 2) × (count ≤ 64) × (length sheet.now.now ≤ 4096)
        × (ahead_in names.now ≤ count) }
    ensures { (l : Lookup names.now)
        → Checks sheet.now.now cell_forms wires_read
        (read_expression l.inputs l.wires sheet.now.now level asked at count) (count - ahead_in names.now) result
        cells.old cells.new reads.old reads.new }
{
    if level == 0 || sheet.len() <= at || !kinds::is_leaf(sheet[at]) {
        return check_one(sheet, names, level, asked, at, count, cells, reads);
    }
    sheet_own::check_leaf(*sheet, names, asked, at, count, reads)
}

// The whole expression of a wire, at level 1 of 16. A leaf takes no call of its own here either; the two functions are apart, since one
// that has two callers is folded into neither.
fn check_whole(
    sheet: &&[u8],
    names: &Names,
    asked: u8,
    at: usize,
    count: usize,
    cells: &mut [u16; 64],
    reads: &mut u64,
) -> Result<Got, Refused>
    requires { Lookup names.now × (asked < 2) × (count ≤ 64) × (length sheet.now.now ≤ 4096)
        × (ahead_in names.now ≤ count) }
    ensures { (l : Lookup names.now)
        → Checks sheet.now.now cell_forms wires_read
        (read_expression l.inputs l.wires sheet.now.now 16 asked at count) (count - ahead_in names.now) result
        cells.old cells.new reads.old reads.new }
{
    if sheet.len() <= at || !kinds::is_leaf(sheet[at]) {
        return check_one(sheet, names, 16, asked, at, count, cells, reads);
    }
    sheet_own::check_leaf(*sheet, names, asked, at, count, reads)
}

// Notes the cell of a wire with this type byte, if it is kept: before those of the wire's expression, and in an owner's place 4096, where
// no expression stands. Then one kept wire less is ahead.
fn note_kept(byte: u8, count: usize, names: &mut Names, cells: &mut [u16; 64])
    requires { (own_cells byte ≤ ahead_in names.old) × (ahead_in names.old ≤ count) × (count ≤ 64) }
    ensures { KeptNoted byte count names.old names.new cells.old cells.new }
{
    if 2 <= byte {
        let number = count - names.ahead();
        cells[number] = 16384 + (byte % 2) as u16;
        names.pass_kept();
    }
}

// One expression for each wire, from `at` on; the count begins with the cells of all kept wires. Of each wire is noted where its
// expression starts, the number of the first cell there, and what it reads within the instant; the cells are noted too.
pub fn check_wires(
    sheet: &&[u8],
    names: &mut Names,
    types: &[u8],
    at: usize,
    map: &mut Map,
) -> Result<Got, Refused>
    requires wires_lookup { WiresLookup types.now names.old × TypeBytes 4 types.now × (length sheet.now.now ≤ 4096)
        × (at ≤ length sheet.now.now) }
    requires names_value { ahead_in names.old ≡ kept_count types.now }
    ensures { (l : WiresLookup types.now names.old)
        → WiresChecked l.inputs types.now sheet.now.now at result map.new }
{
    let mut next = at;
    let mut count = names.ahead();
    for w in 0..types.len() {
        let byte = types[w];
        let cells = &mut map.cells;
        note_kept(byte, count, names, cells);
        let first = count - names.ahead();
        map.places[w] = next as u16;
        map.firsts[w] = first as u8;
        let none = Wires::none();
        let mut found = none.bits;
        let one = check_whole(sheet, names, byte % 2, next, count, cells, &mut found)?;
        map.reads[w] = found;
        next = one.next;
        count = one.count;
    }
    Ok(Got { next, count })
}
