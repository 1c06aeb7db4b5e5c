// The own bytes of an expression of a sheet, before its operands: whether they are refused, the cell that it owns and the wire that it
// names. Rests on `sheet` for the table of kinds and for bodies, on `sheet_names` for what a leaf names, and on `wires`.
#![tactic(auto)]

ghost use Rattle.std.specs.Prelude.{◌≡◌, List, ℕ, ◌<◌, ◌≤◌, length, get_or};
ghost use Rattle.std.proofs.lemmas.List.Edits.{sets};
ghost use Rattle.sheet.specs.KindBytes.{byte_of};
ghost use Rattle.sheet.specs.Reads.{wires_named};
ghost use Rattle.sheet.specs.Readings.{body_from};
ghost use Rattle.sheet_own.specs.Own.{Lookup, Joins, LeafChecks, then_type, HasOperands, own_entries};

use sheet::kinds::Kind;
use sheet::{Got, Refusal, Refused, bodies};
use sheet_names::Names;
use wires::Wires;

// The set found so far, with the wire that a leaf of this kind names, if it names one.
fn with_named(kind: Kind, named: u8, found: Wires) -> Wires
    requires { byte_of kind ≡ 2 → named < 64 }
    ensures { Joins found.bits (wires_named (byte_of kind) named) result.bits }
{
    match kind {
        Kind::Wire => found.with(named as usize),
        _ => found,
    }
}

// 2, 7 and 9 of the expression at `at`, which has no operands, kinds 0 to 3; a wire that it names is read.
pub fn check_leaf(
    sheet: &[u8],
    names: &Names,
    asked: u8,
    at: usize,
    count: usize,
    reads: &mut u64,
) -> Result<Got, Refused>
    requires { Lookup names.now × (at < length sheet.now) × (get_or sheet.now at 0 < 4) × (asked < 2) × (count ≤ 64) }
    ensures { (l : Lookup names.now)
        → LeafChecks l.inputs l.wires sheet.now asked at count result reads.old reads.new }
{
    let kind = Kind::of(sheet[at]);
    let body = kind.body();
    if sheet.len() - at <= body {
        return Err(Refusal::Cut.at(sheet.len()));
    }
    let named = sheet[at + 1];
    if names.limit(kind) <= named as u64 {
        return Err(Refusal::Body.at(at));
    }
    if names.type_of(kind, named) != asked {
        return Err(Refusal::TypeAsked.at(at));
    }
    let bits = *reads;
    let grown = with_named(kind, named, Wires { bits });
    *reads = grown.bits;
    Ok(Got {
        next: at + 1 + body,
        count,
    })
}

// 2, 7 and 9 of the expression at `at`, which gives the cell of a kept wire, kind 18; no wire is read.
pub fn check_last(
    sheet: &[u8],
    names: &Names,
    asked: u8,
    at: usize,
    count: usize,
) -> Result<Got, Refused>
    requires { Lookup names.now × (at < length sheet.now) × (get_or sheet.now at 0 ≡ 18) × (asked < 2) × (count ≤ 64) }
    ensures { (l : Lookup names.now) → result ≡ body_from l.inputs l.wires sheet.now asked at count }
{
    if sheet.len() - at <= 1 {
        return Err(Refusal::Cut.at(sheet.len()));
    }
    let named = sheet[at + 1];
    if !names.is_kept(named) {
        return Err(Refusal::Body.at(at));
    }
    if names.type_of(Kind::Wire, named) != asked {
        return Err(Refusal::TypeAsked.at(at));
    }
    Ok(Got {
        next: at + 2,
        count,
    })
}

// 10, 2 and 7 of the expression at `at`, which owns a cell, kinds 15 to 17 and 19, behind `count` others; 9 comes behind them.
fn check_cell(sheet: &[u8], at: usize, count: usize) -> Result<Got, Refused>
    requires { (at < length sheet.now) × (15 ≤ get_or sheet.now at 0) × HasOperands (get_or sheet.now at 0) }
    ensures { (inputs wires : List ℕ) (asked : ℕ)
        → then_type (get_or sheet.now at 0) asked at result ≡ body_from inputs wires sheet.now asked at count }
{
    if 64 <= count {
        return Err(Refusal::CellLimit.at(at));
    }
    let body = Kind::of(sheet[at]).body();
    if sheet.len() - at <= body {
        return Err(Refusal::Cut.at(sheet.len()));
    }
    if 1 < bodies::named_at(sheet, at) {
        return Err(Refusal::Body.at(at));
    }
    Ok(Got {
        next: at + 1 + body,
        count: count + 1,
    })
}

// What the own bytes of the expression at `at`, which has operands, kinds 4 to 17 and 19, are refused for; 9 comes behind it.
pub fn check_own(sheet: &[u8], at: usize, count: usize) -> Result<Got, Refused>
    requires at_in_bounds { (at < length sheet.now) × HasOperands (get_or sheet.now at 0) × (count ≤ 64) }
    requires sheet_len_bound { length sheet.now ≤ 4096 }
    ensures { (inputs wires : List ℕ) (asked : ℕ)
        → then_type (get_or sheet.now at 0) asked at result ≡ body_from inputs wires sheet.now asked at count }
{
    match Kind::of(sheet[at]) {
        Kind::BooleanPre | Kind::NumberPre | Kind::Fby | Kind::Machine => {
            check_cell(sheet, at, count)
        }
        _ => Ok(Got {
            next: at + 1,
            count,
        }),
    }
}

// Notes the cell that an expression of this kind at `at` owns, if it owns one, which has this number: an fby's may be empty, and a machine's
// is a Boolean's.
pub fn note_own(kind: Kind, asked: u8, at: usize, number: usize, cells: &mut [u16; 64])
    requires { HasOperands (byte_of kind) × (asked < 2) × (at < 4096) × (15 ≤ byte_of kind → number < 64) }
    ensures { cells.new ≡ sets cells.old number (own_entries (byte_of kind) asked at) }
{
    match kind {
        Kind::BooleanPre | Kind::NumberPre => {
            cells[number] = (4 * at + numbers::length_of(asked)) as u16;
        }
        Kind::Fby => cells[number] = (4 * at + numbers::length_of(asked) + 2) as u16,
        Kind::Machine => cells[number] = (4 * at) as u16,
        _ => {}
    }
}
