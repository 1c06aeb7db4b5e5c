// The check of a board's sheets and of its buffers, once its frame passed: 1 to 11 of each sheet, in board order, with places counted in
// the board; then 12 to 16 over the whole memory and rows. Rests on `board_frame` for lengths, on `sheet_check` for a sheet and its map, and
// on `buffers` for the whole.
#![tactic(auto)]

ghost use Rattle.std.specs.Prelude.{◌≡◌, ℕ, ◌+◌, ◌≤◌, List, length};
ghost use Rattle.std.proofs.Math.Seq.{paste};
ghost use Rattle.sheet.specs.Outcomes.{result as outcome_of};
ghost use Rattle.sheet.specs.Sheets.{Sheet, sheet_of};
ghost use Rattle.board.specs.Boards.{placed_from, length_place, begin_of, bytes_of, frame_of, sheets_from};
ghost use Rattle.board.specs.Parts.{passed_of};
ghost use Rattle.board_check.specs.Found.{behind, Finds};
ghost use Rattle.board_check.specs.Steps.{further_of, Collected, Room, Steps, Walks};

use sheet::{Counts, Refused};
use sheet_expressions::map::Map;

// Where a sheet of a board and its parts begin: the place of its length, and how many cells, inputs and outputs the sheets before it have.
#[derive(Clone, Copy)]
pub struct Begin {
    pub at: usize,
    pub cells: usize,
    pub inputs: usize,
    pub outputs: usize,
}

// Between which places a sheet and its parts stand: where they begin, and where those of the next sheet do.
#[derive(Clone, Copy)]
pub struct Span {
    pub from: Begin,
    pub to: Begin,
}

// What is found where all sheets pass: the span of the wanted one, and where the last one and its parts end.
#[derive(Clone, Copy)]
struct Walked {
    span: Span,
    end: Begin,
}

// 1 to 16 of a board with so many sheets, and where the wanted one and its parts stand.
pub fn check(
    board: &[u8],
    sheets: usize,
    wanted: usize,
    memory: &[u8],
    input: &[u8],
    output: &[u8],
) -> Result<Span, Refused>
    requires { frame_of board.now ≡ outcome_of sheets }
    ensures { Finds board.now wanted (passed_of board.now memory.now input.now output.now) result }
{
    let mut forms = [0u16; 512];
    let mut types = [0u8; 128];
    let walked = check_sheets(board, sheets, wanted, &mut forms, &mut types)?;
    let end = walked.end;
    let types = &types[..end.inputs];
    buffers::check_buffers(&forms, end.cells, types, end.outputs, memory, input, output)?;
    Ok(walked.span)
}

// 1 to 11 of each sheet, in board order. Where they pass, the tables hold the entries of all cells and the types of all inputs.
fn check_sheets(
    board: &[u8],
    sheets: usize,
    wanted: usize,
    forms: &mut [u16; 512],
    types: &mut [u8; 128],
) -> Result<Walked, Refused>
    requires { (frame_of board.now ≡ outcome_of sheets) × (length forms.old ≡ 512) × (length types.old ≡ 128) }
    ensures { Walks board.now wanted forms.new types.new (sheets_from board.now sheets 0) result }
{
    let mut here = Begin {
        at: 1,
        cells: 0,
        inputs: 0,
        outputs: 0,
    };
    let mut span = Span {
        from: here,
        to: here,
    };
    // One map is drawn over for each sheet: to empty one for each takes a seventh of the tick of the smallest sheets.
    let mut map = Map::empty();
    for k in 0..sheets {
        let next = check_sheet(board, here, &mut map, forms, types)?;
        if k == wanted {
            span = Span {
                from: here,
                to: next,
            };
        }
        here = next;
    }
    Ok(Walked { span, end: here })
}

// 1 to 11 of the sheet that begins here, its place counted in the board. Where they pass, the entries of its cells and the types of its
// inputs are put behind the others, and the answer is where the next sheet begins. The map is room to draw in.
fn check_sheet(
    board: &[u8],
    here: Begin,
    map: &mut Map,
    forms: &mut [u16; 512],
    types: &mut [u8; 128],
) -> Result<Begin, Refused>
    requires { Room board.now here forms.old types.old }
    ensures { (k : ℕ) (done : List Sheet) → here ≡ behind (length_place board.now k) done
        → Collected done forms.old types.old
        → Steps board.now k here done forms.new types.new
        (placed_from (begin_of board.now k) (sheet_of (bytes_of board.now k))) result }
{
    let at = here.at;
    let begin = at + 2;
    let end = begin + board_frame::length_at(board, at);
    let sheet = &board[begin..end];
    match sheet_check::check_map(sheet, map) {
        Err(refused) => {
            let counted = begin + refused.place;
            Err(refused.why.at(counted))
        }
        Ok(counts) => {
            put_behind(forms, here.cells, &map.cells[..counts.cells]);
            put_behind(types, here.inputs, &sheet[1..1 + counts.inputs]);
            Ok(further(here, end, counts))
        }
    }
}

// Where the next sheet and its parts begin, whose length stands at `at`, behind what a sheet with these counts has.
fn further(here: Begin, at: usize, counts: Counts) -> Begin
    requires { (here.cells + counts.cells ≤ 512) × (here.inputs + counts.inputs ≤ 128) × (here.outputs + counts.outputs ≤ 128) }
    ensures { result ≡ further_of here at counts }
{
    Begin {
        at,
        cells: here.cells + counts.cells,
        inputs: here.inputs + counts.inputs,
        outputs: here.outputs + counts.outputs,
    }
}

// Puts what a sheet has of one sort behind what the `others` before it have. Where it has none there is no call to copy nothing.
fn put_behind<T: Copy>(list: &mut [T], others: usize, more: &[T])
    requires { others + length more.now ≤ length list.old }
    ensures { list.new ≡ paste list.old others more.now (length more.now) }
{
    if more.len() > 0 {
        list[others..others + more.len()].copy_from_slice(more);
    }
}
