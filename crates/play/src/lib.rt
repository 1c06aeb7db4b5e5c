// The player's text, line after line: what document 01 has the player print for an input, given into a lent buffer.
// Rests on `sheet_check`, `sheet_start` and `in_rounds` for the calls, and on `lines` for the lines.
#![tactic(auto)]

ghost use Rattle.std.specs.Prelude.{◌≡◌, ◌+◌, ◌*◌, ◌≤◌, ◌<◌, Some, length};
ghost use Rattle.sheet.specs.Outcomes.{number_of};
ghost use Rattle.sheet.specs.Sheets.{check_of};
ghost use Rattle.lines.specs.Buffers.{Holds};
ghost use Rattle.lines.specs.Lines.{refused_line};
ghost use Rattle.play.specs.Text.{played, length_at, sheet_in, rows_in, instants_due, is_complete, checked_text, bytes_text};
ghost use Rattle.play.specs.Stages.{first_instant, next_instant, lines_left, Ready, Between, Gives, Room};

use sheet::{Counts, Refused};

// Where the player stands between two lines.
#[derive(Clone, Copy)]
pub enum Stage {
    Begin,
    Playing(Progress),
    Over,
}

// How far the instants of a sheet are played.
#[derive(Clone, Copy)]
pub struct Progress {
    // How many bytes the sheet has for an input row, for an output row and for its memory.
    pub input: usize,
    pub output: usize,
    pub memory: usize,
    // The number of the next instant, how many are due, and where the next row starts.
    pub turn: u32,
    pub due: usize,
    pub at: usize,
}

// A line that is given: how many bytes it has, and where the player then stands.
#[derive(Clone, Copy)]
pub struct Line {
    pub size: usize,
    pub stage: Stage,
}

// Gives the next line of the text of an input, if one is left, with its bytes at the start of `text`.
pub fn next_line(
    input: &[u8],
    stage: Stage,
    memory: &mut [u8; 320],
    text: &mut [u8; 256],
) -> Option<Line>
    requires { Between (played input.now) stage }
    ensures { Gives (played input.now) (lines_left (played input.now) stage memory.old)
        text.old result text.new memory.new }
{
    let count = input.len().min(65536);
    let bytes = &input[..count];
    match stage {
        Stage::Begin => first_line(bytes, memory, text),
        Stage::Playing(progress) => instant_line(bytes, progress, memory, text),
        Stage::Over => None,
    }
}

// Gives the first line: `short`, or the sheet's.
fn first_line(bytes: &[u8], memory: &mut [u8], text: &mut [u8]) -> Option<Line>
    requires { Room bytes.now memory.old text.old }
    ensures { Gives bytes.now (bytes_text bytes.now)
        text.old result text.new memory.new }
{
    if complete(bytes) {
        return sheet_line(bytes, memory, text);
    }
    final_line(lines::short_line(text))
}

// A line behind which none is left.
fn final_line(size: usize) -> Option<Line>
    ensures { result ≡ Some (record { size = size; stage = Stage.Over }) }
{
    Some(Line {
        size,
        stage: Stage::Over,
    })
}

// Whether the two length bytes and the sheet are complete.
fn complete(bytes: &[u8]) -> bool
    ensures { result ≡ is_complete bytes.now }
{
    bytes.len() >= 2 && 2 + sheet_length(bytes) <= bytes.len()
}

// The sheet's length: two bytes, low first.
fn sheet_length(bytes: &[u8]) -> usize
    requires { 2 ≤ length bytes.now }
    ensures value { result ≡ length_at bytes.now }
    ensures upper_bound { result ≤ 65535 }
{
    u16::from_le_bytes([bytes[0], bytes[1]]) as usize
}

// Gives the line of a complete sheet: its refusal, or its counts, where its memory is started and its instants are due.
fn sheet_line(bytes: &[u8], memory: &mut [u8], text: &mut [u8]) -> Option<Line>
    requires room { Room bytes.now memory.old text.old }
    requires bytes_in_bounds { 2 + length_at bytes.now ≤ length bytes.now }
    ensures { Gives bytes.now
        (checked_text (check_of (sheet_in bytes.now)) (sheet_in bytes.now) (rows_in bytes.now))
        text.old result text.new memory.new }
{
    let at = 2 + sheet_length(bytes);
    let sheet = &bytes[2..at];
    match sheet_check::check(sheet) {
        Err(refused) => final_line(refused_line(text, refused)),
        Ok(counts) => {
            let cells_size = 5 * counts.cells;
            let _ = sheet_start::start(sheet, &mut memory[..cells_size]);
            let size = lines::sheet_line(
                text,
                counts.inputs as u32,
                counts.wires as u32,
                counts.outputs as u32,
                counts.cells as u32,
            );
            let progress = first_instant(counts, at, bytes.len() - at);
            Some(Line {
                size,
                stage: Stage::Playing(progress),
            })
        }
    }
}

// The progress before the first instant: by the counts of the sheet, the place of its rows and their bytes.
fn first_instant(counts: Counts, at: usize, rows: usize) -> Progress
    requires { (counts.inputs ≤ 16) × (counts.outputs ≤ 16) × (counts.cells ≤ 64) }
    ensures { result ≡ first_instant counts.inputs counts.outputs counts.cells at rows }
{
    let input = 4 * counts.inputs;
    Progress {
        input,
        output: 4 * counts.outputs,
        memory: 5 * counts.cells,
        turn: 0,
        due: instants_due(input, rows),
        at,
    }
}

// The instants that are due: one for each whole row, or 16 where a row has no bytes.
fn instants_due(size: usize, bytes: usize) -> usize
    ensures { result ≡ instants_due size bytes }
{
    if size == 0 { 16 } else { bytes / size }
}

// Puts the line of a refusal.
fn refused_line(text: &mut [u8], refused: Refused) -> usize
    requires { (256 ≤ length text.old) × (refused.place ≤ 4096) }
    ensures { Holds text.old (refused_line (number_of refused.why) refused.place) text.new result }
{
    lines::refused_line(text, refused.why.number(), refused.place as u32)
}

// Gives the line of the next instant, or of the bytes not used where none is due.
fn instant_line(
    bytes: &[u8],
    progress: Progress,
    memory: &mut [u8],
    text: &mut [u8],
) -> Option<Line>
    requires room { Room bytes.now memory.old text.old }
    requires ready { Ready bytes.now progress }
    ensures { Gives bytes.now (lines_left bytes.now (Stage.Playing progress) memory.old)
        text.old result text.new memory.new }
{
    if progress.due == 0 {
        return final_line(lines::left_line(text, (bytes.len() - progress.at) as u32));
    }
    row_line(bytes, progress, memory, text)
}

// Gives the line of an instant that is due: its refusal, or its number and its outputs.
fn row_line(bytes: &[u8], progress: Progress, memory: &mut [u8], text: &mut [u8]) -> Option<Line>
    requires room { Room bytes.now memory.old text.old }
    requires ready { Ready bytes.now progress × (0 < progress.due) }
    ensures { Gives bytes.now (lines_left bytes.now (Stage.Playing progress) memory.old)
        text.old result text.new memory.new }
{
    let end = 2 + sheet_length(bytes);
    let at = progress.at;
    let next = at + progress.input;
    let cells_size = progress.memory;
    let row_size = progress.output;
    let mut output = [0u8; 64];
    match in_rounds::instant(
        &bytes[2..end],
        &mut memory[..cells_size],
        &bytes[at..next],
        &mut output[..row_size],
    ) {
        Err(refusal) => final_line(refused_line(text, refusal)),
        Ok(_) => {
            let size = lines::row_line(text, progress.turn, &output[..row_size]);
            let progress = next_instant(progress);
            Some(Line {
                size,
                stage: Stage::Playing(progress),
            })
        }
    }
}

// The progress after one instant more.
fn next_instant(progress: Progress) -> Progress
    requires { (0 < progress.due) × (progress.turn < 65536) × (progress.at + progress.input ≤ 65536) }
    ensures { result ≡ next_instant progress }
{
    Progress {
        turn: progress.turn + 1,
        due: progress.due - 1,
        at: progress.at + progress.input,
        ..progress
    }
}
