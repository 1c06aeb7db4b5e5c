// The frame of a board: its count byte and the lengths of its sheets, with refusal 22. Rests on `numbers` for a byte as a length.
#![tactic(auto)]

ghost use Rattle.std.specs.Prelude.{◌≡◌, ◌<◌, ◌≤◌, get_or};
ghost use Rattle.sheet.specs.Outcomes.{answer_of};
ghost use Rattle.board.specs.Boards.{count_byte, length_at, frame_of};

use sheet::{Refusal, Refused};

// The frame of any bytes: the count is 1 to 8, each length is there and stays within the board, and nothing follows the last sheet.
pub fn frame(board: &[u8]) -> Result<usize, Refused>
    ensures { result ≡ answer_of (frame_of board.now) }
{
    let count = byte_at(board, 0);
    if count < 1 || 8 < count {
        return Err(Refusal::BoardFrame.at(0));
    }
    lengths(board, count)
}

// What the lengths of so many sheets come to: none runs past the end, and nothing follows the last sheet.
fn lengths(board: &[u8], count: usize) -> Result<usize, Refused>
    requires { (1 ≤ count) × (count ≤ 8) × (count ≡ count_byte board.now) }
    ensures { result ≡ answer_of (frame_of board.now) }
{
    let mut at = 1;
    for k in 0..count {
        let long = 2 + length_at(board, at);
        if board.len() - at < long {
            return Err(Refusal::BoardFrame.at(at));
        }
        at += long;
    }
    if at < board.len() {
        return Err(Refusal::BoardFrame.at(at));
    }
    Ok(count)
}

// The length whose two bytes stand at a place; a byte that is missing counts as 0.
pub fn length_at(board: &[u8], at: usize) -> usize
    ensures { (result ≡ length_at board.now at) × (result < 65536) }
{
    if board.len() <= at {
        return 0;
    }
    byte_at(board, at) + 256 * byte_at(board, at + 1)
}

// The byte at a place, or 0 where it is missing.
fn byte_at(board: &[u8], place: usize) -> usize
    ensures { (result ≡ get_or board.now place 0) × (result < 256) }
{
    if place < board.len() {
        numbers::length_of(board[place])
    } else {
        0
    }
}
