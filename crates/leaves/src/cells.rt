// What a pre, an fby or a machine sees of its cell. Rests on `memory` for the cell's bytes and on `bodies` for a pre's constant.
ghost use Rattle.std.specs.Prelude.{◌≡◌, ◌+◌, ◌*◌, ◌≤◌, length};
ghost use Rattle.sheet.specs.Readings.{Whole};
ghost use Rattle.leaves.specs.Words.{is_seen, pre_word, is_second_state};

use sheet::{bodies, memory};

// Whether a place sees its cell as started: the cell is so, and the place is not fresh.
pub fn is_seen(memory: &[u8], cell: usize, fresh: bool) -> bool
    requires { 5 * cell + 5 ≤ length memory.now }
    ensures { result ≡ is_seen fresh memory.now cell }
{
    if fresh {
        return false;
    }
    memory::is_started(memory, cell)
}

// The word that a pre yields: that of its cell where it sees it started, and else that of its constant.
pub fn pre_word(sheet: &[u8], memory: &[u8], at: usize, cell: usize, fresh: bool) -> u32
    requires { Whole sheet.now at × (5 * cell + 5 ≤ length memory.now) }
    ensures { result ≡ pre_word sheet.now memory.now at cell fresh }
{
    if is_seen(memory, cell, fresh) {
        return memory::word_in(memory, cell);
    }
    bodies::body_at(sheet, at)
}

// Whether state 1 is a machine's current one, which its cell has; a machine that is fresh begins in state 0.
pub fn is_second_state(memory: &[u8], cell: usize, fresh: bool) -> bool
    requires { 5 * cell + 5 ≤ length memory.now }
    ensures { result ≡ is_second_state fresh memory.now cell }
{
    if is_seen(memory, cell, fresh) {
        return memory::word_in(memory, cell) == 1;
    }
    false
}
