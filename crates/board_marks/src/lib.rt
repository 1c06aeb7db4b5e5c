// Marks of a board's sheets as sets, and the first due sheet in ring order. Rests on `wires` for sets held as bits.
#![tactic(auto)]

ghost use Rattle.std.specs.Prelude.{◌≡◌, Bool, ◌||◌, ℕ, ◌+◌, ◌%◌, ◌≤◌, ◌<◌};
ghost use Rattle.board.specs.Marks.{marked, marks_of, served_last, first_due};
ghost use Rattle.board_marks.specs.Sets.{MarksJust};

use wires::Wires;

// The marks of the first `sheets` sheets that are due: this tick's and those that wait.
pub fn due_marks(due: u8, stored: u8, sheets: usize) -> Wires
    requires { sheets ≤ 8 }
    ensures { MarksJust result.bits sheets (λ k. marked due k || marked stored k) }
{
    let all = set_of(due).joined(set_of(stored));
    Wires::first(sheets).common(all)
}

// A byte of marks as a set of sheets.
pub fn set_of(marks: u8) -> Wires
    ensures { result.bits ≡ marks }
{
    Wires { bits: marks as u64 }
}

// Marks of up to eight sheets as the byte that is handed back.
pub fn byte_of(marks: Wires) -> u8
    ensures { (n : ℕ) (test : ℕ → Bool) → n ≤ 8 → MarksJust marks.bits n test → result ≡ marks_of test n }
{
    (marks.bits % 256) as u8
}

// The first due sheet after the one served last, in ring order; `sheets` where none is due, as the definition of the same name has it.
pub fn first_due(marks: Wires, sheets: usize, number: u8) -> usize
    requires { (1 ≤ sheets) × (sheets ≤ 8) }
    ensures { (due : ℕ → Bool) → MarksJust marks.bits sheets due → result ≡ first_due sheets due number }
{
    let last = served_last(sheets, number);
    for i in 0..sheets {
        let sheet = ring_at(sheets, last, i);
        if marks.has(sheet) {
            return sheet;
        }
    }
    sheets
}

// The sheet served last, by its number; where that names no sheet, the last one.
fn served_last(sheets: usize, number: u8) -> usize
    requires { 1 ≤ sheets }
    ensures { (result ≡ served_last sheets number) × (result < sheets) }
{
    let last = number as usize;
    if last < sheets { last } else { sheets - 1 }
}

// The i-th sheet after the one served last, from 0, in the ring of so many sheets.
fn ring_at(sheets: usize, last: usize, i: usize) -> usize
    requires { (last < sheets) × (i < sheets) × (sheets ≤ 8) }
    ensures { (result ≡ (last + 1 + i) % sheets) × (result < sheets) }
{
    let place = last + 1 + i;
    if place < sheets {
        place
    } else {
        place - sheets
    }
}
