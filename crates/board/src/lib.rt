// A board of sheets, and what a tick of it answers and hands on. Its definitions and theorems are in specs/. Rests on `sheet` for refusals.
#![tactic(auto)]

// What a tick that passes all checks answers: that no sheet is due; or the sheet that was served, by its number in the board, with the rounds
// of its instant, or with the wire at which its instant was refused 20.
#[derive(Clone, Copy)]
pub enum Ticked {
    NoneDue,
    Served { sheet: usize, rounds: usize },
    LeftUnknown { sheet: usize, wire: usize },
}

// What a tick takes and hands back: the stored marks, of the sheets that are due, and the number of the sheet served last.
#[derive(Clone, Copy)]
pub struct Standing {
    pub stored: u8,
    pub number: u8,
}
