// The sheet: its bytes, its memory's bytes, and what the check and the start answer about them.
// Rests on `numbers` for words of 32 bits.
#![tactic(auto)]

pub mod bodies;
pub mod data;
pub mod kinds;
pub mod memory;
mod refusals;

// What an input, a constant, a cell or a known wire holds.
#[derive(Clone, Copy)]
pub enum Datum {
    Boolean(bool),
    Number(i32),
}

// One cell of a memory: an fby's cell holds nothing before its first instant. No `Option<Datum>`, as a value of the kernel would be one too.
#[derive(Clone, Copy)]
pub enum Cell {
    NotStarted,
    Started(Datum),
}

// Why a call refuses, each by its number: document 01's from 1 to 20, then those of the change requests.
#[derive(Clone, Copy)]
pub enum Refusal {
    SheetLength = 1,
    Cut = 2,
    CountRange = 3,
    TypeByte = 4,
    OutputWire = 5,
    Kind = 6,
    Body = 7,
    Level = 8,
    TypeAsked = 9,
    CellLimit = 10,
    LeftOver = 11,
    MemoryLength = 12,
    CellContent = 13,
    InputLength = 14,
    InputContent = 15,
    OutputLength = 16,
    ScheduleLength = 17,
    ScheduleEntry = 18,
    ScheduleOrder = 19,
    StaysUnknown = 20,
    NoSchedule = 21,
    BoardFrame = 22,
    JoinedLimit = 23,
}

// A refusal of a call: why, and at which place.
#[derive(Clone, Copy)]
pub struct Refused {
    pub why: Refusal,
    pub place: usize,
}

// The four counts of a sheet that passes the check.
#[derive(Clone, Copy)]
pub struct Counts {
    pub inputs: usize,
    pub wires: usize,
    pub outputs: usize,
    pub cells: usize,
}

// What reading at a place gets: the place past what was read and a number. The number is a count or a byte of the header, and behind an
// expression the count of cells so far.
#[derive(Clone, Copy)]
pub struct Got {
    pub next: usize,
    pub count: usize,
}
