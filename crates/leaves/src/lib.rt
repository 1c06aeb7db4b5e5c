// What an expression without operands stands for, what a pre or an fby sees of its cell, and the words of inputs and of kept wires' cells.
// Rests on `sheet` for the format, on `sheet_walk` for where an expression stands, on `numbers` for words and on `wires` for the set of known wires.
#![tactic(auto)]

pub mod cells;
pub mod inputs;
pub mod lasts;
pub mod leaf;

use sheet_walk::Place;

// What is handed back of an expression whose value is known: the word of the value, and the end of the expression.
#[derive(Clone, Copy)]
pub struct Valued {
    pub word: u32,
    pub end: Place,
}
