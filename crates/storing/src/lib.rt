// One pass over an expression that values it and stores its cells in place.
// Rests on `expression` for its value and where it stands, and on `sheet_cells` for cells as they are at the start.
#![tactic(auto)]

pub mod advance;
pub mod rest;
