// The value of a wire in an instant, which the kernel's definitions and theorems in specs/ speak of.
// Rests on `sheet` for data, expressions and memory.
#![tactic(auto)]

use sheet::Datum;

// A value, as document 01 has it: unknown, or known and then a Boolean or a number. No `Option<Datum>`, as a cell would be one too, and one
// could be taken for the other; the theorems of specs/ name both by their words.
#[derive(Clone, Copy)]
pub enum Value {
    Unknown,
    Known(Datum),
}
