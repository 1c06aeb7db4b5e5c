// Two sheets into one: why they are not joined. The definitions and theorems are in specs/. Rests on `sheet` for refusals.
#![tactic(auto)]

use sheet::Refused;

// Why two sheets are not joined: a refusal of the first or of the second, with its place in that sheet, or of what they would be joined into.
#[derive(Clone, Copy)]
pub enum NotJoined {
    First(Refused),
    Second(Refused),
    Joined(Refused),
}
