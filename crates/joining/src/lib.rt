// Two sheets into one: both are checked, limits and room are tested, and then the joined sheet is written, section by section. Rests on
// `sheet_check` for the check of each sheet, and on `sheet` for the table of kinds.
#![tactic(auto)]

mod writing;

ghost use Rattle.std.specs.Prelude.{◌≡◌};
ghost use Rattle.join.specs.Calls.{is_above, join_call, Leaves, packed_joining, PackableJoining};
ghost use Rattle.joining.specs.Counting.{Passes, Few};

use join::NotJoined;
use sheet::{Counts, Refusal};

// Joins two sheets: 1 to 11 of the first, then of the second, 23 where a joined count or length is above its limit, 16 where the buffer has
// not the joined length; else the buffer gets the joined sheet.
pub fn join(first: &[u8], second: &[u8], joined: &mut [u8]) -> Result<(), NotJoined>
    ensures { Leaves (join_call first.now second.now joined.old) result joined.new }
{
    let counts = sheet_check::check(first).map_err(NotJoined::First)?;
    let others = sheet_check::check(second).map_err(NotJoined::Second)?;
    join_both(first, counts, second, others, joined)
}

// Joins two sheets that pass, with these counts. Their headers have six counts, and that of the joined sheet has three.
fn join_both(
    first: &[u8],
    counts: Counts,
    second: &[u8],
    others: Counts,
    joined: &mut [u8],
) -> Result<(), NotJoined>
    requires { Passes first.now counts × Passes second.now others }
    ensures { Leaves (join_call first.now second.now joined.old) result joined.new }
{
    let length = first.len() + second.len() - 3;
    if is_above(counts, others, length) {
        return Err(NotJoined::Joined(Refusal::JoinedLimit.at(0)));
    }
    if joined.len() != length {
        return Err(NotJoined::Joined(Refusal::OutputLength.at(0)));
    }
    writing::write(first, second, joined);
    Ok(())
}

// Whether a joined count or the joined length is above its limit.
fn is_above(counts: Counts, others: Counts, length: usize) -> bool
    requires { Few counts × Few others }
    ensures { result ≡ is_above counts others length }
{
    16 < counts.inputs + others.inputs
        || 64 < counts.wires + others.wires
        || 16 < counts.outputs + others.outputs
        || 64 < counts.cells + others.cells
        || 4096 < length
}

// The answer as one number: 0, or the packed refusal, with the highest of 32 bits where it is the second sheet's.
pub fn packed(answer: Result<(), NotJoined>) -> u32
    requires { PackableJoining answer }
    ensures { result ≡ packed_joining answer }
{
    match answer {
        Ok(()) => 0,
        Err(NotJoined::Second(refused)) => 2147483648 + refused.packed(),
        Err(NotJoined::First(refused) | NotJoined::Joined(refused)) => refused.packed(),
    }
}
