// The bytes of the joined sheet, written one section behind the other. Rests on `sheet` for the table of kinds.
ghost use Rattle.std.specs.Prelude.{◌≡◌, ◌++◌, ◌+◌, ◌≤◌, ◌<◌, length};
ghost use Rattle.sheet.specs.KindBytes.{byte_of};
ghost use Rattle.join.specs.Joined.{shifted_numbers};
ghost use Rattle.join.specs.Bytes.{raise_of, shifted_bytes, counted, section, behind, joined_bytes};
ghost use Rattle.join.proofs.Laws.Raised.{Raisable};
ghost use Rattle.joining.specs.Writing.{Joinable, HasSection, BothBegin, CanRise, Puts};

use sheet::kinds::Kind;

// Writes the joined sheet of two that pass, section by section, into a buffer of its length.
pub fn write(first: &[u8], second: &[u8], joined: &mut [u8])
    requires { Joinable first.now second.now (length joined.old) }
    ensures { joined.new ≡ joined_bytes first.now second.now }
{
    let inputs = first[0];
    let at = put_section(joined, 0, first, second, 0);
    let first = behind(first);
    let second = behind(second);
    let wires = first[0];
    let at = put_section(joined, at, first, second, 0);
    let first = behind(first);
    let second = behind(second);
    let at = put_section(joined, at, first, second, wires);
    let at = put_raised(joined, at, behind(first), 0);
    put_shifted(joined, at, behind(second), wires, inputs);
}

// Puts the section that two sheets begin with at a place: the sum of the counts, the bytes of the first, and those of the second, raised.
// Returns the place behind.
fn put_section(joined: &mut [u8], at: usize, first: &[u8], second: &[u8], raise: u8) -> usize
    requires { BothBegin first.now second.now at raise (length joined.old) }
    ensures value { result ≡ at + 1 + length (section first.now) + length (section second.now) }
    ensures puts { Puts joined.old at
        (counted (section first.now ++ shifted_numbers raise (section second.now))) joined.new }
{
    joined[at] = first[0] + second[0];
    let next = put_raised(joined, at + 1, section(first), 0);
    put_raised(joined, next, section(second), raise)
}

// The bytes of the section that begins with a count.
fn section(sheet: &[u8]) -> &[u8]
    requires { HasSection sheet.now }
    ensures { result.now ≡ section sheet.now }
{
    &sheet[1..1 + sheet[0] as usize]
}

// What comes behind that section.
fn behind(sheet: &[u8]) -> &[u8]
    requires { HasSection sheet.now }
    ensures { result.now ≡ behind sheet.now }
{
    &sheet[1 + sheet[0] as usize..]
}

// Puts bytes at a place, each of them raised. Returns the place behind.
fn put_raised(joined: &mut [u8], at: usize, bytes: &[u8], raise: u8) -> usize
    requires { (at + length bytes.now ≤ length joined.old) × CanRise raise bytes.now }
    ensures value { result ≡ at + length bytes.now }
    ensures puts { Puts joined.old at (shifted_numbers raise bytes.now) joined.new }
{
    for (i, &byte) in bytes.iter().enumerate() {
        joined[at + i] = raise + byte;
    }
    at + bytes.len()
}

// Puts the bytes of expressions at a place: wire numbers are raised by `wires`, input numbers by `inputs`.
fn put_shifted(joined: &mut [u8], at: usize, bytes: &[u8], wires: u8, inputs: u8)
    requires { (at + length bytes.now ≤ length joined.old) × Raisable wires inputs 0 0 bytes.now }
    ensures { Puts joined.old at (shifted_bytes wires inputs 0 0 bytes.now) joined.new }
{
    let mut left = 0;
    let mut raise = 0u8;
    for (i, &byte) in bytes.iter().enumerate() {
        if left == 0 {
            let kind = Kind::of(byte);
            joined[at + i] = byte;
            left = kind.body();
            raise = raise_of(kind, wires, inputs);
        } else {
            joined[at + i] = raise + byte;
            left -= 1;
        }
    }
}

// By how much the body behind a kind byte is raised: what names a wire, an input, or nothing.
fn raise_of(kind: Kind, wires: u8, inputs: u8) -> u8
    ensures { result ≡ raise_of wires inputs (byte_of kind) }
{
    match kind {
        Kind::Wire | Kind::Last => wires,
        Kind::Input => inputs,
        _ => 0,
    }
}
