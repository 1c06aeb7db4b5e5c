// What the expressions of a sheet may name: limits and types looked up by the kind of a leaf, so that the check takes no branch for
// each, and which wires are kept. Rests on `wires` for sets of at most 64 names.
#![tactic(auto)]

ghost use Rattle.std.specs.Prelude.{◌≡◌, List, ℕ, ◌-◌, ◌≤◌, ◌<◌, length, get_or};
ghost use Rattle.sheet.specs.KindBytes.{byte_of};
ghost use Rattle.sheet.specs.Sheets.{kept_count};
ghost use Rattle.sheet_names.specs.Naming.{limit_in, type_in, kept_in, ahead_in, Naming, Sorted};

use sheet::kinds::Kind;
use wires::Wires;

// What the expressions of a sheet may name. Two tables are looked up by the kind of a leaf, 0 to 3: the sets of the names that stand for a
// number, and what the names stay below. A constant names itself: of the Booleans there are two, and a number begins with any byte. Then
// the set of the kept wires, and how many of them are ahead.
#[derive(Clone, Copy)]
pub struct Names {
    pub numbers: [u64; 4],
    pub limits: [u64; 4],
    pub kept: Wires,
    pub ahead: usize,
}

// What type bytes say of their names: those that stand for a number, those that are kept, and how many are kept.
#[derive(Clone, Copy)]
struct Types {
    numbers: Wires,
    kept: Wires,
    count: usize,
}

// What these type bytes say, in one pass over them.
fn types_of(types: &[u8]) -> Types
    requires { length types.now ≤ 64 }
    ensures { Sorted types.now result.numbers.bits result.kept.bits result.count }
{
    let mut numbers = Wires::none();
    let mut kept = Wires::none();
    let mut count = 0;
    for i in 0..types.len() {
        if types[i] % 2 == 1 {
            numbers = numbers.with(i);
        }
        if 2 <= types[i] {
            kept = kept.with(i);
            count += 1;
        }
    }
    Types {
        numbers,
        kept,
        count,
    }
}

impl Names {
    // What the expressions of a sheet with inputs and wires of these types may name; all kept wires are ahead.
    pub fn of(inputs: &[u8], wires: &[u8]) -> Names
        requires inputs_len_bound { (length inputs.now ≤ 64) × (length wires.now ≤ 64) }
        requires by_index { (i : ℕ) → get_or inputs.now i 0 < 2 }
        ensures naming { Naming inputs.now wires.now result }
        ensures result_value { ahead_in result ≡ kept_count wires.now }
    {
        let of_wires = types_of(wires);
        let of_inputs = types_of(inputs);
        Names {
            numbers: [
                0,
                18446744073709551615,
                of_wires.numbers.bits,
                of_inputs.numbers.bits,
            ],
            limits: [2, 256, wires.len() as u64, inputs.len() as u64],
            kept: of_wires.kept,
            ahead: of_wires.count,
        }
    }

    // What a name of this kind stays below.
    pub fn limit(&self, kind: Kind) -> u64
        requires { byte_of kind < 4 }
        ensures { result ≡ limit_in self.now (byte_of kind) }
    {
        self.limits[kind as usize]
    }

    // The type byte of what a leaf of this kind names, where `byte` follows its kind byte.
    pub fn type_of(&self, kind: Kind, byte: u8) -> u8
        requires { byte_of kind < 4 }
        ensures { result ≡ type_in self.now (byte_of kind) byte }
    {
        ((self.numbers[kind as usize] >> (byte % 64) as u32) % 2) as u8
    }

    // Whether the wire that a byte names is kept.
    pub fn is_kept(&self, byte: u8) -> bool
        ensures { result ≡ kept_in self.now byte }
    {
        byte < 64 && self.kept.has(byte as usize)
    }

    // How many kept wires are ahead.
    pub fn ahead(&self) -> usize
        ensures { result ≡ ahead_in self.now }
    {
        self.ahead
    }

    // One kept wire less is ahead.
    pub fn pass_kept(&mut self)
        requires { 1 ≤ ahead_in self.old }
        ensures names_after { ahead_in self.new ≡ ahead_in self.old - 1 }
        ensures by_index { (inputs wires : List ℕ) → Naming inputs wires self.old → Naming inputs wires self.new }
    {
        self.ahead -= 1;
    }
}
