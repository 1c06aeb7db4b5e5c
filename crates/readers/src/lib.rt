// The wires that read each wire, from the sets of the wires that each one reads; so that a wire which becomes known names its readers at
// once. Rests on `wires` for sets. The tables hold bare bits, as `closure` and the map do: their clauses speak of lists of numbers.
#![tactic(auto)]

ghost use Rattle.std.specs.Prelude.{ℕ, ◌≤◌, ◌<◌, ◌≡◌, length, get_or};
ghost use Rattle.readers.specs.Readers.{AddsReader, Readers, Reading};

use wires::Wires;

// Adds `wire` to the readers of each wire that it reads.
fn add_reader(read: Wires, wire: usize, readers: &mut [u64; 64])
    requires { (wire < 64) × (64 ≤ length readers.old) }
    ensures { AddsReader read.bits wire readers.old readers.new }
{
    for source in read {
        let so_far = Wires {
            bits: readers[source],
        };
        readers[source] = so_far.with(wire).bits;
    }
}

// Fills a table that is empty with the readers of each wire among the first `wires` ones.
pub fn gather(reads: &[u64; 64], wires: usize, readers: &mut [u64; 64])
    requires { (wires ≤ 64) × (64 ≤ length readers.old) × ((v : ℕ) → get_or readers.old v 0 ≡ 0) }
    ensures { Readers reads.now wires readers.new }
{
    for wire in 0..wires {
        let read = Wires { bits: reads[wire] };
        add_reader(read, wire, readers);
    }
}

// The wires that read one of `read`.
pub fn of_any(readers: &[u64; 64], read: Wires) -> Wires
    ensures { Reading readers.now read.bits result.bits }
{
    let mut all = Wires::none();
    for source in read {
        all = all.joined(Wires {
            bits: readers[source],
        });
    }
    all
}
