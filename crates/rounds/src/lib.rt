// The rounds of an instant, each of which goes from the highest wire to the lowest, passes known wires over and works the others out from
// the values before it; and the output row of the words. Rests on `expression` for the value of one expression, on `wires` for sets and on
// `readers` for the wires that are due.
#![tactic(auto)]

ghost use Rattle.std.specs.Prelude.{◌≡◌, ◌*◌, ◌≤◌, ◌<◌, length};
ghost use Rattle.kernel.specs.Systems.{round_over};
ghost use Rattle.kernel.specs.Instants.{rounds, finished};
ghost use Rattle.leaves.specs.Words.{fixed_words};
ghost use Rattle.rounds.specs.Running.{mapped, RunningReadsOn, Holds, round_of, BeforeOn, Put};
ghost use Rattle.rounds.specs.Outputs.{Below, words_of};

use expression::Basis;
use kernel::Value;
use sheet::data;
use sheet_expressions::map;
use sheet_walk::Place;
use wires::Wires;

// What an instant runs on: the bytes of the sheet and of the memory, the types of the wires, and the map of where their expressions stand.
#[derive(Clone, Copy)]
pub struct Instant<'a> {
    pub sheet: &'a [u8],
    pub memory: &'a [u8],
    pub types: &'a [u8],
    pub places: &'a [u16; 64],
    pub firsts: &'a [u8; 64],
}

impl<'a> Instant<'a> {
    // Where the expression of a wire stands, by the map.
    pub fn place_of(&self, wire: usize) -> Place
        requires { wire < 64 }
        ensures { result ≡ mapped self.now.places.now self.now.firsts.now wire }
    {
        Place {
            at: map::place(self.places[wire]),
            cell: numbers::length_of(self.firsts[wire]),
        }
    }
}

// What the rounds of an instant come to: the known wires, and the rounds that were made.
#[derive(Clone, Copy)]
pub struct Finished {
    pub known: Wires,
    pub rounds: usize,
}

// Puts the value of a wire: a known one into the set, and its word into the words.
pub fn put_value(worth: Value, wire: usize, known: Wires, words: &mut [u32; 144]) -> Wires
    requires { (wire < 64) × (wire < length words.old) }
    ensures { Put wire known.bits words.old worth result.bits words.new }
{
    match worth {
        Value::Unknown => known,
        Value::Known(datum) => {
            words[wire] = data::word_of(datum);
            known.with(wire)
        }
    }
}

// One round over any values, from the highest wire to the lowest. A known wire is passed over and keeps its word; an unknown one that is
// due is worked out from the values before, where the map says. One that is not due is passed over too: it must be one that would stay
// unknown. Handed back is the set of known wires, grown or the same.
fn round(instant: &Instant, before: Wires, due: Wires, words: &mut [u32; 144]) -> Wires
    requires { BeforeOn instant.now before.bits due.bits words.old }
    ensures { (b : BeforeOn instant.now before.bits due.bits words.old)
        → Holds (length instant.now.types.now) (fixed_words words.old) result.bits words.new
        (round_over (round_of b.under.running) b.under.values) }
{
    let mut grown = before;
    for w in due.minus(before).into_iter().rev() {
        let here = instant.place_of(w);
        let basis = Basis {
            sheet: instant.sheet,
            memory: instant.memory,
            words,
            known: before,
        };
        let worth = expression::value_of_wire(&basis, instant.types[w], here);
        grown = put_value(worth, w, grown, words);
    }
    grown
}

// The rounds from all wires unknown to the first that changes nothing. In the first every wire is due, from then on those that read a
// wire which has just become known.
pub fn finish(instant: &Instant, reads: &[u64; 64], words: &mut [u32; 144]) -> Finished
    requires { RunningReadsOn instant.now reads.now words.old × (length instant.now.types.now ≤ length words.old) }
    ensures { (run : RunningReadsOn instant.now reads.now words.old)
        → let given = run.running.given in
        Holds (length instant.now.types.now) (fixed_words words.old) result.known.bits words.new
        (finished given.sheet given.inputs given.memory)
        × (result.rounds ≡ rounds given.sheet given.inputs given.memory) }
{
    let mut readers = [0u64; 64];
    readers::gather(reads, instant.types.len(), &mut readers);
    let mut known = Wires::none();
    let mut due = Wires::first(instant.types.len());
    let mut rounds = 0;
    // No `for` over the numbers of the rounds: an answer would have to stand behind it that is never given.
    loop {
        let grown = round(instant, known, due, words);
        let made = rounds + 1;
        if grown.within(known) {
            return Finished {
                known: grown,
                rounds: made,
            };
        }
        due = readers::of_any(&readers, grown.minus(known));
        known = grown;
        rounds = made;
    }
}

// Writes the word of each output's wire into its entry of the row.
pub fn write_row(outputs: &[u8], words: &[u32; 144], row: &mut [u8])
    requires { Below 64 outputs.now × (length row.old ≡ 4 * length outputs.now) }
    ensures { row.new ≡ words_of outputs.now words.now }
{
    for (i, wire) in outputs.iter().enumerate() {
        numbers::put_word(row, 4 * i, words[*wire as usize]);
    }
}
