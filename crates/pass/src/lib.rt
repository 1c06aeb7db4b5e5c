// The pass along a list of wires, each of which is worked out once.
// Rests on `expression` for a wire's value, and on `rounds` for what an instant runs on and for the set and the words.
#![tactic(auto)]

ghost use Rattle.std.specs.Prelude.{length};
ghost use Rattle.leaves.specs.Words.{fixed_words};
ghost use Rattle.rounds.specs.Running.{Holds};
ghost use Rattle.pass.specs.Along.{AlongOn, passed_of};

use expression::Basis;
use rounds::Instant;
use wires::Wires;

// The basis is written out, here, in `rounds` and in `waiting`: a method that lends it from an instant gets no proof at its callers.
// The pass along `list`: the wire at each position gets what its expression yields under the values so far.
pub fn pass(instant: &Instant, list: &[u8], words: &mut [u32; 144]) -> Wires
    requires { AlongOn instant.now list.now words.old }
    ensures { (a : AlongOn instant.now list.now words.old)
        → Holds (length instant.now.types.now) (fixed_words words.old) result.bits words.new (passed_of a) }
{
    let mut known = Wires::none();
    for wire in list {
        let w = *wire as usize;
        let here = instant.place_of(w);
        let basis = Basis {
            sheet: instant.sheet,
            memory: instant.memory,
            words,
            known,
        };
        let worth = expression::value_of_wire(&basis, instant.types[w], here);
        known = rounds::put_value(worth, w, known, words);
    }
    known
}
