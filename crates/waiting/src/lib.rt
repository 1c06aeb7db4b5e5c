// The wire that really loops (document 02, K5): which unknown wires an unknown wire waits for, and the lowest wire that waits for itself.
// It is asked only where an instant is refused.
// Rests on `awaited` for what an expression waits for, and on `closure` for the lowest loop.
#![tactic(auto)]

mod awaited;
mod count;

ghost use Rattle.std.specs.Prelude.{◌≡◌, ℕ, ◌≤◌, ◌<◌, length};
ghost use Rattle.wires.specs.Sets.{member};
ghost use Rattle.closure.specs.Closures.{Rows};
ghost use Rattle.kernel.specs.Calls.{place_of_loop};
ghost use Rattle.rounds.specs.Running.{RunningUnderOn};
ghost use Rattle.waiting.specs.Waiting.{waits_in};

use expression::Basis;
use rounds::Instant;
use wires::Wires;

// The unknown wires that a wire waits for: a known one waits for none. Known wires and words stand beside the instant, as a `Basis` would
// have sheet and memory a second time.
fn set_of(instant: &Instant, known: Wires, words: &[u32; 144], wire: usize) -> Wires
    requires { RunningUnderOn instant.now known.bits words.now × (wire < length instant.now.types.now) }
    ensures { (u : RunningUnderOn instant.now known.bits words.now) → (w : ℕ) → member result.bits w ≡ waits_in u wire w }
{
    if known.has(wire) {
        return Wires::none();
    }
    let basis = Basis {
        sheet: instant.sheet,
        memory: instant.memory,
        words,
        known,
    };
    let here = instant.place_of(wire);
    awaited::awaited(&basis, 16, here, false).wires
}

// Puts what each wire waits for into its set; what the sets held plays no part.
fn relate(instant: &Instant, known: Wires, words: &[u32; 144], sets: &mut [u64; 64])
    requires { RunningUnderOn instant.now known.bits words.now × (64 ≤ length sets.old) }
    ensures rows { (u : RunningUnderOn instant.now known.bits words.now) → Rows (waits_in u) (length instant.now.types.now) sets.new }
    ensures sets_len_unchanged { length sets.new ≡ length sets.old }
{
    for w in 0..instant.types.len() {
        sets[w] = set_of(instant, known, words, w).bits;
    }
}

// The place of 20: the lowest wire that waits for itself, directly or through others. The sets are lent as room.
pub fn lowest_waiting(
    instant: &Instant,
    known: Wires,
    words: &[u32; 144],
    sets: &mut [u64; 64],
) -> usize
    requires { RunningUnderOn instant.now known.bits words.now × (64 ≤ length sets.old) }
    ensures { (u : RunningUnderOn instant.now known.bits words.now) → result ≡ place_of_loop u.running.given u.values }
{
    relate(instant, known, words, sets);
    closure::lowest_loop(sets, instant.types.len())
}
