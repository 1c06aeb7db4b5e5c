// The order in which the wires of a sheet are placed. A wire that cannot be placed yet waits for one of those that it reads, and is looked
// at again only when that one is placed. Rests on `wires` for the sets and on `depths`.
ghost use Rattle.std.specs.Prelude.{◌≡◌, Bool, true, List, [], ℕ, ◌≤◌, ◌<◌, length, get_or};
ghost use Rattle.wires.specs.Sets.{member};
ghost use Rattle.sheet_expressions.specs.Map.{HoldsJust, EachHoldsJust};
ghost use Rattle.maker.specs.Placing.{Placed};
ghost use Rattle.maker.specs.Queue.{Queue};

use crate::depths;
use wires::Wires;

// Looks at a wire, which reads these wires: it is ready, or it waits for the lowest that is not placed. The set of those that are ready.
fn look_at(wire: usize, read: Wires, placed: Wires, ready: Wires, waiting: &mut [u64; 64]) -> Wires
    requires { (wire < 64) × (64 ≤ length waiting.old) }
    ensures by_index { (reads_of : ℕ → List ℕ) (n : ℕ) (list : List ℕ) (left : ℕ → Bool)
        → HoldsJust read.bits (reads_of wire) → HoldsJust placed.bits list → left wire ≡ true
        → Queue reads_of n list (λ x. left x ≡ true) ready.bits waiting.old
        → Queue reads_of n list (λ x. (left x ≡ true) × (x ≡ wire → ⊥)) result.bits waiting.new }
    ensures waiting_len_unchanged { length waiting.new ≡ length waiting.old }
{
    let missing = read.minus(placed);
    match missing.into_iter().next() {
        None => ready.with(wire),
        Some(awaited) => {
            let row = Wires {
                bits: waiting[awaited],
            };
            waiting[awaited] = row.with(wire).bits;
            ready
        }
    }
}

// Looks at each of so many wires, none of which is placed yet.
fn look_at_all(reads: &[u64; 64], wires: usize, waiting: &mut [u64; 64]) -> Wires
    requires { (wires ≤ 64) × (64 ≤ length waiting.old) }
    ensures by_index { (reads_of : ℕ → List ℕ) → EachHoldsJust reads.now wires reads_of
        → ((v x : ℕ) → member (get_or waiting.old v 0) x ≡ true → ⊥)
        → Queue reads_of wires [] (λ x. ⊥) result.bits waiting.new }
    ensures waiting_len_unchanged { length waiting.new ≡ length waiting.old }
{
    let placed = Wires::none();
    let mut ready = placed;
    for wire in 0..wires {
        let read = Wires { bits: reads[wire] };
        ready = look_at(wire, read, placed, ready, waiting);
    }
    ready
}

// Looks again at each wire of a set.
fn look_again(
    reads: &[u64; 64],
    set: Wires,
    placed: Wires,
    ready: Wires,
    waiting: &mut [u64; 64],
) -> Wires
    requires { 64 ≤ length waiting.old }
    ensures by_index { (reads_of : ℕ → List ℕ) (n : ℕ) (list : List ℕ)
        → EachHoldsJust reads.now n reads_of → HoldsJust placed.bits list
        → Queue reads_of n list (λ x. member set.bits x ≡ true) ready.bits waiting.old
        → Queue reads_of n list (λ x. ⊥) result.bits waiting.new }
    ensures waiting_len_unchanged { length waiting.new ≡ length waiting.old }
{
    let mut found = ready;
    for wire in set {
        let read = Wires { bits: reads[wire] };
        found = look_at(wire, read, placed, found, waiting);
    }
    found
}

// What came of placing: how many positions are filled, and the greatest depth of the wires there. No `Option` of the depth: the
// law of a list that leaves a wire out speaks of the positions filled.
#[derive(Clone, Copy)]
pub struct Positions {
    pub filled: usize,
    pub depth: u8,
}

// Puts the lowest wire that is ready at one position after the other, until no wire is, and notes its depth, as all that it reads has one
// by then.
pub fn place_all(reads: &[u64; 64], wires: usize, order: &mut [u8; 64]) -> Positions
    requires { (wires ≤ 64) × (64 ≤ length order.old) }
    ensures by_index { (reads_of : ℕ → List ℕ) → EachHoldsJust reads.now wires reads_of
        → Placed reads_of wires order.new result.filled result.depth }
    ensures order_len_unchanged { length order.new ≡ length order.old }
{
    let mut waiting = [0u64; 64];
    let mut depths = [0u8; 64];
    let mut ready = look_at_all(reads, wires, &mut waiting);
    let mut placed = Wires::none();
    let mut depth = 0;
    for p in 0..wires {
        let Some(wire) = ready.into_iter().next() else {
            return Positions { filled: p, depth };
        };
        order[p] = wire as u8;
        placed = placed.with(wire);
        let read = Wires { bits: reads[wire] };
        depth = depths::note(wire, read, &mut depths, depth);
        let again = Wires {
            bits: waiting[wire],
        };
        let others = ready.without(wire);
        ready = look_again(reads, again, placed, others, &mut waiting);
    }
    Positions {
        filled: wires,
        depth,
    }
}
