// A set of wires, such as the known ones, held as 64 bits by value: wire k is in the set where bit k is 1. The marks of a board's sheets are
// such a set too, of sheets instead of wires.
#![tactic(auto)]

ghost use Rattle.std.specs.Prelude.{◌≡◌, ℕ, ◌≤◌, ◌<◌, ◌&&◌, ◌||◌, not, false, eqb, ltb};
ghost use Rattle.std.specs.Iterator.{at_most};
ghost use Rattle.wires.specs.Sets.{member, tally, LowestPresent, EndsAt, TestsWithin, TakesLowest, TakesHighest};

// A set of wires, each below 64.
#[derive(Clone, Copy)]
pub struct Wires {
    pub bits: u64,
}

impl Wires {
    // The set with no wire in it.
    pub fn none() -> Wires
        ensures { (k : ℕ) → member result.bits k ≡ false }
    {
        Wires { bits: 0 }
    }

    // The set of the first `count` wires.
    pub fn first(count: usize) -> Wires
        requires { count ≤ 64 }
        ensures { (k : ℕ) → member result.bits k ≡ ltb k count }
    {
        if count == 64 {
            return Wires { bits: !0 };
        }
        Wires {
            bits: (1 << count) - 1,
        }
    }

    // Whether `wire` is in the set.
    pub fn has(self, wire: usize) -> bool
        requires { wire < 64 }
        ensures { result ≡ member self.bits wire }
    {
        (self.bits >> wire) & 1 == 1
    }

    // The set with `wire` added.
    pub fn with(self, wire: usize) -> Wires
        requires { wire < 64 }
        ensures { (k : ℕ) → member result.bits k ≡ (member self.bits k || eqb k wire) }
    {
        Wires {
            bits: self.bits | (1 << wire),
        }
    }

    // The set with the wires of `other` added.
    pub fn joined(self, other: Wires) -> Wires
        ensures { (k : ℕ) → member result.bits k ≡ (member self.bits k || member other.bits k) }
    {
        Wires {
            bits: self.bits | other.bits,
        }
    }

    // The wires that are in both sets.
    pub fn common(self, other: Wires) -> Wires
        ensures { (k : ℕ) → member result.bits k ≡ (member self.bits k && member other.bits k) }
    {
        Wires {
            bits: self.bits & other.bits,
        }
    }

    // Whether every wire of the set is in `other` too: then nothing is added to `other`.
    pub fn within(self, other: Wires) -> bool
        ensures { TestsWithin self.bits other.bits result }
    {
        self.bits | other.bits == other.bits
    }

    // The set without the wires of `other`.
    pub fn minus(self, other: Wires) -> Wires
        ensures { (k : ℕ) → member result.bits k ≡ (member self.bits k && not (member other.bits k)) }
    {
        Wires {
            bits: self.bits & !other.bits,
        }
    }

    // The set without `wire`.
    pub fn without(self, wire: usize) -> Wires
        requires { wire < 64 }
        ensures { (k : ℕ) → member result.bits k ≡ (member self.bits k && not (eqb k wire)) }
    {
        Wires {
            bits: self.bits & !(1 << wire),
        }
    }

    // How many wires are in the set.
    pub fn count(self) -> u32
        ensures { result ≡ tally (member self.bits) 64 }
    {
        u64::count_ones(self.bits)
    }

    // The lowest wire of the set, or 64 where it is empty.
    pub fn lowest(self) -> u32
        ensures { LowestPresent (member self.bits) 64 result }
    {
        u64::trailing_zeros(self.bits)
    }

    // One more than the highest wire of the set, or 0 where it is empty.
    pub fn end(self) -> u32
        ensures { EndsAt (member self.bits) 64 result }
    {
        64 - u64::leading_zeros(self.bits)
    }
}

// The wires of a set that a loop over it has still to come to: each once, the lowest first, or from the other end the highest first.
#[derive(Drop)]
pub struct Members {
    pub left: Wires,
}

impl Iterator for Members {
    type Item = usize;

    ghost next_gives = { λ s r t. TakesLowest s.left.bits r t.left.bits };

    ghost remaining = { λ s. at_most (tally (member s.left.bits) 64) };

    // The lowest wire that is left, which is taken out.
    fn next(&mut self) -> Option<usize> {
        let wire = self.left.lowest() as usize;
        if wire == 64 {
            return None;
        }
        self.left = self.left.without(wire);
        Some(wire)
    }
}

impl DoubleEndedIterator for Members {
    ghost next_back_gives = { λ s r t. TakesHighest s.left.bits r t.left.bits };

    // The highest wire that is left, which is taken out.
    fn next_back(&mut self) -> Option<usize> {
        let end = self.left.end() as usize;
        if end == 0 {
            return None;
        }
        self.left = self.left.without(end - 1);
        Some(end - 1)
    }
}

// A set is walked by a `for`.
impl IntoIterator for Wires {
    type Item = usize;

    type IntoIter = Members;

    ghost into_iter_gives = { λ s r. r.left ≡ s };

    fn into_iter(self) -> Members {
        Members { left: self }
    }
}
