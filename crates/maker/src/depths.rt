// The depths of the wires that are placed: a byte for each wire, and the greatest of them. Rests on `wires` for the sets.
ghost use Rattle.std.specs.Prelude.{◌≡◌, List, ℕ, suc, max, ◌≤◌, ◌<◌, length, set};
ghost use Rattle.sheet_expressions.specs.Map.{HoldsJust};
ghost use Rattle.kernel.specs.Depths.{deepest};
ghost use Rattle.maker.specs.Placing.{noted};

use wires::Wires;

// The greatest of the depths noted for the wires of a set, 0 where it is empty.
fn deepest_of(set: Wires, depths: &[u8; 64]) -> u8
    requires { 64 ≤ length depths.now }
    ensures by_index { (wires : List ℕ) → HoldsJust set.bits wires → result ≡ deepest (noted depths.now) wires }
    ensures by_index_2 { (most : ℕ) → ((w : ℕ) → noted depths.now w ≤ most) → result ≤ most }
{
    let mut deepest = 0u8;
    for wire in set {
        deepest = deepest.max(depths[wire]);
    }
    deepest
}

// Notes the depth of a wire, one more than the deepest of those that it reads. The greatest depth, from what it was before.
pub fn note(wire: usize, read: Wires, depths: &mut [u8; 64], greatest: u8) -> u8
    requires { (wire < 64) × (64 ≤ length depths.old) × ((w : ℕ) → noted depths.old w < 64) }
    ensures by_index { (reads : List ℕ) → HoldsJust read.bits reads
        → let depth = suc (deepest (noted depths.old) reads) in
        (depths.new ≡ set depths.old wire depth) × (result ≡ max greatest depth) }
    ensures by_index_2 { (most : ℕ) → ((w : ℕ) → noted depths.old w ≤ most)
        → (w : ℕ) → noted depths.new w ≤ suc most }
    ensures depths_len_unchanged { length depths.new ≡ length depths.old }
{
    let depth = deepest_of(read, depths) + 1;
    depths[wire] = depth;
    greatest.max(depth)
}
