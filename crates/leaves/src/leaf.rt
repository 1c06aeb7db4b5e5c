// What a constant, a wire or an input stands for, kinds 0 to 3. Rests on `numbers` for a constant and on the set of known wires.
ghost use Rattle.std.specs.Prelude.{◌≡◌, ◌<◌};
ghost use Rattle.sheet.specs.Kinds.{body_of};
ghost use Rattle.sheet.specs.KindBytes.{byte_of};
ghost use Rattle.leaves.specs.Leaves.{Leaf, known_by, leaf_word, leaf_known, leaf_valued};

use crate::Valued;
use sheet::kinds::Kind;
use sheet_walk::Place;
use wires::Wires;

// Where the inputs' words begin, behind those of all wires that there can be.
pub const FIRST_INPUT: usize = 64;

// Whether the value of a leaf of the kind is known: that of a wire where the set has the one that is named, and any other.
fn is_known(known: Wires, kind: Kind, named: u8) -> bool
    requires { byte_of kind ≡ 2 → named < 64 }
    ensures { result ≡ known_by known.bits (byte_of kind) named }
{
    match kind {
        Kind::Wire => known.has(named as usize),
        _ => true,
    }
}

// The word that stands for the value: the constant, or the word of the wire or the input that is named.
fn word_of(sheet: &[u8], words: &[u32; 144], at: usize) -> u32
    requires { Leaf sheet.now at }
    ensures { result ≡ leaf_word sheet.now words.now at }
{
    let named = sheet[at + 1] as usize;
    match Kind::of(sheet[at]) {
        Kind::NumberConstant => numbers::word_at(sheet, at + 1),
        Kind::Wire => words[named],
        Kind::Input => words[FIRST_INPUT + named],
        _ => named as u32,
    }
}

// How many bytes the body has: told by one test, as a look-up in the table of kinds costs more where leaves are half of all.
fn body(kind: Kind) -> usize
    requires { byte_of kind < 4 }
    ensures { result ≡ body_of (byte_of kind) }
{
    match kind {
        Kind::NumberConstant => 4,
        _ => 1,
    }
}

// The value where it is known; it has no cells.
pub fn known_leaf(sheet: &[u8], words: &[u32; 144], here: Place) -> Valued
    requires { Leaf sheet.now here.at }
    ensures { result ≡ leaf_known sheet.now words.now here }
{
    Valued {
        word: word_of(sheet, words, here.at),
        end: Place {
            at: here.at + 1 + body(Kind::of(sheet[here.at])),
            cell: here.cell,
        },
    }
}

// The value: `Ok` where it is known, and where it is not `Err`, with the same end and the word that stands there. Each arm makes its own, so that
// a caller who has no use for the second pays nothing for it; for the same reason it is folded into each caller.
#[inline(always)]
pub fn value_leaf(
    sheet: &[u8],
    known: Wires,
    words: &[u32; 144],
    here: Place,
) -> Result<Valued, Valued>
    requires { Leaf sheet.now here.at }
    ensures { result ≡ leaf_valued sheet.now words.now known.bits here }
{
    if is_known(known, Kind::of(sheet[here.at]), sheet[here.at + 1]) {
        Ok(known_leaf(sheet, words, here))
    } else {
        Err(known_leaf(sheet, words, here))
    }
}
