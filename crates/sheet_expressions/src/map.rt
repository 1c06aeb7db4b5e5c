// The map of a sheet, which the check draws, and its entries as lengths. It rests on nothing; specs/Map.antt says what a map holds.
ghost use Rattle.std.specs.Prelude.{◌≡◌, ◌<◌, get_or, replicate};

// Of each wire where its expression starts, the number of its first cell and the set of the wires that it reads within the instant; and
// of each cell where its owner stands, and its form. What it holds beyond the wires and the cells of its sheet is free.
#[derive(Clone, Copy)]
pub struct Map {
    pub places: [u16; 64],
    pub firsts: [u8; 64],
    pub reads: [u64; 64],
    pub cells: [u16; 64],
}

impl Map {
    // A map on which nothing is drawn.
    pub fn empty() -> Map
        ensures { result ≡ record {
          places = replicate 64 0;
          firsts = replicate 64 0;
          reads = replicate 64 0;
          cells = replicate 64 0;
        } }
    {
        Map {
            places: [0; 64],
            firsts: [0; 64],
            reads: [0; 64],
            cells: [0; 64],
        }
    }

    // The place where a wire's expression starts.
    pub fn place(&self, wire: usize) -> usize
        requires { wire < 64 }
        ensures { result ≡ get_or self.now.places wire 0 }
    {
        self.places[wire] as usize
    }

    // The number of the first cell there.
    pub fn first(&self, wire: usize) -> usize
        requires { wire < 64 }
        ensures { result ≡ get_or self.now.firsts wire 0 }
    {
        self.firsts[wire] as usize
    }
}

// The place where a wire's expression starts.
pub fn place(entry: u16) -> usize
    ensures { result ≡ entry }
{
    entry as usize
}
