// What an instant is given: the checks 1 to 16 of its buffers, the map of its sheet and the words of its inputs and kept wires' cells. Rests
// on `sheet_check` for 1 to 11 and the map, which holds the forms of the cells, on `buffers` for 12 to 16, and on `leaves` for these words.
#![tactic(auto)]

ghost use Rattle.std.specs.Prelude.{◌≡◌, ◌+◌, ◌≤◌, length};
ghost use Rattle.leaves.specs.Words.{word_count, InputsPut, KeptCells, LastsPut};
ghost use Rattle.given.specs.Grants.{Grants, part};

use leaves::{inputs, lasts};
use sheet::Refused;
use sheet_expressions::map::Map;

// The parts of a sheet by which an instant of it runs: the types of the wires, and the outputs.
#[derive(Clone, Copy)]
pub struct Parts<'a> {
    pub types: &'a [u8],
    pub outputs: &'a [u8],
}

// The checks 1 to 16 of a sheet, a memory, an input row and an output row. Where they pass, the map of the sheet's wires is drawn, and
// the words of inputs and kept wires' cells are put; after a refusal, and beyond the sheet's wires and inputs, what map and words hold is free.
pub fn given_of<'a>(
    sheet: &'a [u8],
    memory: &[u8],
    input: &[u8],
    output: &[u8],
    map: &mut Map,
    words: &mut [u32; 144],
) -> Result<Parts<'a>, Refused>
    requires { length words.old ≡ word_count }
    ensures { Grants sheet.now memory.now input.now output.now
        map.new.places map.new.firsts map.new.reads words.new result }
{
    let counts = sheet_check::check_map(sheet, map)?;
    let inputs = counts.inputs;
    let outputs = counts.outputs;
    let cells = counts.cells;
    let types = &sheet[1..1 + inputs];
    buffers::check_buffers(&map.cells, cells, types, outputs, memory, input, output)?;
    let parts = parts_of(sheet, inputs, counts.wires, outputs);
    put_fixed(parts.types, &map.firsts, memory, input, words);
    Ok(parts)
}

// Puts the words that no round changes: those of the inputs, and those of the kept wires' cells.
fn put_fixed(types: &[u8], firsts: &[u8; 64], memory: &[u8], input: &[u8], words: &mut [u32; 144])
    requires { KeptCells types.now firsts.now memory.now × (length types.now ≤ 64) × (length input.now ≤ 64)
        × (length words.old ≡ word_count) }
    ensures { InputsPut input.now words.new
        × LastsPut types.now firsts.now memory.now words.new
        × (length words.new ≡ word_count) }
{
    inputs::put_inputs(input, words);
    lasts::put_lasts(types, firsts, memory, words);
}

// The types of the wires and the outputs in a sheet with these counts: each behind its count byte.
fn parts_of<'a>(sheet: &'a [u8], inputs: usize, wires: usize, outputs: usize) -> Parts<'a>
    requires { (inputs ≤ 16) × (wires ≤ 64) × (outputs ≤ 16)
        × (2 + inputs + wires + 1 + outputs ≤ length sheet.now) }
    ensures types { result.types.now ≡ part sheet.now (2 + inputs) (2 + inputs + wires) }
    ensures outputs { result.outputs.now
        ≡ part sheet.now (2 + inputs + wires + 1) (2 + inputs + wires + 1 + outputs) }
{
    let types_from = 2 + inputs;
    let types_to = types_from + wires;
    let outputs_from = types_to + 1;
    Parts {
        types: &sheet[types_from..types_to],
        outputs: &sheet[outputs_from..outputs_from + outputs],
    }
}
