// The checks 12 to 16 of an instant's buffers, by the counts and the types of its sheet and the forms of its cells; and of those of a board, which
// has up to eight times as many.
// Rests on `data` for what a word stands for and on `numbers` for words.
#![tactic(auto)]

ghost use Rattle.std.specs.Prelude.{◌≡◌, ◌*◌, ◌≤◌, List, map, length};
ghost use Rattle.sheet.specs.Data.{type_of_byte};
ghost use Rattle.sheet.specs.Expressions.{CellForm};
ghost use Rattle.sheet.specs.Outcomes.{done_of, lowest};
ghost use Rattle.sheet.specs.Memory.{form_byte, valid_cell, invalid_at, memory_of};
ghost use Rattle.sheet.specs.Rows.{wrong_at, inputs_of};
ghost use Rattle.buffers.specs.Tests.{buffers_tested, Formed};

use sheet::{Refusal, Refused, data};

// 12 to 16, of a sheet or a board with `cells` cells, whose entries in a map hold these forms, inputs of these types and `outputs` outputs.
pub fn check_buffers(
    forms: &[u16],
    cells: usize,
    types: &[u8],
    outputs: usize,
    memory: &[u8],
    input: &[u8],
    output: &[u8],
) -> Result<(), Refused>
    requires cells_bound { (cells ≤ 512) × (cells ≤ length forms.now) }
    requires types_len_bound { (length types.now ≤ 128) × (outputs ≤ 128) }
    ensures { (fs : List CellForm) → Formed fs forms.now cells → result ≡ buffers_tested fs
        (map type_of_byte types.now) outputs memory.now input.now output.now }
{
    check_memory(forms, cells, memory)?;
    check_input(types, input)?;
    if output.len() != 4 * outputs {
        return Err(Refusal::OutputLength.at(0));
    }
    Ok(())
}

// 12 and 13: the memory has 5 bytes for each cell, and each cell is valid.
fn check_memory(forms: &[u16], cells: usize, memory: &[u8]) -> Result<(), Refused>
    requires { (cells ≤ 512) × (cells ≤ length forms.now) }
    ensures { (fs : List CellForm) → Formed fs forms.now cells
        → result ≡ done_of (memory_of fs memory.now) }
{
    if memory.len() != 5 * cells {
        return Err(Refusal::MemoryLength.at(0));
    }
    let cell = first_invalid(forms, cells, memory);
    if cell < cells {
        return Err(Refusal::CellContent.at(cell));
    }
    Ok(())
}

// The lowest cell that is not valid; where all are, their count. One search for this and `first_wrong`, with the test as a closure, is no
// plainer: its clause has to say of the closure what the two invariants say.
fn first_invalid(forms: &[u16], cells: usize, memory: &[u8]) -> usize
    requires { (cells ≤ 512) × (cells ≤ length forms.now) × (length memory.now ≡ 5 * cells) }
    ensures { (fs : List CellForm) → Formed fs forms.now cells
        → result ≡ lowest (invalid_at fs memory.now) cells }
{
    for k in 0..cells {
        let at = 5 * k;
        let form = (forms[k] % 4) as u8;
        if !valid_cell(form, memory[at], numbers::word_at(memory, at + 1)) {
            return k;
        }
    }
    cells
}

// Whether a cell of this form is valid: mark 0 only where it starts empty and then value 0; mark 1 with a value of its type.
fn valid_cell(form: u8, mark: u8, word: u32) -> bool
    ensures { (f : CellForm) → form_byte f ≡ form → result ≡ valid_cell f mark word }
{
    if mark == 0 {
        2 <= form && word == 0
    } else {
        mark == 1 && data::stands_for(form % 2, word)
    }
}

// 14 and 15: the input row has 4 bytes for each input, and each holds a value of its type.
fn check_input(types: &[u8], input: &[u8]) -> Result<(), Refused>
    requires { length types.now ≤ 128 }
    ensures { result ≡ done_of (inputs_of (map type_of_byte types.now) input.now) }
{
    if input.len() != 4 * types.len() {
        return Err(Refusal::InputLength.at(0));
    }
    let entry = first_wrong(types, input);
    if entry < types.len() {
        return Err(Refusal::InputContent.at(entry));
    }
    Ok(())
}

// The lowest input whose entry holds no value of its type; where all do, their count.
fn first_wrong(types: &[u8], input: &[u8]) -> usize
    requires { length input.now ≡ 4 * length types.now }
    ensures { result ≡ lowest (wrong_at (map type_of_byte types.now) input.now) (length types.now) }
{
    for i in 0..types.len() {
        if !data::stands_for(types[i], numbers::word_at(input, 4 * i)) {
            return i;
        }
    }
    types.len()
}
