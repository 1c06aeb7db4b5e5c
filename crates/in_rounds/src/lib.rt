// The instant in rounds, and its preview, which stores nothing: one function makes the checks, the finished values and the output row
// for both. Rests on `given` for the checks 1 to 16, on `rounds` for the values and the row, on `waiting` for the wire that a refusal names
// and on `next_memory` for the storing.
#![tactic(auto)]

ghost use Rattle.std.specs.Prelude.{◌≡◌, ◌≤◌, length};
ghost use Rattle.kernel.specs.Calls.{rounds_call, Shows, Leaves, packed_rounds, Packable};
ghost use Rattle.leaves.specs.Words.{word_count};
ghost use Rattle.in_rounds.specs.Showing.{Prepares};

use sheet::{Refusal, Refused};
use sheet_expressions::map::Map;

// What an instant in rounds comes to before anything is stored, where it is accepted: the rounds, and the types of the wires.
#[derive(Clone, Copy)]
struct Shown<'a> {
    rounds: usize,
    types: &'a [u8],
}

// The instant in rounds: the next memory is stored, and the row gets the outputs.
pub fn instant(
    sheet: &[u8],
    memory: &mut [u8],
    input: &[u8],
    output: &mut [u8],
) -> Result<usize, Refused>
    ensures { Leaves (rounds_call sheet.now memory.old input.now output.old)
        result memory.new output.new }
{
    let mut map = Map::empty();
    let mut words = [0u32; 144];
    let shown = show(sheet, memory, input, output, &mut map, &mut words)?;
    next_memory::store(sheet, memory, shown.types, &map, &words);
    Ok(shown.rounds)
}

// The preview: the answer and the row of the instant in rounds, with the memory only read.
pub fn preview(
    sheet: &[u8],
    memory: &[u8],
    input: &[u8],
    output: &mut [u8],
) -> Result<usize, Refused>
    ensures { Shows (rounds_call sheet.now memory.now input.now output.old)
        result output.new }
{
    let mut map = Map::empty();
    let mut words = [0u32; 144];
    let rounds = show(sheet, memory, input, output, &mut map, &mut words)?.rounds;
    Ok(rounds)
}

// All of an instant in rounds but the storing: the checks 1 to 16, the finished values, and the output row, or 20 at the wire that really
// loops. The map and the words that it leaves are those by which the next memory is stored.
fn show<'a>(
    sheet: &'a [u8],
    memory: &[u8],
    input: &[u8],
    output: &mut [u8],
    map: &mut Map,
    words: &mut [u32; 144],
) -> Result<Shown<'a>, Refused>
    requires { length words.old ≡ word_count }
    ensures { Prepares (rounds_call sheet.now memory.now input.now output.old)
        sheet.now memory.now map.new.places map.new.firsts words.new result output.new }
{
    let parts = given::given_of(sheet, memory, input, output, map, words)?;
    let types = parts.types;
    let instant = rounds::Instant {
        sheet,
        memory,
        types,
        places: &map.places,
        firsts: &map.firsts,
    };
    let solved = rounds::finish(&instant, &map.reads, words);
    let known = solved.known;
    if known.count() as usize != types.len() {
        let place = waiting::lowest_waiting(&instant, known, words, &mut map.reads);
        return Err(Refusal::StaysUnknown.at(place));
    }
    rounds::write_row(parts.outputs, words, output);
    Ok(Shown {
        rounds: solved.rounds,
        types,
    })
}

// The answer as the number that C gets: the rounds, or the packed refusal. One function for the answers of all calls is no plainer: each
// caller has to map what its call gives to a number first, in as many words as this match has.
pub fn packed(answer: Result<usize, Refused>) -> u32
    requires { Packable answer }
    ensures { result ≡ packed_rounds answer }
{
    match answer {
        Err(refused) => refused.packed(),
        Ok(count) => count as u32,
    }
}
