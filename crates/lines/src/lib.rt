// The lines that the player prints, as bytes in a lent buffer. Rests on `text` for their pieces.
#![tactic(auto)]

ghost use Rattle.std.specs.Prelude.{◌≤◌, length};
ghost use Rattle.text.specs.Pieces.{numbers_of};
ghost use Rattle.lines.specs.Buffers.{Holds};
ghost use Rattle.lines.specs.Lines.{short_line, refused_line, sheet_line, left_line, row_line};

use text::Text;

// The line of an input whose length bytes or sheet are incomplete.
pub fn short_line(buffer: &mut [u8]) -> usize
    requires { 256 ≤ length buffer.old }
    ensures { Holds buffer.old short_line buffer.new result }
{
    let mut text = Text::new(buffer);
    text.put(b"short\n");
    text.size
}

// The line of a refused sheet or instant: the refusal's number and its place.
pub fn refused_line(buffer: &mut [u8], number: u32, place: u32) -> usize
    requires { 256 ≤ length buffer.old }
    ensures { Holds buffer.old (refused_line number place) buffer.new result }
{
    let mut text = Text::new(buffer);
    text.put(b"refused");
    text.put_spaced(number);
    text.put_spaced(place);
    text.put_byte(b'\n');
    text.size
}

// The line of a sheet's four counts.
pub fn sheet_line(buffer: &mut [u8], inputs: u32, wires: u32, outputs: u32, cells: u32) -> usize
    requires { 256 ≤ length buffer.old }
    ensures { Holds buffer.old (sheet_line inputs wires outputs cells) buffer.new result }
{
    let mut text = Text::new(buffer);
    text.put(b"sheet");
    text.put_spaced(inputs);
    text.put_spaced(wires);
    text.put_spaced(outputs);
    text.put_spaced(cells);
    text.put_byte(b'\n');
    text.size
}

// The line of the count of bytes not used.
pub fn left_line(buffer: &mut [u8], left: u32) -> usize
    requires { 256 ≤ length buffer.old }
    ensures { Holds buffer.old (left_line left) buffer.new result }
{
    let mut text = Text::new(buffer);
    text.put(b"left");
    text.put_spaced(left);
    text.put_byte(b'\n');
    text.size
}

// The line of an instant: its number, then the outputs, given as the output row that the library writes.
pub fn row_line(buffer: &mut [u8], instant: u32, output: &[u8]) -> usize
    requires in_bounds { 256 ≤ length buffer.old }
    requires output_len_bound { length output.now ≤ 64 }
    ensures { Holds buffer.old (row_line instant (numbers_of output.now)) buffer.new result }
{
    let mut text = Text::new(buffer);
    text.put_digits(instant);
    text.put_numbers(output);
    text.put_byte(b'\n');
    text.size
}
