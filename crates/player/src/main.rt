// The player: reads a sheet and its input rows, and prints what document 01 says of them.
// Rests on `play` for every line, and on `std` for both streams.
#![tactic(auto)]

ghost use Rattle.std.specs.Io.{ReadsAtMost};

use play::Stage;
use std::io;
use std::io::Read;

// Prints the text of the first 65,536 bytes of standard input. A read or a write that fails ends it with that error.
fn main(rt: HostRuntime) -> io::Result<()> {
    let mut buffer = [0u8; 65536];
    let n = read_full(&mut rt.stdin(), &mut buffer)?;
    print(&rt, &buffer[..n])
}

// Reads until the buffer is full or the input ends, and gives how many bytes it put at the start of the buffer.
// It goes on by what each read gives: the library's `read_exact` does not say how much came before the input's end.
fn read_full(input: &mut impl Read, buffer: &mut [u8]) -> io::Result<usize>
    ensures { ReadsAtMost result buffer.new }
{
    let mut done = 0;
    while done < buffer.len() {
        let n = input.read(&mut buffer[done..])?;
        if n == 0 {
            break;
        }
        done += n;
    }
    Ok(done)
}

// Prints the text of an input, line after line.
fn print(rt: &impl Print, input: &[u8]) -> io::Result<()> {
    let mut memory = [0u8; 320];
    let mut text = [0u8; 256];
    let mut stage = Stage::Begin;
    while let Some(line) = play::next_line(input, stage, &mut memory, &mut text) {
        rt.write_all(&text[..line.size])?;
        stage = line.stage;
    }
    Ok(())
}
