// Walks a trace over a yard: reads where a Query arrives, the Query and the yard, and prints the walk's end and a line for each block.
#![tactic(auto)]

ghost use Rattle.std.specs.Prelude.{◌≤◌, length, IfOk};

use std::io;
use std::io::{ErrorKind, Read};

// Fills the buffer from standard input, and answers how many bytes there were.
fn read_input(input: &mut impl Read, buffer: &mut [u8]) -> io::Result<usize>
    ensures { IfOk result (λ n. n ≤ length buffer.new) }
{
    let mut n = 0;
    for _ in 0..u64::MAX {
        if n == buffer.len() {
            break;
        }
        match input.read(&mut buffer[n..]) {
            Ok(0) => break,
            Ok(got) => n += got,
            Err(e) if e.kind() == ErrorKind::Interrupted => {}
            Err(e) => return Err(e),
        }
    }
    Ok(n)
}

fn main(rt: HostRuntime) -> io::Result<()> {
    let mut input = input::blank();
    let n = read_input(&mut rt.stdin(), &mut input)?;
    let mut printed = [0u8; text::TEXT_SIZE];
    let m = text::text_of(&input[..n], &mut printed);
    Print::write_all(&rt, &printed[..m])
}
