// Prints what the program `walk` prints for the inputs that standard input tells, each below its label. Command 0 writes a label, 1
// changes the input, and 2 prints.
#![tactic(auto)]

use std::io;
use std::io::Write;
use tape::{Cases, Command};

// Longer than what is ever lent, so that yards of more than 32 sheets are tried too.
const INPUT: usize = 34304;

#[derive(Drop)]
struct Input {
    bytes: [u8; INPUT],
}

// Prints the text for an input.
fn print(input: &[u8], out: &mut impl Write) -> io::Result<()> {
    let mut printed = [0; text::TEXT_SIZE];
    let n = text::text_of(input, &mut printed);
    writeln!(out)?;
    out.write_all(&printed[..n])
}

impl Cases for Input {
    fn run(&mut self, command: &Command, out: &mut impl Write) -> io::Result<()> {
        match command.operation() {
            0 => command.label(out)?,
            1 => command.put(&mut self.bytes),
            _ => print(tape::lent(&self.bytes, command.number32(4)), out)?,
        }
        Ok(())
    }
}

fn main(rt: HostRuntime) -> io::Result<()> {
    tape::play(&rt, &mut Input { bytes: [0; INPUT] })
}
