// Runs the recent list on the cases of standard input, and writes a line for each. Command 0 writes a label, 1 changes the list, 2
// checks its first bytes, 3 looks for a client and an id, and 4 enters them.
#![tactic(auto)]

use recent::LIST_SIZE;
use std::io;
use std::io::Write;
use tape::{Cases, Command};

// The list, with room for more, so that its tail is seen to stay.
#[derive(Drop)]
struct Area {
    bytes: [u8; 512],
}

// Whether a list is well-formed and has a client and an id.
#[tactic(auto, using(recent::proofs::Laws::formed))]
fn seen(list: &[u8], client: u32, id: u16) -> bool {
    recent::check(list) && recent::seen(list, client, id)
}

// Enters a client and an id in a well-formed list.
#[tactic(auto, using(recent::proofs::Laws::formed))]
fn enter(list: &mut [u8], client: u32, id: u16) {
    if recent::check(list) {
        recent::enter(list, client, id);
    }
}

fn tell(answer: bool, out: &mut impl Write) -> io::Result<()> {
    writeln!(out, " -> {}", u8::from(answer))
}

impl Cases for Area {
    fn run(&mut self, command: &Command, out: &mut impl Write) -> io::Result<()> {
        let client = command.number32(12);
        let id = command.number16(22);
        match command.operation() {
            0 => command.label(out)?,
            1 => command.put(&mut self.bytes),
            2 => tell(
                recent::check(tape::lent(&self.bytes, command.number32(12))),
                out,
            )?,
            3 => tell(seen(&self.bytes[..LIST_SIZE], client, id), out)?,
            _ => {
                enter(&mut self.bytes[..LIST_SIZE], client, id);
                let [used, next, ..] = self.bytes;
                writeln!(out, " -> {used} {next} {}", tape::digest(&self.bytes))?;
            }
        }
        Ok(())
    }
}

fn main(rt: HostRuntime) -> io::Result<()> {
    tape::play(&rt, &mut Area { bytes: [0; 512] })
}
