// Runs the check of messages on the cases of standard input, and writes a line for each. Command 0 writes a label, 1 changes the
// message, and 2 checks its first bytes.
#![tactic(auto)]

use message::Accepted;
use std::io::Write;
use std::{fmt, io};
use tape::{Cases, Command};

// Room for a length that would pass if it were cut to 16 bits.
const AREA: usize = 65600;

#[derive(Drop)]
struct Message {
    bytes: [u8; AREA],
}

// What is printed of a message that was accepted: its header, how many blocks are of type 4, and the place of the last of those.
#[derive(Drop)]
struct Shown(Accepted);

impl fmt::Display for Shown {
    fn fmt<W: fmt::Write>(&self, f: &mut fmt::Formatter<W>) -> fmt::Result {
        let Accepted { header: h, blocks } = self.0;
        write!(f, "{} {} {} {}", h.kind, h.hops, h.group, h.source)?;
        write!(f, " {} {} {}", h.client, h.id, h.port)?;
        let last = if blocks.count == 0 { 0 } else { blocks.last };
        write!(f, " {} {last}", blocks.count)
    }
}

fn check(m: &[u8], out: &mut impl Write) -> io::Result<()> {
    match message::check(format::IPV4, m) {
        Ok(accepted) => writeln!(out, " -> 0 {}", Shown(accepted)),
        Err(refusal) => writeln!(out, " -> {}", u32::from(refusal)),
    }
}

impl Cases for Message {
    fn run(&mut self, command: &Command, out: &mut impl Write) -> io::Result<()> {
        match command.operation() {
            0 => command.label(out)?,
            1 => command.put(&mut self.bytes),
            _ => check(tape::lent(&self.bytes, command.number32(12)), out)?,
        }
        Ok(())
    }
}

fn main(rt: HostRuntime) -> io::Result<()> {
    tape::play(&rt, &mut Message { bytes: [0; AREA] })
}
