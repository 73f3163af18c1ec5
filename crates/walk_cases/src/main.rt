// Runs the walk on the cases of standard input, and writes a line for each; then how often each end was met. Command 0 writes a
// label, 1 to 3 change the yard, the message and the output, 4 sets a router's time, and 5 walks.
#![tactic(auto)]

use drops::Arrival;
use refusal::Refusal;
use std::io;
use std::io::Write;
use tape::{Cases, Command, Counts};
use yard::{Visit, Walked};

// Areas longer than what is lent from them, so that their tails are seen to stay. The yard's has room for more than 32 sheets.
const YARD: usize = 34304;

const TIMES: usize = 40;

const MESSAGE: usize = 1600;

const OUTPUT: usize = 1600;

#[derive(Drop)]
struct Areas {
    yard: [u8; YARD],
    times: [u32; TIMES],
    message: [u8; MESSAGE],
    output: [u8; OUTPUT],
    ends: Counts,
}

impl Areas {
    // Walks with the first bytes and times of the areas, as many as the command says. There may be fewer times than that.
    fn walk(&mut self, command: &Command) -> Option<Result<Walked, Refusal>> {
        let times = self.times.get(..usize::from(command.number16(2)))?;
        let start = Visit {
            router: command.number32(12) as usize,
            arrival: Arrival {
                message: tape::lent(&self.message, command.number16(8).into()),
                destination: command.number32(20),
                receiving: command.number32(16),
                ttl: command.number32(24),
            },
        };
        Some(yard::walk(
            tape::lent(&self.yard, command.number32(4)),
            times,
            start,
            tape::lent_mut(&mut self.output, command.number16(10).into()),
        ))
    }

    // Walks, and writes the answer and a digest of the output's area.
    fn call(&mut self, command: &Command, out: &mut impl Write) -> io::Result<()> {
        if let Some(told) = self.walk(command) {
            let (end, steps, blocks, length) = match told {
                Ok(w) => (u32::from(w.end), w.steps, w.blocks, w.length),
                Err(refusal) => (u32::from(refusal), 0, 0, 0),
            };
            self.ends.count(end);
            let digest = tape::digest(&self.output);
            writeln!(out, " -> {end} {steps} {blocks} {length} {digest}")?;
        }
        Ok(())
    }
}

impl Cases for Areas {
    fn run(&mut self, command: &Command, out: &mut impl Write) -> io::Result<()> {
        match command.operation() {
            0 => command.label(out)?,
            1 => command.put(&mut self.yard),
            2 => command.put(&mut self.message),
            3 => command.put(&mut self.output),
            4 => command.set_time(&mut self.times),
            _ => self.call(command, out)?,
        }
        Ok(())
    }

    fn end(&self, out: &mut impl Write) -> io::Result<()> {
        self.ends.print(b"end", out)
    }
}

fn main(rt: HostRuntime) -> io::Result<()> {
    let mut areas = Areas {
        yard: [0; YARD],
        times: [0; TIMES],
        message: [0; MESSAGE],
        output: [0; OUTPUT],
        ends: Counts::new(),
    };
    tape::play(&rt, &mut areas)
}
