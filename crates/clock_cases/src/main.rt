// Runs the clock on the cases of standard input, and writes a line for each. Command 1 starts a clock, 2 advances the clock given,
// 3 the clock handed back last, 4 turns UNIX time into units, and 5 gives an arrival time.
#![tactic(auto)]

use clock::{Clock, Tick};
use refusal::Refusal;
use std::io;
use std::io::Write;
use tape::{Cases, Command};

const ZERO: Clock = Clock { r: 0, y: 0 };

// The clock handed back last.
#[derive(Drop)]
struct Held {
    clock: Clock,
}

impl Held {
    fn start(&mut self, reading: u64, out: &mut impl Write) -> io::Result<()> {
        write!(out, "start {reading}")?;
        self.answer(ZERO, Clock::start(reading), out)
    }

    fn advance(&mut self, clock: Clock, reading: u64, out: &mut impl Write) -> io::Result<()> {
        write!(out, "advance {} {} {reading}", clock.r, clock.y)?;
        self.answer(clock, clock.advance(reading), out)
    }

    // Ends the line of a start or an advance. Where the reading was refused the clock is the one before.
    fn answer(
        &mut self,
        before: Clock,
        answer: Result<Clock, Refusal>,
        out: &mut impl Write,
    ) -> io::Result<()> {
        let Tick {
            number,
            clock,
            time,
        } = before.tick(answer);
        self.clock = clock;
        writeln!(out, " -> {number} {} {} {time}", clock.r, clock.y)
    }
}

fn unix(seconds: u64, nanoseconds: u64, out: &mut impl Write) -> io::Result<()> {
    let (number, units) = match unix::unix(seconds, nanoseconds) {
        Ok(units) => (0, units),
        Err(refusal) => (u32::from(refusal), 0),
    };
    writeln!(out, "unix {seconds} {nanoseconds} -> {number} {units}")
}

impl Cases for Held {
    fn run(&mut self, command: &Command, out: &mut impl Write) -> io::Result<()> {
        let a = command.number64(8);
        let b = command.number64(16);
        let c = command.number64(24);
        match command.operation() {
            1 => self.start(a, out),
            2 => self.advance(Clock { r: a, y: b }, c, out),
            3 => self.advance(self.clock, a, out),
            4 => unix(a, b, out),
            _ => writeln!(out, "arrival {a} -> {}", clock::arrival(a)),
        }
    }
}

fn main(rt: HostRuntime) -> io::Result<()> {
    tape::play(&rt, &mut Held { clock: ZERO })
}
