// Calls the entries for C by the places of their arguments, on the cases of standard input, and writes a line for each. Command 0
// writes a label, 1 to 5 change the message, the tables, the recent list, the output and what is handed over, 6 sets a router's
// time, and 7 to 12 call an entry.
#![tactic(auto)]

use std::io;
use std::io::Write;
use tape::{Cases, Command};

// Areas longer than what is lent from them, so that their tails are seen to stay.
const MESSAGE: usize = 1600;

const TABLES: usize = 34304;

const TIMES: usize = 40;

const RECENT: usize = 200;

const OUTPUT: usize = 1600;

const HANDED: usize = 40;

#[derive(Drop)]
struct Areas {
    message: [u8; MESSAGE],
    tables: [u8; TABLES],
    times: [u32; TIMES],
    recent: [u8; RECENT],
    output: [u8; OUTPUT],
    handed: [u8; HANDED],
}

// The entries, on the first bytes of the areas, as many as the command says.
impl Areas {
    fn start(&mut self, command: &Command) -> u32 {
        servicebough::bough_clock_start(
            command.number64(8),
            tape::lent_mut(&mut self.handed, command.number16(2).into()),
        )
    }

    fn advance(&mut self, command: &Command) -> u32 {
        servicebough::bough_clock_advance(
            command.number64(8),
            command.number64(16),
            command.number64(24),
            tape::lent_mut(&mut self.handed, command.number16(2).into()),
        )
    }

    fn step(&mut self, command: &Command) -> u32 {
        servicebough::bough_engine_step(
            tape::lent(&self.message, command.number16(2).into()),
            command.number32(12),
            command.number32(16),
            command.number32(20),
            command.number32(24),
            tape::lent(&self.tables, command.number16(4).into()),
            tape::lent_mut(&mut self.recent, command.number16(6).into()),
            tape::lent_mut(&mut self.output, command.number16(8).into()),
            tape::lent_mut(&mut self.handed, command.number16(10).into()),
        )
    }

    // There may be fewer times than the command says.
    fn walk(&mut self, command: &Command) -> Option<u32> {
        let times = self.times.get(..usize::from(command.number16(28)))?;
        Some(servicebough::bough_walk(
            tape::lent(&self.tables, command.number32(4)),
            times,
            tape::lent(&self.message, command.number16(2).into()),
            command.number32(12),
            command.number32(16),
            command.number32(20),
            command.number32(24),
            tape::lent_mut(&mut self.output, command.number16(8).into()),
            tape::lent_mut(&mut self.handed, command.number16(10).into()),
        ))
    }
}

// Their lines: an answer, and digests of what was lent to be written.
impl Areas {
    // Of a reading r, y and the time issued are told too.
    fn tell_tick(&self, number: u32, out: &mut impl Write) -> io::Result<()> {
        let handed = &self.handed;
        let r = wire::be64(handed, 0);
        let y = wire::be64(handed, 8);
        let time = wire::be64(handed, 16);
        let digest = tape::digest(handed);
        writeln!(out, " {number} {r} {y} {time} {digest}")
    }

    fn tell_written(&self, out: &mut impl Write) -> io::Result<()> {
        let output = tape::digest(&self.output);
        let handed = tape::digest(&self.handed);
        writeln!(out, " {output} {handed}")
    }

    // Calls an entry.
    fn call(&mut self, command: &Command, out: &mut impl Write) -> io::Result<()> {
        write!(out, " ->")?;
        let a = command.number64(8);
        let b = command.number64(16);
        match command.operation() {
            7 => {
                let number = self.start(command);
                self.tell_tick(number, out)
            }
            8 => {
                let number = self.advance(command);
                self.tell_tick(number, out)
            }
            9 => writeln!(out, " {}", servicebough::bough_clock_unix(a, b)),
            11 => {
                let number = self.step(command);
                write!(out, " {number} {}", tape::digest(&self.recent))?;
                self.tell_written(out)
            }
            12 => match self.walk(command) {
                Some(number) => {
                    write!(out, " {number}")?;
                    self.tell_written(out)
                }
                None => Ok(()),
            },
            _ => writeln!(out, " {}", servicebough::bough_clock_arrival(a)),
        }
    }
}

impl Cases for Areas {
    fn run(&mut self, command: &Command, out: &mut impl Write) -> io::Result<()> {
        match command.operation() {
            0 => command.label(out)?,
            1 => command.put(&mut self.message),
            2 => command.put(&mut self.tables),
            3 => command.put(&mut self.recent),
            4 => command.put(&mut self.output),
            5 => command.put(&mut self.handed),
            6 => command.set_time(&mut self.times),
            _ => self.call(command, out)?,
        }
        Ok(())
    }
}

fn main(rt: HostRuntime) -> io::Result<()> {
    let mut areas = Areas {
        message: [0; MESSAGE],
        tables: [0; TABLES],
        times: [0; TIMES],
        recent: [0; RECENT],
        output: [0; OUTPUT],
        handed: [0; HANDED],
    };
    tape::play(&rt, &mut areas)
}
