// Runs the engine's step on the cases of standard input, and writes a line for each; then how often each answer and each code was
// met. Command 0 writes a label, 1 to 5 change the message, the sheet, the recent list, the output and the record, and 6 runs a step.
#![tactic(auto)]

use drops::Arrival;
use refusal::Refusal;
use sending::Answer;
use std::io;
use std::io::Write;
use tape::{Cases, Command, Counts};

// Areas longer than what is lent from them, so that their tails are seen to stay. The message's has room for a length that would
// pass if it were cut to 16 bits.
const MESSAGE: usize = 65600;

const SHEET: usize = 8704;

const RECENT: usize = 512;

const OUTPUT: usize = 1600;

const RECORD: usize = 64;

#[derive(Drop)]
struct Areas {
    message: [u8; MESSAGE],
    sheet: [u8; SHEET],
    recent: [u8; RECENT],
    output: [u8; OUTPUT],
    record: [u8; RECORD],
    answers: Counts,
    codes: Counts,
}

impl Areas {
    // Runs a step on the first bytes of the areas, as many as the command says.
    fn step(&mut self, command: &Command) -> Result<Answer, Refusal> {
        engine::step(
            Arrival {
                message: tape::lent(&self.message, command.number32(4)),
                destination: command.number32(16),
                receiving: command.number32(20),
                ttl: command.number32(24),
            },
            command.number32(28),
            tape::lent(&self.sheet, command.number16(8).into()),
            tape::lent_mut(&mut self.recent, command.number16(10).into()),
            tape::lent_mut(&mut self.output, command.number16(12).into()),
            tape::lent_mut(&mut self.record, command.number16(14).into()),
        )
    }

    // Runs a step, and writes its answer, the code if something was sent, and a digest of each area.
    fn call(&mut self, command: &Command, out: &mut impl Write) -> io::Result<()> {
        let told = self.step(command);
        let number = told.map_or_else(u32::from, u32::from);
        write!(out, " -> {number}")?;
        self.answers.count(number);
        if told.is_ok() {
            let code = self.code(command.number16(2).into());
            write!(out, " {code}")?;
            self.codes.count(code.into());
        }
        write!(out, " {}", tape::digest(&self.output))?;
        write!(out, " {}", tape::digest(&self.record))?;
        writeln!(out, " {}", tape::digest(&self.recent))
    }

    // The code at a place of what was sent.
    fn code(&self, at: usize) -> u8 {
        self.output.get(at).copied().unwrap_or(0)
    }
}

impl Cases for Areas {
    fn run(&mut self, command: &Command, out: &mut impl Write) -> io::Result<()> {
        match command.operation() {
            0 => command.label(out)?,
            1 => command.put(&mut self.message),
            2 => command.put(&mut self.sheet),
            3 => command.put(&mut self.recent),
            4 => command.put(&mut self.output),
            5 => command.put(&mut self.record),
            _ => self.call(command, out)?,
        }
        Ok(())
    }

    fn end(&self, out: &mut impl Write) -> io::Result<()> {
        self.answers.print(b"answer", out)?;
        self.codes.print(b"code", out)
    }
}

fn main(rt: HostRuntime) -> io::Result<()> {
    let mut areas = Areas {
        message: [0; MESSAGE],
        sheet: [0; SHEET],
        recent: [0; RECENT],
        output: [0; OUTPUT],
        record: [0; RECORD],
        answers: Counts::new(),
        codes: Counts::new(),
    };
    tape::play(&rt, &mut areas)
}
