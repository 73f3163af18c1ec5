// What the case programs share: they read commands of 32 bytes from standard input, run them one after the other, keep bytes in areas, and
// write lines to standard output.
#![tactic(auto)]

ghost use Rattle.std.specs.Prelude.{◌≡◌, ◌+◌, ◌≤◌, slice_index, take};
ghost use Rattle.wire.specs.Numbers.{be16, be32, be64};

use std::io;
use std::io::{BufReader, BufWriter, ErrorKind, Read, Write};

// As many commands are run at most.
const MOST_COMMANDS: u32 = 1_000_000;

// The prime of a digest.
const PRIME: u64 = (1 << 32) - 5;

// A command: its first byte says what is to be done, the others what with.
#[derive(Clone, Copy)]
pub struct Command {
    pub bytes: [u8; 32],
}

impl Command {
    // Reads the next command. There is none where fewer bytes are left.
    pub fn read(input: &mut impl Read) -> io::Result<Option<Command>> {
        let mut bytes = [0; 32];
        match input.read_exact(&mut bytes) {
            Ok(()) => Ok(Some(Command { bytes })),
            Err(e) if e.kind() == ErrorKind::UnexpectedEof => Ok(None),
            Err(e) => Err(e),
        }
    }

    pub fn operation(&self) -> u8
        ensures { result ≡ slice_index self.now.bytes 0 }
    {
        self.bytes[0]
    }

    // The numbers at place `at`.
    pub fn number16(&self, at: usize) -> u16
        requires { at + 2 ≤ 32 }
        ensures { result ≡ be16 self.now.bytes at }
    {
        wire::be16(&self.bytes, at)
    }

    pub fn number32(&self, at: usize) -> u32
        requires { at + 4 ≤ 32 }
        ensures { result ≡ be32 self.now.bytes at }
    {
        wire::be32(&self.bytes, at)
    }

    pub fn number64(&self, at: usize) -> u64
        requires { at + 8 ≤ 32 }
        ensures { result ≡ be64 self.now.bytes at }
    {
        wire::be64(&self.bytes, at)
    }

    // Puts the last 28 bytes into an area, at the place that bytes 2 and 3 give.
    pub fn put(&self, area: &mut [u8]) {
        let at = usize::from(self.number16(2));
        let payload = &self.bytes[4..];
        if let Some(part) = area.get_mut(at..at + payload.len()) {
            part.copy_from_slice(payload);
        }
    }

    // Sets the time of the router that bytes 2 and 3 name to what bytes 4 to 7 give.
    pub fn set_time(&self, times: &mut [u32]) {
        if let Some(time) = times.get_mut(usize::from(self.number16(2))) {
            *time = self.number32(4);
        }
    }

    // Writes the text from byte 2 on; byte 1 is its length.
    pub fn label(&self, out: &mut impl Write) -> io::Result<()> {
        let end = 2 + usize::from(self.bytes[1]);
        match self.bytes.get(2..end) {
            Some(text) => out.write_all(text),
            None => Ok(()),
        }
    }
}

// The cases of a program: what its commands change and call.
pub trait Cases {
    // Runs a command.
    fn run(&mut self, command: &Command, out: &mut impl Write) -> io::Result<()>;

    // Writes what is to be told when all have run.
    fn end(&self, _out: &mut impl Write) -> io::Result<()> {
        Ok(())
    }
}

// Runs the commands of standard input.
pub fn play(rt: &HostRuntime, cases: &mut impl Cases) -> io::Result<()> {
    let mut input = BufReader::new(rt.alloc(), rt.stdin())?;
    let mut out = BufWriter::new(rt.alloc(), rt.stdout())?;
    // Nothing says that the input ends, so its commands are counted.
    for _ in 0..MOST_COMMANDS {
        let Some(command) = Command::read(&mut input)? else {
            break;
        };
        cases.run(&command, &mut out)?;
    }
    cases.end(&mut out)?;
    out.flush()
}

// As many of an area's bytes as are asked for: never more than there are.
pub fn lent(area: &[u8], n: u32) -> &[u8]
    ensures { result.now ≡ take n area.now }
{
    let n = area.len().min(n as usize);
    &area[..n]
}

pub fn lent_mut(area: &mut [u8], n: u32) -> &mut [u8]
    ensures { result.now ≡ take n area.old }
{
    let n = area.len().min(n as usize);
    &mut area[..n]
}

// One number for all bytes of an area: the last one's, from 0 on, of 257 times the number before and the byte and 1, modulo a prime.
pub fn digest(area: &[u8]) -> u64 {
    area.iter()
        .fold(0, |h, b| (h % PRIME * 257 + u64::from(*b) + 1) % PRIME)
}

// How often each number below 256 was met.
#[derive(Drop)]
pub struct Counts {
    pub met: [u64; 256],
}

impl Counts {
    pub fn new() -> Counts {
        Counts { met: [0; 256] }
    }

    pub fn count(&mut self, n: u32) {
        if let Some(met) = self.met.get_mut(n as usize) {
            *met = met.wrapping_add(1);
        }
    }

    // Writes a line for each number that was met.
    pub fn print(&self, word: &[u8], out: &mut impl Write) -> io::Result<()> {
        for (n, met) in self.met.iter().enumerate() {
            if *met > 0 {
                out.write_all(word)?;
                writeln!(out, " {n} met {met}")?;
            }
        }
        Ok(())
    }
}
