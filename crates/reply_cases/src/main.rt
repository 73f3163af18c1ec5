// Reads Replies and asks for the loss between two, on the cases of standard input, and writes lines for each. Command 0 writes a
// label, 1 to 3 change the two Replies and what is written, 4 to 7 call an entry for C, 8 reads a Reply, and 9 asks for the links.
#![tactic(auto)]

use link::Link;
use refusal::Refusal;
use reply::Reader;
use standard::Standard;
use std::io::Write;
use std::{fmt, io};
use tape::{Cases, Command};

// Areas longer than what is lent from them, so that their tails are seen to stay. The first has room for a length that would pass
// if it were cut to 16 bits.
const FIRST: usize = 65600;

const SECOND: usize = 1600;

const WRITTEN: usize = 900;

// More blocks than a Reply has, so that a reader that does not stop is seen.
const TURNS: usize = 100;

#[derive(Drop)]
struct Areas {
    first: [u8; FIRST],
    second: [u8; SECOND],
    written: [u8; WRITTEN],
}

// A block and a link, as they are printed.
#[derive(Drop)]
struct ShownBlock(Standard);

#[derive(Drop)]
struct ShownLink(Link);

impl fmt::Display for ShownBlock {
    fn fmt<W: fmt::Write>(&self, f: &mut fmt::Formatter<W>) -> fmt::Result {
        let b = self.0;
        write!(f, "{} {} {} {}", b.time, b.incoming, b.outgoing, b.upstream)?;
        write!(f, " {} {} {}", b.input, b.output, b.total)?;
        write!(f, " {} {} {}", b.routing, b.multicast, b.ttl)?;
        write!(f, " {} {} {}", u8::from(b.s), b.mask, b.code)
    }
}

impl fmt::Display for ShownLink {
    fn fmt<W: fmt::Write>(&self, f: &mut fmt::Formatter<W>) -> fmt::Result {
        match self.0 {
            Link::Counted(t) => write!(f, "{} {} {}", t.sent, t.received, t.lost),
            Link::NotCounted => write!(f, "not counted"),
            Link::Fallen => write!(f, "fallen"),
            Link::Surplus => write!(f, "surplus"),
        }
    }
}

// Writes the number of what refuses, 0 where nothing does.
fn tell_refusal(checked: Result<(), Refusal>, out: &mut impl Write) -> io::Result<()> {
    writeln!(out, " {}", checked.map_or_else(u32::from, |_| 0))
}

// Reads a Reply whole, and writes a line for each block. One that is refused is read too: a block of it would be written, and fail
// the case.
fn read(reply: &[u8], out: &mut impl Write) -> io::Result<()> {
    let checked = reply::check(reply);
    tell_refusal(checked, out)?;
    let mut reader = reply::open(reply);
    for block in reader.by_ref().take(TURNS) {
        writeln!(out, " block {}", ShownBlock(block))?;
    }
    if checked.is_ok() {
        read_on(&mut reader, out)?;
    }
    Ok(())
}

// Calls three times more. Nothing is to be handed out: a block would be written, and fail the case.
fn read_on(reader: &mut Reader<'_>, out: &mut impl Write) -> io::Result<()> {
    for _ in 0..3 {
        match reader.next() {
            Some(block) => writeln!(out, " block {}", ShownBlock(block))?,
            None => write!(out, " none")?,
        }
    }
    writeln!(out)
}

// Writes a line for each link of two Replies, if they are over one path.
fn links(first: &[u8], second: &[u8], out: &mut impl Write) -> io::Result<()> {
    let checked = loss::check(first, second);
    tell_refusal(checked, out)?;
    if checked.is_ok() {
        print_links(first, second, out)?;
    }
    Ok(())
}

fn print_links(first: &[u8], second: &[u8], out: &mut impl Write) -> io::Result<()> {
    let mut pairs = reply::open(first).zip(reply::open(second));
    let Some(mut near) = pairs.next() else {
        return Ok(());
    };
    for far in pairs.take(TURNS) {
        let count = link::count_of(near.0, far.0);
        let count2 = link::count_of(near.1, far.1);
        writeln!(out, " link {}", ShownLink(link::link_of(count, count2)))?;
        near = far;
    }
    Ok(())
}

impl Areas {
    // Ends a line by an answer, and a digest of all that could be written.
    fn tell(&self, answer: u32, out: &mut impl Write) -> io::Result<()> {
        writeln!(out, " {answer} {}", tape::digest(&self.written))
    }

    // Calls an entry, reads a Reply or asks for the links. The command says how many bytes are lent.
    fn call(&mut self, command: &Command, out: &mut impl Write) -> io::Result<()> {
        let [a, b] = [command.number32(4), command.number32(8)];
        let first = tape::lent(&self.first, a);
        let second = tape::lent(&self.second, b);
        let written = tape::lent_mut(&mut self.written, command.number32(12));
        write!(out, " ->")?;
        match command.operation() {
            4 => writeln!(out, " {}", servicebough::bough_reply_check(first)),
            5 => {
                let behind = servicebough::bough_reply_next(first, b, written);
                self.tell(behind, out)
            }
            6 => {
                let number = servicebough::bough_reply_loss(first, second, written);
                self.tell(number, out)
            }
            8 => read(first, out),
            9 => links(first, second, out),
            _ => {
                let apart = servicebough::bough_arrival_difference(a, b);
                writeln!(out, " {}", apart.cast_unsigned())
            }
        }
    }
}

impl Cases for Areas {
    fn run(&mut self, command: &Command, out: &mut impl Write) -> io::Result<()> {
        match command.operation() {
            0 => command.label(out)?,
            1 => command.put(&mut self.first),
            2 => command.put(&mut self.second),
            3 => command.put(&mut self.written),
            _ => self.call(command, out)?,
        }
        Ok(())
    }
}

fn main(rt: HostRuntime) -> io::Result<()> {
    let mut areas = Areas {
        first: [0; FIRST],
        second: [0; SECOND],
        written: [0; WRITTEN],
    };
    tape::play(&rt, &mut areas)
}
