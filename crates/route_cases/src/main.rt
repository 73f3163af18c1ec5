// Runs which route and the proper last hop on the cases of standard input, and writes a line for each. Command 0 writes a label, 1
// changes the sheet, and 2 asks for a source, a group and a client.
#![tactic(auto)]

use format::IPV4;
use route_entry::Route;
use sheet::Sheet;
use std::io::Write;
use std::{fmt, io};
use tape::{Cases, Command};

// Room for the longest sheet.
const AREA: usize = 8192;

#[derive(Drop)]
struct Area {
    bytes: [u8; AREA],
}

// What a sheet answers: the route chosen, and whether its router is the proper last hop.
#[derive(Default, Drop)]
struct Answer {
    chosen: Option<Route>,
    last: bool,
}

impl fmt::Display for Answer {
    fn fmt<W: fmt::Write>(&self, f: &mut fmt::Formatter<W>) -> fmt::Result {
        match self.chosen {
            Some(r) => {
                write!(f, "1 {} {}", r.kind, r.length)?;
                write!(f, " {} {} {}", r.source, r.group, r.packets)?;
            }
            None => write!(f, "0")?,
        }
        write!(f, " {}", u8::from(self.last))
    }
}

// No route is chosen from a sheet that is not valid.
#[tactic(auto, using(sheet::proofs::Laws::told_some))]
fn ask(s: &[u8], source: u32, group: u32, client: u32) -> Answer {
    match sheet::check(s) {
        Some(layout) => {
            let sheet = Sheet {
                format: IPV4,
                bytes: s,
                layout,
            };
            let chosen = route::choose(sheet, source, group);
            let last = last_hop::last_hop(sheet, chosen, client);
            Answer { chosen, last }
        }
        None => Answer::default(),
    }
}

impl Cases for Area {
    fn run(&mut self, command: &Command, out: &mut impl Write) -> io::Result<()> {
        match command.operation() {
            0 => command.label(out)?,
            1 => command.put(&mut self.bytes),
            _ => {
                let s = tape::lent(&self.bytes, command.number32(8));
                let source = command.number32(12);
                let group = command.number32(16);
                let client = command.number32(20);
                writeln!(out, " -> {}", ask(s, source, group, client))?;
            }
        }
        Ok(())
    }
}

fn main(rt: HostRuntime) -> io::Result<()> {
    tape::play(&rt, &mut Area { bytes: [0; AREA] })
}
