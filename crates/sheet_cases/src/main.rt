// Runs the sheet's check and its readers on the cases of standard input, and writes a line for each. Command 0 writes a label, 1
// changes the sheet, 2 checks its first bytes, 3 and 4 read an interface and a route, and 5 looks for an address.
#![tactic(auto)]

use format::IPV4;
use interface::Interface;
use route_entry::Route;
use std::io::Write;
use std::{fmt, io};
use tape::{Cases, Command};

// Room for one block more than a sheet may have.
const AREA: usize = 8704;

#[derive(Drop)]
struct Sheet {
    bytes: [u8; AREA],
}

// An interface and a route, as they are printed: all fields in their order.
#[derive(Drop)]
struct ShownInterface(Interface);

#[derive(Drop)]
struct ShownRoute(Route);

impl fmt::Display for ShownInterface {
    fn fmt<W: fmt::Write>(&self, f: &mut fmt::Formatter<W>) -> fmt::Result {
        let i = self.0;
        write!(f, "{} {} {} {}", i.address, i.length, i.flags, i.threshold)?;
        write!(
            f,
            " {} {} {} {} {}",
            i.zero, i.input, i.output, i.mtu, i.zeros
        )
    }
}

impl fmt::Display for ShownRoute {
    fn fmt<W: fmt::Write>(&self, f: &mut fmt::Formatter<W>) -> fmt::Result {
        let r = self.0;
        write!(f, "{} {} {} {}", r.kind, r.length, r.flags, r.zero)?;
        write!(f, " {} {} {} {}", r.source, r.group, r.upstream, r.incoming)?;
        write!(
            f,
            " {} {} {} {}",
            r.protocol, r.multicast, r.zeros, r.packets
        )?;
        write!(f, " {} {} {}", r.forward, r.pruned, r.stopped)
    }
}

#[tactic(auto, using(sheet::proofs::Laws::told_some, tables::proofs::Laws::valid_long))]
fn check(s: &[u8], out: &mut impl Write) -> io::Result<()> {
    match sheet::check(s) {
        Some(l) => {
            let prohibited = u8::from(tables::prohibited(s));
            writeln!(out, " -> 1 {} {} {prohibited}", l.interfaces, l.routes)
        }
        None => writeln!(out, " -> 0"),
    }
}

// Interface `i`, route `k` and the holder of an address, where the sheet is valid and has them.
fn interface(s: &[u8], i: usize) -> Option<Interface> {
    let l = sheet::check(s)?;
    if i < l.interfaces {
        Some(interface::interface_at(s, tables::interface_place(IPV4, i)))
    } else {
        None
    }
}

fn route(s: &[u8], k: usize) -> Option<Route> {
    let l = sheet::check(s)?;
    if k < l.routes {
        Some(route_entry::route_at(s, tables::route_place(IPV4, l, k)))
    } else {
        None
    }
}

#[tactic(auto, using(sheet::proofs::Laws::told_some))]
fn holder(s: &[u8], address: u32) -> Option<usize> {
    let l = sheet::check(s)?;
    tables::holder(IPV4, s, l.interfaces, address)
}

impl Cases for Sheet {
    fn run(&mut self, command: &Command, out: &mut impl Write) -> io::Result<()> {
        let s = tape::lent(&self.bytes, command.number32(12));
        let number = command.number32(20);
        match command.operation() {
            0 => command.label(out)?,
            1 => command.put(&mut self.bytes),
            2 => check(s, out)?,
            3 => {
                if let Some(i) = interface(s, number as usize) {
                    writeln!(out, " -> {}", ShownInterface(i))?;
                }
            }
            4 => {
                if let Some(r) = route(s, number as usize) {
                    writeln!(out, " -> {}", ShownRoute(r))?;
                }
            }
            _ => writeln!(out, " -> {}", holder(s, number).unwrap_or(65535))?,
        }
        Ok(())
    }
}

fn main(rt: HostRuntime) -> io::Result<()> {
    tape::play(&rt, &mut Sheet { bytes: [0; AREA] })
}
