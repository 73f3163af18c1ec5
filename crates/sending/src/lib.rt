// What a router sends when it has accepted a message: the Request on or the Reply home, with its record.
#![tactic(auto)]

ghost use Rattle.std.specs.Prelude.{◌≡◌, ◌+◌, ◌≤◌, ◌<◌, length, set};
ghost use Rattle.wire.specs.Parts.{splice};
ghost use Rattle.format.specs.Sizes.{Sound, output_size};
ghost use Rattle.forwarding.specs.Code.{code_no_space};
ghost use Rattle.written.specs.Inside.{Writes};
ghost use Rattle.header.specs.Format.{reply, note_size};
ghost use Rattle.written.specs.Bytes.{block_bytes, note_bytes};
ghost use Rattle.sending.specs.Answer.{number_of, note_home, note_on, goes_home, full_message, longer_message, longer_answer};
ghost use Rattle.sending.specs.Inside.{Written, WithRoom, WithoutRoom, kind_sent};

use format::Format;
use forwarding::{Code, View};
use header::{Header, Kind};
use interface::Interface;
use route_entry::Route;
use written::{Block, Note};

// What is sent: the Request on, or a Reply home.
#[derive(Clone, Copy, Debug, PartialEq, Eq)]
pub enum Answer {
    SentOn = 100,
    SentHome = 101,
}

impl From<Answer> for u32 {
    ghost from_gives = { λ answer n. n ≡ number_of answer };

    fn from(answer: Answer) -> u32 {
        answer as u32
    }
}

// The UDP port that routers listen on, and the interface of a Reply.
const MTRACE_PORT: u16 = 33435;

const ANY_INTERFACE: u16 = u16::MAX;

// No room: the message as a Reply, with 0x81 in its last type 4 block, which begins at `last`.
fn write_full(f: Format, message: &[u8], last: usize, output: &mut [u8])
    requires sound { Sound f }
    requires block_in_bounds { (last + f.block ≤ length message.now) × (length message.now ≤ length output.old) }
    ensures { output.new ≡ splice output.old 0 (set (set message.now 0 reply) (last + f.code) code_no_space) }
{
    wire::copy_to(output, 0, message);
    output[0] = Kind::Reply as u8;
    output[last + f.code] = Code::NoSpace as u8;
}

// The message with its type, and a block behind it.
fn write_longer(message: &[u8], kind: u8, block: Block, output: &mut [u8])
    requires { (0 < length message.now) × (length message.now + length (block_bytes block) ≤ length output.old) }
    ensures { output.new ≡ splice output.old 0 (longer_message kind message.now block) }
{
    let bytes = written::block_bytes(block);
    wire::copy_to(output, 0, message);
    output[0] = kind;
    wire::copy_to(output, message.len(), &bytes);
}

// The answer record.
#[tactic(auto, using(crate::proofs::Writes::note_written))]
fn write_note(n: Note, note: &mut [u8])
    requires { note_size ≤ length note.old }
    ensures { note.new ≡ splice note.old 0 (note_bytes n) }
{
    let bytes = written::note_bytes(n);
    wire::copy_to(note, 0, &bytes);
}

// The record of a Reply.
fn note_home(h: Header, size: usize, source: u32) -> Note
    requires { size ≤ output_size }
    ensures { result ≡ note_home h size source }
{
    Note {
        length: size as u16,
        destination: h.client,
        port: h.port,
        interface: ANY_INTERFACE,
        source,
    }
}

// The record of a Request sent on.
#[tactic(auto, using(crate::proofs::Rows::note_found, crate::proofs::Rows::note_none))]
fn note_on(chosen: Option<Route>, incoming: Option<Interface>, size: usize) -> Note
    requires { size ≤ output_size }
    ensures { result ≡ note_on chosen incoming size }
{
    match chosen {
        Some(r) => Note {
            length: size as u16,
            destination: response::upstream(r),
            port: MTRACE_PORT,
            interface: r.incoming,
            source: response::address_of(incoming),
        },
        None => Note {
            length: size as u16,
            ..Note::default()
        },
    }
}

// The byte that says the type of what is sent: a Reply where the trace ends, else a Request.
fn kind_sent(ends: bool) -> u8
    ensures { result ≡ kind_sent ends }
{
    let kind = if ends { Kind::Reply } else { Kind::Request };
    kind as u8
}

// There is room: the block is appended, and the message goes home or on.
pub fn send_longer(
    f: Format,
    message: &[u8],
    h: Header,
    used: usize,
    v: View,
    output: &mut [u8],
    note: &mut [u8],
) -> Answer
    requires writes { Writes f }
    requires with_room { WithRoom f message.now h used v (length output.old) (length note.old) }
    ensures { Written (longer_answer f message.now v) output.old note.old (number_of result) output.new note.new }
{
    let block = response::block_of(v);
    let size = message.len() + f.block;
    let ends = response::ends_trace(v, used as u32 + 1, h.hops as u32);
    write_longer(message, kind_sent(ends), block, output);
    if ends {
        write_note(note_home(h, size, v.here.address), note);
        return Answer::SentHome;
    }
    write_note(note_on(v.chosen, v.incoming, size), note);
    Answer::SentOn
}

// There is no room: the message goes home with 0x81.
#[tactic(auto, using(crate::proofs::Rows::full_sent))]
pub fn send_full(
    f: Format,
    message: &[u8],
    h: Header,
    last: usize,
    here: Interface,
    output: &mut [u8],
    note: &mut [u8],
) -> Answer
    requires sound { Sound f }
    requires without_room { WithoutRoom f message.now h last (length output.old) (length note.old) }
    ensures { Written (goes_home h here.address (full_message f message.now)) output.old note.old (number_of result) output.new note.new }
{
    write_full(f, message, last, output);
    write_note(note_home(h, message.len(), here.address), note);
    Answer::SentHome
}
