// The numbers of the message format; the header of a message, read once into a struct by value; and the rows on it.
#![tactic(auto)]

ghost use Rattle.std.specs.Prelude.{◌≡◌, ◌≤◌, eqb, length};
ghost use Rattle.format.specs.Sizes.{Sound, header_fields};
ghost use Rattle.header.specs.Format.{query, request};
ghost use Rattle.header.specs.Header.{header_of};
ghost use Rattle.rows.specs.Rows.{first_of};
ghost use Rattle.header.specs.Rows.{header_rows};
ghost use Rattle.refusal.specs.Refusal.{number_of};

use format::Format;
use refusal::Refusal;

// The types of messages.
#[derive(Clone, Copy, Debug, PartialEq, Eq)]
pub enum Kind {
    Query = 1,
    Request = 2,
    Reply = 3,
}

// The types of the blocks behind a header.
#[derive(Clone, Copy, Debug, PartialEq, Eq)]
pub enum BlockKind {
    Standard = 4,
    Augmented = 5,
}

// The places of the incoming, the outgoing and the upstream address in a Standard Response Block.
pub const INCOMING_OFFSET: usize = 8;

pub const OUTGOING_OFFSET: usize = 12;

pub const UPSTREAM_OFFSET: usize = 16;

// Bytes of the answer record that goes with a message sent.
pub const NOTE_SIZE: usize = 16;

// The header of a message. `kind` is the byte that says its type, of a message that is refused any byte; `group` is the multicast address.
#[derive(Clone, Copy)]
pub struct Header {
    pub kind: u8,
    pub length: u16,
    pub hops: u8,
    pub group: u32,
    pub source: u32,
    pub client: u32,
    pub id: u16,
    pub port: u16,
}

impl Header {
    pub fn is_query(self) -> bool
        ensures { result ≡ eqb self.kind query }
    {
        self.kind == Kind::Query as u8
    }

    pub fn is_request(self) -> bool
        ensures { result ≡ eqb self.kind request }
    {
        self.kind == Kind::Request as u8
    }
}

// The header of a message.
pub fn header_of(s: &[u8]) -> Header
    requires { header_fields ≤ length s.now }
    ensures { result ≡ header_of s.now }
{
    Header {
        kind: s[0],
        length: wire::be16(s, 1),
        hops: s[3],
        group: wire::be32(s, 4),
        source: wire::be32(s, 8),
        client: wire::be32(s, 12),
        id: wire::be16(s, 16),
        port: wire::be16(s, 18),
    }
}

// The first of the rows on a header, 6 to 12, that applies.
#[tactic(auto, using(rows::proofs::Laws::first), unfolding(crate::specs::Rows::header_rows, rows::specs::Rows::by_first))]
pub fn check(f: Format, h: Header) -> Result<(), Refusal>
    requires { Sound f }
    ensures { number_of result ≡ first_of (header_rows f h) }
{
    let no_group = address::all_ones(h.group);
    let no_source = address::all_ones(h.source);
    if !(h.is_query() | h.is_request()) {
        return Err(Refusal::MessageType);
    }
    if h.length != f.header as u16 {
        return Err(Refusal::Header);
    }
    if h.hops == 0 {
        return Err(Refusal::Hops);
    }
    if !(address::multicast(h.group) | no_group) {
        return Err(Refusal::Group);
    }
    if !(address::unicast(h.source) | no_source) {
        return Err(Refusal::Source);
    }
    if no_group & no_source {
        return Err(Refusal::Pair);
    }
    if !(address::unicast(h.client) & (h.port != 0)) {
        return Err(Refusal::Client);
    }
    Ok(())
}
