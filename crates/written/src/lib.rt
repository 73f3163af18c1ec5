// What is written field by field: a Standard Response Block and an answer record, and their bytes.
#![tactic(auto)]

ghost use Rattle.std.specs.Prelude.{◌≡◌};
ghost use Rattle.written.specs.Bytes.{block_bytes, note_bytes};

use header::BlockKind;

// The fields that come from the route; `mask` is S and the source mask, as one byte.
#[derive(Clone, Copy, Default)]
pub struct Filled {
    pub incoming: u32,
    pub upstream: u32,
    pub input: u64,
    pub total: u64,
    pub protocol: u16,
    pub multicast: u16,
    pub mask: u8,
}

// The fields of a Standard Response Block.
#[derive(Clone, Copy)]
pub struct Block {
    pub time: u32,
    pub outgoing: u32,
    pub output: u64,
    pub threshold: u8,
    pub code: u8,
    pub filled: Filled,
}

// The fields of an answer record.
#[derive(Clone, Copy, Default)]
pub struct Note {
    pub length: u16,
    pub destination: u32,
    pub port: u16,
    pub interface: u16,
    pub source: u32,
}

// The 52 bytes of a block.
pub fn block_bytes(b: Block) -> [u8; format::STANDARD_SIZE]
    ensures { result ≡ block_bytes b }
{
    let f = b.filled;
    let mut a = [0u8; format::STANDARD_SIZE];
    a[0] = BlockKind::Standard as u8;
    a[2] = format::STANDARD_SIZE as u8;
    wire::put32(&mut a, 4, b.time);
    wire::put32(&mut a, 8, f.incoming);
    wire::put32(&mut a, 12, b.outgoing);
    wire::put32(&mut a, 16, f.upstream);
    wire::put64(&mut a, 20, f.input);
    wire::put64(&mut a, 28, b.output);
    wire::put64(&mut a, 36, f.total);
    wire::put16(&mut a, 44, f.protocol);
    wire::put16(&mut a, 46, f.multicast);
    a[48] = b.threshold;
    a[50] = f.mask;
    a[format::CODE_OFFSET] = b.code;
    a
}

// The 16 bytes of an answer record.
pub fn note_bytes(n: Note) -> [u8; header::NOTE_SIZE]
    ensures { result ≡ note_bytes n }
{
    let mut a = [0u8; header::NOTE_SIZE];
    wire::put16(&mut a, 0, n.length);
    wire::put32(&mut a, 2, n.destination);
    wire::put16(&mut a, 6, n.port);
    wire::put16(&mut a, 8, n.interface);
    wire::put32(&mut a, 10, n.source);
    a
}
