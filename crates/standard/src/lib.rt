// A Standard Response Block as it is handed out: its fields, beside its bytes.
#![tactic(auto)]

ghost use Rattle.std.specs.Prelude.{◌≡◌, ◌+◌, ◌≤◌, length};
ghost use Rattle.header.specs.Format.{standard_size};
ghost use Rattle.standard.specs.Standard.{standard_of, standard_in};

// The places of the counts in a Standard Response Block.
pub const INPUT_OFFSET: usize = 20;

pub const OUTPUT_OFFSET: usize = 28;

// The place of S and the mask in it, and S, which stands before the 7 bits of the mask.
const MASK_OFFSET: usize = 50;

const S_BIT: u8 = 128;

// A Standard Response Block: its 52 bytes as they came, and its fields. `routing` and `multicast` are the protocols' numbers.
#[derive(Clone, Copy)]
pub struct Standard {
    pub bytes: [u8; format::STANDARD_SIZE],
    pub time: u32,
    pub incoming: u32,
    pub outgoing: u32,
    pub upstream: u32,
    pub input: u64,
    pub output: u64,
    pub total: u64,
    pub routing: u16,
    pub multicast: u16,
    pub ttl: u8,
    pub s: bool,
    pub mask: u8,
    pub code: u8,
}

// The fields of a block's bytes, beside them.
#[tactic(auto, unfolding(crate::specs::Standard::standard_of))]
pub fn standard_of(bytes: [u8; format::STANDARD_SIZE]) -> Standard
    ensures { result ≡ standard_of bytes }
{
    Standard {
        bytes,
        time: wire::be32(&bytes, 4),
        incoming: wire::be32(&bytes, header::INCOMING_OFFSET),
        outgoing: wire::be32(&bytes, header::OUTGOING_OFFSET),
        upstream: wire::be32(&bytes, header::UPSTREAM_OFFSET),
        input: wire::be64(&bytes, INPUT_OFFSET),
        output: wire::be64(&bytes, OUTPUT_OFFSET),
        total: wire::be64(&bytes, 36),
        routing: wire::be16(&bytes, 44),
        multicast: wire::be16(&bytes, 46),
        ttl: bytes[48],
        s: S_BIT <= bytes[MASK_OFFSET],
        mask: bytes[MASK_OFFSET] % S_BIT,
        code: bytes[format::CODE_OFFSET],
    }
}

// The type 4 block at a place.
pub fn standard_at(s: &[u8], at: usize) -> Standard
    requires { at + standard_size ≤ length s.now }
    ensures { result ≡ standard_in s.now at }
{
    let mut bytes = [0; format::STANDARD_SIZE];
    bytes.copy_from_slice(&s[at..at + format::STANDARD_SIZE]);
    standard_of(bytes)
}
