// Messages as they arrive: the blocks walked once, and every rule checked; all by the sizes of a format.
#![tactic(auto)]

ghost use Rattle.std.specs.Prelude.{◌≡◌, ◌+◌, ◌≤◌, ltb, length};
ghost use Rattle.format.specs.Sizes.{Sound, output_size, room_of};
ghost use Rattle.message.specs.Blocks.{right_form, blocks_end};
ghost use Rattle.message.specs.Inside.{head_of, is_standard, augmented_size, block_at, blocks_seen, checked_of, check_of};

use format::Format;
use header::{BlockKind, Header, Kind};
use refusal::Refusal;

// The least length of an Augmented Response Block, and what every length of one is a multiple of.
const AUGMENTED_LEAST: usize = 8;

const AUGMENTED_UNIT: usize = 4;

// Bytes of the IP and UDP headers.
const IP_AND_UDP: usize = 28;

// The type and the whole length of a block.
#[derive(Clone, Copy)]
pub struct BlockHead {
    pub kind: BlockKind,
    pub size: usize,
}

// What one walk over the blocks finds: where they end, how many are of type 4, and the place of the last of those.
#[derive(Clone, Copy)]
pub struct Blocks {
    pub end: usize,
    pub count: usize,
    pub last: usize,
}

// A message that was accepted: its header and its blocks.
#[derive(Clone, Copy)]
pub struct Accepted {
    pub header: Header,
    pub blocks: Blocks,
}

// Whether a Standard Response Block begins at a place.
#[tactic(auto, using(crate::proofs::Heads::standard_cut, crate::proofs::Heads::standard_read))]
fn standard_at(f: Format, s: &[u8], at: usize) -> bool
    requires sound { Sound f }
    requires at_in_bounds { at ≤ length s.now }
    ensures { result ≡ is_standard (block_at f s.now at) }
{
    if s.len() - at < f.block {
        return false;
    }
    (s[at] == BlockKind::Standard as u8) & (wire::be16(s, at + 1) == f.block as u16)
}

// The length of the Augmented Response Block that begins at a place, where one does.
#[tactic(auto, using(crate::proofs::Heads::augmented_cut, crate::proofs::Heads::augmented_read, crate::proofs::Heads::augmented_none))]
fn augmented_at(f: Format, s: &[u8], at: usize) -> Option<usize>
    requires sound { Sound f }
    requires at_in_bounds { at ≤ length s.now }
    ensures { result ≡ augmented_size (block_at f s.now at) }
{
    let left = s.len() - at;
    if left < AUGMENTED_LEAST {
        return None;
    }
    let size = wire::be16(s, at + 1) as usize;
    let fits = (s[at] == BlockKind::Augmented as u8)
        & (AUGMENTED_LEAST <= size)
        & (size % AUGMENTED_UNIT == 0)
        & (size <= left);
    if fits { Some(size) } else { None }
}

// The block that begins at a place, where one does. Most are of type 4, which is tried first.
#[tactic(auto, using(crate::proofs::Heads::standard_there, crate::proofs::Heads::none_there, crate::proofs::Heads::augmented_there))]
pub fn block_at(f: Format, s: &[u8], at: usize) -> Option<BlockHead>
    requires sound { Sound f }
    requires at_in_bounds { at ≤ length s.now }
    ensures { head_of result ≡ block_at f s.now at }
{
    if standard_at(f, s, at) {
        return Some(BlockHead {
            kind: BlockKind::Standard,
            size: f.block,
        });
    }
    let size = augmented_at(f, s, at)?;
    Some(BlockHead {
        kind: BlockKind::Augmented,
        size,
    })
}

// One walk over the blocks of a message, from each to the next by its length, so that it is no `for`, up to the end or to what is no block.
#[tactic(auto, using(crate::proofs::Turns::at_first, crate::proofs::Turns::walk_over, crate::proofs::Turns::block_inside, crate::proofs::Turns::block_moves))]
pub fn blocks_of(f: Format, s: &[u8]) -> Blocks
    requires sound { Sound f }
    requires header_in_bounds { f.header ≤ length s.now }
    ensures { result ≡ blocks_seen f s.now }
{
    let mut at = f.header;
    let mut count = 0;
    let mut last = 0;
    while let Some(block) = block_at(f, s, at) {
        if block.kind == BlockKind::Standard {
            count += 1;
            last = at;
        }
        at += block.size;
    }
    Blocks {
        end: at,
        count,
        last,
    }
}

// Whether what follows the header keeps the rules of the message's type; `end` is where the blocks end.
#[tactic(auto, using(crate::proofs::Rows::form_query, crate::proofs::Rows::form_none, crate::proofs::Rows::form_request), unfolding(crate::specs::Blocks::standard_first))]
pub fn right_form(f: Format, s: &[u8], end: usize) -> bool
    requires sound { Sound f }
    requires header_in_bounds { (f.header ≤ length s.now) × (end ≡ blocks_end f s.now) }
    ensures { result ≡ right_form f s.now }
{
    let header = f.header;
    if s[0] == Kind::Query as u8 {
        return s.len() == header;
    }
    if s.len() == header {
        return false;
    }
    (end == s.len()) & (s[header] == BlockKind::Standard as u8)
}

// The first of rows 5 to 13 that applies to a message, or its header and its blocks.
#[tactic(auto, using(crate::proofs::Rows::row_short, crate::proofs::Rows::row_long, crate::proofs::Rows::row_header, crate::proofs::Rows::row_blocks, crate::proofs::Rows::row_none), unfolding(crate::specs::Inside::blocks_seen))]
pub fn check(f: Format, s: &[u8]) -> Result<Accepted, Refusal>
    requires { Sound f }
    ensures { checked_of result ≡ check_of f s.now }
{
    if s.len() < f.header {
        return Err(Refusal::Size);
    }
    if f.most < s.len() {
        return Err(Refusal::Size);
    }
    let header = header::header_of(s);
    header::check(f, header)?;
    let blocks = blocks_of(f, s);
    if !right_form(f, s, blocks.end) {
        return Err(Refusal::Blocks);
    }
    Ok(Accepted { header, blocks })
}

// Whether a message of so many bytes has no room for one block more on a link of an MTU.
pub fn is_full(f: Format, mtu: u16, size: usize) -> bool
    requires sound { Sound f }
    requires size_le_output_size { size ≤ output_size }
    ensures { result ≡ ltb (room_of f mtu) (size + f.block) }
{
    let longer = size + f.block;
    (f.most < longer) | ((mtu as usize) < longer + IP_AND_UDP)
}
