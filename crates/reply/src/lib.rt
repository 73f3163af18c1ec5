// Replies as a client reads them: the check, the type 4 blocks one after the other, and a reader that holds the message.
#![tactic(auto)]

ghost use Rattle.std.specs.Prelude.{◌≡◌, ◌+◌, ◌≤◌, length, slice_get};
ghost use Rattle.std.specs.Iterator.{at_most, item_count, YieldsFirstRef};
ghost use Rattle.format.specs.Sizes.{ipv4};
ghost use Rattle.header.specs.Format.{header_size};
ghost use Rattle.message.specs.Blocks.{blocks_end, standard_blocks};
ghost use Rattle.message.specs.Inside.{standards_from};
ghost use Rattle.rows.specs.Rows.{first_of};
ghost use Rattle.refusal.specs.Refusal.{number_of};
ghost use Rattle.reply.specs.Check.{reply_rows};
ghost use Rattle.reply.specs.Reader.{start_of, handed, handed_at, next_from, Opens, Hands};
ghost use Rattle.reply.specs.Copy.{is_place, copied_next, place_behind};
ghost use Rattle.reply.specs.Inside.{first_or, FillsFrom, left_of};

use header::{BlockKind, Kind};
use refusal::Refusal;
use standard::Standard;

// The length of a header, as it says it of itself.
const HEADER_LENGTH: u16 = format::HEADER_SIZE as u16;

// A reader: the message that it was given, and the place from which the next call goes on.
#[derive(Drop)]
pub struct Reader<'a> {
    pub reply: &'a [u8],
    pub place: usize,
}

// The first of rows 5, 41, 7 and 13 that applies to a message; none to a Reply that can be read.
#[tactic(auto, using(rows::proofs::Laws::first), unfolding(crate::specs::Check::reply_rows, rows::specs::Rows::by_first, header::specs::Header::header_of, message::specs::Inside::blocks_seen))]
pub fn check(s: &[u8]) -> Result<(), Refusal>
    ensures { number_of result ≡ first_of (reply_rows s.now) }
{
    if s.len() < format::HEADER_SIZE {
        return Err(Refusal::Size);
    }
    if format::MOST < s.len() {
        return Err(Refusal::Size);
    }
    if s[0] != Kind::Reply as u8 {
        return Err(Refusal::NotReply);
    }
    if wire::be16(s, 1) != HEADER_LENGTH {
        return Err(Refusal::Header);
    }
    let blocks = message::blocks_of(format::IPV4, s);
    if !message::right_form(format::IPV4, s, blocks.end) {
        return Err(Refusal::Blocks);
    }
    Ok(())
}

// The place of the first type 4 block from a place on, where a block begins. Each turn goes on by a block's length, here and in the two
// searches below, so they are no `for`.
#[tactic(auto, using(crate::proofs::Search::search_past, crate::proofs::Search::search_over, crate::proofs::Search::search_found, crate::proofs::Search::search_on, crate::proofs::Search::search_inside, crate::proofs::Search::search_moves))]
pub fn next_at(s: &[u8], place: usize) -> Option<usize>
    ensures { result ≡ slice_get (standards_from ipv4 s.now place) 0 }
{
    if s.len() < place {
        return None;
    }
    let mut at = place;
    while let Some(block) = message::block_at(format::IPV4, s, at) {
        if block.kind == BlockKind::Standard {
            return Some(at);
        }
        at += block.size;
    }
    None
}

// The same in a message whose blocks are known to go up to its end from that place on: of each block only its type and its length
// are read. It is cut in the same way from the block found on.
pub fn next_known(s: &[u8], place: usize) -> Option<usize>
    requires { FillsFrom s.now place }
    ensures found { result ≡ slice_get (standards_from ipv4 s.now place) 0 }
    ensures fills { FillsFrom s.now (first_or (length s.now) (standards_from ipv4 s.now place)) }
{
    let mut here = place;
    while here < s.len() {
        if s[here] == BlockKind::Standard as u8 {
            return Some(here);
        }
        here += wire::be16(s, here + 1) as usize;
    }
    None
}

// One call of a reader that has come to a place: the next block, and the place behind it.
#[tactic(auto, using(crate::proofs::Search::hands_none, crate::proofs::Search::hands_it, crate::proofs::Places::found_inside))]
pub fn next_from(s: &[u8], place: usize) -> Option<(Standard, usize)>
    ensures { handed place result ≡ next_from s.now place }
{
    let at = next_at(s, place)?;
    Some((standard::standard_at(s, at), at + format::STANDARD_SIZE))
}

// Whether a block of a message begins at a place, or the message ends there; its blocks are known to go up to its end.
fn is_place(s: &[u8], place: usize) -> bool
    requires { (header_size ≤ length s.now) × (blocks_end ipv4 s.now ≡ length s.now) }
    ensures { result ≡ is_place s.now place }
{
    if s.len() < place {
        return false;
    }
    let mut at = format::HEADER_SIZE;
    while at < place {
        at += wire::be16(s, at + 1) as usize;
    }
    at == place
}

// Copies the next block at or after a place over the first 52 bytes lent, and answers the place behind it, where one is handed out.
pub fn copy_next(s: &[u8], place: usize, block: &mut [u8]) -> Option<usize>
    ensures answer { result ≡ place_behind (copied_next s.now place block.old).answer }
    ensures left { block.new ≡ (copied_next s.now place block.old).block }
{
    if block.len() < format::STANDARD_SIZE {
        return None;
    }
    if check(s).is_err() {
        return None;
    }
    if !is_place(s, place) {
        return None;
    }
    let at = next_at(s, place)?;
    let behind = at + format::STANDARD_SIZE;
    block[..format::STANDARD_SIZE].copy_from_slice(&s[at..behind]);
    Some(behind)
}

// Where a reader begins: at the first block; at the end of what is refused.
#[tactic(auto, using(crate::proofs::Rows::starts_first, crate::proofs::Rows::starts_last))]
pub fn start_of(s: &[u8]) -> usize
    ensures { result ≡ start_of s.now }
{
    match check(s) {
        Ok(()) => format::HEADER_SIZE,
        Err(_) => s.len(),
    }
}

// A reader of a message.
pub fn open(reply: &[u8]) -> Reader<'_>
    ensures { Opens reply.entry result }
{
    let place = start_of(reply);
    Reader { reply, place }
}

// A reader hands out the blocks that are left, one a call, and goes on behind each.
impl Iterator for Reader<'_> {
    type Item = Standard;

    ghost next_gives = { λ r h left. Hands r (handed_at left.place h) left };

    ghost remaining = { λ r. at_most (length (standards_from ipv4 r.reply.now r.place)) };

    fn next(&mut self) -> Option<Standard> {
        let (block, behind) = next_from(self.reply, self.place)?;
        self.place = behind;
        Some(block)
    }
}

// The type 4 blocks of a message whose blocks are known to go up to its end: of each block only its type and its length are read.
#[derive(Drop)]
pub struct KnownBlocks<'a> {
    reply: &'a [u8],
    place: usize,
}

// They begin behind the header.
pub fn known_blocks(reply: &[u8]) -> KnownBlocks<'_>
    requires { FillsFrom reply.now header_size }
    ensures fills { FillsFrom result.reply.now result.place }
    ensures left { left_of result ≡ standard_blocks ipv4 reply.now }
{
    KnownBlocks {
        reply,
        place: format::HEADER_SIZE,
    }
}

impl<'a> Iterator for KnownBlocks<'a> {
    type Item = &'a [u8];

    ghost can_next = { λ blocks. FillsFrom blocks.reply.now blocks.place };

    ghost next_gives = { YieldsFirstRef left_of };

    ghost remaining = { item_count left_of };

    fn next(&mut self) -> Option<&'a [u8]> {
        let at = next_known(self.reply, self.place)?;
        let end = at + format::STANDARD_SIZE;
        self.place = end;
        Some(&self.reply[at..end])
    }
}
