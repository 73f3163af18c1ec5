// Two Replies over one path: what each link sent, received and lost between them.
#![tactic(auto)]

ghost use Rattle.std.specs.Prelude.{◌≡◌, ◌≤◌, length};
ghost use Rattle.rows.specs.Rows.{first_of};
ghost use Rattle.refusal.specs.Refusal.{number_of};
ghost use Rattle.wire.specs.Parts.{splice};
ghost use Rattle.header.specs.Format.{header_size, standard_size, most};
ghost use Rattle.standard.specs.Standard.{standard_of};
ghost use Rattle.reply.specs.Reader.{standards_in};
ghost use Rattle.reply.specs.Inside.{FillsFrom};
ghost use Rattle.loss.specs.Path.{same_path, same_router, pair_rows};
ghost use Rattle.link.specs.Link.{count_of, link_bytes};
ghost use Rattle.loss.specs.Loss.{links_size, links_in, links_bytes, written, loss_of};
ghost use Rattle.loss.specs.Inside.{link_size};

use link::{Count, Link};
use refusal::Refusal;

const LINK_SIZE: usize = 32;

// 26 links.
const LINKS_SIZE: usize = 26 * LINK_SIZE;

// The count of the link between two neighbouring blocks, by their bytes: of each block one field is read.
#[tactic(auto, unfolding(standard::specs::Standard::standard_of))]
fn count_in(near: &[u8], far: &[u8]) -> Count
    requires { (standard_size ≤ length near.now) × (standard_size ≤ length far.now) }
    ensures { result ≡ count_of (standard_of near.now) (standard_of far.now) }
{
    Count {
        sent: wire::be64(far, standard::OUTPUT_OFFSET),
        received: wire::be64(near, standard::INPUT_OFFSET),
    }
}

// Whether two blocks are of one router, by their bytes.
#[tactic(auto, unfolding(standard::specs::Standard::standard_of))]
fn same_router(block: &[u8], other: &[u8]) -> bool
    requires { (standard_size ≤ length block.now) × (standard_size ≤ length other.now) }
    ensures { result ≡ same_router (standard_of block.now) (standard_of other.now) }
{
    let outgoing = wire::be32(block, header::OUTGOING_OFFSET);
    let upstream = wire::be32(block, header::UPSTREAM_OFFSET);
    (outgoing == wire::be32(other, header::OUTGOING_OFFSET))
        & (upstream == wire::be32(other, header::UPSTREAM_OFFSET))
}

// Whether two messages, whose blocks go up to their ends, have as many of type 4, and of one router at each place.
fn same_path(first: &[u8], second: &[u8]) -> bool
    requires { FillsFrom first.now header_size × FillsFrom second.now header_size }
    ensures { result ≡ same_path (standards_in first.now) (standards_in second.now) }
{
    let mut others = reply::known_blocks(second);
    for block in reply::known_blocks(first) {
        let Some(other) = others.next() else {
            return false;
        };
        if !same_router(block, other) {
            return false;
        }
    }
    others.next().is_none()
}

// The first of the rows that refuse two Replies.
#[tactic(auto, using(crate::proofs::Rows::first_refused, crate::proofs::Rows::second_refused, crate::proofs::Rows::paths_same, crate::proofs::Rows::paths_other, crate::proofs::Rows::asks_path))]
pub fn check(first: &[u8], second: &[u8]) -> Result<(), Refusal>
    ensures { number_of result ≡ first_of (pair_rows first.now second.now) }
{
    reply::check(first)?;
    reply::check(second)?;
    if !same_path(first, second) {
        return Err(Refusal::OtherPath);
    }
    Ok(())
}

// Writes a link over its bytes: its verdict, 7 zeros, and its values.
fn write_link(bytes: &mut [u8], l: Link)
    requires { length bytes.old ≡ link_size }
    ensures { bytes.new ≡ link_bytes l }
{
    let tally = l.tally();
    bytes[..8].copy_from_slice(&[l.verdict(), 0, 0, 0, 0, 0, 0, 0]);
    wire::put64(bytes, 8, tally.sent);
    wire::put64(bytes, 16, tally.received);
    wire::put64(bytes, 24, tally.lost);
}

// Writes the links of two messages, one behind the other; the first has at most 27 type 4 blocks.
fn write_links(first: &[u8], second: &[u8], links: &mut [u8])
    requires { FillsFrom first.now header_size × (length first.now ≤ most) × FillsFrom second.now header_size × (links_size ≤ length links.old) }
    ensures { links.new ≡ splice links.old 0 (links_bytes (links_in first.now second.now)) }
{
    let mut blocks = reply::known_blocks(first).zip(reply::known_blocks(second));
    let Some((mut near, mut other_near)) = blocks.next() else {
        return;
    };
    let mut at = 0;
    for (far, other_far) in blocks {
        let l = link::link_of(count_in(near, far), count_in(other_near, other_far));
        write_link(&mut links[at..at + LINK_SIZE], l);
        at += LINK_SIZE;
        near = far;
        other_near = other_far;
    }
}

// The loss between two Replies: the links over the first bytes lent, or what refuses them.
#[tactic(auto, using(crate::proofs::Rows::no_room, crate::proofs::Rows::pair_refused, crate::proofs::Rows::pair_written, crate::proofs::Rows::asks_links))]
pub fn loss(first: &[u8], second: &[u8], links: &mut [u8]) -> Result<(), Refusal>
    ensures { written (number_of result) links.new ≡ loss_of first.now second.now links.old }
{
    if links.len() < LINKS_SIZE {
        return Err(Refusal::Room);
    }
    check(first, second)?;
    write_links(first, second, links);
    Ok(())
}
