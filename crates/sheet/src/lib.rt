// The check of a whole sheet.
#![tactic(auto)]

ghost use Rattle.std.specs.Prelude.{◌≡◌, ◌↔◌, true, IsTrue, ℕ, ◌+◌, ◌*◌, ◌/◌, ◌≤◌, ◌<◌, length};
ghost use Rattle.block.specs.Block.{block_size, entries_room};
ghost use Rattle.format.specs.Sizes.{Sound, ipv4};
ghost use Rattle.interface.specs.Interface.{most_interfaces};
ghost use Rattle.sheet_block.specs.Every.{every};
ghost use Rattle.sheet.specs.Sheet.{most_blocks, sheet_size_ok, blocks, entries_in, block_ok_with, told_of};
ghost use Rattle.sheet.specs.Inside.{Leading, in_run};

use format::Format;
use sheet_block::{Entries, Interfaces, Routes, block_ok};

mod known;

pub use known::Sheet;

// The most blocks of a sheet.
const MOST_BLOCKS: usize = 16;

// What a valid sheet holds: how many interface blocks, interfaces and routes.
#[derive(Clone, Copy)]
pub struct Layout {
    pub blocks: usize,
    pub interfaces: usize,
    pub routes: usize,
}

// Whether a length is that of 1 to 16 blocks.
fn size_ok(size: usize) -> bool
    ensures { result ≡ sheet_size_ok size }
{
    (size % block::BLOCK_SIZE == 0)
        & (1 <= size / block::BLOCK_SIZE)
        & (size / block::BLOCK_SIZE <= MOST_BLOCKS)
}

// How many interface blocks stand before the first block of another kind. In a sheet that keeps the rules there are no others; where
// there are, one of them breaks the rules on route blocks.
fn interface_blocks(s: &[u8]) -> usize
    ensures { Leading s.now (blocks s.now) result }
{
    s.chunks_exact(block::BLOCK_SIZE)
        .take_while(|b| b[0] == Interfaces::KIND)
        .count()
}

// The entries in `count` blocks from block `first` on, of which all but the last are full with `each`.
#[tactic(auto, unfolding(crate::specs::Sheet::entries_in), using(crate::proofs::Counts::byte_in))]
fn entries_in(s: &[u8], each: usize, first: usize, count: usize) -> usize
    requires { (block_size * (first + count) ≤ length s.now) × (each ≤ entries_room) × (first + count ≤ most_blocks) }
    ensures { result ≡ entries_in s.now each first count }
{
    if count == 0 {
        return 0;
    }
    let last = first + (count - 1);
    each * (count - 1) + usize::from(s[block::BLOCK_SIZE * last + 1])
}

// Whether block `k` holds such entries and keeps its rules, where block `stop` is the first behind those of its kind.
fn in_run<E: Entries>(e: &E, s: &[u8], k: usize, stop: usize) -> bool
    requires { (block_size * k + block_size ≤ length s.now) × (k < most_blocks) }
    ensures { result ≡ in_run E.KIND (E.size e.now) (E.right e.now) s.now stop k }
{
    let at = block::BLOCK_SIZE * k;
    block_ok(e, &s[at..at + block::BLOCK_SIZE], k as u16, k + 1 == stop)
}

// Whether the blocks from `first` up to `stop` all do. The first that does not settles it. The blocks of each kind have a loop of their
// own, which carries nothing along for the other.
fn run_ok<E: Entries>(e: &E, s: &[u8], first: usize, stop: usize) -> bool
    requires { (block_size * stop ≤ length s.now) × (stop ≤ most_blocks) }
    ensures { IsTrue result ↔ ((k : ℕ) → first ≤ k → k < stop → in_run E.KIND (E.size e.now) (E.right e.now) s.now stop k ≡ true) }
{
    (first..stop).all(|k| in_run(e, s, k, stop))
}

// Whether every block keeps its rules, where there are `m` interface blocks and so many interfaces.
fn blocks_ok(f: Format, s: &[u8], m: usize, interfaces: u16) -> bool
    requires sound { Sound f }
    requires m_bound { (m ≤ blocks s.now) × (blocks s.now ≤ most_blocks) × (interfaces ≤ most_interfaces) }
    ensures { result ≡ every (block_ok_with f s.now m interfaces) (blocks s.now) }
{
    let n = s.len() / block::BLOCK_SIZE;
    run_ok(&Interfaces { f }, s, 0, m) && run_ok(&Routes::among(f, interfaces), s, m, n)
}

// Whether any bytes at all are a valid sheet, and what it holds. What is cheap to refuse comes first. The sizes are named here, and handed
// down from here: engine and walk both ask, and each size that came from them would be a number in memory.
pub fn check(s: &[u8]) -> Option<Layout>
    ensures { result ≡ told_of ipv4 s.now }
{
    let f = format::IPV4;
    if !size_ok(s.len()) {
        return None;
    }
    let n = s.len() / block::BLOCK_SIZE;
    let m = interface_blocks(s);
    if m == 0 {
        return None;
    }
    let interfaces = entries_in(s, block::ENTRIES_ROOM / f.interface, 0, m);
    if interface::MOST_INTERFACES < interfaces {
        return None;
    }
    if !blocks_ok(f, s, m, interfaces as u16) {
        return None;
    }
    Some(Layout {
        blocks: m,
        interfaces,
        routes: entries_in(s, block::ENTRIES_ROOM / f.route, m, n - m),
    })
}
