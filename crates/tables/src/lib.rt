// The tables of a valid sheet, read.
#![tactic(auto)]

ghost use Rattle.std.specs.Prelude.{◌≡◌, ◌==◌, ◌+◌, ◌*◌, ◌^◌, ◌≤◌, ◌<◌, length};
ghost use Rattle.block.specs.Block.{block_size, entries_room};
ghost use Rattle.format.specs.Sizes.{Sound};
ghost use Rattle.interface.specs.Interface.{most_interfaces};
ghost use Rattle.sheet.specs.Sheet.{most_blocks, layout_of};
ghost use Rattle.tables.specs.Tables.{place_of, interface_of, prohibited_of, holder_of};
ghost use Rattle.tables.specs.Inside.{routes_beside};

use format::Format;
use sheet::Layout;
use sheet_block::PROHIBITS;

// Where entry `i` of a size begins: numbers run on over the blocks of its kind, from block `first` on.
fn place(size: usize, first: usize, i: usize) -> usize
    requires some { (0 < size) × (size ≤ entries_room) }
    requires low { place_of size first i < 2 ^ 64 }
    ensures { result ≡ place_of size first i }
{
    let each = block::ENTRIES_ROOM / size;
    block::BLOCK_SIZE * (first + i / each) + (block::ENTRIES_AT + size * (i % each))
}

// Where interface `i` begins. It is read there (crate `interface`).
pub fn interface_place(f: Format, i: usize) -> usize
    requires sound { Sound f }
    requires i_lt_most_interfaces { i < most_interfaces }
    ensures { result ≡ place_of f.interface 0 i }
{
    place(f.interface, 0, i)
}

// Where route `k` begins. It is read there (crate `route_entry`).
pub fn route_place(f: Format, l: Layout, k: usize) -> usize
    requires sound { Sound f }
    requires route_bound { place_of f.route l.blocks k + f.route ≤ block_size * most_blocks }
    ensures { result ≡ place_of f.route l.blocks k }
{
    place(f.route, l.blocks, k)
}

// How many routes stand side by side from route `k` on: to the end of its block, or of the routes. A search goes through them by
// their size, and looks for a place again only with the next block.
pub fn routes_beside(f: Format, l: Layout, k: usize) -> usize
    requires sound { Sound f }
    requires k_lt_routes { k < l.routes }
    ensures { result ≡ routes_beside f l.routes k }
{
    let full = block::ENTRIES_ROOM / f.route;
    let left = l.routes - k;
    left.min(full - k % full)
}

// Whether tracing is prohibited.
pub fn prohibited(s: &[u8]) -> bool
    requires { block_size ≤ length s.now }
    ensures { result ≡ prohibited_of s.now }
{
    wire::be16(s, block::SWITCHES_AT) == PROHIBITS
}

// Whether interface `i` holds an address.
fn holds(f: Format, s: &[u8], i: usize, address: u32) -> bool
    requires sound { Sound f }
    requires there { i < (layout_of f s.now).interfaces }
    ensures { result ≡ ((interface_of f s.now i).address == address) }
{
    wire::be32(s, interface_place(f, i)) == address
}

// The lowest interface that holds an address, of a sheet that has so many.
pub fn holder(f: Format, s: &[u8], interfaces: usize, address: u32) -> Option<usize>
    requires sound { Sound f }
    requires interfaces_value { interfaces ≡ (layout_of f s.now).interfaces }
    ensures { result ≡ holder_of f s.now address }
{
    (0..interfaces).find(|i| holds(f, s, *i, address))
}
