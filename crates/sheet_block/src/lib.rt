// The rules on one block of a sheet.
#![tactic(auto)]

ghost use Rattle.std.specs.Prelude.{◌≡◌, ◌+◌, ◌%◌, ◌≤◌, ◌<◌, ℕ, Bool, List, length};
ghost use Rattle.block.specs.Block.{block_size, entries_each};
ghost use Rattle.block.specs.Inside.{word_size};
ghost use Rattle.format.specs.Sizes.{Sound};
ghost use Rattle.interface.specs.Interface.{most_interfaces};
ghost use Rattle.route_rules.specs.Inside.{outside_map};
ghost use Rattle.sheet_block.specs.Rules.{interface_kind, route_kind, switches_ok, interface_right, route_right, entries_ok, block_ok};

use format::Format;

// The switch value that prohibits tracing.
pub const PROHIBITS: u16 = 1;

// The entries of one kind of block: the kind, their size, and whether the one that begins at a place of a block keeps its rules.
pub trait Entries {
    ghost KIND: { ℕ };

    ghost size: { Self → ℕ };

    ghost right: { Self → List ℕ → ℕ → Bool };

    const KIND: u8;

    fn size(&self) -> usize
        ensures size { result ≡ size self.now }
        ensures whole_words { (0 < result) × (result % word_size ≡ 0) };

    fn right(&self, b: &[u8], at: usize) -> bool
        requires { at + size self.now ≤ length b.now }
        ensures { result ≡ right self.now b.now at };
}

// Interfaces of a format.
#[derive(Drop)]
pub struct Interfaces {
    pub f: Format,
    ghost sound: { Sound f },
}

impl Entries for Interfaces {
    ghost KIND = { interface_kind };

    ghost size = { λ e. e.f.interface };

    ghost right = { λ e. interface_right e.f };

    const KIND: u8 = 1;

    fn size(&self) -> usize {
        self.f.interface
    }

    fn right(&self, b: &[u8], at: usize) -> bool {
        interface::interface_ok(self.f, b, at)
    }
}

// Routes of a format, where there are so many interfaces; with the bits of a map that none of these has.
#[derive(Drop)]
pub struct Routes {
    f: Format,
    interfaces: u16,
    outside: u64,
    ghost sound: { Sound f },
    ghost few: { interfaces ≤ most_interfaces },
    ghost outside_is: { outside ≡ outside_map interfaces },
}

impl Routes {
    pub fn among(f: Format, interfaces: u16) -> Routes
        requires sound { Sound f }
        requires few { interfaces ≤ most_interfaces }
        ensures { (result.f ≡ f) × (result.interfaces ≡ interfaces) }
    {
        Routes {
            f,
            interfaces,
            outside: route_rules::outside_map(interfaces),
        }
    }
}

impl Entries for Routes {
    ghost KIND = { route_kind };

    ghost size = { λ e. e.f.route };

    ghost right = { λ e. route_right e.interfaces };

    const KIND: u8 = 2;

    fn size(&self) -> usize {
        self.f.route
    }

    fn right(&self, b: &[u8], at: usize) -> bool {
        route_rules::route_ok(b, at, self.interfaces, self.outside)
    }
}

// Whether block `number` may have these switches.
fn switches_ok(number: u16, switches: u16) -> bool
    ensures { result ≡ switches_ok number switches }
{
    (switches == 0) | ((number == 0) & (switches == PROHIBITS))
}

// Whether the first `used` entries of a block keep their rules: it is left at the first that does not. By `all` each entry would cost three
// instructions more.
fn entries_ok<E: Entries>(e: &E, b: &[u8], used: usize) -> bool
    requires { (length b.now ≡ block_size) × (used ≤ entries_each (E.size e.now)) }
    ensures { result ≡ entries_ok (E.size e.now) (E.right e.now) b.now used }
{
    for j in 0..used {
        if !e.right(b, block::ENTRIES_AT + e.size() * j) {
            return false;
        }
    }
    true
}

// Whether a block is one of such entries that keeps its rules, with its number; `partly` where it may be partly filled.
#[tactic(auto, unfolding(crate::specs::Rules::block_ok))]
pub fn block_ok<E: Entries>(e: &E, b: &[u8], number: u16, partly: bool) -> bool
    requires { length b.now ≡ block_size }
    ensures { result ≡ block_ok E.KIND (E.size e.now) (E.right e.now) number partly b.now }
{
    if !block::frame_ok(b, E::KIND, e.size(), number, partly) {
        return false;
    }
    switches_ok(number, wire::be16(b, block::SWITCHES_AT)) && entries_ok(e, b, usize::from(b[1]))
}
