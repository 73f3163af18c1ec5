// An interface entry of a sheet, read once into a struct by value, and the rules on it by itself.
#![tactic(auto)]

ghost use Rattle.std.specs.Prelude.{◌≡◌, ◌+◌, ◌≤◌, length};
ghost use Rattle.format.specs.Sizes.{interface_fields};
ghost use Rattle.interface.specs.Interface.{interface_at, is_multicast, is_boundary, interface_ok};

use format::Format;
use prefix::ADDRESS_BITS;

// The most interfaces: a map has a bit for each.
pub const MOST_INTERFACES: usize = 64;

// The flags of an interface.
const MULTICAST_FLAG: u8 = 1;

const BOUNDARY_FLAG: u8 = 2;

#[derive(Clone, Copy)]
pub struct Interface {
    pub address: u32,
    pub length: u8,
    pub flags: u8,
    pub threshold: u8,
    pub zero: u8,
    pub input: u64,
    pub output: u64,
    pub mtu: u16,
    pub zeros: u16,
}

// The interface whose bytes begin at `at`.
#[tactic(auto, unfolding(crate::specs::Interface::interface_at))]
pub fn interface_at(s: &[u8], at: usize) -> Interface
    requires { at + interface_fields ≤ length s.now }
    ensures { result ≡ interface_at s.now at }
{
    Interface {
        address: wire::be32(s, at),
        length: s[at + 4],
        flags: s[at + 5],
        threshold: s[at + 6],
        zero: s[at + 7],
        input: wire::be64(s, at + 8),
        output: wire::be64(s, at + 16),
        mtu: wire::be16(s, at + 24),
        zeros: wire::be16(s, at + 26),
    }
}

// Whether the multicast flag is set.
pub fn is_multicast(i: Interface) -> bool
    ensures { result ≡ is_multicast i }
{
    i.flags & MULTICAST_FLAG != 0
}

// Whether the boundary flag is set.
#[tactic(auto, using(wire::proofs::Laws::second_flag))]
pub fn is_boundary(i: Interface) -> bool
    ensures { result ≡ is_boundary i }
{
    i.flags & BOUNDARY_FLAG != 0
}

// Whether the interface whose bytes begin at `at` keeps every rule on it: what no rule looks at is not read.
#[tactic(auto, unfolding(crate::specs::Interface::interface_at, crate::specs::Interface::interface_ok))]
pub fn interface_ok(f: Format, s: &[u8], at: usize) -> bool
    requires { at + interface_fields ≤ length s.now }
    ensures { result ≡ interface_ok f (interface_at s.now at) }
{
    address::unicast(wire::be32(s, at))
        && (1..=ADDRESS_BITS).contains(&s[at + 4])
            & (s[at + 5] <= MULTICAST_FLAG | BOUNDARY_FLAG)
            & (s[at + 7] == 0)
            & (f.mtu <= wire::be16(s, at + 24))
            & (wire::be16(s, at + 26) == 0)
}
