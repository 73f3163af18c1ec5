// The rules on a route entry by itself.
#![tactic(auto, unfolding(route_entry::specs::Route::route_at))]

ghost use Rattle.std.specs.Prelude.{◌≡◌, ◌&&◌, ◌+◌, ◌≤◌, ◌<◌, length};
ghost use Rattle.wire.specs.Numbers.{be64};
ghost use Rattle.format.specs.Sizes.{route_fields};
ghost use Rattle.interface.specs.Interface.{most_interfaces};
ghost use Rattle.route_entry.specs.Route.{route_at};
ghost use Rattle.route_rules.specs.Rules.{route_ok, kind_ok, length_ok, flags_ok, group_ok, map_ok};
ghost use Rattle.route_rules.specs.Inside.{outside_map, fits_kind, zeros_ok, upward_ok, maps_ok};

use prefix::{ADDRESS_BITS, zero_past};
use route_entry::{GROUP_ONLY, PRUNE_FLAG, RP_FLAG, SOURCE_AND_GROUP, SOURCE_ONLY, UNKNOWN};

fn length_ok(kind: u8, bits: u8) -> bool
    ensures { result ≡ length_ok kind bits }
{
    match kind {
        SOURCE_AND_GROUP => (1..=ADDRESS_BITS).contains(&bits),
        GROUP_ONLY => bits == 0,
        _ => bits <= ADDRESS_BITS,
    }
}

fn flags_ok(kind: u8, flags: u8) -> bool
    ensures { result ≡ flags_ok kind flags }
{
    (flags <= RP_FLAG | PRUNE_FLAG) & ((flags & RP_FLAG == 0) | (kind == GROUP_ONLY))
}

fn group_ok(kind: u8, group: u32) -> bool
    ensures { result ≡ group_ok kind group }
{
    if kind == SOURCE_ONLY {
        group == 0
    } else {
        address::multicast(group)
    }
}

// Whether length, flags and group are right for a kind.
fn fits_kind(kind: u8, bits: u8, flags: u8, group: u32) -> bool
    ensures { result ≡ fits_kind kind bits flags group }
{
    length_ok(kind, bits) & flags_ok(kind, flags) & group_ok(kind, group)
}

// Whether the kind is one of the three, and they are right for it. Each kind is named in a call of its own, where the compiler
// leaves the tests of that kind alone.
fn kind_ok(kind: u8, bits: u8, flags: u8, group: u32) -> bool
    ensures { result ≡ (kind_ok kind && fits_kind kind bits flags group) }
{
    match kind {
        SOURCE_AND_GROUP => fits_kind(SOURCE_AND_GROUP, bits, flags, group),
        GROUP_ONLY => fits_kind(GROUP_ONLY, bits, flags, group),
        SOURCE_ONLY => fits_kind(SOURCE_ONLY, bits, flags, group),
        _ => false,
    }
}

// Whether all is zero that must be.
fn zeros_ok(s: &[u8], at: usize) -> bool
    requires { at + route_fields ≤ length s.now }
    ensures { result ≡ zeros_ok (route_at s.now at) }
{
    (s[at + 3] == 0) & (wire::be16(s, at + 22) == 0)
        && zero_past(route_entry::length_at(s, at), route_entry::source_at(s, at))
}

// Whether incoming interface and upstream are right.
fn upward_ok(s: &[u8], at: usize, interfaces: u16) -> bool
    requires { (at + route_fields ≤ length s.now) × (interfaces ≤ most_interfaces) }
    ensures { result ≡ upward_ok interfaces (route_at s.now at) }
{
    let incoming = wire::be16(s, at + 16);
    let upstream = wire::be32(s, at + 12);
    if interfaces <= incoming {
        (incoming == UNKNOWN) & (upstream == 0)
    } else {
        address::unicast(upstream) | (upstream == 0) | address::all_ones(upstream)
    }
}

// The bits of a map that no interface has, where there are so many, in memory's order.
pub fn outside_map(interfaces: u16) -> u64
    requires { interfaces ≤ most_interfaces }
    ensures { result ≡ outside_map interfaces }
{
    memory::swapped64(u64::MAX.unbounded_shl(u32::from(interfaces)))
}

// Whether the map that begins at `at` has no bit of `outside`, those that no interface has.
#[tactic(auto, using(crate::proofs::Masks::map_outside))]
fn map_ok(s: &[u8], at: usize, interfaces: u16, outside: u64) -> bool
    requires { (at + 8 ≤ length s.now) × (interfaces ≤ most_interfaces) × (outside ≡ outside_map interfaces) }
    ensures { result ≡ map_ok interfaces (be64 s.now at) }
{
    memory::le64(s, at) & outside == 0
}

// Whether no map has a bit of `outside`. They are looked at one after the other, in memory's order: each is then one load.
fn maps_ok(s: &[u8], at: usize, interfaces: u16, outside: u64) -> bool
    requires { (at + route_fields ≤ length s.now) × (interfaces ≤ most_interfaces) × (outside ≡ outside_map interfaces) }
    ensures { result ≡ maps_ok interfaces (route_at s.now at) }
{
    map_ok(s, at + 32, interfaces, outside)
        && map_ok(s, at + 40, interfaces, outside)
        && map_ok(s, at + 48, interfaces, outside)
}

// Whether the route whose bytes begin at `at` keeps every rule on it, where there are so many interfaces; `outside` is the bits of a
// map that none of them has. It is left at the first rule that it breaks, and what no rule looks at is not read.
#[tactic(auto, using(crate::proofs::Rules::grouped), unfolding(route_entry::specs::Route::route_at))]
pub fn route_ok(s: &[u8], at: usize, interfaces: u16, outside: u64) -> bool
    requires { (at + route_fields ≤ length s.now) × (interfaces ≤ most_interfaces) × (outside ≡ outside_map interfaces) }
    ensures { result ≡ route_ok interfaces (route_at s.now at) }
{
    kind_ok(
        route_entry::kind_at(s, at),
        route_entry::length_at(s, at),
        s[at + 2],
        route_entry::group_at(s, at),
    ) && zeros_ok(s, at)
        && upward_ok(s, at, interfaces)
        && maps_ok(s, at, interfaces, outside)
}
