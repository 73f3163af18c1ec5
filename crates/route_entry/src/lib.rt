// A route entry of a sheet, read once into a struct by value.
#![tactic(auto, unfolding(crate::specs::Route::route_at))]

ghost use Rattle.std.specs.Prelude.{◌≡◌, ◌+◌, ◌≤◌, ◌<◌, length};
ghost use Rattle.format.specs.Sizes.{route_fields};
ghost use Rattle.interface.specs.Interface.{most_interfaces};
ghost use Rattle.route_entry.specs.Route.{route_at, is_rp, prune_sent, in_map};

// The kind of a route for a source and a group. Kinds are bytes and no enum: until a sheet is checked it may hold any byte there, and
// the choice of a route compares that byte of each entry.
pub const SOURCE_AND_GROUP: u8 = 1;

// The kind of a route for a group.
pub const GROUP_ONLY: u8 = 2;

// The kind of a route for a source only.
pub const SOURCE_ONLY: u8 = 3;

// The number of an incoming interface that is not known.
pub const UNKNOWN: u16 = u16::MAX;

// The flags of a route.
pub const RP_FLAG: u8 = 1;

pub const PRUNE_FLAG: u8 = 2;

#[derive(Clone, Copy)]
pub struct Route {
    pub kind: u8,
    pub length: u8,
    pub flags: u8,
    pub zero: u8,
    pub source: u32,
    pub group: u32,
    pub upstream: u32,
    pub incoming: u16,
    pub protocol: u16,
    pub multicast: u16,
    pub zeros: u16,
    pub packets: u64,
    pub forward: u64,
    pub pruned: u64,
    pub stopped: u64,
}

// The kind of the route whose bytes begin at `at`. The choice of a route looks at this and the next three fields, and reads no other.
pub fn kind_at(s: &[u8], at: usize) -> u8
    requires { at + route_fields ≤ length s.now }
    ensures { result ≡ (route_at s.now at).kind }
{
    s[at]
}

// The length of its source prefix.
pub fn length_at(s: &[u8], at: usize) -> u8
    requires { at + route_fields ≤ length s.now }
    ensures { result ≡ (route_at s.now at).length }
{
    s[at + 1]
}

// Its source.
pub fn source_at(s: &[u8], at: usize) -> u32
    requires { at + route_fields ≤ length s.now }
    ensures { result ≡ (route_at s.now at).source }
{
    wire::be32(s, at + 4)
}

// Its group.
pub fn group_at(s: &[u8], at: usize) -> u32
    requires { at + route_fields ≤ length s.now }
    ensures { result ≡ (route_at s.now at).group }
{
    wire::be32(s, at + 8)
}

// The route whose bytes begin at `at`.
pub fn route_at(s: &[u8], at: usize) -> Route
    requires { at + route_fields ≤ length s.now }
    ensures { result ≡ route_at s.now at }
{
    Route {
        kind: kind_at(s, at),
        length: length_at(s, at),
        flags: s[at + 2],
        zero: s[at + 3],
        source: source_at(s, at),
        group: group_at(s, at),
        upstream: wire::be32(s, at + 12),
        incoming: wire::be16(s, at + 16),
        protocol: wire::be16(s, at + 18),
        multicast: wire::be16(s, at + 20),
        zeros: wire::be16(s, at + 22),
        packets: wire::be64(s, at + 24),
        forward: wire::be64(s, at + 32),
        pruned: wire::be64(s, at + 40),
        stopped: wire::be64(s, at + 48),
    }
}

// Whether the RP flag is set.
pub fn is_rp(r: Route) -> bool
    ensures { result ≡ is_rp r }
{
    r.flags & RP_FLAG != 0
}

// Whether the flag for a prune that was sent is set.
#[tactic(auto, using(wire::proofs::Laws::second_flag))]
pub fn prune_sent(r: Route) -> bool
    ensures { result ≡ prune_sent r }
{
    r.flags & PRUNE_FLAG != 0
}

// Whether interface `i` is in a map.
pub fn in_map(map: u64, i: usize) -> bool
    requires { i < most_interfaces }
    ensures { result ≡ in_map map i }
{
    (map >> i) % 2 == 1
}
