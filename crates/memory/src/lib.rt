// Numbers in memory's order, where the first byte counts least: for tests that do not mind the order of bytes.
#![tactic(auto, unfolding(crate::specs::Inside::le, crate::specs::Inside::octets, wire::specs::Numbers::bytes))]

ghost use Rattle.std.specs.Prelude.{◌≡◌, ◌+◌, ◌≤◌, length};
ghost use Rattle.wire.specs.Numbers.{bytes64};
ghost use Rattle.memory.specs.Inside.{le32, le64, octets};

// One function for each width, as in `wire`.

// The number of 4 bytes that begins at `at`, its first byte the one that counts least: in memory's order, for tests that do not mind
// the order of bytes. The compiler takes it for one load, and swaps no bytes. What is read is bytes.
pub fn le32(s: &[u8], at: usize) -> u32
    requires { at + 4 ≤ length s.now }
    ensures { (result ≡ le32 s.now at) × octets 2 s.now at }
{
    u32::from_le_bytes([s[at], s[at + 1], s[at + 2], s[at + 3]])
}

// The number of 8 bytes that begins at `at`, in memory's order.
pub fn le64(s: &[u8], at: usize) -> u64
    requires { at + 8 ≤ length s.now }
    ensures { (result ≡ le64 s.now at) × octets 3 s.now at }
{
    u64::from_le_bytes([
        s[at],
        s[at + 1],
        s[at + 2],
        s[at + 3],
        s[at + 4],
        s[at + 5],
        s[at + 6],
        s[at + 7],
    ])
}

// The bytes of `v` in the other order: what `le64` reads where `v` is written.
pub fn swapped64(v: u64) -> u64
    ensures { result ≡ le64 (bytes64 v) 0 }
{
    v.swap_bytes()
}
