// Numbers in bytes, big-endian; copying.
#![tactic(auto, unfolding(crate::specs::Numbers::be, crate::specs::Numbers::bytes, crate::specs::Parts::splice))]

ghost use Rattle.std.specs.Prelude.{◌≡◌, ◌+◌, ◌≤◌, length};
ghost use Rattle.wire.specs.Numbers.{be16, be32, be64, bytes16, bytes32, bytes64};
ghost use Rattle.wire.specs.Parts.{splice};

// One function for each width, as the library has them: the width fixes the type of the number, and a parameter cannot.

// The number of 2 bytes that begins at `at`.
pub fn be16(s: &[u8], at: usize) -> u16
    requires { at + 2 ≤ length s.now }
    ensures { result ≡ be16 s.now at }
{
    u16::from_be_bytes([s[at], s[at + 1]])
}

// The number of 4 bytes that begins at `at`.
pub fn be32(s: &[u8], at: usize) -> u32
    requires { at + 4 ≤ length s.now }
    ensures { result ≡ be32 s.now at }
{
    u32::from_be_bytes([s[at], s[at + 1], s[at + 2], s[at + 3]])
}

// The number of 8 bytes that begins at `at`.
pub fn be64(s: &[u8], at: usize) -> u64
    requires { at + 8 ≤ length s.now }
    ensures { result ≡ be64 s.now at }
{
    u64::from_be_bytes([
        s[at],
        s[at + 1],
        s[at + 2],
        s[at + 3],
        s[at + 4],
        s[at + 5],
        s[at + 6],
        s[at + 7],
    ])
}

// Writes `v` into the 2 bytes that begin at `at`.
pub fn put16(s: &mut [u8], at: usize, v: u16)
    requires { at + 2 ≤ length s.old }
    ensures { s.new ≡ splice s.old at (bytes16 v) }
{
    s[at..at + 2].copy_from_slice(&v.to_be_bytes());
}

// Writes `v` into the 4 bytes that begin at `at`.
pub fn put32(s: &mut [u8], at: usize, v: u32)
    requires { at + 4 ≤ length s.old }
    ensures { s.new ≡ splice s.old at (bytes32 v) }
{
    s[at..at + 4].copy_from_slice(&v.to_be_bytes());
}

// Writes `v` into the 8 bytes that begin at `at`.
pub fn put64(s: &mut [u8], at: usize, v: u64)
    requires { at + 8 ≤ length s.old }
    ensures { s.new ≡ splice s.old at (bytes64 v) }
{
    s[at..at + 8].copy_from_slice(&v.to_be_bytes());
}

// Copies all of `src` into `dst`, from `at` on. By `copy_from_slice` the archive for C would call memmove, which its header rules out.
pub fn copy_to(dst: &mut [u8], at: usize, src: &[u8])
    requires { at + length src.now ≤ length dst.old }
    ensures { dst.new ≡ splice dst.old at src.now }
{
    for i in 0..src.len() {
        dst[at + i] = src[i];
    }
}
