// Prefixes of IPv4 addresses.
#![tactic(auto)]

ghost use Rattle.std.specs.Prelude.{◌≡◌, ◌≤◌};
ghost use Rattle.prefix.specs.Prefix.{address_bits, same_prefix, zero_past};

// Bits of an address.
pub const ADDRESS_BITS: u8 = 32;

// Whether the first bits of two addresses agree: their difference then begins with as many zeros. Between equal addresses it is all
// zeros, 32 of them, so that no length has a line of its own. The count is compared as a byte, which a length is.
#[tactic(auto, using(crate::proofs::Prefixes::leading_agree), unfolding(crate::specs::Prefix::same_prefix, crate::specs::Prefix::hosts))]
pub fn same_prefix(bits: u8, a: u32, b: u32) -> bool
    requires { bits ≤ address_bits }
    ensures { result ≡ same_prefix bits a b }
{
    bits <= (a ^ b).leading_zeros() as u8
}

// Whether the bits past the first are zero: shifted up by as many as the first are, an address leaves nothing of itself but them.
#[tactic(auto, using(crate::proofs::Shifts::shifted_past))]
pub fn zero_past(bits: u8, a: u32) -> bool
    ensures { result ≡ zero_past bits a }
{
    a.unbounded_shl(u32::from(bits)) == 0
}
