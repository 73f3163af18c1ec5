// Classes of IPv4 addresses.
#![tactic(auto)]

ghost use Rattle.std.specs.Prelude.{◌≡◌};
ghost use Rattle.address.specs.Addresses.{unicast, multicast, link_scoped, all_ones};

// An address over this is its first octet.
pub const FIRST_OCTET: u32 = 1 << 24;

// 255.255.255.255.
pub const ALL_ONES: u32 = u32::MAX;

// First octet 1 to 223, not 127. `&` in the place of `&&`, so that no branch is taken.
pub fn unicast(a: u32) -> bool
    ensures { result ≡ unicast a }
{
    let octet = a / FIRST_OCTET;
    (1..=223).contains(&octet) & (octet != 127)
}

// First octet 224 to 239.
pub fn multicast(a: u32) -> bool
    ensures { result ≡ multicast a }
{
    (224..=239).contains(&(a / FIRST_OCTET))
}

// In 224.0.0.0/24.
pub fn link_scoped(a: u32) -> bool
    ensures { result ≡ link_scoped a }
{
    a / 256 == 0xE0_0000
}

// 255.255.255.255, which stands for no group, no source, or an upstream that is not known.
pub fn all_ones(a: u32) -> bool
    ensures { result ≡ all_ones a }
{
    a == ALL_ONES
}
