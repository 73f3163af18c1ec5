// The sizes of a format as one value, which code takes by value and definitions take as a parameter; and the value for IPv4.
#![tactic(auto)]

// What a message, its blocks and the entries of a sheet measure. That sizes are sound is asked where they are used and is no ghost field:
// the constant would then hold a proof of its own, which is not the definition's.
#[derive(Clone, Copy)]
pub struct Format {
    // A message: its header, a Standard Response Block, the place of the forwarding code in that, and the most that a message has.
    pub header: usize,
    pub block: usize,
    pub code: usize,
    pub most: usize,
    // A sheet: an interface entry, a route entry, and the least MTU. How many entries a block holds follows from their size.
    pub interface: usize,
    pub route: usize,
    pub mtu: u16,
}

// The sizes of IPv4, version 2, by name.
pub const HEADER_SIZE: usize = 20;

pub const STANDARD_SIZE: usize = 52;

pub const CODE_OFFSET: usize = 51;

pub const MOST: usize = 1472;

const INTERFACE_SIZE: usize = 28;

const ROUTE_SIZE: usize = 56;

const LEAST_MTU: u16 = 576;

// And as one value.
pub const IPV4: Format = Format {
    header: HEADER_SIZE,
    block: STANDARD_SIZE,
    code: CODE_OFFSET,
    most: MOST,
    interface: INTERFACE_SIZE,
    route: ROUTE_SIZE,
    mtu: LEAST_MTU,
};

// What a host lends for a message, whatever its format.
pub const OUTPUT_SIZE: usize = 1472;
