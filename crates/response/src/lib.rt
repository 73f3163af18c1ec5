// A router's Standard Response Block: what it is filled with; and what ends a trace. All over records: no byte of a message or a sheet
// is looked at here.
#![tactic(auto)]

ghost use Rattle.std.specs.Prelude.{◌≡◌, ◌+◌, ◌≤◌, ◌<◌};
ghost use Rattle.prefix.specs.Prefix.{address_bits};
ghost use Rattle.interface.specs.Interface.{most_interfaces};
ghost use Rattle.forwarding.specs.View.{address_of, input_of};
ghost use Rattle.response.specs.Fill.{upstream_of, total_of, mask_of, s_and_mask, filled_of, fill_for, block_of, ends_trace};
ghost use Rattle.response.specs.Inside.{RouteFits};

use forwarding::View;
use interface::Interface;
use route_entry::Route;
use written::{Block, Filled};

// 224.0.0.2, all routers of the link.
const ALL_ROUTERS: u32 = 0xe000_0002;

// All ones in a count of 64 bits: not counted.
const NOT_COUNTED: u64 = u64::MAX;

// The mask of a route without a source.
const NO_SOURCE_MASK: u8 = 127;

// S, beside the mask.
const S_BIT: u8 = 128;

// The address of the incoming interface, 0 if unknown.
pub fn address_of(i: Option<Interface>) -> u32
    ensures { result ≡ address_of i }
{
    i.map_or(0, |i| i.address)
}

fn input_of(i: Option<Interface>) -> u64
    ensures { result ≡ input_of i }
{
    i.map_or(NOT_COUNTED, |i| i.input)
}

// The upstream address as it is shown and sent to: 224.0.0.2 where it is not known.
#[tactic(auto, using(rows::proofs::Laws::first))]
pub fn upstream(r: Route) -> u32
    ensures { result ≡ upstream_of r }
{
    if address::all_ones(r.upstream) {
        return ALL_ROUTERS;
    }
    r.upstream
}

#[tactic(auto, using(rows::proofs::Laws::first))]
fn total(r: Route) -> u64
    ensures { result ≡ total_of r }
{
    if r.kind == route_entry::SOURCE_ONLY {
        return NOT_COUNTED;
    }
    r.packets
}

#[tactic(auto, using(rows::proofs::Laws::first))]
fn mask(r: Route) -> u8
    ensures { result ≡ mask_of r }
{
    if r.kind == route_entry::GROUP_ONLY {
        return NO_SOURCE_MASK;
    }
    r.length
}

// S and the source mask, as one byte.
#[tactic(auto, using(crate::proofs::Rows::mask_fits, crate::proofs::Rows::s_set, crate::proofs::Rows::s_clear))]
fn s_and_mask(r: Route) -> u8
    requires { r.length ≤ address_bits }
    ensures { result ≡ s_and_mask r }
{
    if (r.kind == route_entry::GROUP_ONLY)
        | ((r.kind == route_entry::SOURCE_AND_GROUP) & (r.length < prefix::ADDRESS_BITS))
    {
        return S_BIT + mask(r);
    }
    mask(r)
}

#[tactic(auto, unfolding(crate::specs::Fill::filled_of))]
fn filled_of(r: Route, i: Option<Interface>) -> Filled
    requires { r.length ≤ address_bits }
    ensures { result ≡ filled_of r i }
{
    Filled {
        incoming: address_of(i),
        upstream: upstream(r),
        input: input_of(i),
        total: total(r),
        protocol: r.protocol,
        multicast: r.multicast,
        mask: s_and_mask(r),
    }
}

#[tactic(auto, using(crate::proofs::Rows::fill_shut, crate::proofs::Rows::fill_found, crate::proofs::Rows::fill_none, crate::proofs::Rows::fits_found))]
fn fill(v: View) -> Filled
    requires { RouteFits v.chosen }
    ensures { result ≡ fill_for v v.chosen }
{
    match v.chosen {
        Some(r) if !v.prohibited => filled_of(r, v.incoming),
        _ => Filled::default(),
    }
}

// The block that a router appends.
#[tactic(auto, unfolding(crate::specs::Fill::block_of))]
pub fn block_of(v: View) -> Block
    requires { (v.number < most_interfaces) × RouteFits v.chosen }
    ensures { result ≡ block_of v }
{
    let here = v.here;
    Block {
        time: v.time,
        outgoing: here.address,
        output: here.output,
        threshold: here.threshold,
        code: u8::from(forwarding::code_of(v)),
        filled: fill(v),
    }
}

// Whether the trace ends here, with so many hops used now.
#[tactic(auto, using(crate::proofs::Rows::ends_found, crate::proofs::Rows::ends_none))]
pub fn ends_trace(v: View, used: u32, hops: u32) -> bool
    ensures { result ≡ ends_trace v used hops }
{
    match v.chosen {
        Some(r) => v.prohibited | route_entry::is_rp(r) | (r.upstream == 0) | (used == hops),
        None => true,
    }
}
