// Whether a router drops what arrives: the drop table, and what is found out while it is tried.
#![tactic(auto)]

ghost use Rattle.std.specs.Prelude.{◌≡◌, true, ◌&&◌, ◌||◌};
ghost use Rattle.address.specs.Addresses.{link_scoped};
ghost use Rattle.format.specs.Sizes.{Sound};
ghost use Rattle.recent.specs.Inside.{Formed};
ghost use Rattle.recent.specs.Entries.{seen_in};
ghost use Rattle.sheet.specs.Sheet.{layout_of, told_of};
ghost use Rattle.tables.specs.Tables.{interface_of, holder_of};
ghost use Rattle.last_hop.specs.LastHop.{proper_last_hop};
ghost use Rattle.drops.specs.Arrival.{is_query};
ghost use Rattle.rows.specs.Rows.{first_of};
ghost use Rattle.drops.specs.Drop.{is_held, delivery_rows, route_rows};
ghost use Rattle.drops.specs.Inside.{arrived, lent_rows, verdict_by, routed_of, judged_of};
ghost use Rattle.refusal.specs.Refusal.{number_of};

use format::Format;
use header::Header;
use message::{Accepted, Blocks};
use refusal::Refusal;
use route_entry::Route;
use sheet::{Layout, Sheet};

// The TTL with which a Request comes from a neighbour.
pub const NEAR_TTL: u32 = 255;

// What arrives: a message, and what the host tells of it.
#[derive(Clone, Copy)]
pub struct Arrival<'a> {
    pub message: &'a [u8],
    pub destination: u32,
    pub receiving: u32,
    pub ttl: u32,
}

// What the answer to a message needs that is not dropped: its header and blocks, the route, and whether this is a Query's proper last hop.
#[derive(Clone, Copy)]
pub struct Judged {
    pub header: Header,
    pub blocks: Blocks,
    pub chosen: Option<Route>,
    pub proper: bool,
}

// Rows 1 and 2: what is lent besides the sheet. They cost little, and are tried before the sheet is looked at.
#[tactic(auto, using(rows::proofs::Laws::first), unfolding(crate::specs::Drop::lending_rows, rows::specs::Rows::by_first))]
pub fn lent_row(output: usize, note: usize, recent: &[u8]) -> Result<(), Refusal>
    ensures { number_of result ≡ first_of (lent_rows output note recent.now) }
{
    if (output < format::OUTPUT_SIZE) | (note < header::NOTE_SIZE) {
        return Err(Refusal::Room);
    }
    if !recent::check(recent) {
        return Err(Refusal::State);
    }
    Ok(())
}

// DEST does not apply: the destination is an interface address here, or in 224.0.0.0/24.
#[tactic(auto, using(crate::proofs::Rows::held_or_scoped))]
fn is_delivered(sheet: Sheet, destination: u32) -> bool
    ensures { result ≡ (is_held (holder_of sheet.entry.format sheet.entry.bytes.now destination) || link_scoped destination) }
{
    let held = tables::holder(
        sheet.format,
        sheet.bytes,
        sheet.layout.interfaces,
        destination,
    );
    held.is_some() | address::link_scoped(destination)
}

// A Query whose client and id are in a well-formed recent list.
fn is_seen(recent: &[u8], h: Header) -> bool
    requires { Formed recent.now }
    ensures { result ≡ (is_query h && seen_in recent.now h.client h.id) }
{
    h.is_query() && recent::seen(recent, h.client, h.id)
}

// Whether this is the proper last hop for a Query, by the route chosen. Nothing is asked of a Request.
fn is_proper(sheet: Sheet, chosen: Option<Route>, h: Header) -> bool
    ensures { result ≡ (is_query h
        && proper_last_hop (interface_of sheet.entry.format sheet.entry.bytes.now) (layout_of sheet.entry.format sheet.entry.bytes.now).interfaces chosen h.client) }
{
    h.is_query() && last_hop::last_hop(sheet, chosen, h.client)
}

// Rows 14 to 17.
#[tactic(auto, using(rows::proofs::Laws::first), unfolding(crate::specs::Drop::delivery_rows, rows::specs::Rows::by_first))]
fn delivery_row(
    a: Arrival,
    sheet: Sheet,
    recent: &[u8],
    h: Header,
    used: usize,
) -> Result<(), Refusal>
    requires { Formed recent.now }
    ensures { number_of result
        ≡ first_of (delivery_rows sheet.entry.format sheet.entry.bytes.now recent.now h used a.entry.destination a.entry.ttl) }
{
    if !is_delivered(sheet, a.destination) {
        return Err(Refusal::Dest);
    }
    if h.is_request() & (a.ttl != NEAR_TTL) {
        return Err(Refusal::Near);
    }
    if h.is_request() & (h.hops as usize <= used) {
        return Err(Refusal::Count);
    }
    if is_seen(recent, h) {
        return Err(Refusal::Seen);
    }
    Ok(())
}

// Row 18.
#[tactic(auto, using(crate::proofs::Rows::row_18, crate::proofs::Rows::row_none))]
fn route_row(proper: bool, h: Header, destination: u32) -> Result<(), Refusal>
    ensures { number_of result ≡ first_of (route_rows proper h destination) }
{
    if h.is_query() & address::link_scoped(destination) & !proper {
        return Err(Refusal::LastHop);
    }
    Ok(())
}

// Rows 14 to 18, where the sheet, the recent list and the message itself are right.
#[tactic(auto, using(crate::proofs::Rows::routed_dropped, crate::proofs::Rows::routed_late, crate::proofs::Rows::routed_taken))]
fn routed(a: Arrival, m: Accepted, sheet: Sheet, recent: &[u8]) -> Result<Judged, Refusal>
    requires { Formed recent.now }
    ensures { verdict_by result
        ≡ routed_of sheet.entry.format m.header m.blocks a.entry.destination a.entry.ttl sheet.entry.bytes.now recent.now }
{
    let Accepted { header, blocks } = m;
    delivery_row(a, sheet, recent, header, blocks.count)?;
    let chosen = route::choose(sheet, header.source, header.group);
    let proper = is_proper(sheet, chosen, header);
    route_row(proper, header, a.destination)?;
    Ok(Judged {
        header,
        blocks,
        chosen,
        proper,
    })
}

// What a router makes of what arrives, where what is lent besides the sheet is right: the first row from 3 on that applies, or what
// the answer needs. `layout` is what the check told of the sheet.
#[tactic(auto, using(crate::proofs::Rows::layout_told, crate::proofs::Rows::judged_sheet, crate::proofs::Rows::judged_iface, crate::proofs::Rows::judged_message, crate::proofs::Rows::judged_routed))]
pub fn judge(
    f: Format,
    a: Arrival,
    sheet: &[u8],
    layout: Option<Layout>,
    recent: &[u8],
) -> Result<Judged, Refusal>
    requires sound { Sound f }
    requires layout_value { layout ≡ told_of f sheet.now }
    requires formed { Formed recent.now }
    ensures { verdict_by result ≡ judged_of f (arrived a.entry) sheet.now recent.now }
{
    let Some(layout) = layout else {
        return Err(Refusal::Sheet);
    };
    if layout.interfaces <= a.receiving as usize {
        return Err(Refusal::Iface);
    }
    let m = message::check(f, a.message)?;
    let sheet = Sheet {
        format: f,
        bytes: sheet,
        layout,
    };
    routed(a, m, sheet, recent)
}
