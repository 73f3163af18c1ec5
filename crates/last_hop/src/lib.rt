// Whether a router is the proper last hop for a client, by the route chosen.
#![tactic(auto)]

ghost use Rattle.std.specs.Prelude.{true, ◌≡◌, ◌+◌, ◌<◌, length};
ghost use Rattle.sheet.specs.Sheet.{layout_of};
ghost use Rattle.tables.specs.Tables.{interface_of};
ghost use Rattle.last_hop.specs.LastHop.{some_reaches, proper_last_hop};
ghost use Rattle.last_hop.specs.Inside.{reaches_by};

use route_entry::Route;
use sheet::Sheet;

// Whether interface `k` has the lowest bit of what is left of a map, is multicast, and has the client in its subnet.
#[tactic(auto, unfolding(crate::specs::Inside::reaches_by))]
fn reaches(sheet: Sheet, map: u64, k: usize, client: u32) -> bool
    requires { k < sheet.layout.interfaces }
    ensures { result ≡ reaches_by map client (interface_of sheet.entry.format sheet.entry.bytes.now k) }
{
    if map % 2 == 0 {
        return false;
    }
    let i = interface::interface_at(sheet.bytes, tables::interface_place(sheet.format, k));
    interface::is_multicast(i) & prefix::same_prefix(i.length, i.address, client)
}

// Whether some interface of a valid sheet in the would-forward map does so. None behind the last bit of the map is looked at.
fn some_reaches(sheet: Sheet, r: Route, client: u32) -> bool
    ensures { result ≡ some_reaches (interface_of sheet.entry.format sheet.entry.bytes.now) r client (layout_of sheet.entry.format sheet.entry.bytes.now).interfaces }
{
    for k in 0..sheet.layout.interfaces {
        let map = r.forward >> k;
        if map == 0 {
            return false;
        }
        if reaches(sheet, map, k, client) {
            return true;
        }
    }
    false
}

// Whether a router with a valid sheet is the proper last hop for a client, by the route chosen.
#[tactic(auto, unfolding(crate::specs::LastHop::proper_last_hop))]
pub fn last_hop(sheet: Sheet, c: Option<Route>, client: u32) -> bool
    ensures { result ≡ proper_last_hop (interface_of sheet.entry.format sheet.entry.bytes.now) (layout_of sheet.entry.format sheet.entry.bytes.now).interfaces c client }
{
    match c {
        Some(r) => route_entry::is_rp(r) || some_reaches(sheet, r, client),
        None => false,
    }
}
