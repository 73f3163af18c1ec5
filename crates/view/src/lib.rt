// What a router looks at when it answers a message that it has accepted, and the link whose room counts.
#![tactic(auto)]

ghost use Rattle.std.specs.Prelude.{◌≡◌, ◌<◌};
ghost use Rattle.format.specs.Sizes.{Sound};
ghost use Rattle.sheet.specs.Sheet.{layout_of};
ghost use Rattle.view.specs.View.{incoming_for, view_with};
ghost use Rattle.view.specs.Room.{link_of};
ghost use Rattle.view.specs.Inside.{RouteThere};

use drops::Judged;
use format::Format;
use forwarding::View;
use interface::Interface;
use route_entry::Route;

// The incoming interface that the route chosen names.
#[tactic(auto, using(crate::proofs::Rows::incoming_unknown, crate::proofs::Rows::incoming_none))]
fn incoming_for(f: Format, sheet: &[u8], chosen: Option<Route>) -> Option<Interface>
    requires sound { Sound f }
    requires route_there { RouteThere (layout_of f sheet.now).interfaces chosen }
    ensures { result ≡ incoming_for f sheet.now chosen }
{
    match chosen {
        Some(r) if r.incoming != route_entry::UNKNOWN => Some(interface::interface_at(
            sheet,
            tables::interface_place(f, r.incoming as usize),
        )),
        _ => None,
    }
}

// The MTU of the link whose room counts: the incoming interface's, or the receiving one's where that is not known.
pub fn link_mtu(incoming: Option<Interface>, here: Interface) -> u16
    ensures { result ≡ (link_of incoming here).mtu }
{
    incoming.map_or(here.mtu, |i| i.mtu)
}

// What the router looks at when it answers what it has judged.
#[tactic(auto, using(crate::proofs::Rows::switches_here, crate::proofs::Rows::view_made, tables::proofs::Laws::place_within, tables::proofs::Laws::interface_told))]
pub fn view_with(f: Format, sheet: &[u8], j: Judged, receiving: u32, time: u32) -> View
    requires sound { Sound f }
    requires receiving_bound { receiving < (layout_of f sheet.now).interfaces }
    requires route_there { RouteThere (layout_of f sheet.now).interfaces j.chosen }
    ensures { result ≡ view_with f sheet.now j.header j.chosen j.proper receiving time }
{
    View {
        query: j.header.is_query(),
        proper: j.proper,
        chosen: j.chosen,
        incoming: incoming_for(f, sheet, j.chosen),
        prohibited: tables::prohibited(sheet),
        number: receiving,
        here: interface::interface_at(sheet, tables::interface_place(f, receiving as usize)),
        group: j.header.group,
        time,
    }
}
