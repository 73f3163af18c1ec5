// The forwarding code: the first that applies, in what a router looks at when it answers.
#![tactic(auto)]

ghost use Rattle.std.specs.Prelude.{◌≡◌, ◌<◌};
ghost use Rattle.interface.specs.Interface.{most_interfaces};
ghost use Rattle.forwarding.specs.View.{boundary_on};
ghost use Rattle.rows.specs.Rows.{first_of};
ghost use Rattle.forwarding.specs.Code.{byte_of, scoped, codes_for, code_of};
ghost use Rattle.forwarding.specs.Inside.{late_codes};

use interface::Interface;
use route_entry::Route;

// The forwarding codes, each by its byte.
#[derive(Clone, Copy, Debug, PartialEq, Eq)]
pub enum Code {
    NoError = 0,
    WrongIf = 1,
    PruneSent = 2,
    PruneRcvd = 3,
    Scoped = 4,
    NoRoute = 5,
    WrongLastHop = 6,
    NotForwarding = 7,
    ReachedRp = 8,
    RpfIf = 9,
    NoMulticast = 10,
    NoSpace = 129,
    AdminProhib = 131,
}

impl From<Code> for u8 {
    ghost from_gives = { λ code byte. byte ≡ byte_of code };

    fn from(code: Code) -> u8 {
        code as u8
    }
}

// The first octet of the groups that a boundary keeps in: 239.0.0.0/8.
const SCOPED_OCTET: u32 = 239;

// What a router looks at when it answers a message that it has accepted.
#[derive(Clone, Copy)]
pub struct View {
    pub query: bool,
    pub proper: bool,
    pub chosen: Option<Route>,
    pub incoming: Option<Interface>,
    pub prohibited: bool,
    pub number: u32,
    pub here: Interface,
    pub group: u32,
    pub time: u32,
}

fn boundary_on(i: Option<Interface>) -> bool
    ensures { result ≡ boundary_on i }
{
    match i {
        Some(i) => interface::is_boundary(i),
        None => false,
    }
}

fn in_scope(v: View) -> bool
    ensures { result ≡ scoped v }
{
    let incoming = v.incoming;
    (v.group / address::FIRST_OCTET == SCOPED_OCTET)
        & (interface::is_boundary(v.here) | boundary_on(incoming))
}

// The first code from SCOPED on that applies, where a route was chosen. It takes of the view what it looks at: a view lent whole
// would have to be written to memory first.
#[tactic(auto, using(rows::proofs::Laws::first), unfolding(rows::specs::Rows::by_first))]
fn late_code(scoped: bool, r: Route, number: usize) -> Code
    requires { number < most_interfaces }
    ensures { byte_of result ≡ first_of (late_codes scoped r number) }
{
    let sent = route_entry::prune_sent(r);
    if scoped {
        return Code::Scoped;
    }
    if sent {
        return Code::PruneSent;
    }
    if route_entry::in_map(r.pruned, number) {
        return Code::PruneRcvd;
    }
    if route_entry::in_map(r.stopped, number) {
        return Code::NotForwarding;
    }
    Code::NoError
}

// The first code that applies, where a route was chosen.
#[tactic(auto, using(rows::proofs::Laws::first, crate::proofs::Rows::late_told), unfolding(rows::specs::Rows::by_first))]
fn code_on(v: View, r: Route) -> Code
    requires { v.number < most_interfaces }
    ensures { byte_of result ≡ first_of (codes_for v (Some r)) }
{
    if v.query & !v.proper {
        return Code::WrongLastHop;
    }
    if route_entry::is_rp(r) {
        return Code::ReachedRp;
    }
    if v.prohibited {
        return Code::AdminProhib;
    }
    if !interface::is_multicast(v.here) {
        return Code::NoMulticast;
    }
    if v.number == r.incoming as u32 {
        return Code::RpfIf;
    }
    let number = v.number as usize;
    if !route_entry::in_map(r.forward, number) {
        return Code::WrongIf;
    }
    late_code(in_scope(v), r, number)
}

// The first code that applies.
#[tactic(auto, using(crate::proofs::Rows::code_none_wrong, crate::proofs::Rows::code_none))]
pub fn code_of(v: View) -> Code
    requires { v.number < most_interfaces }
    ensures { byte_of result ≡ code_of v }
{
    let chosen = v.chosen;
    match chosen {
        Some(r) => code_on(v, r),
        None => {
            if v.query & !v.proper {
                return Code::WrongLastHop;
            }
            Code::NoRoute
        }
    }
}
