// Which route serves a source and a group.
#![tactic(auto)]

ghost use Rattle.std.specs.Prelude.{true, ◌≡◌, ◌+◌, ◌*◌, ◌≤◌, ◌<◌, length};
ghost use Rattle.prefix.specs.Prefix.{address_bits};
ghost use Rattle.format.specs.Sizes.{route_fields};
ghost use Rattle.route_entry.specs.Route.{route_at};
ghost use Rattle.route_rules.specs.Rules.{route_ok};
ghost use Rattle.sheet.specs.Sheet.{layout_of};
ghost use Rattle.tables.specs.Tables.{routes_of};
ghost use Rattle.tables.specs.Inside.{Beside};
ghost use Rattle.route.specs.Choice.{which_route};
ghost use Rattle.route.specs.Inside.{of_source, serves, rank_as, rank_at, better, best_with, best_of};

use route_entry::Route;
use sheet::Sheet;

// The lowest rank of kind 3. Ranks are numbers, since each bit of a source prefix's length is one more.
const SOURCE_RANK: usize = 1;

// The rank of kind 2, above all of kind 3.
const GROUP_RANK: usize = 34;

// What kind 1 ranks above.
const BOTH_RANK: usize = 35;

// The highest rank so far, and where in the sheet the first route that has it begins. The route is read there in the end, and no turn
// counts routes beside their places. Rank 0 is no route: an `Option` would be a word more for every turn to carry, and 5 instructions for a
// route that serves.
#[derive(Drop)]
struct Best {
    rank: usize,
    at: usize,
}

// Whether there is a source, and the source prefix of the route at a place matches it.
#[tactic(auto, unfolding(crate::specs::Inside::of_source))]
fn of_source(s: &[u8], at: usize, source: u32) -> bool
    requires { (at + route_fields ≤ length s.now) × ((route_at s.now at).length ≤ address_bits) }
    ensures { result ≡ of_source source (route_at s.now at) }
{
    !address::all_ones(source)
        & prefix::same_prefix(
            route_entry::length_at(s, at),
            route_entry::source_at(s, at),
            source,
        )
}

// Whether the route at a place serves a source and a group. Its kind says which fields are looked at; no other is read.
#[tactic(auto, unfolding(crate::specs::Inside::serves))]
fn serves(s: &[u8], at: usize, source: u32, group: u32) -> bool
    requires { (at + route_fields ≤ length s.now) × ((route_at s.now at).length ≤ address_bits) }
    ensures { result ≡ serves source group (route_at s.now at) }
{
    match route_entry::kind_at(s, at) {
        route_entry::SOURCE_ONLY => of_source(s, at, source),
        route_entry::GROUP_ONLY => route_entry::group_at(s, at) == group,
        _ => (route_entry::group_at(s, at) == group) && of_source(s, at, source),
    }
}

// The rank of a route that serves, by its kind and the length of its source prefix.
#[tactic(auto, unfolding(crate::specs::Inside::rank_as))]
fn rank(kind: u8, bits: usize) -> usize
    requires { bits ≤ address_bits }
    ensures { result ≡ rank_as kind bits }
{
    match kind {
        route_entry::GROUP_ONLY => GROUP_RANK + bits,
        route_entry::SOURCE_ONLY => SOURCE_RANK + bits,
        _ => BOTH_RANK + bits,
    }
}

// The best so far, with the route at a place and its rank.
#[tactic(auto, unfolding(crate::specs::Inside::better))]
fn better(b: Best, rank: usize, at: usize) -> Best
    ensures { result ≡ better b rank at }
{
    if b.rank < rank { Best { rank, at } } else { b }
}

// The best so far, with the route at a place.
fn best_with(sheet: Sheet, b: Best, at: usize, source: u32, group: u32) -> Best
    requires { (at + route_fields ≤ length sheet.bytes.now) × (route_ok sheet.layout.interfaces (route_at sheet.bytes.now at) ≡ true) }
    ensures { result ≡ better b (rank_at sheet.entry.bytes.now source group at) at }
{
    let s = sheet.bytes;
    if !serves(s, at, source, group) {
        return b;
    }
    better(
        b,
        rank(
            route_entry::kind_at(s, at),
            route_entry::length_at(s, at) as usize,
        ),
        at,
    )
}

// The best so far, with so many routes that stand side by side from a place on: one pass over them.
fn best_in(sheet: Sheet, at: usize, count: usize, before: Best, source: u32, group: u32) -> Best
    requires { Beside sheet.format sheet.bytes.now at count }
    ensures { result ≡ best_with (rank_at sheet.entry.bytes.now source group) (λ j. at + sheet.entry.format.route * j) before count }
{
    let mut b = before;
    for j in 0..count {
        b = best_with(sheet, b, at + sheet.format.route * j, source, group);
    }
    b
}

// One pass over the routes of a valid sheet. Each turn goes on by the routes that its block has, so it is no `for`.
fn best_of(sheet: Sheet, source: u32, group: u32) -> Best
    ensures { result ≡ best_of sheet.entry.format sheet.entry.bytes.now source group (layout_of sheet.entry.format sheet.entry.bytes.now).routes }
{
    let mut b = Best { rank: 0, at: 0 };
    let mut k: usize = 0;
    while k < sheet.layout.routes {
        let count = tables::routes_beside(sheet.format, sheet.layout, k);
        b = best_in(
            sheet,
            tables::route_place(sheet.format, sheet.layout, k),
            count,
            b,
            source,
            group,
        );
        k += count;
    }
    b
}

// The route of a valid sheet for a source and a group; all ones stands for none of either.
pub fn choose(sheet: Sheet, source: u32, group: u32) -> Option<Route>
    ensures { result ≡ which_route (routes_of sheet.entry.format sheet.entry.bytes.now) source group }
{
    let b = best_of(sheet, source, group);
    if b.rank == 0 {
        return None;
    }
    Some(route_entry::route_at(sheet.bytes, b.at))
}
