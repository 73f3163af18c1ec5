// One link between two Replies: the first name that applies to its counts, or what was lost on it.
#![tactic(auto)]

ghost use Rattle.std.specs.Prelude.{◌≡◌};
ghost use Rattle.link.specs.Link.{count_of, not_counted, link_of, verdict_of, tally_of};

use standard::Standard;

// What was sent into a link and received from it, as one Reply counts it.
#[derive(Clone, Copy)]
pub struct Count {
    pub sent: u64,
    pub received: u64,
}

// What a link sent and received between two Replies, and what was lost of what was sent.
#[derive(Clone, Copy, Default)]
pub struct Tally {
    pub sent: u64,
    pub received: u64,
    pub lost: u64,
}

// A link's answer.
#[derive(Clone, Copy)]
pub enum Link {
    Counted(Tally),
    NotCounted,
    Fallen,
    Surplus,
}

// The count of the link between two neighbouring blocks of a Reply.
pub fn count_of(near: Standard, far: Standard) -> Count
    ensures { result ≡ count_of near far }
{
    Count {
        sent: far.output,
        received: near.input,
    }
}

// Whether any of the counts is all ones.
fn not_counted(first: Count, second: Count) -> bool
    ensures { result ≡ not_counted first second }
{
    (first.sent == u64::MAX)
        | (first.received == u64::MAX)
        | (second.sent == u64::MAX)
        | (second.received == u64::MAX)
}

// The first name that applies to a link, or what was lost on it.
#[tactic(auto, unfolding(crate::specs::Link::link_of, crate::specs::Link::names, rows::specs::Rows::by_first))]
pub fn link_of(first: Count, second: Count) -> Link
    ensures { result ≡ link_of first second }
{
    if not_counted(first, second) {
        return Link::NotCounted;
    }
    if (second.sent < first.sent) | (second.received < first.received) {
        return Link::Fallen;
    }
    let sent = second.sent - first.sent;
    let received = second.received - first.received;
    if sent < received {
        return Link::Surplus;
    }
    Link::Counted(Tally {
        sent,
        received,
        lost: sent - received,
    })
}

impl Link {
    // The number of a link's answer.
    pub fn verdict(self) -> u8
        ensures { result ≡ verdict_of self }
    {
        match self {
            Link::Counted(_) => 0,
            Link::NotCounted => 1,
            Link::Fallen => 2,
            Link::Surplus => 3,
        }
    }

    // The values of a link that is counted; zeros for any other.
    pub fn tally(self) -> Tally
        ensures { result ≡ tally_of self }
    {
        match self {
            Link::Counted(tally) => tally,
            Link::NotCounted | Link::Fallen | Link::Surplus => Tally::default(),
        }
    }
}
