// Why a call is refused, or a message dropped: the one table of numbers, as an error.
#![tactic(auto)]

ghost use Rattle.std.specs.Prelude.{◌≡◌};
ghost use Rattle.refusal.specs.Refusal.{number};

// The refusals by their names; each has its number.
#[derive(Clone, Copy, Debug, PartialEq, Eq)]
pub enum Refusal {
    // A router drops what arrives.
    Room = 1,
    State = 2,
    Sheet = 3,
    Iface = 4,
    Size = 5,
    MessageType = 6,
    Header = 7,
    Hops = 8,
    Group = 9,
    Source = 10,
    Pair = 11,
    Client = 12,
    Blocks = 13,
    Dest = 14,
    Near = 15,
    Count = 16,
    Seen = 17,
    LastHop = 18,
    // A walk is refused.
    Yard = 21,
    Times = 22,
    Start = 23,
    Request = 24,
    // A clock is.
    ClockReading = 31,
    ClockUnix = 32,
    ClockState = 33,
    // A Reply, and two of them.
    NotReply = 41,
    OtherPath = 42,
}

impl From<Refusal> for u32 {
    ghost from_gives = { λ refusal n. n ≡ number refusal };

    fn from(refusal: Refusal) -> u32 {
        refusal as u32
    }
}
