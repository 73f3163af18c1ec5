// The time between two arrivals.
#![tactic(auto)]

ghost use Rattle.std.specs.Prelude.{◌≡◌};
ghost use Rattle.arrivals.specs.Difference.{difference_of};

// The time between two arrivals: later minus earlier, the shorter way round.
#[tactic(auto, unfolding(crate::specs::Difference::difference_of))]
pub fn difference(later: u32, earlier: u32) -> i32
    ensures { result ≡ difference_of later earlier }
{
    later.wrapping_sub(earlier).cast_signed()
}
