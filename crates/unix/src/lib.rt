// UNIX time in the units of the clock.
#![tactic(auto)]

ghost use Rattle.std.specs.Prelude.{◌≡◌};
ghost use Rattle.unix.specs.Unix.{units_of, unix_of};

use refusal::Refusal;

// Seconds from the start of NTP era 0 to 1970.
const UNIX_EPOCH: u64 = 2_208_988_800;

// An era has 2^32 seconds.
const LAST_SECOND: u64 = u32::MAX as u64 - UNIX_EPOCH;

const SECOND_UNITS: u64 = 1 << 16;

const SECOND_NANOS: u64 = 1_000_000_000;

// Units to nanoseconds in lowest terms.
const RATIO_UNITS: u64 = 128;

const RATIO_NANOS: u64 = 1_953_125;

// UNIX time to units.
#[tactic(auto, unfolding(crate::specs::Unix::unix_of, rows::specs::Rows::by_first))]
pub fn unix(seconds: u64, nanoseconds: u64) -> Result<u64, Refusal>
    ensures { units_of result ≡ unix_of seconds nanoseconds }
{
    if LAST_SECOND < seconds || SECOND_NANOS <= nanoseconds {
        return Err(Refusal::ClockUnix);
    }
    let whole = (seconds + UNIX_EPOCH) * SECOND_UNITS;
    Ok(whole + nanoseconds * RATIO_UNITS / RATIO_NANOS)
}
