// A clock that follows its host forwards, never issues a time twice or goes back, and works off a lead at half rate.
#![tactic(auto)]

ghost use Rattle.std.specs.Prelude.{◌≡◌, ◌≤◌, ◌<◌};
ghost use Rattle.clock.specs.Clock.{last_time, clock_of, tick_of, time_for, start_of, advance_of, arrival_of};

use refusal::Refusal;

// The last reading r and the last issued time y, in units of 1/65536 s since NTP era 0.
#[derive(Clone, Copy, Debug, PartialEq, Eq)]
pub struct Clock {
    pub r: u64,
    pub y: u64,
}

// What a reading gave, as it is handed on: the number (0, or why it was refused), the clock to go on with, the time issued.
#[derive(Clone, Copy)]
pub struct Tick {
    pub number: u32,
    pub clock: Clock,
    pub time: u64,
}

const LAST_TIME: u64 = (1 << 48) - 1;

const ARRIVAL_TIMES: u64 = 1 << 32;

impl Clock {
    // A clock that starts from a reading, and issues it.
    #[tactic(auto, unfolding(crate::specs::Clock::start_of, rows::specs::Rows::by_first))]
    pub fn start(reading: u64) -> Result<Clock, Refusal>
        ensures { tick_of (clock_of 0 0) result ≡ start_of reading }
    {
        if LAST_TIME < reading {
            return Err(Refusal::ClockReading);
        }
        Ok(Clock {
            r: reading,
            y: reading,
        })
    }

    // The clock at a new reading. Its y is the time issued for it.
    #[tactic(auto, unfolding(crate::specs::Clock::advance_of, rows::specs::Rows::by_first))]
    pub fn advance(self, t: u64) -> Result<Clock, Refusal>
        ensures { tick_of self result ≡ advance_of self t }
    {
        let Clock { r, y } = self;
        if y < r || LAST_TIME < y {
            return Err(Refusal::ClockState);
        }
        if LAST_TIME < t || y == LAST_TIME {
            return Err(Refusal::ClockReading);
        }
        Ok(Clock {
            r: t,
            y: self.time_for(t),
        })
    }

    // What an answer to a reading says: a clock has issued its y; where it was refused the clock is this one, and no time is issued.
    pub fn tick(self, answer: Result<Clock, Refusal>) -> Tick
        ensures { result ≡ tick_of self answer }
    {
        match answer {
            Ok(clock) => Tick {
                number: 0,
                clock,
                time: clock.y,
            },
            Err(refusal) => Tick {
                number: u32::from(refusal),
                clock: self,
                time: 0,
            },
        }
    }

    // The time issued for a reading that is accepted.
    #[tactic(auto, unfolding(crate::specs::Clock::time_for))]
    fn time_for(self, t: u64) -> u64
        requires { (self.r ≤ self.y) × (self.y < last_time) × (t ≤ last_time) }
        ensures { result ≡ time_for self t }
    {
        let Clock { r, y } = self;
        // A rise of more than twice the lead: y and half of it do not come up to the reading.
        if 2 * y < r + t {
            return t;
        }
        let next = y + 1;
        // From a rise of 2 on half of it counts; 1 of that half is in y + 1.
        let far = r + 2;
        if t < far {
            return next;
        }
        LAST_TIME.min(next + (t - far) / 2)
    }
}

// The Query Arrival Time of a time issued: its low 32 bits.
pub fn arrival(y: u64) -> u32
    ensures { result ≡ arrival_of y }
{
    (y % ARRIVAL_TIMES) as u32
}
