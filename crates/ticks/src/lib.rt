// What a reading gave, as C is handed it: a number, and 24 bytes.
#![tactic(auto)]

ghost use Rattle.ticks.specs.Ticks.{TickMeets};

use clock::Tick;
use refusal::Refusal;

// Bytes lent for the clock's r, y and time.
const TICK_SIZE: usize = 24;

// Where y and the time issued go, behind r.
const TICK_Y: usize = 8;

const TICK_TIME: usize = 16;

// Hands over what a reading gave: its number and, unless it was refused, 24 bytes.
#[tactic(auto, using(wire::proofs::Behind::three_written), unfolding(crate::specs::Ticks::tick_bytes, rows::specs::Rows::by_first))]
pub fn hand_over(k: Tick, out: &mut [u8]) -> u32
    ensures { TickMeets k out.old result out.new }
{
    if out.len() < TICK_SIZE {
        return u32::from(Refusal::Room);
    }
    if k.number != 0 {
        return k.number;
    }
    wire::put64(out, 0, k.clock.r);
    wire::put64(out, TICK_Y, k.clock.y);
    wire::put64(out, TICK_TIME, k.time);
    0
}
