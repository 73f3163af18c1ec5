// What a host calls, as functions of a library. None asks anything of its caller. Crate `servicebough_c` exports each to C under its name.
#![tactic(auto)]

ghost use Rattle.std.specs.Prelude.{◌≡◌, ◌≤◌, length};
ghost use Rattle.clock.specs.Clock.{clock_of, start_of, advance_of, arrival_of};
ghost use Rattle.unix.specs.Unix.{unix_of};
ghost use Rattle.drops.specs.Arrival.{arrival};
ghost use Rattle.engine.specs.Step.{outcome, StepMeets};
ghost use Rattle.yard.specs.Walk.{visit, walked, walk_of};
ghost use Rattle.rows.specs.Rows.{first_of};
ghost use Rattle.refusal.specs.Refusal.{number_of};
ghost use Rattle.reply.specs.Check.{reply_rows};
ghost use Rattle.reply.specs.Copy.{copied, copied_next};
ghost use Rattle.loss.specs.Loss.{written, loss_of};
ghost use Rattle.arrivals.specs.Difference.{difference_of};
ghost use Rattle.ticks.specs.Ticks.{TickMeets};
ghost use Rattle.servicebough.specs.Answers.{answer_size, answer_left, handed, walk_handed};
ghost use Rattle.format.specs.Sizes.{ipv4};

use clock::Clock;
use drops::Arrival;
use refusal::Refusal;
use yard::{End, Visit, Walked};

// Bytes lent for the answer of a walk.
const ANSWER_SIZE: usize = 16;

// Starts a clock.
pub fn bough_clock_start(reading: u64, out: &mut [u8]) -> u32
    ensures { TickMeets (start_of reading) out.old result out.new }
{
    ticks::hand_over(Clock { r: 0, y: 0 }.tick(Clock::start(reading)), out)
}

// Advances the clock (r, y).
pub fn bough_clock_advance(r: u64, y: u64, reading: u64, out: &mut [u8]) -> u32
    ensures { TickMeets (advance_of (clock_of r y) reading) out.old result out.new }
{
    let c = Clock { r, y };
    ticks::hand_over(c.tick(c.advance(reading)), out)
}

// UNIX time to units; 0 where it is refused.
pub fn bough_clock_unix(seconds: u64, nanoseconds: u64) -> u64
    ensures { result ≡ (unix_of seconds nanoseconds).units }
{
    unix::unix(seconds, nanoseconds).unwrap_or(0)
}

// The Query Arrival Time of a time issued.
pub fn bough_clock_arrival(y: u64) -> u32
    ensures { result ≡ arrival_of y }
{
    clock::arrival(y)
}

// One router's step.
pub fn bough_engine_step(
    message: &[u8],
    destination: u32,
    receiving: u32,
    ttl: u32,
    time: u32,
    sheet: &[u8],
    recent: &mut [u8],
    output: &mut [u8],
    note: &mut [u8],
) -> u32
    ensures { StepMeets ipv4 (arrival message.now destination receiving ttl) time sheet.now recent.old output.old note.old
        (outcome result recent.new output.new note.new) }
{
    let arrival = Arrival {
        message,
        destination,
        receiving,
        ttl,
    };
    match engine::step(arrival, time, sheet, recent, output, note) {
        Ok(answer) => u32::from(answer),
        Err(refusal) => u32::from(refusal),
    }
}

// Writes what a walk answered into 16 bytes, unless it was refused or dropped.
fn write_answer(w: Walked, answer: &mut [u8])
    requires { answer_size ≤ length answer.old }
    ensures { answer.new ≡ answer_left (walked w) answer.old }
{
    if let End::Dropped(_) = w.end {
        return;
    }
    wire::put32(answer, 0, u32::from(w.end));
    wire::put32(answer, 4, w.steps);
    wire::put32(answer, 8, w.blocks);
    wire::put32(answer, 12, w.length);
}

// A Query walked through a yard.
pub fn bough_walk(
    yard: &[u8],
    times: &[u32],
    message: &[u8],
    start: u32,
    receiving: u32,
    destination: u32,
    ttl: u32,
    output: &mut [u8],
    answer: &mut [u8],
) -> u32
    ensures { handed result output.new answer.new
        ≡ walk_handed (walk_of ipv4 yard.now times.now (visit start (arrival message.now destination receiving ttl)) (length output.old))
        output.old answer.old }
{
    if answer.len() < ANSWER_SIZE {
        return u32::from(Refusal::Room);
    }
    let visit = Visit {
        router: start as usize,
        arrival: Arrival {
            message,
            destination,
            receiving,
            ttl,
        },
    };
    match yard::walk(yard, times, visit, output) {
        Ok(w) => {
            write_answer(w, answer);
            u32::from(w.end)
        }
        Err(refusal) => u32::from(refusal),
    }
}

// The number that a check comes to: 0 where it does not refuse.
fn number_of(outcome: Result<(), Refusal>) -> u32
    ensures { result ≡ number_of outcome }
{
    match outcome {
        Ok(()) => 0,
        Err(refusal) => u32::from(refusal),
    }
}

// A Reply checked.
pub fn bough_reply_check(reply: &[u8]) -> u32
    ensures { result ≡ first_of (reply_rows reply.now) }
{
    number_of(reply::check(reply))
}

// The next block of a Reply at or after a place.
pub fn bough_reply_next(reply: &[u8], place: u32, block: &mut [u8]) -> u32
    ensures { copied result block.new ≡ copied_next reply.now place block.old }
{
    match reply::copy_next(reply, place as usize, block) {
        Some(behind) => behind as u32,
        None => 0,
    }
}

// The loss between two Replies.
pub fn bough_reply_loss(first: &[u8], second: &[u8], links: &mut [u8]) -> u32
    ensures { written result links.new ≡ loss_of first.now second.now links.old }
{
    number_of(loss::loss(first, second, links))
}

// The time between two arrivals.
pub fn bough_arrival_difference(later: u32, earlier: u32) -> i32
    ensures { result ≡ difference_of later earlier }
{
    arrivals::difference(later, earlier)
}
