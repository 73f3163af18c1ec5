// What a host written in C or Rust links: the functions of crate `servicebough`, each under its name, with its promise. Numbers pass as
// themselves, a slice as a pointer and a length; no entry asks anything of its caller but that what is written overlaps nothing else.
#![tactic(auto)]

ghost use Rattle.std.specs.Prelude.{◌≡◌, length};
ghost use Rattle.clock.specs.Clock.{clock_of, start_of, advance_of, arrival_of};
ghost use Rattle.unix.specs.Unix.{unix_of};
ghost use Rattle.drops.specs.Arrival.{arrival};
ghost use Rattle.engine.specs.Step.{outcome, StepMeets};
ghost use Rattle.yard.specs.Walk.{visit, walk_of};
ghost use Rattle.rows.specs.Rows.{first_of};
ghost use Rattle.reply.specs.Check.{reply_rows};
ghost use Rattle.reply.specs.Copy.{copied, copied_next};
ghost use Rattle.loss.specs.Loss.{written, loss_of};
ghost use Rattle.arrivals.specs.Difference.{difference_of};
ghost use Rattle.ticks.specs.Ticks.{TickMeets};
ghost use Rattle.servicebough.specs.Answers.{handed, walk_handed};
ghost use Rattle.format.specs.Sizes.{ipv4};

// Starts a clock.
#[unsafe(no_mangle)]
pub extern "C" fn bough_clock_start(reading: u64, out: &mut [u8]) -> u32
    ensures { TickMeets (start_of reading) out.old result out.new }
{
    servicebough::bough_clock_start(reading, out)
}

// Advances the clock (r, y).
#[unsafe(no_mangle)]
pub extern "C" fn bough_clock_advance(r: u64, y: u64, reading: u64, out: &mut [u8]) -> u32
    ensures { TickMeets (advance_of (clock_of r y) reading) out.old result out.new }
{
    servicebough::bough_clock_advance(r, y, reading, out)
}

// UNIX time to units; 0 where it is refused.
#[unsafe(no_mangle)]
pub extern "C" fn bough_clock_unix(seconds: u64, nanoseconds: u64) -> u64
    ensures { result ≡ (unix_of seconds nanoseconds).units }
{
    servicebough::bough_clock_unix(seconds, nanoseconds)
}

// The Query Arrival Time of a time issued.
#[unsafe(no_mangle)]
pub extern "C" fn bough_clock_arrival(y: u64) -> u32
    ensures { result ≡ arrival_of y }
{
    servicebough::bough_clock_arrival(y)
}

// One router's step.
#[unsafe(no_mangle)]
pub extern "C" fn bough_engine_step(
    message: &[u8],
    destination: u32,
    receiving: u32,
    ttl: u32,
    time: u32,
    sheet: &[u8],
    recent: &mut [u8],
    output: &mut [u8],
    note: &mut [u8],
) -> u32
    ensures { StepMeets ipv4 (arrival message.now destination receiving ttl) time sheet.now recent.old output.old note.old
        (outcome result recent.new output.new note.new) }
{
    servicebough::bough_engine_step(
        message,
        destination,
        receiving,
        ttl,
        time,
        sheet,
        recent,
        output,
        note,
    )
}

// A Query walked through a yard.
#[unsafe(no_mangle)]
pub extern "C" fn bough_walk(
    yard: &[u8],
    times: &[u32],
    message: &[u8],
    start: u32,
    receiving: u32,
    destination: u32,
    ttl: u32,
    output: &mut [u8],
    answer: &mut [u8],
) -> u32
    ensures { handed result output.new answer.new
        ≡ walk_handed (walk_of ipv4 yard.now times.now (visit start (arrival message.now destination receiving ttl)) (length output.old))
        output.old answer.old }
{
    servicebough::bough_walk(
        yard,
        times,
        message,
        start,
        receiving,
        destination,
        ttl,
        output,
        answer,
    )
}

// A Reply checked.
#[unsafe(no_mangle)]
pub extern "C" fn bough_reply_check(reply: &[u8]) -> u32
    ensures { result ≡ first_of (reply_rows reply.now) }
{
    servicebough::bough_reply_check(reply)
}

// The next block of a Reply at or after a place.
#[unsafe(no_mangle)]
pub extern "C" fn bough_reply_next(reply: &[u8], place: u32, block: &mut [u8]) -> u32
    ensures { copied result block.new ≡ copied_next reply.now place block.old }
{
    servicebough::bough_reply_next(reply, place, block)
}

// The loss between two Replies.
#[unsafe(no_mangle)]
pub extern "C" fn bough_reply_loss(first: &[u8], second: &[u8], links: &mut [u8]) -> u32
    ensures { written result links.new ≡ loss_of first.now second.now links.old }
{
    servicebough::bough_reply_loss(first, second, links)
}

// The time between two arrivals.
#[unsafe(no_mangle)]
pub extern "C" fn bough_arrival_difference(later: u32, earlier: u32) -> i32
    ensures { result ≡ difference_of later earlier }
{
    servicebough::bough_arrival_difference(later, earlier)
}
