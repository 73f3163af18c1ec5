// A trace walked from router to router: each is a call of the engine, and the walk calls itself for the next.
#![tactic(auto)]

ghost use Rattle.std.specs.Prelude.{true, ◌≡◌, ◌+◌, ◌*◌, ◌/◌, ◌≤◌, ◌<◌, eqb, length, Ok, IfOk};
ghost use Rattle.wire.specs.Numbers.{byte_at};
ghost use Rattle.sheet_block.specs.Every.{every};
ghost use Rattle.format.specs.Sizes.{ipv4, output_size};
ghost use Rattle.header.specs.Format.{request};
ghost use Rattle.message.specs.Blocks.{standard_count};
ghost use Rattle.drops.specs.Inside.{arrived};
ghost use Rattle.engine.specs.Step.{answer_of};
ghost use Rattle.yard.specs.Yard.{sheet_size, most_routers, routers_in, valid_at, yard_size_ok, holder_in};
ghost use Rattle.yard.specs.Walk.{sent_for, sent_at, walk_from, end_number, walked, walked_by, Tells, WalkTells};
ghost use Rattle.yard.specs.Inside.{visited, Counted, YardChecked, CanEnter, Called, Onwards, Hopped, Ended};

use drops::Arrival;
use header::Kind;
use refusal::Refusal;
use sending::Answer;

// Bytes of a router's sheet in a yard, and the most routers.
pub const SHEET_SIZE: usize = 1024;

pub const MOST_ROUTERS: usize = 32;

// A router that is entered, and what arrives there.
#[derive(Clone, Copy)]
pub struct Visit<'a> {
    pub router: usize,
    pub arrival: Arrival<'a>,
}

// How a walk ends: a router drops what it receives or sends a Reply home, or a Request is sent to a group or to an address that nobody holds.
#[derive(Clone, Copy, Debug, PartialEq, Eq)]
pub enum End {
    Dropped(Refusal),
    SentHome,
    ToGroup,
    NobodyThere,
}

impl From<End> for u32 {
    ghost from_gives = { λ end n. n ≡ end_number end };

    fn from(end: End) -> u32 {
        match end {
            End::Dropped(refusal) => u32::from(refusal),
            End::SentHome => u32::from(Answer::SentHome),
            End::ToGroup => 102,
            End::NobodyThere => 103,
        }
    }
}

// What a walk answers: its end, its steps (calls of the engine), and the type 4 blocks and the length of the last message sent.
#[derive(Clone, Copy)]
pub struct Walked {
    pub end: End,
    pub steps: u32,
    pub blocks: u32,
    pub length: u32,
}

// A yard that was checked: its sheets, the times of its routers, and how many interfaces each router has.
#[derive(Clone, Copy)]
struct Yard<'a> {
    sheets: &'a [u8],
    times: &'a [u32],
    interfaces: [usize; MOST_ROUTERS],
}

// What the engine answered, and the length and the destination of what it sent.
#[derive(Clone, Copy)]
struct Call {
    answer: Result<Answer, Refusal>,
    length: usize,
    to: u32,
}

// Where a Request that was sent on is received: the router, its interface, and the destination.
#[derive(Clone, Copy)]
struct Onward {
    router: usize,
    interface: u32,
    to: u32,
}

// The length of what a router sent, and where it is received next, or how the walk ends there.
#[derive(Clone, Copy)]
struct Hop {
    length: usize,
    next: Result<Onward, End>,
}

fn size_ok(size: usize) -> bool
    ensures { result ≡ yard_size_ok size }
{
    (size % SHEET_SIZE == 0) & (1 <= size / SHEET_SIZE) & (size / SHEET_SIZE <= MOST_ROUTERS)
}

// Every sheet of a yard of n is checked, up to the first that is wrong, and its interfaces are counted.
fn sheets_ok(yard: &[u8], n: usize, counts: &mut [usize]) -> bool
    requires { (n ≤ most_routers) × (sheet_size * n ≤ length yard.now) × (n ≤ length counts.old) }
    ensures { (result ≡ every (valid_at ipv4 yard.now) n) × (result ≡ true → Counted ipv4 yard.now counts.new n) }
{
    for i in 0..n {
        let a = SHEET_SIZE * i;
        let Some(layout) = sheet::check(&yard[a..a + SHEET_SIZE]) else {
            return false;
        };
        counts[i] = layout.interfaces;
    }
    true
}

#[tactic(auto, using(crate::proofs::Sheets::wrong_size_lem))]
fn yard_ok(yard: &[u8], counts: &mut [usize]) -> bool
    requires { most_routers ≤ length counts.old }
    ensures { YardChecked ipv4 yard.now result counts.new }
{
    if !size_ok(yard.len()) {
        return false;
    }
    sheets_ok(yard, yard.len() / SHEET_SIZE, counts)
}

// The lowest router of n, and its lowest interface, that hold an address.
fn holder_in(yard: &[u8], counts: &[usize], n: usize, address: u32) -> Option<(usize, usize)>
    requires n_value { (n ≡ routers_in yard.now) × (n ≤ most_routers) × (sheet_size * n ≤ length yard.now) }
    requires counted { Counted ipv4 yard.now counts.now n }
    ensures { result ≡ holder_in ipv4 yard.now address }
{
    for i in 0..n {
        let a = SHEET_SIZE * i;
        let found = tables::holder(format::IPV4, &yard[a..a + SHEET_SIZE], counts[i], address);
        if let Some(k) = found {
            return Some((i, k));
        }
    }
    None
}

// One call of the engine, with enough lent and an empty recent list.
fn ask(sheet: &[u8], time: u32, a: Arrival, sent: &mut [u8]) -> Call
    requires { length sent.old ≡ output_size }
    ensures { Called (sent_for ipv4 sheet.now time (arrived a.entry)) sent.old result sent.new }
{
    let mut recent = [0u8; recent::LIST_SIZE];
    let mut note = [0u8; header::NOTE_SIZE];
    let answer = engine::step_lent(a, time, sheet, &mut recent, sent, &mut note);
    Call {
        answer,
        length: wire::be16(&note, 0) as usize,
        to: wire::be32(&note, 2),
    }
}

// What becomes of what a router sent: it goes on to who holds its destination, or the walk ends.
#[tactic(auto, using(format::specs::Sizes::ipv4_sound, written::proofs::Laws::ipv4_writes, crate::proofs::Rows::onward_home, crate::proofs::Rows::onward_dropped, crate::proofs::Rows::onward_group, crate::proofs::Rows::onward_nobody, crate::proofs::Rows::onward_held))]
fn go_on(yard: &Yard, call: Call) -> Result<Onward, End>
    requires { CanEnter ipv4 yard.now }
    ensures { Onwards ipv4 yard.now.sheets.now (answer_of call.answer) call.to result }
{
    match call.answer {
        Ok(Answer::SentOn) => {}
        Ok(Answer::SentHome) => return Err(End::SentHome),
        Err(refusal) => return Err(End::Dropped(refusal)),
    }
    if address::multicast(call.to) {
        return Err(End::ToGroup);
    }
    let routers = yard.sheets.len() / SHEET_SIZE;
    let Some((router, k)) = holder_in(yard.sheets, &yard.interfaces, routers, call.to) else {
        return Err(End::NobodyThere);
    };
    Ok(Onward {
        router,
        interface: k as u32,
        to: call.to,
    })
}

// The engine's call at a router, and what becomes of what it sent.
#[tactic(auto, using(format::specs::Sizes::ipv4_sound, written::proofs::Laws::ipv4_writes))]
fn enter(yard: &Yard, v: Visit, sent: &mut [u8]) -> Hop
    requires can_enter { CanEnter ipv4 yard.now }
    requires there { v.router < routers_in yard.now.sheets.now }
    requires sent_len { length sent.old ≡ output_size }
    ensures { Hopped ipv4 yard.now.sheets.now
        (sent_at ipv4 yard.now.sheets.now yard.now.times.now (visited v.entry))
        sent.old result sent.new }
{
    let a = SHEET_SIZE * v.router;
    let call = ask(
        &yard.sheets[a..a + SHEET_SIZE],
        yard.times[v.router],
        v.arrival,
        sent,
    );
    Hop {
        length: call.length,
        next: go_on(yard, call),
    }
}

// The type 4 blocks of a message that was sent, or of none.
fn count(sent: &[u8]) -> u32
    requires { length sent.now ≤ output_size }
    ensures { result ≡ standard_count ipv4 sent.now }
{
    if sent.len() < format::HEADER_SIZE {
        return 0;
    }
    let blocks = message::blocks_of(format::IPV4, sent);
    blocks.count as u32
}

// The walk ends: the last message sent goes to the output.
fn finish(end: End, sent: &[u8], output: &mut [u8]) -> Walked
    requires { (length sent.now ≤ output_size) × (output_size ≤ length output.old) }
    ensures { Ended ipv4 end sent.now output.old result output.new }
{
    wire::copy_to(output, 0, sent);
    Walked {
        end,
        steps: 1,
        blocks: count(sent),
        length: sent.len() as u32,
    }
}

// A router is entered, and from there the walk goes on: the hops not yet used fall with each.
fn go(yard: &Yard, v: Visit, output: &mut [u8]) -> Walked
    requires can_enter { CanEnter ipv4 yard.now }
    requires there { v.router < routers_in yard.now.sheets.now }
    requires output_size_in_bounds { output_size ≤ length output.old }
    ensures { Tells ipv4 (walk_from ipv4 yard.now.sheets.now yard.now.times.now (visited v.entry))
        output.old (walked result) output.new }
{
    let mut sent = [0u8; format::OUTPUT_SIZE];
    let hop = enter(yard, v, &mut sent);
    let message = &sent[..hop.length];
    match hop.next {
        Err(end) => finish(end, message, output),
        Ok(on) => {
            let arrival = Arrival {
                message,
                destination: on.to,
                receiving: on.interface,
                ttl: drops::NEAR_TTL,
            };
            let w = go(
                yard,
                Visit {
                    router: on.router,
                    arrival,
                },
                output,
            );
            let steps = w.steps + 1;
            Walked { steps, ..w }
        }
    }
}

// Whether a message has a first byte, and it is that of a Request.
fn is_request(message: &[u8]) -> bool
    ensures { result ≡ eqb (byte_at message.now 0) request }
{
    message.first() == Some(&(Kind::Request as u8))
}

// Walks a trace from the start router to its end. Refused are: an output under 1472 bytes, a yard that is not 1 to 32 valid sheets of
// 1024 bytes, fewer times than routers, a start router that is not there, a message of type 2.
pub fn walk(yard: &[u8], times: &[u32], start: Visit, output: &mut [u8]) -> Result<Walked, Refusal>
    ensures told { WalkTells ipv4 yard.now times.now (visited start.entry) output.old (walked_by result) output.new }
    ensures entered { IfOk result (λ w. 0 < w.steps) }
{
    let routers = yard.len() / SHEET_SIZE;
    if output.len() < format::OUTPUT_SIZE {
        return Err(Refusal::Room);
    }
    let mut interfaces = [0usize; MOST_ROUTERS];
    if !yard_ok(yard, &mut interfaces) {
        return Err(Refusal::Yard);
    }
    if times.len() < routers {
        return Err(Refusal::Times);
    }
    if routers <= start.router {
        return Err(Refusal::Start);
    }
    if is_request(start.arrival.message) {
        return Err(Refusal::Request);
    }
    let yard = Yard {
        sheets: yard,
        times,
        interfaces,
    };
    Ok(go(&yard, start, output))
}
