// What the program `walk` reads, and the walk that it asks for.
#![tactic(auto)]

ghost use Rattle.std.specs.Prelude.{◌≡◌, ◌+◌, ◌≤◌, ◌<◌, length, replicate, IfOk};
ghost use Rattle.yard.specs.Yard.{most_routers};
ghost use Rattle.yard.specs.Walk.{walked_by, Tells};
ghost use Rattle.input.specs.Input.{input_size, head_size, head_of, times_of, walk_in, walk_for};
ghost use Rattle.format.specs.Sizes.{ipv4, output_size};

use drops::Arrival;
use refusal::Refusal;
use yard::{Visit, Walked};

// The bytes that say where the Query arrives: router 2, interface 2, destination 4, TTL 1, and seven that are ignored.
const START_SIZE: usize = 16;

// The bytes before the yard: those, and the Query.
const HEAD_SIZE: usize = START_SIZE + format::HEADER_SIZE;

// No more is to be read: one byte more than the longest yard, so that a longer one is seen.
const INPUT_SIZE: usize = HEAD_SIZE + yard::MOST_ROUTERS * yard::SHEET_SIZE + 1;

// Zeros, for an input to be read into.
pub fn blank() -> [u8; INPUT_SIZE]
    ensures { result ≡ replicate input_size 0 }
{
    [0u8; INPUT_SIZE]
}

// The first 36 bytes of the input; those that are missing are 0.
fn head_of(input: &[u8]) -> [u8; HEAD_SIZE]
    ensures { result ≡ head_of input.now }
{
    let n = HEAD_SIZE.min(input.len());
    let mut head = [0u8; HEAD_SIZE];
    wire::copy_to(&mut head, 0, &input[..n]);
    head
}

// Router i has time 65536 * i.
fn times_of() -> [u32; yard::MOST_ROUTERS]
    ensures { result ≡ times_of most_routers }
{
    let mut times = [0u32; yard::MOST_ROUTERS];
    for i in 0..yard::MOST_ROUTERS {
        times[i] = 65536 * (i as u32);
    }
    times
}

// Walks through a yard from where the first bytes say.
fn walk_from(head: &[u8], yard: &[u8], output: &mut [u8]) -> Result<Walked, Refusal>
    requires { (length head.now ≡ head_size) × (length output.old ≡ output_size) }
    ensures told { Tells ipv4 (walk_in head.now yard.now) output.old (walked_by result) output.new }
    ensures entered { IfOk result (λ w. 0 < w.steps) }
{
    let start = Visit {
        router: wire::be16(head, 0) as usize,
        arrival: Arrival {
            message: &head[START_SIZE..],
            destination: wire::be32(head, 4),
            receiving: wire::be16(head, 2) as u32,
            ttl: u32::from(head[8]),
        },
    };
    yard::walk(yard, &times_of(), start, output)
}

// Walks as the input asks.
pub fn walk(input: &[u8], output: &mut [u8]) -> Result<Walked, Refusal>
    requires { length output.old ≡ output_size }
    ensures told { Tells ipv4 (walk_for input.now) output.old (walked_by result) output.new }
    ensures entered { IfOk result (λ w. 0 < w.steps) }
{
    let head = head_of(input);
    let n = HEAD_SIZE.min(input.len());
    walk_from(&head, &input[n..], output)
}
