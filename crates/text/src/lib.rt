// What the program `walk` prints: the text of the walk that an input asks for.
#![tactic(auto)]

ghost use Rattle.std.specs.Prelude.{◌≡◌, ◌+◌, ◌≤◌, ◌++◌, length};
ghost use Rattle.wire.specs.Parts.{splice};
ghost use Rattle.header.specs.Format.{most, standard_size};
ghost use Rattle.message.specs.Blocks.{standard_blocks};
ghost use Rattle.text.specs.Text.{decimal, number, octet, dotted, addresses, line_of, lines_of, end_text, first_line, text_of, most_first, most_line, most_lines, text_size};
ghost use Rattle.text.specs.Inside.{told_of};
ghost use Rattle.yard.specs.Walk.{walked_by};
ghost use Rattle.format.specs.Sizes.{ipv4};

use arrayvec::ArrayVec;
use header::BlockKind;
use refusal::Refusal;
use sending::Answer;
use yard::Walked;

// No text is longer: a first line of at most 46 bytes, and a line of at most 78 for each of 27 blocks.
pub const TEXT_SIZE: usize = 46 + 78 * 27;

// What is written so far of a text.
type Text = ArrayVec<u8, TEXT_SIZE>;

// The numbers of a walk: its end, its steps, and the blocks and the length of the last message sent. A refusal is printed as an end is, by
// its number.
#[derive(Clone, Copy, Default)]
struct Summary {
    end: u32,
    steps: u32,
    blocks: u32,
    length: u32,
}

// The end that is printed as a word.
const SENT_HOME: u32 = Answer::SentHome as u32;

const ZERO_DIGIT: u8 = b'0';

// A number below 256 has at most so many digits, any other that is printed at most ten.
const OCTET_DIGITS: usize = 3;

const NUMBER_DIGITS: usize = 10;

// The writers: each puts its bytes behind what is written, and says how many they are at most.
fn word(out: &mut Text, w: &[u8])
    requires { length out.old.items + length w.now ≤ text_size }
    ensures text { out.new.items ≡ out.old.items ++ w.now }
    ensures few { length out.new.items ≤ length out.old.items + length w.now }
{
    out.try_extend_from_slice(w).unwrap();
}

// A number below 10 ^ digits: what stands before its last digit, and then that.
#[tactic(auto, using(crate::proofs::Digits::no_digits, crate::proofs::Digits::one_digit, crate::proofs::Digits::more_digits, std::proofs::Common::append_assoc))]
fn decimal(out: &mut Text, digits: usize, n: u32)
    requires { length out.old.items + digits ≤ text_size }
    ensures text { out.new.items ≡ out.old.items ++ decimal digits n }
    ensures few { length out.new.items ≤ length out.old.items + digits }
{
    if digits == 0 {
        return;
    }
    if n >= 10 {
        decimal(out, digits - 1, n / 10);
    }
    out.push(ZERO_DIGIT + (n % 10) as u8);
}

fn number(out: &mut Text, n: u32)
    requires { length out.old.items + 10 ≤ text_size }
    ensures text { out.new.items ≡ out.old.items ++ number n }
    ensures few { length out.new.items ≤ length out.old.items + 10 }
{
    decimal(out, NUMBER_DIGITS, n);
}

fn octet(out: &mut Text, b: u8)
    requires { length out.old.items + 3 ≤ text_size }
    ensures text { out.new.items ≡ out.old.items ++ octet b }
    ensures few { length out.new.items ≤ length out.old.items + 3 }
{
    decimal(out, OCTET_DIGITS, u32::from(b));
}

// The address whose four bytes begin at a place.
#[tactic(auto, using(std::proofs::Common::append_assoc), unfolding(crate::specs::Text::dotted, crate::specs::Ascii::ascii))]
fn dotted(out: &mut Text, s: &[u8], from: usize)
    requires { (from + 4 ≤ length s.now) × (length out.old.items + 15 ≤ text_size) }
    ensures text { out.new.items ≡ out.old.items ++ dotted s.now from }
    ensures few { length out.new.items ≤ length out.old.items + 15 }
{
    octet(out, s[from]);
    word(out, b".");
    octet(out, s[from + 1]);
    word(out, b".");
    octet(out, s[from + 2]);
    word(out, b".");
    octet(out, s[from + 3]);
}

// A block's outgoing, incoming and upstream address.
#[tactic(auto, using(std::proofs::Common::append_assoc), unfolding(crate::specs::Text::addresses, crate::specs::Ascii::ascii))]
fn addresses(out: &mut Text, block: &[u8])
    requires { (standard_size ≤ length block.now) × (length out.old.items + 58 ≤ text_size) }
    ensures text { out.new.items ≡ out.old.items ++ addresses block.now }
    ensures few { length out.new.items ≤ length out.old.items + 58 }
{
    word(out, b" out ");
    dotted(out, block, header::OUTGOING_OFFSET);
    word(out, b" in ");
    dotted(out, block, header::INCOMING_OFFSET);
    word(out, b" up ");
    dotted(out, block, header::UPSTREAM_OFFSET);
}

// A block's line: its place, its addresses, its code.
#[tactic(auto, using(std::proofs::Common::append_assoc), unfolding(crate::specs::Text::line_of, crate::specs::Text::code_text, crate::specs::Ascii::ascii))]
fn line(out: &mut Text, place: u32, block: &[u8])
    requires { (standard_size ≤ length block.now) × (length out.old.items + most_line ≤ text_size) }
    ensures text { out.new.items ≡ out.old.items ++ line_of place block.now }
    ensures few { length out.new.items ≤ length out.old.items + most_line }
{
    number(out, place);
    addresses(out, block);
    word(out, b" code ");
    octet(out, block[format::CODE_OFFSET]);
    word(out, b"\n");
}

// A line for each type 4 block of a message, from each block to the next by its length, so that it is no `for`.
#[tactic(auto, using(crate::proofs::Passed::no_lines, crate::proofs::Passed::none_yet, crate::proofs::Passed::all_lines))]
fn lines(out: &mut Text, m: &[u8])
    requires { (length m.now ≤ most) × (length out.old.items + most_lines ≤ text_size) }
    ensures { out.new.items ≡ out.old.items ++ lines_of 1 (standard_blocks ipv4 m.now) }
{
    if m.len() < format::HEADER_SIZE {
        return;
    }
    let mut at = format::HEADER_SIZE;
    let mut count: u32 = 0;
    while let Some(block) = message::block_at(format::IPV4, m, at) {
        let end = at + block.size;
        if block.kind == BlockKind::Standard {
            count += 1;
            line(out, count, &m[at..end]);
        }
        at = end;
    }
}

// How a walk ended: `reply`, or its number.
#[tactic(auto, unfolding(crate::specs::Text::end_text, crate::specs::Ascii::ascii))]
fn end_text(out: &mut Text, end: u32)
    requires { length out.old.items + 10 ≤ text_size }
    ensures text { out.new.items ≡ out.old.items ++ end_text end }
    ensures few { length out.new.items ≤ length out.old.items + 10 }
{
    if end == SENT_HOME {
        word(out, b"reply");
    } else {
        number(out, end);
    }
}

// What is told of a walk: nothing but its number of one that is refused.
fn summary_of(outcome: Result<Walked, Refusal>) -> Summary
    ensures { told_of result ≡ walked_by outcome }
{
    match outcome {
        Ok(w) => Summary {
            end: u32::from(w.end),
            steps: w.steps,
            blocks: w.blocks,
            length: w.length,
        },
        Err(refusal) => Summary {
            end: u32::from(refusal),
            ..Summary::default()
        },
    }
}

// The first line: the end, the steps, the blocks.
#[tactic(auto, using(std::proofs::Common::append_assoc), unfolding(crate::specs::Text::first_line, crate::specs::Ascii::ascii))]
fn first_line(out: &mut Text, w: Summary)
    requires { length out.old.items + most_first ≤ text_size }
    ensures text { out.new.items ≡ out.old.items ++ first_line (told_of w) }
    ensures few { length out.new.items ≤ length out.old.items + most_first }
{
    end_text(out, w.end);
    word(out, b" steps ");
    number(out, w.steps);
    word(out, b" blocks ");
    number(out, w.blocks);
    word(out, b"\n");
}

// Writes what is printed for an input, and answers its length.
#[tactic(auto, using(crate::proofs::Told::last_inside))]
pub fn text_of(input: &[u8], text: &mut [u8]) -> usize
    requires { text_size ≤ length text.old }
    ensures value { (result ≡ length (text_of input.now)) × (result ≤ text_size) }
    ensures text_after { text.new ≡ splice text.old 0 (text_of input.now) }
{
    let mut output = [0u8; format::OUTPUT_SIZE];
    let w = summary_of(input::walk(input, &mut output));
    let mut out = ArrayVec::new();
    first_line(&mut out, w);
    lines(&mut out, &output[..w.length as usize]);
    wire::copy_to(text, 0, out.as_slice());
    out.len()
}
