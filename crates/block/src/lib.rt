// The frame of a block of 512 bytes: kind, entries in use, number, unused bytes, sum.
#![tactic(auto)]

ghost use Rattle.std.specs.Prelude.{◌≡◌, ◌+◌, ◌*◌, ◌/◌, ◌%◌, ◌<◌, ◌≤◌, ◌&&◌, length, ◌==◌, nat_lt};
ghost use Rattle.std.specs.Int.{from_bool};
ghost use Rattle.block.specs.Sum.{right_sum};
ghost use Rattle.block.specs.Block.{block_size, entries_room, place_in_block, filled_ok, frame_ok};
ghost use Rattle.block.specs.Inside.{word_size, past_long, block_words, switches_word, words, zero_from, Alike, SumsTo};

// Bytes of a block.
pub const BLOCK_SIZE: usize = 512;

// Where its entries begin.
pub const ENTRIES_AT: usize = 4;

// Where its switches stand.
pub const SWITCHES_AT: usize = 508;

// The bytes between, in which the entries stand.
pub const ENTRIES_ROOM: usize = SWITCHES_AT - ENTRIES_AT;

// Bytes of a word. Words are read in memory's order, so that the compiler takes a sum or an OR of words for wide ones: neither a
// test for zero nor one for a multiple of 0xFFFF minds the order of bytes.
const WORD_SIZE: usize = 4;

// The word in which the switches stand.
const SWITCHES_WORD: usize = SWITCHES_AT / WORD_SIZE;

// One more than the largest word.
const PAST_WORD: u64 = 1 << 32;

// What the words give when they are summed with end-around carry.
const RIGHT_SUM: u64 = 0xFFFF;

// A sum of 64-bit words, and the carry out of its last addition.
#[derive(Drop)]
struct LongSum {
    words: u64,
    carry: bool,
}

// A 64-bit word more, and the carry out of the last addition: in this form the compiler takes it for one addition with carry, while
// `carrying_add` comes to six instructions.
fn add(s: LongSum, w: u64) -> LongSum
    ensures { result.words + past_long * from_bool result.carry ≡ s.words + from_bool s.carry + w }
{
    let half = s.words.wrapping_add(w);
    let words = half.wrapping_add(u64::from(s.carry));
    LongSum {
        words,
        carry: (half < w) | (words < half),
    }
}

// Words `i` and `i + 1` more, as one 64-bit word.
#[tactic(auto, using(crate::proofs::Alike::two_more))]
fn add_two(s: LongSum, b: &[u8], i: usize) -> LongSum
    requires i_bound { (i + 2 ≤ block_words) × (length b.now ≡ block_size) }
    requires sums_to { SumsTo b.now i s }
    ensures { SumsTo b.now (i + 2) result }
{
    add(s, memory::le64(b, WORD_SIZE * i))
}

// Words `i` to `i + 15` more. Without a loop no carry has to be kept aside.
#[tactic(auto, using(crate::proofs::Alike::summed_to))]
fn add_sixteen(s: LongSum, b: &[u8], i: usize) -> LongSum
    requires i_bound { (i + 16 ≤ block_words) × (length b.now ≡ block_size) }
    requires sums_to { SumsTo b.now i s }
    ensures { SumsTo b.now (i + 16) result }
{
    let s4 = add_two(add_two(s, b, i), b, i + 2);
    let s8 = add_two(add_two(s4, b, i + 4), b, i + 6);
    let s12 = add_two(add_two(s8, b, i + 8), b, i + 10);
    add_two(add_two(s12, b, i + 12), b, i + 14)
}

// A long sum in fewer bits, with room for all of it.
#[tactic(auto, using(crate::proofs::Alike::folded_long))]
fn folded(s: LongSum) -> u64
    ensures { Alike result (s.words + from_bool s.carry) }
{
    s.words / PAST_WORD + s.words % PAST_WORD + u64::from(s.carry)
}

// A sum of all words that the test of the sum does not tell from the plain one.
#[tactic(auto, using(crate::proofs::Alike::alike_on, crate::proofs::Alike::none_summed))]
fn sum_block(b: &[u8]) -> u64
    requires { length b.now ≡ block_size }
    ensures { Alike result (words b.now block_words) }
{
    let none = LongSum {
        words: 0,
        carry: false,
    };
    let s32 = add_sixteen(add_sixteen(none, b, 0), b, 16);
    let s64 = add_sixteen(add_sixteen(s32, b, 32), b, 48);
    let s96 = add_sixteen(add_sixteen(s64, b, 64), b, 80);
    folded(add_sixteen(add_sixteen(s96, b, 96), b, 112))
}

// Whether words of a plain sum give 0xFFFF with end-around carry.
fn right_sum(sum: u64) -> bool
    ensures { result ≡ (nat_lt 0 sum && sum % right_sum == 0) }
{
    (0 < sum) & (sum % RIGHT_SUM == 0)
}

// Whether the words from `from` up to the switches are zero.
#[tactic(auto, using(crate::proofs::Unused::zeros_more, crate::proofs::Unused::zeros_all))]
fn zero_from(b: &[u8], from: usize) -> bool
    requires { (from ≤ switches_word) × (length b.now ≡ block_size) }
    ensures { result ≡ zero_from b.now from }
{
    let mut some = 0;
    for i in from..SWITCHES_WORD {
        some |= memory::le32(b, WORD_SIZE * i);
    }
    some == 0
}

// The word at which the entries in use end.
fn end_of(size: usize, used: usize) -> usize
    requires { size * used ≤ entries_room }
    ensures { (result ≡ place_in_block size used / word_size) × (result ≤ switches_word) }
{
    (ENTRIES_AT + size * used) / WORD_SIZE
}

// Whether so many entries may be in use where there is room for `each`.
fn filled_ok(each: usize, partly: bool, used: usize) -> bool
    ensures { result ≡ filled_ok each partly used }
{
    (1 <= used) & (used <= each) & (partly | (used == each))
}

// Whether a block keeps its frame. What one look decides comes first. Where the entries in use reach the switches no word is
// unused; else those that are must be zero. The sum is asked for in two places: so the compiler leaves it a function of its own,
// and puts the rest into its callers, where the size is known.
#[tactic(auto, using(crate::proofs::Laws::entries_fit, crate::proofs::Frames::wrong_rest), unfolding(crate::specs::Block::frame_ok))]
pub fn frame_ok(b: &[u8], kind: u8, size: usize, number: u16, partly: bool) -> bool
    requires b_len { length b.now ≡ block_size }
    requires size_nonzero { (0 < size) × (size % word_size ≡ 0) }
    ensures { result ≡ frame_ok kind size number partly b.now }
{
    let used = usize::from(b[1]);
    let full = filled_ok(ENTRIES_ROOM / size, partly, used);
    if (b[0] != kind) | (wire::be16(b, 2) != number) | !full {
        return false;
    }
    let end = end_of(size, used);
    if end == SWITCHES_WORD {
        return right_sum(sum_block(b));
    }
    zero_from(b, end) && right_sum(sum_block(b))
}
