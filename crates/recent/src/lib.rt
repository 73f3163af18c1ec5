// The recent list: which Queries were accepted, by client and id, in 196 lent bytes.
#![tactic(auto)]

ghost use Rattle.std.specs.Prelude.{◌≡◌, ◌+◌, ◌≤◌, length};
ghost use Rattle.wire.specs.Parts.{all_zero};
ghost use Rattle.recent.specs.Layout.{recent_place, entry_size, well_formed};
ghost use Rattle.recent.specs.Entries.{recent_entry, is_of, seen_in, entered_in};
ghost use Rattle.recent.specs.Inside.{Formed};

// Bytes of the head, of an entry and of the client in it; the most entries; bytes of the list.
const HEAD_SIZE: usize = 4;

const ENTRY_SIZE: usize = 6;

const CLIENT_SIZE: usize = 4;

const ENTRY_COUNT: u8 = 32;

pub const LIST_SIZE: usize = HEAD_SIZE + ENTRY_SIZE * ENTRY_COUNT as usize;

// Where entry k begins.
fn recent_place(k: u8) -> usize
    ensures { result ≡ recent_place k }
{
    HEAD_SIZE + ENTRY_SIZE * usize::from(k)
}

// Whether every byte is zero. There is no way out before the last, so that many bytes are taken in at once.
fn all_zero(bytes: &[u8]) -> bool
    ensures { result ≡ all_zero bytes.now }
{
    bytes.iter().fold(0, |bits, byte| bits | *byte) == 0
}

// Whether a list is well-formed. The head is tested first: only a good one is worth the pass over the unused bytes.
#[tactic(auto, unfolding(crate::specs::Layout::well_formed))]
pub fn check(list: &[u8]) -> bool
    ensures { result ≡ well_formed list.now }
{
    if list.len() != LIST_SIZE {
        return false;
    }
    let used = list[0];
    let next = list[1];
    let head = (used <= ENTRY_COUNT)
        & (next < ENTRY_COUNT)
        & ((used == ENTRY_COUNT) | (next == used))
        & (list[2] == 0)
        & (list[3] == 0);
    head && all_zero(&list[recent_place(used)..])
}

// Whether entry k is of this client and this id.
fn is_of(list: &[u8], k: u8, client: u32, id: u16) -> bool
    requires { recent_place k + entry_size ≤ length list.now }
    ensures { result ≡ is_of (recent_entry list.now k) client id }
{
    let at = recent_place(k);
    (wire::be32(list, at) == client) & (wire::be16(list, at + CLIENT_SIZE) == id)
}

// Whether client and id are in a well-formed list.
#[tactic(auto, unfolding(crate::specs::Entries::seen_in, crate::specs::Entries::first_entries, crate::specs::Entries::some_is_of))]
pub fn seen(list: &[u8], client: u32, id: u16) -> bool
    requires { Formed list.now }
    ensures { result ≡ seen_in list.now client id }
{
    for k in (0..list[0]).rev() {
        if is_of(list, k, client, id) {
            return true;
        }
    }
    false
}

// Writes client and id into a well-formed list.
#[tactic(auto, using(crate::proofs::Stores::entered_by))]
pub fn enter(list: &mut [u8], client: u32, id: u16)
    requires { Formed list.old }
    ensures { list.new ≡ entered_in list.old client id }
{
    let used = list[0];
    let next = list[1];
    let at = recent_place(next);
    wire::put32(list, at, client);
    wire::put16(list, at + CLIENT_SIZE, id);
    list[0] = (used + 1).min(ENTRY_COUNT);
    list[1] = (next + 1) % ENTRY_COUNT;
}
