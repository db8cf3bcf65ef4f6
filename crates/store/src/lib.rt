// The reader of stored packets: what stands at a place of a store, and the packet there as a part of the caller's memory.
#![tactic(auto)]

ghost use Rattle.std.specs.Prelude.{◌≡◌, true, ◌+◌, ◌≤◌, drop, Err};
ghost use Rattle.records.specs.Records.{is_whole, size_of};
ghost use Rattle.packets.specs.Stored.{stored_head_bytes};
ghost use Rattle.store.specs.Store.{store_form, next_by, next_in, next_number, packet_in, packet_place};

use packets::{LONGEST_PACKET, SHORTEST_PACKET, STORED_HEAD_BYTES};
use records::{Entry, Form};

// What can't be read in a store: an unknown mark, a cut record, or a length outside the limits.
#[derive(Clone, Copy, Debug, PartialEq, Eq)]
pub struct Broken;

// Its number.
impl From<Broken> for u8 {
    ghost from_gives = { λ broken number. number ≡ next_number (Err broken) };

    fn from(_broken: Broken) -> u8 {
        15
    }
}

// The mark of a stored packet, and the number that its two bytes say.
const IP: [u8; 2] = *b"IP";

// Stays: tried with `u16::from_be_bytes`, but a constant's value may not call a function (unsupported-constant-expression).
pub const PACKET_MARK: u16 = IP[0] as u16 * 256 + IP[1] as u16;

// What a mark of a store tells.
fn form_of(mark: u16) -> Form
    ensures { result ≡ store_form mark }
{
    match mark {
        PACKET_MARK => Form::Counted {
            least: SHORTEST_PACKET,
            most: LONGEST_PACKET,
        },
        _ => Form::Foreign,
    }
}

// By the record that stands there.
fn next_by(entry: Entry) -> Result<Option<usize>, Broken>
    requires { is_whole entry ≡ true → stored_head_bytes ≤ size_of entry }
    ensures { result ≡ next_by entry }
{
    match entry {
        Entry::End => Ok(None),
        Entry::Whole(size) => Ok(Some(size - STORED_HEAD_BYTES)),
        Entry::Unknown => Err(Broken),
        Entry::Cut => Err(Broken),
    }
}

// The number of what stands there: 0, or that of what can't be read.
pub fn next_number(next: Result<Option<usize>, Broken>) -> u8
    ensures { result ≡ next_number next }
{
    match next {
        Ok(_) => 0,
        Err(broken) => u8::from(broken),
    }
}

// What stands at a place of a store: a packet of so many bytes, or no more of them.
pub fn next_at(store: &[u8], at: usize) -> Result<Option<usize>, Broken>
    ensures { result ≡ next_in (drop at store.now) }
{
    let form = form_of(records::mark_at(store, at));
    next_by(records::entry_at(store, at, form))
}

// The packet at a place of a store, as a part of the caller's memory; an empty part, at the start of the store, where there is none.
pub fn packet_at(store: &[u8], at: usize) -> &[u8]
    ensures result_value { result.now ≡ packet_in (drop at store.now) }
    ensures ref_ptr_value { result.ref_ptr ≡ (store.entry.ref_ptr.0, store.entry.ref_ptr.1 + packet_place (next_in (drop at store.now)) at) }
{
    let Ok(Some(n)) = next_at(store, at) else {
        return &store[..0];
    };
    let from = at + STORED_HEAD_BYTES;
    &store[from..from + n]
}
