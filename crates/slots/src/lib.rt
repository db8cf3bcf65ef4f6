// One slot of the desk: 16 places of 35 bytes for the segments of one kind, and what a segment does there. Internal: the desk calls `gather`
// (docs/DECISIONS.md, 7).
#![tactic(auto)]

ghost use Rattle.std.specs.Prelude.{◌≡◌, true, cond, ◌+◌, ◌*◌, ◌^◌, ◌≤◌, ◌<◌, length, take, drop, Ok};
ghost use Rattle.std.proofs.lemmas.List.Edits.{sets};
ghost use Rattle.meaning.specs.Sizes.{longest_listing, longest_chunk};
ghost use Rattle.segments.specs.Segment.{segment_bytes, payload_bytes, most_segments, segment_checks, payload_in};
ghost use Rattle.octets.specs.Same.{same as Same·same};
ghost use Rattle.octets.specs.Sets.{holds as Sets·holds};
ghost use Rattle.slots.specs.Slots.{no_bytes, missing_in, numbers_fit, bytes_fit, slot_fits, clashing};
ghost use Rattle.slots.specs.Gathering.{side, outcome, gathered, completed};
ghost use Rattle.slots.specs.Words.{eight};

use meaning::{Kind, LONGEST_CHUNK, Refusal};
use segments::{MOST_SEGMENTS, PAYLOAD_BYTES, SEGMENT_HEADER_BYTES};

// A slot's numbers; its bytes stand apart. An empty slot has zeros only, a spoiled one besides its mark.
#[derive(Clone, Copy)]
pub struct Slot {
    pub held: u16,
    pub last: u8,
    pub spoiled: bool,
}

// What the desk answers to a segment that it doesn't refuse.
#[derive(Clone, Copy)]
pub enum Answer {
    // accepted; so many are still missing
    Missing(u8),
    // the last missing one: a listing of this length now stands at the start of that kind's buffer
    NewList { kind: Kind, length: usize },
}

// An answer, with the slot afterwards.
#[derive(Clone, Copy)]
pub struct Gathered {
    pub slot: Slot,
    pub answer: Result<Answer, Refusal>,
}

// ---- the set of held places

fn bit(place: u8) -> u16
    requires { place < most_segments }
    ensures { result ≡ 2 ^ place }
{
    1u16 << place
}

// Whether a place is held. Internal: `explains` calls it too.
pub fn holds(held: u16, place: u8) -> bool
    requires { place < most_segments }
    ensures { result ≡ Sets·holds held place }
{
    held / bit(place) % 2 == 1
}

// How many segments are missing, of a slot that holds none above its last number: last + 1 less the number held.
fn missing(slot: Slot) -> u8
    requires { (slot.last < most_segments) × (slot.held < 2 ^ (slot.last + 1)) }
    ensures { result ≡ missing_in slot }
{
    slot.last + 1 - u16::count_ones(slot.held) as u8
}

// ---- the bytes of a place

// Eight bytes as one number.
fn word_at(s: &[u8], at: usize) -> u64
    requires { at + 8 ≤ length s.now }
    ensures { result ≡ eight s.now at }
{
    u64::from_le_bytes([
        s[at],
        s[at + 1],
        s[at + 2],
        s[at + 3],
        s[at + 4],
        s[at + 5],
        s[at + 6],
        s[at + 7],
    ])
}

// Whether 35 bytes of a are those of b: by words, the last two of which overlap.
// Stays: (b) `==` of slices, `==` of arrays and `starts_with` were tried: a log of repeats took 1.3 times as long and more.
fn same(a: &[u8], at: usize, b: &[u8], from: usize) -> bool
    requires { (at + payload_bytes ≤ length a.now) × (from + payload_bytes ≤ length b.now) }
    ensures { result ≡ Same·same (take payload_bytes (drop at a.now)) (take payload_bytes (drop from b.now)) }
{
    word_at(a, at) == word_at(b, from)
        && word_at(a, at + 8) == word_at(b, from + 8)
        && word_at(a, at + 16) == word_at(b, from + 16)
        && word_at(a, at + 24) == word_at(b, from + 24)
        && word_at(a, at + 27) == word_at(b, from + 27)
}

// Puts a segment's payload at a place.
fn store(bytes: &mut [u8], at: usize, seg: &[u8])
    requires { (at + payload_bytes ≤ length bytes.old) × (length seg.now ≡ segment_bytes) }
    ensures { bytes.new ≡ sets bytes.old at (payload_in seg.now) }
{
    segments::copy_payload(seg, SEGMENT_HEADER_BYTES, bytes, at);
}

// ---- slots

// Clears the bytes of a slot; one that holds nothing has none. Internal.
pub fn clear(slot: Slot, bytes: &mut [u8])
    requires { slot_fits slot bytes.old ≡ true }
    ensures { bytes.new ≡ no_bytes }
{
    if slot.held != 0 {
        bytes.fill(0);
    }
}

// Whether every place that is not held is all zeros.
fn bytes_fit(held: u16, bytes: &[u8]) -> bool
    requires { length bytes.now ≡ longest_chunk }
    ensures { result ≡ bytes_fit held bytes.now }
{
    let none = [0u8; PAYLOAD_BYTES];
    for place in 0..MOST_SEGMENTS {
        if !holds(held, place) && !same(bytes, PAYLOAD_BYTES * place as usize, &none, 0) {
            return false;
        }
    }
    true
}

fn numbers_fit(slot: Slot) -> bool
    ensures { result ≡ numbers_fit slot }
{
    if slot.held == 0 {
        return slot.last == 0;
    }
    if slot.spoiled {
        return false;
    }
    if MOST_SEGMENTS <= slot.last {
        return false;
    }
    slot.held / bit(slot.last) < 2
}

// Whether a slot is well formed.
pub fn slot_fits(slot: Slot, bytes: &[u8]) -> bool
    ensures { result ≡ slot_fits slot bytes.now }
{
    if bytes.len() != LONGEST_CHUNK {
        return false;
    }
    numbers_fit(slot) && bytes_fit(slot.held, bytes)
}

// Whether a segment clashes with what its slot holds.
fn clashes(slot: Slot, bytes: &[u8], seg: &[u8]) -> bool
    requires { (length bytes.now ≡ longest_chunk) × (length seg.now ≡ segment_bytes) }
    ensures { result ≡ clashing slot bytes.now seg.now }
{
    let place = seg[1] / 16;
    let last = seg[1] % 16;
    if slot.spoiled {
        return true;
    }
    if slot.held == 0 {
        return false;
    }
    if slot.last != last {
        return true;
    }
    if holds(slot.held, place) {
        return !same(
            bytes,
            PAYLOAD_BYTES * place as usize,
            seg,
            SEGMENT_HEADER_BYTES,
        );
    }
    false
}

// A complete slot's chunk: refused, or its listing put to the start of the buffer.
fn complete(kind: Kind, slot: Slot, bytes: &[u8], out: &mut [u8]) -> Result<Answer, Refusal>
    requires { (length bytes.now ≡ longest_chunk) × (slot.last < most_segments) × (longest_listing ≤ length out.old) }
    ensures { outcome result (side slot bytes.now out.new) ≡ completed kind (side slot bytes.now out.old) }
{
    let end = PAYLOAD_BYTES * (slot.last as usize + 1);
    let chunk = &bytes[..end];
    chunk_checks::check_chunk(chunk)?;
    if chunk[1] % 2 != u8::from(kind) {
        return Err(Refusal::KindDiffers);
    }
    let length = listing_puts::write_listing(chunk, out);
    Ok(Answer::NewList { kind, length })
}

// The same, to the first of two buffers or the second.
fn complete_to(
    one: bool,
    kind: Kind,
    slot: Slot,
    bytes: &[u8],
    first: &mut [u8],
    second: &mut [u8],
) -> Result<Answer, Refusal>
    requires { (length bytes.now ≡ longest_chunk) × (slot.last < most_segments) × (longest_listing ≤ length first.old) × (longest_listing ≤ length second.old) }
    ensures second_after { outcome result (side slot bytes.now (cond one first.new second.new)) ≡ completed kind (side slot bytes.now (cond one first.old second.old)) }
    ensures first_unchanged { cond one second.new first.new ≡ cond one second.old first.old }
{
    if one {
        complete(kind, slot, bytes, first)
    } else {
        complete(kind, slot, bytes, second)
    }
}

// A segment of the kind, that passed the checks on itself, comes to the slot of its kind; its buffer is the first of the two or the second.
pub fn gather(
    kind: Kind,
    slot: Slot,
    bytes: &mut [u8],
    seg: &[u8],
    one: bool,
    first: &mut [u8],
    second: &mut [u8],
) -> Gathered
    requires { (slot_fits slot bytes.old ≡ true) × (segment_checks seg.now ≡ Ok tt) × (longest_listing ≤ length first.old) × (longest_listing ≤ length second.old) }
    ensures second_after { outcome result.answer (side result.slot bytes.new (cond one first.new second.new)) ≡ gathered kind seg.now (side slot bytes.old (cond one first.old second.old)) }
    ensures first_unchanged { cond one second.new first.new ≡ cond one second.old first.old }
{
    if clashes(slot, bytes, seg) {
        clear(slot, bytes);
        return Gathered {
            slot: Slot {
                last: 0,
                held: 0,
                spoiled: true,
            },
            answer: Err(Refusal::Clash),
        };
    }
    let number = seg[1] / 16;
    if holds(slot.held, number) {
        return Gathered {
            slot,
            answer: Ok(Answer::Missing(missing(slot))),
        };
    }
    store(bytes, PAYLOAD_BYTES * number as usize, seg);
    let more = Slot {
        last: seg[1] % 16,
        held: slot.held + bit(number),
        spoiled: false,
    };
    let left = missing(more);
    if left != 0 {
        return Gathered {
            slot: more,
            answer: Ok(Answer::Missing(left)),
        };
    }
    let answer = complete_to(one, kind, more, bytes, first, second);
    Gathered { slot: more, answer }
}
