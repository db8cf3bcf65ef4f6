// Why a chunk or a segment is refused: the field at fault, its offset in bits, and the value found there.
#![tactic(auto)]

ghost use Rattle.std.specs.Prelude.{◌≡◌, ◌+◌, ◌*◌, ◌≤◌, ◌<◌, length, get_or, take, drop, Err};
ghost use Rattle.octets.specs.Tables.{before};
ghost use Rattle.meaning.specs.Sizes.{longest_chunk};
ghost use Rattle.meaning.specs.Numbers.{number_of};
ghost use Rattle.meaning.specs.Reading.{checks};
ghost use Rattle.segments.specs.Segment.{segment_bytes, payload_bytes, payload_in};
ghost use Rattle.fields.specs.Fields.{rows_of};
ghost use Rattle.explains.specs.Explaining.{length_fault, run_in, widths_in, row_fault, table_of, cut_fault, chunk_fault, chunk_explained, segment_row, segment_fault, segment_explained, first_differing, payload_fault, clash_explained, gathered_explained};

use fields::Table;
use meaning::{Part, Refusal};
use segments::{PAYLOAD_BYTES, SEGMENT_HEADER_BYTES};
use slots::Slot;

// What is at fault: the length, a row of a table, or a byte of a segment's payload.
#[derive(Clone, Copy)]
pub enum Field {
    Length,
    Row { table: Table, row: u8 },
    Payload,
}

// What is explained, where there is something to explain.
#[derive(Clone, Copy)]
pub enum Explained {
    // a refusal with this number. Stays: (a) `row_broken`, `last_differs` and other theorems speak of an explanation by its number
    Found {
        number: u8,
        field: Field,
        at: u16,
        value: usize,
    },
    // a clash (7) with a slot that was spoiled before
    Spoiled,
}

// ---- what may be at fault in bytes that are refused

// Their length.
fn length_fault(refusal: Refusal, bytes: &[u8]) -> Explained
    ensures { result ≡ length_fault (number_of refusal) bytes.now }
{
    Explained::Found {
        number: u8::from(refusal),
        field: Field::Length,
        at: 0,
        value: bytes.len(),
    }
}

// A byte of a chunk; 0 where it has none.
fn byte_at(chunk: &[u8], at: usize) -> u8
    ensures { result ≡ get_or chunk.now at 0 }
{
    chunk.get(at).copied().unwrap_or(0)
}

// How many extension bytes a table has in a chunk or segment.
fn run_in(table: Table, bytes: &[u8]) -> u8
    ensures value { result ≡ run_in table bytes.now }
    ensures upper_bound { result < 8 }
{
    match table {
        Table::Chunk => byte_at(bytes, 0) % 8,
        Table::Ensemble => byte_at(bytes, 1) / 32,
        Table::Service => byte_at(bytes, 1) / 4 % 8,
        Table::Segment => 0,
    }
}

// A row of the table that they begin with.
fn row_fault(refusal: Refusal, table: Table, row: u8, bytes: &[u8]) -> Explained
    requires { (row < length (rows_of table)) × (get_or (widths_in table bytes.now) row 0 ≤ 16) × (before row (widths_in table bytes.now) + get_or (widths_in table bytes.now) row 0 ≤ 8 * length bytes.now) }
    ensures { result ≡ row_fault (number_of refusal) table row bytes.now }
{
    let found = fields::row_found(table, run_in(table, bytes), row, bytes);
    Explained::Found {
        number: u8::from(refusal),
        field: Field::Row { table, row },
        at: found.at,
        value: found.value,
    }
}

// ---- a chunk

// The table of what does not fit whole.
fn table_of(part: Part) -> Table
    ensures { result ≡ table_of part }
{
    match part {
        Part::Header => Table::Chunk,
        Part::EnsembleFields => Table::Ensemble,
        Part::SingleService => Table::Service,
    }
}

// The first row that is not whole of the part at this offset of a chunk that ends early; the row's offset counts from the chunk's start.
fn cut_fault(part: Part, at: u16, chunk: &[u8]) -> Explained
    requires { (at ≤ length chunk.now) × (length chunk.now ≤ longest_chunk) }
    ensures { result ≡ cut_fault part at chunk.now }
{
    let table = table_of(part);
    let bits = 8 * (chunk.len() - at as usize);
    let place = fields::cut(table, run_in(table, chunk), bits);
    Explained::Found {
        number: 9,
        field: Field::Row {
            table,
            row: place.row,
        },
        at: 8 * at + place.at,
        value: chunk.len(),
    }
}

// What is at fault in a chunk that the reader's checks refuse so.
fn chunk_fault(refusal: Refusal, chunk: &[u8]) -> Option<Explained>
    requires { checks chunk.now ≡ Err refusal }
    ensures { result ≡ chunk_fault refusal chunk.now }
{
    match refusal {
        Refusal::TooLong => Some(length_fault(refusal, chunk)),
        Refusal::EndsEarly { part, at } => Some(cut_fault(part, at, chunk)),
        Refusal::OtherMajor => Some(row_fault(refusal, Table::Chunk, 0, chunk)),
        _ => None,
    }
}

// Why the reader would refuse a chunk, its buffer long enough.
pub fn explain_chunk(chunk: &[u8]) -> Option<Explained>
    ensures { result ≡ chunk_explained chunk.now }
{
    match chunk_checks::check_chunk(chunk) {
        Ok(()) => None,
        Err(refusal) => chunk_fault(refusal, chunk),
    }
}

// ---- a segment

// The row of its table that a refusal is about.
fn segment_row(refusal: Refusal) -> u8
    ensures value { result ≡ segment_row (number_of refusal) }
    ensures upper_bound { result < 8 }
{
    match refusal {
        Refusal::SegmentType => 0,
        Refusal::ErrorBit => 5,
        Refusal::OtherMajor => 3,
        Refusal::NumberAboveLast => 6,
        _ => 7,
    }
}

// What is at fault in a segment that is refused so.
fn segment_fault(refusal: Refusal, seg: &[u8]) -> Explained
    requires { (refusal ≡ Refusal.SegmentLength → ⊥) → 2 ≤ length seg.now }
    ensures { result ≡ segment_fault (number_of refusal) seg.now }
{
    match refusal {
        Refusal::SegmentLength => length_fault(refusal, seg),
        _ => row_fault(refusal, Table::Segment, segment_row(refusal), seg),
    }
}

// Why a segment would be refused for its own length or header.
pub fn explain_segment(seg: &[u8]) -> Option<Explained>
    ensures { result ≡ segment_explained seg.now }
{
    match segments::check_segment(seg) {
        Ok(()) => None,
        Err(refusal) => Some(segment_fault(refusal, seg)),
    }
}

// ---- a segment and the slot of its kind

// The first byte of a segment's payload that the bytes from a place on have not; 35 where they have all.
fn first_differing(seg: &[u8], bytes: &[u8], from: usize) -> usize
    requires { (length seg.now ≡ segment_bytes) × (from ≤ longest_chunk) }
    ensures value { result ≡ first_differing (payload_in seg.now) (take payload_bytes (drop from bytes.now)) }
    ensures upper_bound { result ≤ payload_bytes }
{
    for i in 0..PAYLOAD_BYTES {
        let place = from + i;
        if bytes.len() <= place {
            return i;
        }
        if bytes[place] != seg[SEGMENT_HEADER_BYTES + i] {
            return i;
        }
    }
    PAYLOAD_BYTES
}

// A byte of a segment's payload.
fn payload_fault(i: usize, seg: &[u8]) -> Explained
    requires { (i < payload_bytes) × (length seg.now ≡ segment_bytes) }
    ensures { result ≡ payload_fault i seg.now }
{
    let at = SEGMENT_HEADER_BYTES + i;
    let found = fields::byte_found(at, seg);
    Explained::Found {
        number: 7,
        field: Field::Payload,
        at: found.at,
        value: found.value,
    }
}

// Why the slot of its kind would refuse a segment that passes the checks on itself.
fn explain_clash(seg: &[u8], slot: Slot, bytes: &[u8]) -> Option<Explained>
    requires { length seg.now ≡ segment_bytes }
    ensures { result ≡ clash_explained slot bytes.now seg.now }
{
    if slot.spoiled {
        return Some(Explained::Spoiled);
    }
    if slot.held == 0 {
        return None;
    }
    let second = seg[1];
    if slot.last != second % 16 {
        return Some(segment_fault(Refusal::Clash, seg));
    }
    let place = second / 16;
    if !slots::holds(slot.held, place) {
        return None;
    }
    let i = first_differing(seg, bytes, PAYLOAD_BYTES * place as usize);
    if i == PAYLOAD_BYTES {
        return None;
    }
    Some(payload_fault(i, seg))
}

// Why a segment would be refused for its own length or header, or by the slot of its kind, whose numbers and bytes may be any.
pub fn explain_gathered(seg: &[u8], slot: Slot, bytes: &[u8]) -> Option<Explained>
    ensures { result ≡ gathered_explained slot bytes.now seg.now }
{
    match segments::check_segment(seg) {
        Ok(()) => explain_clash(seg, slot, bytes),
        Err(refusal) => Some(segment_fault(refusal, seg)),
    }
}
