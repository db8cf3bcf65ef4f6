// Runs the desk's calls by value on document 01's samples, on each of its numbers and on desks that are not well formed.
#![tactic(auto)]

mod bench;

use bench::Bench;
use desk::{BYTES, Desk};
use meaning::{LONGEST_CHUNK, LONGEST_LISTING};
use notes::Notes;
use segments::{PAYLOAD_BYTES, SEGMENT_BYTES};
use slots::Slot;
use std::io::Write;

// A segment: its header, and its payload filled up with FF.
fn made(first: u8, second: u8, payload: &[u8]) -> [u8; 37] {
    let mut seg = [0xFFu8; SEGMENT_BYTES];
    seg[0] = first;
    seg[1] = second;
    let held = payload.len().min(PAYLOAD_BYTES);
    seg[2..2 + held].copy_from_slice(&payload[..held]);
    seg
}

// The sample chunk of kind next, and of kind this.
fn next(first: u8, second: u8) -> [u8; 37] {
    made(
        first,
        second,
        b"\x00\x02\x01\x23\x01\x05\xE0\x83\x01\x0A\x01\xE6",
    )
}

fn this(first: u8, second: u8) -> [u8; 37] {
    made(
        first,
        second,
        b"\x00\x03\x01\x23\x01\x05\xE0\x83\x01\x0A\x01\xE6",
    )
}

// Document 01's sample: a list for the next frame, then two frames.
fn sample<W: Write>(to: &mut W) {
    let seg = next(0x30, 0x00);
    let bench = Bench::new().now(to, b"fresh").segment(to, b"sample", seg);
    bench.frame(to).frame(to);
}

// The checks on a header, alone and in their order.
fn headers<W: Write>(to: &mut W, bench: Bench) -> Bench {
    let a = bench
        .segment(to, b"72 00", next(0x72, 0x00))
        .segment(to, b"33 00", next(0x33, 0x00))
        .segment(to, b"36 00", next(0x36, 0x00))
        .segment(to, b"32 10", next(0x32, 0x10));
    let b = a
        .segment(to, b"b0 00", next(0xB0, 0x00))
        .segment(to, b"38 00", next(0x38, 0x00))
        .segment(to, b"30 fe", next(0x30, 0xFE));
    b.segment(to, b"73 00", next(0x73, 0x00))
        .segment(to, b"76 00", next(0x76, 0x00))
        .segment(to, b"37 00", next(0x37, 0x00))
        .segment(to, b"36 10", next(0x36, 0x10))
}

fn headers_twice<W: Write>(to: &mut W) {
    let seg = next(0x30, 0x00);
    let bench = headers(to, Bench::new()).segment(to, b"sample", seg);
    headers(to, bench).segment(to, b"repeat", seg);
}

// Segments that are too short or too long.
fn lengths<W: Write>(to: &mut W) {
    let long =
        b"\x30\x00\x00\x02\x01\x23\x01\x05\xE0\x83\x01\x0A\x01\xE6\xFF\xFF\xFF\xFF\xFF\xFF\xFF\xFF\xFF\xFF\xFF\xFF\xFF\xFF\xFF\xFF\xFF\xFF\xFF\xFF\xFF\xFF\xFF\xFF";
    Bench::new()
        .part(to, b"0 bytes", long, 0)
        .part(to, b"1 byte", long, 1)
        .part(to, b"36 bytes", long, 36)
        .part(to, b"38 bytes", long, 38)
        .part(to, b"37 bytes", long, 37)
        .part(to, b"38 bytes", long, 38);
}

// Buffers that are long enough, and that are not.
fn buffers<W: Write>(to: &mut W) {
    let seg = next(0x30, 0x00);
    let longest = LONGEST_LISTING;
    let short = longest - 1;
    let a = Bench::new()
        .segment_in(to, b"buffers of 1474, 1475", seg, short, longest)
        .segment_in(to, b"buffers of 1475, 1474", seg, longest, short)
        .segment_in(to, b"buffers of 0, 1475", seg, 0, longest)
        .segment_in(to, b"buffers of 1475, 0", seg, longest, 0)
        .segment_in(to, b"buffers of 0, 0", seg, 0, 0);
    let b = a.segment_in(to, b"buffers of 1475, 1475", seg, longest, longest);
    let c = b
        .segment_in(to, b"then of 1474, 1475", seg, short, longest)
        .segment_in(to, b"then of 1475, 1474", seg, longest, short);
    c.segment_in(to, b"then of 1500, 1500", seg, 1500, 1500);
    Bench::new().segment_in(to, b"buffers of 1500, 1500", seg, 1500, 1500);
    Bench::new().segment_in(to, b"buffers of 1475, 1500", seg, longest, 1500);
}

// The order of the checks before those on a header.
fn order<W: Write>(to: &mut W) {
    let seg = this(0x72, 0x00);
    let less =
        b"\x72\x00\x00\x03\x01\x23\x01\x05\xE0\x83\x01\x0A\x01\xE6\xFF\xFF\xFF\xFF\xFF\xFF\xFF\xFF\xFF\xFF\xFF\xFF\xFF\xFF\xFF\xFF\xFF\xFF\xFF\xFF\xFF\xFF";
    let short = LONGEST_LISTING - 1;
    let bad = Bench::of(desk(18, 5, empty(), empty(), 35, 1));
    bad.segment_in(to, b"bad desk, short buffers", seg, short, short)
        .part(to, b"bad desk, 36 bytes", less, 36);
    Bench::new()
        .bytes_in(to, b"short buffers, 36 bytes", less, 1500, short)
        .segment_in(to, b"short buffers, 72 00", seg, short, 1500)
        .part(to, b"36 bytes, 72 00", less, 36);
}

// ---- desks that are written out

fn slot(last: u8, held: u16, spoiled: bool) -> Slot {
    Slot {
        last,
        held,
        spoiled,
    }
}

fn empty() -> Slot {
    slot(0, 0, false)
}

// The slots' bytes: zeros, but for one place.
fn bytes(at: usize, byte: u8) -> [u8; 1120] {
    let mut all = [0u8; BYTES];
    if at < BYTES {
        all[at] = byte;
    }
    all
}

// A desk with these listing lengths, the second buffer for this frame, and these slots.
fn desk(shown: usize, coming: usize, mine: Slot, other: Slot, at: usize, byte: u8) -> Desk {
    Desk {
        notes: Notes {
            this: mine,
            next: other,
            shown,
            coming,
            swapped: true,
        },
        bytes: bytes(at, byte),
    }
}

// A desk as it stands, with a segment, and after a new gathering and after a new frame with the segment.
fn tried<W: Write>(to: &mut W, name: &[u8], desk: Desk) {
    let seg = this(0x32, 0x00);
    let bench = Bench::of(desk).now(to, name);
    let after = bench.segment(to, b"32 00", seg);
    after.gathering(to).segment(to, b"32 00", seg);
    after.frame(to).segment(to, b"32 00", seg);
}

fn listing<W: Write>(to: &mut W, name: &[u8], shown: usize, coming: usize) {
    tried(to, name, desk(shown, coming, empty(), empty(), 0, 0));
}

// The slot for this frame, and the same one for the next.
fn both<W: Write>(to: &mut W, name: &[u8], mine: Slot, place: u16, byte: u8) {
    let at = place as usize;
    tried(to, name, desk(18, 5, mine, empty(), at, byte));
    tried(
        to,
        name,
        desk(18, 5, empty(), mine, LONGEST_CHUNK + at, byte),
    );
}

fn well_formed<W: Write>(to: &mut W) {
    listing(to, b"listings of 5, 1475", 5, LONGEST_LISTING);
    listing(to, b"listings of 1475, 0", LONGEST_LISTING, 0);
    both(to, b"holds 15 of 15", slot(15, 0x8000, false), 525, 1);
    both(to, b"holds 0 of 1", slot(1, 1, false), 34, 1);
    both(to, b"spoiled", slot(0, 0, true), 0, 0);
}

fn not_well_formed<W: Write>(to: &mut W) {
    listing(to, b"listings of 3, 5", 3, 5);
    listing(to, b"listings of 5, 3", 5, 3);
    listing(to, b"listings of 4, 0", 4, 0);
    listing(to, b"listings of 0, 1", 0, 1);
    listing(to, b"listings of 1476, 5", LONGEST_LISTING + 1, 5);
    listing(to, b"listings of 5, 1476", 5, LONGEST_LISTING + 1);
    both(to, b"last 16", slot(16, 1, false), 0, 0);
    both(to, b"last 255", slot(255, 1, false), 0, 0);
    both(to, b"holds 2 above 1", slot(1, 7, false), 0, 0);
    both(to, b"holds 15 above 14", slot(14, 0x8001, false), 0, 0);
    both(to, b"empty, last 1", slot(1, 0, false), 0, 0);
    both(to, b"empty, a byte at 0", empty(), 0, 1);
    both(to, b"empty, a byte at 559", empty(), 559, 1);
    both(to, b"holds 0, a byte at 35", slot(1, 1, false), 35, 0x80);
    both(to, b"holds 1, a byte at 34", slot(1, 2, false), 34, 1);
    both(to, b"spoiled, holds 0", slot(0, 1, true), 0, 0);
    both(to, b"spoiled, last 1", slot(1, 0, true), 0, 0);
    both(to, b"spoiled, a byte at 300", slot(0, 0, true), 300, 1);
}

// ---- two segments of one chunk

// A chunk of 45 bytes, one ensemble with 12 services: its first 35, and the rest.
fn head(first: u8, second: u8) -> [u8; 37] {
    made(
        first,
        second,
        b"\x00\x03\x01\x23\x01\x05\xE0\x83\x0C\x10\x00\xE0\x10\x01\xE1\x10\x02\xE2\x10\x03\xE3\x10\x04\xE4\x10\x05\xE5\x10\x06\xE6\x10\x07\xE7\x10\x08",
    )
}

fn tail(first: u8, second: u8) -> [u8; 37] {
    made(first, second, b"\xE8\x10\x09\xE9\x10\x0A\xEA\x10\x0B\xEB")
}

// Gathered, repeated, and spoiled by a clash; the list is shown throughout.
fn two_segments<W: Write>(to: &mut W) {
    let one = head(0x32, 0x01);
    let two = tail(0x32, 0x11);
    let listed = Bench::new()
        .segment(to, b"32 01", one)
        .segment(to, b"repeat", one)
        .segment(to, b"repeat, reserved 0", head(0x02, 0x01))
        .segment(to, b"32 11", two)
        .segment(to, b"repeat", two);
    let spoiled = listed
        .segment(to, b"clash", head(0x32, 0x11))
        .segment(to, b"32 11", two)
        .segment(to, b"number above last", tail(0x32, 0x10));
    let other = spoiled.segment(to, b"kind next", next(0x30, 0x00));
    other
        .gathering(to)
        .segment(to, b"32 11", two)
        .segment(to, b"32 01", one)
        .frame(to)
        .segment(to, b"kind this", this(0x32, 0x00))
        .frame(to);
}

// Clashes by the last number and by the payload, of a slot that is not complete.
fn clashes<W: Write>(to: &mut W) {
    let one = head(0x32, 0x01);
    Bench::new()
        .segment(to, b"32 01", one)
        .segment(to, b"other last number", tail(0x32, 0x12))
        .segment(to, b"32 01", one)
        .frame(to)
        .segment(to, b"32 01", one)
        .segment(to, b"other payload", tail(0x32, 0x01))
        .gathering(to)
        .segment(to, b"32 01", one);
}

// ---- chunks that are refused, and one with an unknown ensemble, that is not

// A gathering with one chunk of one segment, its repeat, and its clash.
fn tried_alone<W: Write>(to: &mut W, bench: Bench, name: &[u8], payload: &[u8]) -> Bench {
    let seg = made(0x32, 0x00, payload);
    bench
        .gathering(to)
        .segment(to, name, seg)
        .segment(to, b"repeat", seg)
        .segment(to, b"kind next", next(0x30, 0x00))
        .segment(to, b"clash", this(0x32, 0x00))
}

fn chunks<W: Write>(to: &mut W) {
    let bench = Bench::new().segment(to, b"32 00", this(0x32, 0x00));
    let a = tried_alone(
        to,
        bench,
        b"kind differs",
        b"\x00\x02\x01\x23\x01\x05\xE0\x83\x01\x0A\x01\xE6",
    );
    let b = tried_alone(to, a, b"early end", b"\x00\x03\x01\x23\x01\x05\xE0\x83\xFF");
    let c = tried_alone(
        to,
        b,
        b"unknown ensemble",
        b"\x00\x03\x01\x23\x01\x05\xE1\x83\x00",
    );
    let d = tried_alone(to, c, b"major", b"\x40\x03\x01\x23\x00");
    let e = tried_alone(
        to,
        d,
        b"early end, kind differs",
        b"\x00\x02\x01\x23\x01\x05\xE0\x83\xFF",
    );
    let f = tried_alone(
        to,
        e,
        b"unknown ensemble, kind differs",
        b"\x00\x02\x01\x23\x01\x05\xE1\x83\x00",
    );
    let g = tried_alone(
        to,
        f,
        b"unknown ensemble cut, kind differs",
        b"\x00\x02\x01\x23\x01\x05\xE1",
    );
    tried_alone(to, g, b"major, kind differs", b"\xC0\x02\x01\x23\x00").gathering(to);
}

fn main(rt: HostRuntime) {
    let mut to = rt.stdout();
    sample(&mut to);
    headers_twice(&mut to);
    lengths(&mut to);
    buffers(&mut to);
    order(&mut to);
    well_formed(&mut to);
    not_well_formed(&mut to);
    two_segments(&mut to);
    clashes(&mut to);
    chunks(&mut to);
}
