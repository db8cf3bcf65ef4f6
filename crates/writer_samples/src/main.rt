// Runs the writer on document 01's samples, on the longest and the narrowest cases and on listings that are not well formed, each of them for
// either kind, and prints a line for each: its name, the kind, the answer's number and, where the listing is accepted, how many segments and
// the segments; then whether the rest of the output is as it was.
#![tactic(auto)]

mod made;

use made::Made;
use meaning::{
    EN_BYTES, Kind, MOST_CHANNEL, MOST_FLAGS, MOST_MULTI, MOST_SP, MOST_STATUS, SV_BYTES, TS_BYTES,
};
use segments::{MOST_SEGMENTS, PAYLOAD_BYTES, SEGMENT_BYTES};
use std::io::Write;
use writer::Unwritten;

// The shortest output that is long enough, and the whole space that it is lent from.
const ENOUGH: usize = 592;

const ROOM: usize = 640;

const BEFORE: u8 = 0xA5;

// How many bytes so many segments have, of those that there is room for.
fn bytes_of(segments: usize) -> usize {
    if ROOM / SEGMENT_BYTES < segments {
        return 0;
    }
    segments * SEGMENT_BYTES
}

fn say_answer<W: Write>(to: &mut W, answer: Result<usize, Unwritten>, out: &[u8]) {
    let mut length = 0;
    match answer {
        Ok(n) => {
            tell::say_number(to, 0);
            tell::say_number(to, n as u64);
            tell::say(to, b" ");
            length = bytes_of(n);
            tell::say_hex(to, out, length);
        }
        Err(refusal) => tell::say_number(to, u8::from(refusal) as u64),
    }
    tell::say_kept(to, out, length, BEFORE);
}

// One listing, with the first bytes of the space for its output.
fn run_in<W: Write>(to: &mut W, kind: Kind, listing: &[u8], out: &mut [u8], room: usize) {
    if room <= out.len() {
        let answer = writer::write(listing, kind, &mut out[..room]);
        say_answer(to, answer, out);
    }
}

fn run<W: Write>(to: &mut W, name: &[u8], kind: Kind, listing: &[u8], room: usize) {
    let mut space = [BEFORE; ROOM];
    tell::say(to, name);
    tell::say_kind(to, kind);
    run_in(to, kind, listing, &mut space, room);
}

fn run_part<W: Write>(to: &mut W, name: &[u8], kind: Kind, bytes: &[u8], len: usize, room: usize) {
    if len <= bytes.len() {
        run(to, name, kind, &bytes[..len], room);
    }
}

fn run_made<W: Write>(to: &mut W, name: &[u8], kind: Kind, made: Made, room: usize) {
    let bytes = made.bytes;
    run_part(to, name, kind, &bytes, made.len, room);
}

fn show<W: Write>(to: &mut W, name: &[u8], kind: Kind, made: Made) {
    run_made(to, name, kind, made, ENOUGH);
}

// A case that is named by a number too.
fn show_at<W: Write>(to: &mut W, name: &[u8], n: usize, kind: Kind, made: Made) {
    tell::say(to, name);
    tell::say_number(to, n as u64);
    show(to, b"", kind, made);
}

// ---- listings

// Document 01's sample.
fn first() -> Made {
    Made::of(b"TS\x01\x23\x01EN\x05\x04\x03\x01SV\x05\x0A\x01\x00\x03\x00")
}

// Two ensembles with three services. Its records stand at 0, 5, 11, 19, 27 and 33, and it has 41 bytes.
fn two() -> Made {
    Made::new().header(2).whole(0x2B, 2).whole(0x9D, 1)
}

// One ensemble with so many services.
fn one(services: u8) -> Made {
    Made::new().header(1).whole(0, services)
}

// So many ensembles with no service.
fn bare(ensembles: u8) -> Made {
    Made::new().header(ensembles).ensembles(0, ensembles, 0)
}

// ---- cases

fn samples<W: Write>(to: &mut W, kind: Kind) {
    show(to, b"first", kind, first());
    show(to, b"no ensemble", kind, Made::of(b"TS\x01\x23\x00"));
    show(to, b"empty", kind, Made::new());
    show(
        to,
        b"ids like marks",
        kind,
        Made::of(b"TSSV\x01ENT\x05\x13\x02SVTEN\x01\x02\x00SVTSV\x02\x01\x01"),
    );
    show(to, b"two ensembles", kind, two());
    // the first sample as it was before a service carried its ensemble
    show(
        to,
        b"old form",
        kind,
        Made::of(b"TS\x01\x23\x01EN\x05\x04\x03\x01SV\x0A\x01\x00\x03\x00"),
    );
}

// Listings with an unknown ensemble, which the reader gives and the writer refuses.
fn unknown<W: Write>(to: &mut W, kind: Kind) {
    show(
        to,
        b"an unknown ensemble",
        kind,
        Made::of(b"TS\x01\x23\x01EU\x05\x01"),
    );
    let between = Made::new()
        .header(3)
        .whole(0x2B, 2)
        .and(b"EU\x06\x01")
        .whole(0x9D, 1);
    show(to, b"an unknown ensemble between", kind, between);
}

// The longest chunks, and those that are too long.
fn longest<W: Write>(to: &mut W, kind: Kind) {
    show(to, b"183 services", kind, one(183));
    show(to, b"184 services", kind, one(184));
    let start = Made::new().header(3).whole(0, 61);
    let three = start.whole(1, 0).whole(2, 120);
    show(to, b"three ensembles, 181 services", kind, three);
    let more = start.whole(1, 1).whole(2, 120);
    show(to, b"three ensembles, 182 services", kind, more);
    let many = Made::new().header(2).ensembles(0, 2, 128);
    show(to, b"256 services", kind, many);
    show(to, b"138 ensembles", kind, bare(138));
    show(to, b"139 ensembles", kind, bare(139));
}

// Too long, and not well formed at the very end.
fn too_long<W: Write>(to: &mut W, kind: Kind) {
    let most = bare(255);
    show(to, b"255 ensembles", kind, most);
    show(to, b"255 ensembles, last byte 1", kind, most.ending(1));
    show(to, b"255 ensembles, cut", kind, most.cut(1534));
    show(to, b"255 ensembles, trailing byte", kind, most.with(0));
    let long = one(184);
    show(to, b"184 services, last SP 2", kind, long.ending(2));
    show(
        to,
        b"184 services, last of ensemble 1",
        kind,
        long.but(TS_BYTES + EN_BYTES + 183 * SV_BYTES + 2, 1),
    );
}

// A listing whose chunk has n bytes: one ensemble, and up to two more with two services each.
fn sized<W: Write>(to: &mut W, kind: Kind, n: usize) {
    if n < 34 {
        return;
    }
    let more = n % 3;
    let services = ((n - 9 - 10 * more) / 3 % 256) as u8;
    let count = (more + 1) as u8;
    let start = Made::new().header(count).whole(0, services);
    show_at(to, b"chunk of", n, kind, start.ensembles(1, count, 2));
}

// A chunk that fills one segment more than k, and those of a byte less and a byte more.
fn lengths_at<W: Write>(to: &mut W, kind: Kind, k: u8) {
    let full = PAYLOAD_BYTES * k as usize + PAYLOAD_BYTES;
    sized(to, kind, full - 1);
    sized(to, kind, full);
    sized(to, kind, full + 1);
}

fn lengths<W: Write>(to: &mut W, kind: Kind, most: u8) {
    for k in 0..most {
        lengths_at(to, kind, k);
    }
}

fn output<W: Write>(to: &mut W, name: &[u8], kind: Kind, made: Made, room: usize) {
    tell::say(to, name);
    tell::say(to, b", output of");
    tell::say_number(to, room as u64);
    run_made(to, b"", kind, made, room);
}

fn outputs_of<W: Write>(to: &mut W, kind: Kind, room: usize) {
    output(to, b"first", kind, first(), room);
    output(to, b"183 services", kind, one(183), room);
    output(to, b"184 services", kind, one(184), room);
    output(to, b"empty", kind, Made::new(), room);
}

// Outputs that are long enough, and that are not.
fn outputs<W: Write>(to: &mut W, kind: Kind) {
    outputs_of(to, kind, 0);
    outputs_of(to, kind, SEGMENT_BYTES - 1);
    outputs_of(to, kind, SEGMENT_BYTES);
    outputs_of(to, kind, ENOUGH - 1);
    outputs_of(to, kind, ENOUGH);
    outputs_of(to, kind, ENOUGH + 1);
    outputs_of(to, kind, ROOM);
}

// Numbers of ensembles and services that are not those of the records.
fn counts<W: Write>(to: &mut W, kind: Kind) {
    let two = two();
    show(to, b"no ensemble of 2", kind, two.but(4, 0));
    show(to, b"1 ensemble of 2", kind, two.but(4, 1));
    show(to, b"3 ensembles of 2", kind, two.but(4, 3));
    show(to, b"255 ensembles of 2", kind, two.but(4, 255));
    show(to, b"no service of 2", kind, two.but(10, 0));
    show(to, b"1 service of 2", kind, two.but(10, 1));
    show(to, b"3 services of 2", kind, two.but(10, 3));
    show(to, b"255 services of 2", kind, two.but(10, 255));
    show(to, b"no service of 1", kind, two.but(32, 0));
    show(to, b"2 services of 1", kind, two.but(32, 2));
    show(to, b"255 services of 1", kind, two.but(32, 255));
    let fewer = two.but(10, 1).but(32, 2);
    show(to, b"1 and 2 services of 2 and 1", kind, fewer);
    let more = two.but(10, 3).but(32, 0);
    show(to, b"3 and 0 services of 2 and 1", kind, more);
}

fn trailing<W: Write>(to: &mut W, kind: Kind) {
    let two = two();
    show(to, b"trailing 0", kind, two.with(0));
    show(to, b"trailing ff", kind, two.with(0xFF));
    show(to, b"trailing E", kind, two.and(b"E"));
    show(to, b"trailing EN", kind, two.and(b"EN"));
    show(to, b"trailing ensemble", kind, two.ensemble(7, 0));
    show(to, b"trailing service", kind, two.service(7, 0));
    show(
        to,
        b"trailing unknown ensemble",
        kind,
        two.and(b"EU\x07\x01"),
    );
    show(to, b"trailing header", kind, two.header(0));
    let twice = two.header(2).whole(0x2B, 2).whole(0x9D, 1);
    show(to, b"twice", kind, twice);
}

// Each of the four marks at one place.
fn marks_at<W: Write>(to: &mut W, kind: Kind, at: usize) {
    let two = two();
    show_at(to, b"TS at", at, kind, two.mark(at, 0x54, 0x53));
    show_at(to, b"EN at", at, kind, two.mark(at, 0x45, 0x4E));
    show_at(to, b"SV at", at, kind, two.mark(at, 0x53, 0x56));
    show_at(to, b"EU at", at, kind, two.mark(at, 0x45, 0x55));
}

fn marks<W: Write>(to: &mut W, kind: Kind) {
    marks_at(to, kind, 0);
    marks_at(to, kind, 5);
    marks_at(to, kind, 11);
    marks_at(to, kind, 19);
    marks_at(to, kind, 27);
    marks_at(to, kind, 33);
}

// Every byte in its turn raised by so much: by 1, or by 255, which is 1 less.
fn raised<W: Write>(to: &mut W, kind: Kind, by: u8) {
    let two = two();
    let end = two.len;
    for at in 0..end {
        tell::say(to, b"byte");
        tell::say_number(to, at as u64);
        show_at(to, b" raised by", by as usize, kind, two.raised(at, by));
    }
}

fn field_as<W: Write>(to: &mut W, name: &[u8], kind: Kind, at: usize, value: u8) {
    tell::say(to, name);
    tell::say(to, b" at");
    tell::say_number(to, at as u64);
    show_at(to, b"", value as usize, kind, two().but(at, value));
}

// A field with each value up to the first that is too great, and with 255.
fn field<W: Write>(to: &mut W, name: &[u8], kind: Kind, at: usize, above: u8) {
    for value in 0..above {
        field_as(to, name, kind, at, value);
    }
    field_as(to, name, kind, at, above);
    field_as(to, name, kind, at, 255);
}

fn fields<W: Write>(to: &mut W, kind: Kind) {
    field(to, b"flags", kind, 8, MOST_FLAGS + 1);
    field(to, b"flags", kind, 30, MOST_FLAGS + 1);
    field(to, b"channel version", kind, 9, MOST_CHANNEL + 1);
    field(to, b"channel version", kind, 31, MOST_CHANNEL + 1);
    field(to, b"multi", kind, 16, MOST_MULTI + 1);
    field(to, b"multi", kind, 38, MOST_MULTI + 1);
    field(to, b"status", kind, 17, MOST_STATUS + 1);
    field(to, b"status", kind, 39, MOST_STATUS + 1);
    field(to, b"SP", kind, 18, MOST_SP + 1);
    field(to, b"SP", kind, 40, MOST_SP + 1);
}

// A service's ensemble: its own, the other one, the first bytes of the services' ids, the least and the greatest.
fn owners_at<W: Write>(to: &mut W, kind: Kind, at: usize) {
    field_as(to, b"ensemble", kind, at, 0x2B);
    field_as(to, b"ensemble", kind, at, 0x9D);
    field_as(to, b"ensemble", kind, at, 84);
    field_as(to, b"ensemble", kind, at, 98);
    field_as(to, b"ensemble", kind, at, 0);
    field_as(to, b"ensemble", kind, at, 255);
}

// An ensemble's id by itself.
fn ids_at<W: Write>(to: &mut W, kind: Kind, at: usize) {
    field_as(to, b"id", kind, at, 0x2B);
    field_as(to, b"id", kind, at, 0x9D);
    field_as(to, b"id", kind, at, 0);
    field_as(to, b"id", kind, at, 255);
}

// The first ensemble's id, and with it that of its services.
fn renamed<W: Write>(to: &mut W, kind: Kind, id: u8) {
    let made = two().but(7, id).but(13, id).but(21, id);
    show_at(to, b"first renamed", id as usize, kind, made);
}

fn owners<W: Write>(to: &mut W, kind: Kind) {
    owners_at(to, kind, 13);
    owners_at(to, kind, 21);
    owners_at(to, kind, 35);
    ids_at(to, kind, 7);
    ids_at(to, kind, 29);
    renamed(to, kind, 0x9D);
    renamed(to, kind, 0);
    renamed(to, kind, 255);
}

// Every cut, and the whole.
fn cuts<W: Write>(to: &mut W, kind: Kind) {
    let two = two();
    let end = two.len;
    for n in 0..end {
        show_at(to, b"cut to", n, kind, two.cut(n));
    }
    show_at(to, b"cut to", end, kind, two);
}

fn every<W: Write>(to: &mut W, kind: Kind) {
    samples(to, kind);
    unknown(to, kind);
    longest(to, kind);
    too_long(to, kind);
    lengths(to, kind, MOST_SEGMENTS);
    outputs(to, kind);
    counts(to, kind);
    trailing(to, kind);
    marks(to, kind);
    raised(to, kind, 1);
    raised(to, kind, 255);
    fields(to, kind);
    owners(to, kind);
    cuts(to, kind);
}

fn main(rt: HostRuntime) {
    let mut to = rt.stdout();
    every(&mut to, Kind::This);
    every(&mut to, Kind::Next);
}
