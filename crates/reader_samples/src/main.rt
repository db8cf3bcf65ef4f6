// Runs the reader on document 01's samples and on the longest and the narrowest cases, and prints a line for each: its name, the answer's
// number and, where the chunk is accepted, its kind, minor edition and length, its listing, and whether the buffer past it is as it was.
#![tactic(auto)]

mod made;

use made::Made;
use meaning::{LONGEST_LISTING, Listed, Refusal};
use std::io::Write;

const ROOM: usize = 1500;

const BEFORE: u8 = 0xA5;

fn say_answer<W: Write>(to: &mut W, answer: Result<Listed, Refusal>, buffer: &[u8]) {
    let mut length = 0;
    match answer {
        Ok(listed) => {
            length = listed.length;
            tell::say_number(to, 0);
            tell::say_kind(to, listed.kind);
            tell::say_number(to, listed.minor as u64);
            tell::say_number(to, length as u64);
            tell::say(to, b" ");
            tell::say_hex(to, buffer, length);
        }
        Err(refusal) => tell::say_refusal(to, refusal),
    }
    tell::say_kept(to, buffer, length, BEFORE);
}

// One chunk, with the first bytes of a buffer.
fn run_in<W: Write>(to: &mut W, name: &[u8], chunk: &[u8], buffer: &mut [u8], room: usize) {
    tell::say(to, name);
    if room <= buffer.len() {
        let answer = reader::read(chunk, &mut buffer[..room]);
        say_answer(to, answer, buffer);
    }
}

fn run<W: Write>(to: &mut W, name: &[u8], chunk: &[u8], room: usize) {
    let mut space = [BEFORE; ROOM];
    run_in(to, name, chunk, &mut space, room);
}

fn run_part<W: Write>(to: &mut W, name: &[u8], bytes: &[u8], len: usize, room: usize) {
    if len <= bytes.len() {
        run(to, name, &bytes[..len], room);
    }
}

fn run_made<W: Write>(to: &mut W, name: &[u8], made: Made, room: usize) {
    let bytes = made.bytes;
    run_part(to, name, &bytes, made.len, room);
}

// Document 01's samples of chunks.
fn samples<W: Write>(to: &mut W) {
    run(
        to,
        b"first",
        b"\x00\x03\x01\x23\x01\x05\xE0\x83\x01\x0A\x01\xE6",
        LONGEST_LISTING,
    );
    run(
        to,
        b"minor 1, h 1, e 2",
        b"\x09\x43\x01\x23\xAA\x01\x05\xE0\x83\xBB\xCC\x01\x0A\x01\xE6",
        LONGEST_LISTING,
    );
    run(to, b"no ensemble", b"\x00\x03\x01\x23\x00", LONGEST_LISTING);
    run(
        to,
        b"no ensemble, cut",
        b"\x00\x03\x01\x23",
        LONGEST_LISTING,
    );
    run(to, b"empty", b"", LONGEST_LISTING);
    run(to, b"one byte of major 1", b"\x40", LONGEST_LISTING);
    run(to, b"two bytes of major 1", b"\x40\x03", LONGEST_LISTING);
    run(
        to,
        b"an ensemble short",
        b"\x00\x03\x01\x23\x01",
        LONGEST_LISTING,
    );
    run(
        to,
        b"version 1",
        b"\x00\x03\x01\x23\x01\x05\xE1\x83\x01\x0A\x01\xE6",
        LONGEST_LISTING,
    );
    run(
        to,
        b"first, cut",
        b"\x00\x03\x01\x23\x01\x05\xE0\x83\x01\x0A\x01",
        LONGEST_LISTING,
    );
}

// What is disregarded, and the order of the checks.
fn order<W: Write>(to: &mut W) {
    run(
        to,
        b"kind next",
        b"\x00\x02\x01\x23\x01\x05\xE0\x83\x01\x0A\x01\xE6",
        LONGEST_LISTING,
    );
    run(
        to,
        b"reserved bits zeros",
        b"\x00\x01\x01\x23\x01\x05\x00\x83\x01\x0A\x01\x06",
        LONGEST_LISTING,
    );
    run(
        to,
        b"all flags, channel 31, multi 3, SP",
        b"\x00\x03\xFF\xFE\x01\xFF\xE0\xFF\x01\x12\x34\xFF",
        LONGEST_LISTING,
    );
    run(to, b"major 3, header cut", b"\xC7\x03\x01", LONGEST_LISTING);
    run(
        to,
        b"header cut in its extension",
        b"\x07\x03\x01\x23\x00\x00\x00\x00\x00\x00",
        LONGEST_LISTING,
    );
    run(
        to,
        b"header and its extension",
        b"\x07\x03\x01\x23\x00\x00\x00\x00\x00\x00\x00\x00",
        LONGEST_LISTING,
    );
}

// Ensembles of other versions: their outer form is walked over, and what is inside is not listed.
fn unknown<W: Write>(to: &mut W) {
    run(
        to,
        b"version 1, no room for its services",
        b"\x00\x03\x01\x23\x01\x05\xE1\x83\xFF",
        LONGEST_LISTING,
    );
    run(
        to,
        b"version 1, fields cut",
        b"\x00\x03\x01\x23\x01\x05\xE1\x83",
        LONGEST_LISTING,
    );
    run(
        to,
        b"version 1, services cut",
        b"\x00\x03\x01\x23\x01\x05\xE1\x83\x01\x0A\x01",
        LONGEST_LISTING,
    );
    run(
        to,
        b"version 1, reserved bits zeros",
        b"\x00\x03\x01\x23\x01\x05\x01\x83\x00",
        LONGEST_LISTING,
    );
    run(
        to,
        b"second ensemble of version 31",
        b"\x00\x03\x01\x23\x02\x05\xE0\x83\x00\x06\xFF\x00\x00",
        LONGEST_LISTING,
    );
    run(
        to,
        b"last ensemble of version 2, services cut",
        b"\x00\x03\x01\x23\x02\x05\xE0\x83\x00\x06\xE2\x00\x02\x0B\x01\xE6\x0B\x02",
        LONGEST_LISTING,
    );
    run(
        to,
        b"a trial ensemble between two",
        b"\x01\x47\x01\x23\xAA\x03\x05\xE0\x83\xBB\xCC\x01\x0A\x01\xE6\xDD\x06\xE1\xFF\xBB\xCC\x02\x0B\x01\xE6\xDD\x0B\x02\xE6\xDD\x07\xE0\x03\xBB\xCC\x00",
        LONGEST_LISTING,
    );
    run(
        to,
        b"all ensembles unknown",
        b"\x00\x03\x01\x23\x03\x05\xE1\x83\x00\x06\xE2\x00\x01\x0B\x01\xE6\x07\xFF\x00\x00",
        LONGEST_LISTING,
    );
}

// More ensembles than there are.
fn counts<W: Write>(to: &mut W) {
    run(
        to,
        b"second ensemble cut",
        b"\x00\x03\x01\x23\x02\x05\xE0\x83\x00\x06\xE0\x00",
        LONGEST_LISTING,
    );
    run(
        to,
        b"255 ensembles",
        b"\x00\x03\x01\x23\xFF\x05\xE0\x83\x00\x06\xE0\x00\x00",
        LONGEST_LISTING,
    );
}

// Where a chunk runs out: in its header, in an ensemble's fields, in its first, a middle and its last service.
fn cuts<W: Write>(to: &mut W) {
    run(
        to,
        b"header cut after its flags",
        b"\x00\x03",
        LONGEST_LISTING,
    );
    run(
        to,
        b"header cut before its count",
        b"\x07\x03\x01\x23\x00\x00\x00\x00\x00\x00",
        LONGEST_LISTING,
    );
    run(
        to,
        b"h 3, ensemble's fields cut",
        b"\x03\x03\x01\x23\x00\x00\x00\x01\x05\xE0",
        LONGEST_LISTING,
    );
    run(
        to,
        b"h 3, e 2, first service cut",
        b"\x03\x43\x01\x23\x00\x00\x00\x01\x05\xE0\x83\x00\x00\x02\x0A",
        LONGEST_LISTING,
    );
    run(
        to,
        b"h 2, s 1, a middle service cut",
        b"\x02\x07\x01\x23\x00\x00\x01\x05\xE0\x83\x03\x0A\x01\xE6\xDD\x0A\x02\xE6",
        LONGEST_LISTING,
    );
    run(
        to,
        b"s 7, the last service cut in its extension",
        b"\x00\x1F\x01\x23\x01\x05\xE0\x83\x02\x0A\x01\xE6\x00\x00\x00\x00\x00\x00\x00\x0A\x02\xE6\x00\x00\x00\x00\x00\x00",
        LONGEST_LISTING,
    );
    run(
        to,
        b"second of version 9, its second service cut",
        b"\x00\x03\x01\x23\x02\x05\xE0\x83\x01\x0A\x01\xE6\x06\xE9\x83\x02\x0B\x01\xE6\x0B\x02",
        LONGEST_LISTING,
    );
}

// Services of more than one ensemble, each with its own one's id.
fn owners<W: Write>(to: &mut W) {
    run(
        to,
        b"services of three ensembles",
        b"\x00\x03\x01\x23\x03\x05\xE0\x83\x01\x0A\x01\xE6\x06\xE0\x83\x02\x0B\x01\xE6\x0B\x02\xE6\x07\xE0\x83\x01\x0C\x01\xE6",
        LONGEST_LISTING,
    );
}

// The longest chunks, and those a byte longer or shorter.
fn longest<W: Write>(to: &mut W) {
    let one = Made::new()
        .header(0, 0, 0, 1)
        .ensemble(5, 0, 183)
        .services(0, 183);
    run_made(to, b"183 services", one, LONGEST_LISTING);
    run_made(to, b"183 services, cut", one.cut(), LONGEST_LISTING);
    let more = Made::new()
        .header(0, 0, 0, 1)
        .ensemble(5, 0, 184)
        .services(0, 184);
    run_made(to, b"184 services", more, LONGEST_LISTING);
    run_made(
        to,
        b"184 services in 560 bytes",
        more.cut(),
        LONGEST_LISTING,
    );
    let two = Made::new()
        .header(0, 0, 0, 3)
        .ensemble(1, 0, 61)
        .services(0, 61)
        .ensemble(2, 0, 0);
    let three = two.ensemble(3, 0, 120).services(0, 120);
    run_made(to, b"three ensembles, 181 services", three, LONGEST_LISTING);
    run_made(
        to,
        b"three ensembles, 561 bytes",
        three.with(0xFF),
        LONGEST_LISTING,
    );
}

// As many unknown ensembles as a chunk can hold.
fn all_unknown<W: Write>(to: &mut W) {
    let most = Made::new().header(0, 0, 0, 138).trials(0, 138, 0);
    run_made(to, b"138 unknown ensembles", most, LONGEST_LISTING);
    run_made(
        to,
        b"138 unknown ensembles, cut",
        most.cut(),
        LONGEST_LISTING,
    );
}

// Every extension 7 bytes long: one ensemble with a service, and 8 with 46, which fill the chunk.
fn extended<W: Write>(to: &mut W) {
    let small = Made::new()
        .header(7, 7, 7, 1)
        .ensemble(5, 7, 1)
        .services(7, 1);
    run_made(to, b"extensions 7", small, LONGEST_LISTING);
    run_made(to, b"extensions 7, cut", small.cut(), LONGEST_LISTING);
    let first = Made::new()
        .header(7, 7, 7, 8)
        .ensemble(0, 7, 4)
        .services(7, 4);
    let full = first.ensembles(1, 8, 7, 7, 6);
    run_made(to, b"extensions 7, 560 bytes", full, LONGEST_LISTING);
    run_made(to, b"extensions 7, 559 bytes", full.cut(), LONGEST_LISTING);
    let trial = Made::new().header(7, 7, 7, 8).trial(0, 7, 4).services(7, 4);
    let other = trial.ensembles(1, 8, 7, 7, 6);
    run_made(
        to,
        b"extensions 7, the first unknown",
        other,
        LONGEST_LISTING,
    );
}

fn stuffed_with<W: Write>(to: &mut W, n: usize) {
    let first = Made::of(b"\x00\x03\x01\x23\x01\x05\xE0\x83\x01\x0A\x01\xE6");
    run_made(
        to,
        b"stuffing",
        first.fill(n, (n % 256) as u8),
        LONGEST_LISTING,
    );
}

// The first sample with stuffing of every length there is room for, and of one byte more.
fn stuffed<W: Write>(to: &mut W) {
    for n in 0..550 {
        stuffed_with(to, n);
    }
}

// Buffers that are long enough, and that are not.
fn buffers<W: Write>(to: &mut W) {
    let first = Made::of(b"\x00\x03\x01\x23\x01\x05\xE0\x83\x01\x0A\x01\xE6");
    run_made(to, b"buffer of 0", first, 0);
    run_made(to, b"buffer of 1474", first, LONGEST_LISTING - 1);
    run_made(to, b"buffer of 1475", first, LONGEST_LISTING);
    run_made(to, b"buffer of 1500", first, ROOM);
    run_made(
        to,
        b"buffer of 1474, chunk of 561",
        first.fill(549, 0),
        LONGEST_LISTING - 1,
    );
}

fn main(rt: HostRuntime) {
    let mut to = rt.stdout();
    samples(&mut to);
    order(&mut to);
    unknown(&mut to);
    counts(&mut to);
    cuts(&mut to);
    owners(&mut to);
    longest(&mut to);
    all_unknown(&mut to);
    extended(&mut to);
    stuffed(&mut to);
    buffers(&mut to);
}
