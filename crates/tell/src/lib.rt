// What the programs that run the samples print with.
#![tactic(auto)]

use meaning::{Kind, Refusal};
use std::io::Write;

pub fn say<W: Write>(to: &mut W, text: &[u8]) {
    let _ = to.write_all(text);
}

// A space and a number.
pub fn say_number<W: Write>(to: &mut W, n: u64) {
    let _ = write!(to, " {n}");
}

// A refusal's number, and behind 9 its offset.
pub fn say_refusal<W: Write>(to: &mut W, refusal: Refusal) {
    let number = u8::from(refusal);
    say_number(to, number as u64);
    if number == 9 {
        say(to, b" at");
        say_number(to, refusal.offset() as u64);
    }
}

pub fn say_kind<W: Write>(to: &mut W, kind: Kind) {
    match kind {
        Kind::This => say(to, b" this"),
        Kind::Next => say(to, b" next"),
    }
}

// The first bytes of a buffer, in hex.
pub fn say_hex<W: Write>(to: &mut W, buffer: &[u8], length: usize) {
    for byte in buffer.iter().take(length) {
        let _ = write!(to, "{byte:02x}");
    }
}

// Whether the bytes from a place on are all the one that was there before.
pub fn kept(buffer: &[u8], from: usize, before: u8) -> bool {
    buffer.iter().skip(from).all(|&byte| byte == before)
}

// Says so, and ends the line.
pub fn say_kept<W: Write>(to: &mut W, buffer: &[u8], from: usize, before: u8) {
    if kept(buffer, from, before) {
        say(to, b" kept\n");
    } else {
        say(to, b" CHANGED\n");
    }
}
