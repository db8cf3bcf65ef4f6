// A desk with two buffers for it. Each call on the desk prints a line: its name, the answer to a segment, what is shown afterwards for this
// frame and for the next, and up to where each buffer is not as it was at first.
use desk::Desk;
use meaning::{Kind, Refusal};
use slots::Answer;
use std::io::Write;

const ROOM: usize = 1500;

const BEFORE: u8 = 0xA5;

#[derive(Clone, Copy)]
pub struct Bench {
    pub desk: Desk,
    pub first: [u8; 1500],
    pub second: [u8; 1500],
}

// A listing in hex, or a dash for none.
fn say_listing<W: Write>(to: &mut W, listing: &[u8]) {
    if listing.len() == 0 {
        tell::say(to, b"-");
    }
    tell::say_hex(to, listing, listing.len());
}

// How many bytes there are up to the last that is not as it was at first.
fn changed(bytes: &[u8]) -> usize {
    match bytes.iter().rposition(|&byte| byte != BEFORE) {
        Some(last) => last + 1,
        None => 0,
    }
}

fn say_answer<W: Write>(to: &mut W, answer: Result<Answer, Refusal>) {
    tell::say(to, b":");
    match answer {
        Ok(Answer::Missing(left)) => {
            tell::say(to, b" missing");
            tell::say_number(to, left as u64);
        }
        Ok(Answer::NewList { kind, length }) => {
            tell::say(to, b" list");
            tell::say_kind(to, kind);
            tell::say_number(to, length as u64);
        }
        Err(refusal) => tell::say_refusal(to, refusal),
    }
}

fn say_shown<'a, W: Write>(to: &mut W, desk: Desk, first: &'a [u8], second: &'a [u8]) {
    tell::say(to, b"; this ");
    say_listing(to, desk.show(Kind::This, first, second));
    tell::say(to, b"; next ");
    say_listing(to, desk.show(Kind::Next, first, second));
    tell::say(to, b"; changed");
    tell::say_number(to, changed(first) as u64);
    tell::say_number(to, changed(second) as u64);
    tell::say(to, b"\n");
}

// A segment, with these buffers.
fn take<W: Write>(to: &mut W, desk: Desk, seg: &[u8], first: &mut [u8], second: &mut [u8]) -> Desk {
    let taken = desk.segment(seg, first, second);
    say_answer(to, taken.answer);
    say_shown(to, taken.desk, first, second);
    taken.desk
}

// A segment, with the first bytes of these buffers.
fn take_in<W: Write>(
    to: &mut W,
    desk: Desk,
    seg: &[u8],
    first: &mut [u8],
    m: usize,
    second: &mut [u8],
    n: usize,
) -> Desk {
    if first.len() < m {
        return desk;
    }
    if second.len() < n {
        return desk;
    }
    take(to, desk, seg, &mut first[..m], &mut second[..n])
}

impl Bench {
    pub fn of(desk: Desk) -> Bench {
        Bench {
            desk,
            first: [BEFORE; ROOM],
            second: [BEFORE; ROOM],
        }
    }

    pub fn new() -> Bench {
        Bench::of(Desk::fresh())
    }

    // Any bytes as a segment, with buffers of these lengths.
    pub fn bytes_in<W: Write>(
        self,
        to: &mut W,
        name: &[u8],
        seg: &[u8],
        m: usize,
        n: usize,
    ) -> Bench {
        let mut first = self.first;
        let mut second = self.second;
        tell::say(to, name);
        let desk = take_in(to, self.desk, seg, &mut first, m, &mut second, n);
        Bench {
            desk,
            first,
            second,
        }
    }

    // The first of some bytes.
    pub fn part<W: Write>(self, to: &mut W, name: &[u8], bytes: &[u8], len: usize) -> Bench {
        if bytes.len() < len {
            return self;
        }
        self.bytes_in(to, name, &bytes[..len], ROOM, ROOM)
    }

    pub fn segment_in<W: Write>(
        self,
        to: &mut W,
        name: &[u8],
        seg: [u8; 37],
        m: usize,
        n: usize,
    ) -> Bench {
        self.bytes_in(to, name, &seg, m, n)
    }

    pub fn segment<W: Write>(self, to: &mut W, name: &[u8], seg: [u8; 37]) -> Bench {
        self.segment_in(to, name, seg, ROOM, ROOM)
    }

    // Names the desk as it now stands, and shows it.
    pub fn now<W: Write>(self, to: &mut W, name: &[u8]) -> Bench {
        tell::say(to, name);
        say_shown(to, self.desk, &self.first, &self.second);
        self
    }

    fn with(self, desk: Desk) -> Bench {
        Bench { desk, ..self }
    }

    pub fn gathering<W: Write>(self, to: &mut W) -> Bench {
        self.with(self.desk.new_gathering())
            .now(to, b"new gathering")
    }

    pub fn frame<W: Write>(self, to: &mut W) -> Bench {
        self.with(self.desk.new_frame()).now(to, b"new frame")
    }
}
