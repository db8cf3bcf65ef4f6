// The tunnel's reader: one outer packet in, the inner packets that it finishes out. What is running is held until the next.
#![tactic(auto)]

ghost use Rattle.std.specs.Prelude.{◌≡◌, false, cond, ◌&&◌, ◌++◌, ◌+◌, ◌≤◌, ◌<◌, eqb, leb, length, get_or, take};
ghost use Rattle.std.proofs.lemmas.List.Edits.{sets};
ghost use Rattle.rtp.specs.Header.{header_bytes, payload_in};
ghost use Rattle.packets.specs.Packets.{longest_packet, start_of};
ghost use Rattle.packets.specs.Stored.{stored_head_bytes, stored_packet, stored};
ghost use Rattle.tunnel.specs.Outer.{longest_outer, offset_in, is_outer};
ghost use Rattle.tunnel.specs.Unwrap.{shortest_output, fresh_numbers, reader, part_of, found_in, found_before, found_at, is_repeat, gap_before, refusal_number, unwrapped_values, AcceptSays, UnwrapSays, Gains};

use packets::{LONGEST_PACKET, STORED_HEAD_BYTES, Start};
use rtp::HEADER_BYTES;

// The reader's numbers: the last accepted outer packet's sequence number, none at first, and how many bytes of a part packet are held.
#[derive(Clone, Copy)]
pub struct Numbers {
    pub last: Option<u16>,
    pub held: usize,
}

// What the reader answers.
#[derive(Clone, Copy)]
pub enum Unwrapped {
    // so many bytes of stored packets stand at the start of the output, so many outer packets were left out before this one, and so many bytes are thrown
    // away
    Stored {
        stored: usize,
        gap: u16,
        lost: usize,
    },
    // the last accepted outer packet came again
    Repeat,
}

// Why it refuses an outer packet.
#[derive(Clone, Copy)]
pub enum Refusal {
    ShortOutput,
    // none of the tunnel's outer packets
    Foreign,
    // the marked start lies outside of the payload; so many outer packets were left out before this one, and so many bytes are thrown away
    BadOffset { gap: u16, lost: usize },
}

// A refusal's number.
impl From<Refusal> for u8 {
    ghost from_gives = { λ refusal number. number ≡ refusal_number refusal };

    fn from(refusal: Refusal) -> u8 {
        match refusal {
            Refusal::ShortOutput => 1,
            Refusal::Foreign => 16,
            Refusal::BadOffset { gap: _, lost: _ } => 17,
        }
    }
}

// An answer in numbers: its number, 0 where it is no refusal; whether it is a repeat; the bytes stored; how many outer packets a gap left out; how many bytes are
// thrown away.
#[derive(Clone, Copy)]
pub struct Values {
    pub number: u8,
    pub repeat: bool,
    pub stored: usize,
    pub gap: u16,
    pub lost: usize,
}

// The answer, and the numbers afterwards.
#[derive(Clone, Copy)]
pub struct Fed {
    pub answer: Result<Unwrapped, Refusal>,
    pub numbers: Numbers,
}

// The longest outer packet, and the shortest output that is taken.
pub const LONGEST_OUTER: usize = 1500;

pub const SHORTEST_OUTPUT: usize = 4096;

// The payload type of STLTP.
const STLTP: u8 = 97;

// What an answer says.
pub fn values_of(answer: Result<Unwrapped, Refusal>) -> Values
    ensures { result ≡ unwrapped_values answer }
{
    let nothing = Values {
        number: 0,
        repeat: false,
        stored: 0,
        gap: 0,
        lost: 0,
    };
    match answer {
        Ok(Unwrapped::Stored { stored, gap, lost }) => Values {
            stored,
            gap,
            lost,
            ..nothing
        },
        Ok(Unwrapped::Repeat) => Values {
            repeat: true,
            ..nothing
        },
        Err(refusal) => {
            let number = u8::from(refusal);
            match refusal {
                Refusal::BadOffset { gap, lost } => Values {
                    number,
                    gap,
                    lost,
                    ..nothing
                },
                Refusal::ShortOutput | Refusal::Foreign => Values { number, ..nothing },
            }
        }
    }
}

// What some bytes gave: the next place of the output, how many bytes are held, and how many are thrown away.
#[derive(Clone, Copy)]
struct Gained {
    to: usize,
    held: usize,
    lost: usize,
}

// The same, where the bytes that are held stand at the end of those that were read.
#[derive(Clone, Copy)]
struct Reached<'a> {
    to: usize,
    running: &'a [u8],
    lost: usize,
}

// ---- a packet whose start is held, and the rest of which came; the part that is held is empty where all of it came

// A byte of both.
fn joined_byte(part: &[u8], more: &[u8], i: usize) -> u8
    requires { i < length part.now + length more.now }
    ensures { result ≡ get_or (part.now ++ more.now) i 0 }
{
    if i < part.len() {
        return part[i];
    }
    more[i - part.len()]
}

// What both are as the start of a packet.
fn joined_start(part: &[u8], more: &[u8]) -> Start
    requires { 1 ≤ length part.now }
    ensures { result ≡ start_of (part.now ++ more.now) }
{
    let n = part.len() + more.len();
    if n < 4 {
        return packets::start_by(n, part[0], 0);
    }
    let third = joined_byte(part, more, 2);
    let fourth = joined_byte(part, more, 3);
    let total = u16::from_be_bytes([third, fourth]);
    packets::start_by(n, part[0], total as usize)
}

// Stores the packet that both are at a place of the output.
fn put_packet(part: &[u8], more: &[u8], out: &mut [u8], to: usize)
    requires { (length part.now + length more.now ≤ longest_packet) × (to + (stored_head_bytes + (length part.now + length more.now)) ≤ length out.old) }
    ensures { out.new ≡ sets out.old to (stored_packet (part.now ++ more.now)) }
{
    let n = part.len() + more.len();
    packets::put_head(n, out, to);
    let from = to + STORED_HEAD_BYTES;
    copies::put_all(out, from, part);
    copies::put_all(out, from + part.len(), more);
}

// ---- the bytes before the marked start, behind a part

fn read_before(
    part: &mut [u8; 1500],
    held: usize,
    more: &[u8],
    marked: bool,
    out: &mut [u8],
) -> Gained
    requires { (held ≤ longest_packet) × (shortest_output ≤ length out.old) }
    ensures { Gains (found_before marked (take held part.old) more.now) part.old out.old 0 part.new out.new result.to result.held result.lost }
{
    let n = held + more.len();
    let thrown = Gained {
        to: 0,
        held: 0,
        lost: n,
    };
    if held == 0 {
        return thrown;
    }
    match joined_start(&part[..held], more) {
        Start::Whole(total) => {
            if total != n {
                return thrown;
            }
            put_packet(&part[..held], more, out, 0);
            Gained {
                to: STORED_HEAD_BYTES + n,
                held: 0,
                lost: 0,
            }
        }
        Start::Running => {
            if marked {
                return thrown;
            }
            copies::put_all(part, held, more);
            Gained {
                to: 0,
                held: n,
                lost: 0,
            }
        }
        Start::Fault => thrown,
    }
}

// ---- from the marked start on

// Packet after packet.
fn read_from<'a>(bytes: &'a [u8], out: &mut [u8], to: usize) -> Reached<'a>
    requires { to + length (stored (found_in bytes.now).packets) ≤ length out.old }
    ensures { (result.to ≡ to + length (stored (found_in bytes.now).packets)) × (out.new ≡ sets out.old to (stored (found_in bytes.now).packets)) × (result.running.now ≡ (found_in bytes.now).part) × (result.lost ≡ (found_in bytes.now).lost) }
{
    let mut rest = bytes;
    let mut end = to;
    while !rest.is_empty() {
        match packets::start_of(rest) {
            Start::Whole(n) => {
                let (packet, behind) = rest.split_at(n);
                put_packet(&[], packet, out, end);
                end += STORED_HEAD_BYTES + n;
                rest = behind;
            }
            Start::Running => {
                return Reached {
                    to: end,
                    running: rest,
                    lost: 0,
                };
            }
            Start::Fault => {
                return Reached {
                    to: end,
                    running: &rest[..0],
                    lost: rest.len(),
                };
            }
        }
    }
    Reached {
        to: end,
        running: rest,
        lost: 0,
    }
}

// The whole payload, behind a part: up to the marked start, and from there on.
fn read_behind(
    part: &mut [u8; 1500],
    held: usize,
    payload: &[u8],
    start: usize,
    marked: bool,
    out: &mut [u8],
) -> Gained
    requires held_in_bounds { (held ≤ longest_packet) × (start ≤ length payload.now) × (length payload.now ≤ longest_outer) × (shortest_output ≤ length out.old) }
    requires start_value { marked ≡ false → start ≡ length payload.now }
    ensures { Gains (found_at marked start (take held part.old) payload.now) part.old out.old 0 part.new out.new result.to result.held result.lost }
{
    let (ahead, behind) = payload.split_at(start);
    let before = read_before(part, held, ahead, marked, out);
    let after = read_from(behind, out, before.to);
    let running = after.running;
    copies::put_all(part, 0, running);
    Gained {
        to: after.to,
        held: before.held + running.len(),
        lost: before.lost + after.lost,
    }
}

// ---- the call

// Whether an outer packet is one of the tunnel's.
fn is_outer(outer: &[u8]) -> bool
    ensures { result ≡ is_outer outer.now }
{
    outer.len() <= LONGEST_OUTER && rtp::is_plain(STLTP, outer)
}

// Whether the last accepted sequence number comes again.
fn is_repeat(numbers: Numbers, sequence: u16) -> bool
    ensures { result ≡ is_repeat numbers sequence }
{
    numbers.last == Some(sequence)
}

// How many outer packets are left out before the one with this sequence number.
fn gap_before(numbers: Numbers, sequence: u16) -> u16
    ensures { result ≡ gap_before numbers sequence }
{
    match numbers.last {
        Some(last) => {
            let expected = last.wrapping_add(1);
            sequence.wrapping_sub(expected)
        }
        None => 0,
    }
}

// How many of the bytes that are held are kept: a gap drops the part.
fn kept_over(gap: u16, held: usize) -> usize
    ensures { result ≡ cond (eqb gap 0) held 0 }
{
    if gap == 0 {
        return held;
    }
    0
}

// The place of the marked start in the payload, else its end.
fn start_in(outer: &[u8], marked: bool) -> usize
    requires { header_bytes ≤ length outer.now }
    ensures { result ≡ cond marked (offset_in outer.now) (length (payload_in outer.now)) }
{
    if marked {
        return u16::from_be_bytes([outer[10], outer[11]]) as usize;
    }
    outer.len() - HEADER_BYTES
}

// Whether a marked start lies outside of the payload.
fn is_outside(payload: &[u8], marked: bool, start: usize) -> bool
    ensures { result ≡ (marked && leb (length payload.now) start) }
{
    marked && payload.len() <= start
}

// An outer packet whose sequence number is accepted.
fn accept(numbers: Numbers, part: &mut [u8; 1500], outer: &[u8], out: &mut [u8]) -> Fed
    requires { (header_bytes ≤ length outer.now) × (length outer.now ≤ longest_outer) × (shortest_output ≤ length out.old) }
    ensures { AcceptSays numbers part.old outer.now out.old result.answer result.numbers part.new out.new }
{
    let sequence = rtp::sequence_of(outer);
    let gap = gap_before(numbers, sequence);
    let held = held(numbers, part);
    let payload = &outer[HEADER_BYTES..];
    let marked = rtp::marker_of(outer) == 1;
    let start = start_in(outer, marked);
    if is_outside(payload, marked, start) {
        let lost = held + payload.len();
        return Fed {
            answer: Err(Refusal::BadOffset { gap, lost }),
            numbers: Numbers {
                last: Some(sequence),
                held: 0,
            },
        };
    }
    let kept = kept_over(gap, held);
    let g = read_behind(part, kept, payload, start, marked, out);
    let lost = held - kept + g.lost;
    Fed {
        answer: Ok(Unwrapped::Stored {
            stored: g.to,
            gap,
            lost,
        }),
        numbers: Numbers {
            last: Some(sequence),
            held: g.held,
        },
    }
}

// A fresh reader's numbers.
pub fn fresh() -> Numbers
    ensures { result ≡ fresh_numbers }
{
    Numbers {
        last: None,
        held: 0,
    }
}

// How many bytes of a part packet a reader holds: none where they are not the start of one that is running.
pub fn held(numbers: Numbers, part: &[u8; 1500]) -> usize
    ensures { result ≡ length (part_of (reader numbers part.now)) }
{
    let held = numbers.held;
    if LONGEST_PACKET <= held {
        return 0;
    }
    match packets::start_of(&part[..held]) {
        Start::Running => held,
        Start::Whole(_) | Start::Fault => 0,
    }
}

// Reads an outer packet: the inner packets that it finishes go to the start of the output. The part's memory is lent in place, from call to call.
pub fn unwrap(numbers: Numbers, part: &mut [u8; 1500], outer: &[u8], out: &mut [u8]) -> Fed
    ensures { UnwrapSays numbers part.old outer.now out.old result.answer result.numbers part.new out.new }
{
    if out.len() < SHORTEST_OUTPUT {
        return Fed {
            answer: Err(Refusal::ShortOutput),
            numbers,
        };
    }
    if !is_outer(outer) {
        return Fed {
            answer: Err(Refusal::Foreign),
            numbers,
        };
    }
    if is_repeat(numbers, rtp::sequence_of(outer)) {
        return Fed {
            answer: Ok(Unwrapped::Repeat),
            numbers,
        };
    }
    accept(numbers, part, outer, out)
}
