// The tunnel's writer: inner packets in, the outer packets that they fill out. What fills none is left until the next call, or the close.
#![tactic(auto)]

ghost use Rattle.std.specs.Prelude.{◌≡◌, cond, ◌+◌, ◌*◌, ◌/◌, ◌%◌, ◌≤◌, ◌<◌, ltb, eqb, length, drop, Ok};
ghost use Rattle.std.proofs.lemmas.List.Edits.{sets};
ghost use Rattle.rtp.specs.Header.{header_bytes, sequences};
ghost use Rattle.packets.specs.Packets.{longest_packet};
ghost use Rattle.packets.specs.Stored.{line};
ghost use Rattle.wrapper.specs.Wrap.{most_size, is_size, writer, fresh_numbers, left_by, begin_by, waiting_in, joined, first_of, running, head_bytes, outer_of, outers_of, holding, refusal_number, wrapped_values, emptied, Sized, Fills, filled_in, last_in, WrapSays, SendSays, CloseSays};

use rtp::HEADER_BYTES;

// The writer's numbers: the payload size, the next sequence number, how many bytes are left, where in them a packet first begins, and the timestamp of the
// first of them.
#[derive(Clone, Copy)]
pub struct Numbers {
    pub size: usize,
    pub next: u16,
    pub left: usize,
    pub begin: usize,
    pub timestamp: u32,
}

// Why the writer refuses a call.
#[derive(Clone, Copy, Debug, PartialEq, Eq)]
pub enum Refusal {
    ShortOutput,
    // no payload has this size
    BadSize,
    // a packet that may not be carried
    NotCarried,
}

// The number of a refusal.
impl From<Refusal> for u8 {
    ghost from_gives = { λ refusal number. number ≡ refusal_number refusal };

    fn from(refusal: Refusal) -> u8 {
        match refusal {
            Refusal::ShortOutput => 1,
            Refusal::BadSize => 18,
            Refusal::NotCarried => 19,
        }
    }
}

// An answer in numbers: its number, 0 where it is no refusal; and the bytes written.
#[derive(Clone, Copy)]
pub struct Values {
    pub number: u8,
    pub wrote: usize,
}

// The answer, that so many bytes of outer packets stand at the start of the output, or a refusal; and the numbers afterwards.
#[derive(Clone, Copy)]
pub struct Given {
    pub answer: Result<usize, Refusal>,
    pub numbers: Numbers,
}

// The limits of a payload's size.
pub const LEAST_SIZE: usize = 64;

pub const MOST_SIZE: usize = 1400;

// What an answer says.
pub fn values_of(answer: Result<usize, Refusal>) -> Values
    ensures { result ≡ wrapped_values answer }
{
    match answer {
        Ok(wrote) => Values { number: 0, wrote },
        Err(refusal) => Values {
            number: u8::from(refusal),
            wrote: 0,
        },
    }
}

// ---- the state

// A fresh writer's numbers.
pub fn fresh(size: usize, first: u16) -> Numbers
    ensures { result ≡ fresh_numbers size first }
{
    Numbers {
        size,
        next: first,
        left: 0,
        begin: 0,
        timestamp: 0,
    }
}

// Whether payloads may have this size.
#[tactic(auto, unfolding(crate::specs::Wrap::is_size))]
pub fn is_size(size: usize) -> bool
    ensures { result ≡ is_size size }
{
    LEAST_SIZE <= size && size <= MOST_SIZE
}

impl Numbers {
    // How many bytes wait.
    #[tactic(auto, unfolding(crate::specs::Wrap::left_by))]
    fn waiting(self) -> usize
        ensures { result ≡ left_by self }
    {
        if self.left < self.size { self.left } else { 0 }
    }

    // Where in them a packet first begins; their end, if none does.
    #[tactic(auto, unfolding(crate::specs::Wrap::begin_by))]
    fn first_begin(self) -> usize
        ensures { result ≡ begin_by self }
    {
        let end = self.waiting();
        if self.begin < end { self.begin } else { end }
    }

    // The timestamp of the first byte that waits, where a call with this one gives more.
    fn first_stamp(self, timestamp: u32) -> u32
        ensures { result ≡ cond (eqb (left_by self) 0) timestamp self.timestamp }
    {
        if self.waiting() == 0 {
            timestamp
        } else {
            self.timestamp
        }
    }

    // Nothing is left, behind k outer packets more.
    fn emptied(self, k: usize) -> Numbers
        requires { k < 65536 }
        ensures { result ≡ emptied self k }
    {
        Numbers {
            next: following(self.next, k),
            left: 0,
            begin: 0,
            ..self
        }
    }
}

// The sequence number behind so many outer packets more.
fn following(sequence: u16, k: usize) -> u16
    requires { k < 65536 }
    ensures { result ≡ (sequence + k) % sequences }
{
    ((sequence as usize + k) % 65536) as u16
}

// ---- outer packets

// The first two bytes of an outer packet, where a packet first begins at this place of a payload of this size: the marker is set if it does.
fn mark_by(begin: usize, size: usize) -> u16
    ensures { result ≡ cond (ltb begin size) 0x80E1 0x8061 }
{
    if size <= begin { 0x8061 } else { 0x80E1 }
}

// Its packet_offset.
fn offset_by(begin: usize, size: usize) -> u16
    requires { size ≤ most_size }
    ensures { result ≡ cond (ltb begin size) begin 0 }
{
    if begin < size { begin as u16 } else { 0 }
}

// Puts the header of an outer packet whose payload has this size.
fn put_header(sequence: u16, timestamp: u32, begin: usize, size: usize, out: &mut [u8], at: usize)
    requires { (size ≤ most_size) × (at + header_bytes ≤ length out.old) }
    ensures { out.new ≡ sets out.old at (head_bytes sequence timestamp begin size) }
{
    octets::put_word(mark_by(begin, size), out, at);
    octets::put_word(sequence, out, at + 2);
    octets::put_word((timestamp / 65536) as u16, out, at + 4);
    octets::put_word((timestamp % 65536) as u16, out, at + 6);
    // protocol_version 1, no redundancy, one channel
    octets::put_word(0x4000, out, at + 8);
    octets::put_word(offset_by(begin, size), out, at + 10);
}

// Puts the outer packet whose payload is what is left and the start of the packet behind it.
fn put_joined(numbers: Numbers, timestamp: u32, bytes: &[u8; 1400], packet: &[u8], out: &mut [u8])
    requires { Sized numbers × (numbers.size ≤ left_by numbers + length packet.now) × (header_bytes + numbers.size ≤ length out.old) }
    ensures { out.new ≡ sets out.old 0 (outer_of numbers.next (first_of numbers.size (joined (waiting_in (writer numbers bytes.now)) packet.now timestamp))) }
{
    let left = numbers.waiting();
    let begin = numbers.first_begin();
    let stamp = numbers.first_stamp(timestamp);
    put_header(numbers.next, stamp, begin, numbers.size, out, 0);
    copies::put(out, HEADER_BYTES, bytes, 0, left);
    copies::put(out, HEADER_BYTES + left, packet, 0, numbers.size - left);
}

// Puts k outer packets with payloads from a place of the packet on, in which none begins.
fn put_later(
    k: usize,
    size: usize,
    sequence: u16,
    timestamp: u32,
    packet: &[u8],
    from: usize,
    out: &mut [u8],
    at: usize,
)
    requires { (size ≤ most_size) × (from + k * size ≤ length packet.now) × (at + k * (header_bytes + size) ≤ length out.old) }
    ensures { out.new ≡ sets out.old at (line (outers_of k size sequence timestamp (running timestamp (drop from packet.now)))) }
{
    let mut next = sequence;
    let mut here = from;
    let mut to = at;
    for _ in 0..k {
        put_header(next, timestamp, size, size, out, to);
        copies::put(out, to + HEADER_BYTES, packet, here, size);
        next = following(next, 1);
        here += size;
        to += HEADER_BYTES + size;
    }
}

// ---- the calls

// The packet fills no payload: it is left, behind what was.
fn keep(numbers: Numbers, bytes: &mut [u8; 1400], packet: &[u8], timestamp: u32) -> Given
    requires { Sized numbers × (left_by numbers + length packet.now < numbers.size) }
    ensures { (result.answer ≡ Ok 0) × (writer result.numbers bytes.new ≡ holding (writer numbers bytes.old) 0 (joined (waiting_in (writer numbers bytes.old)) packet.now timestamp)) }
{
    let left = numbers.waiting();
    copies::put(bytes, left, packet, 0, packet.len());
    Given {
        answer: Ok(0),
        numbers: Numbers {
            left: left + packet.len(),
            begin: numbers.first_begin(),
            timestamp: numbers.first_stamp(timestamp),
            ..numbers
        },
    }
}

// The packet fills payloads: these go out, and its end is left.
fn send(
    numbers: Numbers,
    full: usize,
    bytes: &mut [u8; 1400],
    packet: &[u8],
    timestamp: u32,
    out: &mut [u8],
) -> Given
    requires { Fills numbers packet.now (length out.old) full }
    ensures { SendSays numbers bytes.old packet.now timestamp full out.old result.answer result.numbers bytes.new out.new }
{
    let size = numbers.size;
    let left = numbers.waiting();
    put_joined(numbers, timestamp, bytes, packet, out);
    put_later(
        full - 1,
        size,
        following(numbers.next, 1),
        timestamp,
        packet,
        size - left,
        out,
        HEADER_BYTES + size,
    );
    let from = full * size - left;
    let rest = packet.len() - from;
    copies::put(bytes, 0, packet, from, rest);
    Given {
        answer: Ok(full * (HEADER_BYTES + size)),
        numbers: Numbers {
            size,
            next: following(numbers.next, full),
            left: rest,
            begin: rest,
            timestamp,
        },
    }
}

// How many payloads of a size so many bytes fill: mostly none; and the processor divides numbers of 32 bits faster than greater ones.
fn full_in(n: usize, size: usize) -> usize
    requires { (n < 65536) × (1 ≤ size) × (size < 65536) }
    ensures { result ≡ n / size }
{
    if n < size {
        0
    } else {
        (n as u32 / size as u32) as usize
    }
}

// How many payloads a packet fills, by the checks in their order: the output has room for these.
#[tactic(auto, unfolding(crate::specs::Wrap::filled_in))]
fn filled_in(numbers: Numbers, packet: &[u8], room: usize) -> Result<usize, Refusal>
    ensures { result ≡ filled_in numbers packet.now room }
{
    let size = numbers.size;
    if !is_size(size) {
        return Err(Refusal::BadSize);
    }
    if !packets::is_carried(packet) {
        return Err(Refusal::NotCarried);
    }
    let full = full_in(numbers.waiting() + packet.len(), size);
    if room < full * (HEADER_BYTES + size) {
        return Err(Refusal::ShortOutput);
    }
    Ok(full)
}

// How many bytes the close takes out, likewise.
#[tactic(auto, unfolding(crate::specs::Wrap::last_in))]
fn last_in(numbers: Numbers, room: usize) -> Result<usize, Refusal>
    ensures { result ≡ last_in numbers room }
{
    if !is_size(numbers.size) {
        return Err(Refusal::BadSize);
    }
    let left = numbers.waiting();
    if left != 0 && room < HEADER_BYTES + left {
        return Err(Refusal::ShortOutput);
    }
    Ok(left)
}

// Writes a packet: the outer packets that it fills go to the start of the output. The memory of what is left is lent in place, from call to call.
pub fn wrap(
    numbers: Numbers,
    bytes: &mut [u8; 1400],
    packet: &[u8],
    timestamp: u32,
    out: &mut [u8],
) -> Given
    ensures { WrapSays numbers bytes.old packet.now timestamp out.old result.answer result.numbers bytes.new out.new }
{
    match filled_in(numbers, packet, out.len()) {
        Ok(0) => keep(numbers, bytes, packet, timestamp),
        Ok(full) => send(numbers, full, bytes, packet, timestamp, out),
        Err(refusal) => Given {
            answer: Err(refusal),
            numbers,
        },
    }
}

// Closes: what is left, if anything, goes to the start of the output as one shorter outer packet.
pub fn close(numbers: Numbers, bytes: &[u8; 1400], out: &mut [u8]) -> Given
    ensures { CloseSays numbers bytes.now out.old result.answer result.numbers out.new }
{
    match last_in(numbers, out.len()) {
        Ok(0) => Given {
            answer: Ok(0),
            numbers: numbers.emptied(0),
        },
        Ok(left) => {
            let begin = numbers.first_begin();
            put_header(numbers.next, numbers.timestamp, begin, left, out, 0);
            copies::put(out, HEADER_BYTES, bytes, 0, left);
            Given {
                answer: Ok(HEADER_BYTES + left),
                numbers: numbers.emptied(1),
            }
        }
        Err(why) => Given {
            answer: Err(why),
            numbers,
        },
    }
}
