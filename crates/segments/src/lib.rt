// A segment by itself: its sizes, the checks on its length and header, and its 35 bytes of payload.
#![tactic(auto)]

ghost use Rattle.std.specs.Prelude.{◌≡◌, ◌+◌, ◌≤◌, length, take, drop};
ghost use Rattle.std.proofs.lemmas.List.Edits.{sets};
ghost use Rattle.segments.specs.Segment.{payload_bytes, segment_checks};

use meaning::Refusal;

// A segment, its header and its payload; how many segments a chunk has at the most.
pub const SEGMENT_BYTES: usize = 37;

pub const SEGMENT_HEADER_BYTES: usize = 2;

pub const PAYLOAD_BYTES: usize = 35;

pub const MOST_SEGMENTS: u8 = 16;

// The checks on a segment's own length and header, in document 01's order.
#[tactic(auto, unfolding(crate::specs::Segment::segment_checks))]
pub fn check_segment(seg: &[u8]) -> Result<(), Refusal>
    ensures { result ≡ segment_checks seg.now }
{
    if seg.len() != SEGMENT_BYTES {
        return Err(Refusal::SegmentLength);
    }
    let first = seg[0];
    let second = seg[1];
    if first / 64 != 0 {
        return Err(Refusal::SegmentType);
    }
    if first % 2 != 0 {
        return Err(Refusal::ErrorBit);
    }
    if first / 4 % 4 != 0 {
        return Err(Refusal::OtherMajor);
    }
    if second % 16 < second / 16 {
        return Err(Refusal::NumberAboveLast);
    }
    Ok(())
}

// 35 bytes from a place on, by value: so they may go to another place of the same string. Internal, as the two below: `slots`, `segment_puts` and
// `writer` call them (docs/DECISIONS.md, 7).
pub fn payload_at(bytes: &[u8], at: usize) -> [u8; 35]
    requires { at + payload_bytes ≤ length bytes.now }
    ensures { result ≡ take payload_bytes (drop at bytes.now) }
{
    let mut payload = [0u8; PAYLOAD_BYTES];
    payload.copy_from_slice(&bytes[at..at + PAYLOAD_BYTES]);
    payload
}

// Puts 35 bytes at a place.
pub fn put_payload(payload: [u8; 35], to: &mut [u8], place: usize)
    requires { place + payload_bytes ≤ length to.old }
    ensures { to.new ≡ sets to.old place payload }
{
    to[place..place + PAYLOAD_BYTES].copy_from_slice(&payload);
}

// Puts 35 bytes from a place of one string at a place of another.
pub fn copy_payload(from: &[u8], at: usize, to: &mut [u8], place: usize)
    requires { (at + payload_bytes ≤ length from.now) × (place + payload_bytes ≤ length to.old) }
    ensures { to.new ≡ sets to.old place (take payload_bytes (drop at from.now)) }
{
    put_payload(payload_at(from, at), to, place);
}
