// The segments of a chunk, made in place.
#![tactic(auto)]

ghost use Rattle.std.specs.Prelude.{◌≡◌, ◌+◌, ◌*◌, ◌≤◌, ◌<◌, length};
ghost use Rattle.std.proofs.lemmas.List.Edits.{sets};
ghost use Rattle.segments.specs.Segment.{segment_bytes, most_segments};
ghost use Rattle.segment_puts.specs.Laid.{segment_laid, segments_laid};

use meaning::Kind;
use segments::{PAYLOAD_BYTES, SEGMENT_BYTES, SEGMENT_HEADER_BYTES};

// Makes one segment of the 35 bytes with its number, that stand before their place in the output: they move to it by value.
fn move_segment(kind: Kind, last: u8, number: u8, out: &mut [u8])
    requires { (last < most_segments) × (number ≤ last) × (segment_bytes * (last + 1) ≤ length out.old) }
    ensures { out.new ≡ sets out.old (segment_bytes * number) (segment_laid kind last out.old number) }
{
    let at = SEGMENT_BYTES * number as usize;
    let payload = segments::payload_at(out, PAYLOAD_BYTES * number as usize);
    segments::put_payload(payload, out, at + SEGMENT_HEADER_BYTES);
    out[at] = 48 + u8::from(kind) * 2;
    out[at + 1] = number * 16 + last;
}

// Makes the segments of a chunk that stands at the start of the output, with its stuffing: the last one first, so that no bytes are lost. Internal:
// the writer calls it (docs/DECISIONS.md, 7).
pub fn move_segments(kind: Kind, last: u8, out: &mut [u8])
    requires { (last < most_segments) × (segment_bytes * (last + 1) ≤ length out.old) }
    ensures { out.new ≡ sets out.old 0 (segments_laid kind last out.old 0 (last + 1)) }
{
    for i in 0..last + 1 {
        move_segment(kind, last, last - i, out);
    }
}
