// The writer: a whole listing in, the segments of its list out. All checks first, then all writing, so that a refusal writes nothing.
#![tactic(auto)]

ghost use Rattle.std.specs.Prelude.{◌≡◌};
ghost use Rattle.writer.specs.Writing.{unwritten_number, WriteSays};

use meaning::{Kind, LONGEST_CHUNK};
use segments::{MOST_SEGMENTS, PAYLOAD_BYTES, SEGMENT_BYTES};

// Why the writer refuses, a variant for each of its numbers.
#[derive(Clone, Copy)]
pub enum Unwritten {
    ShortOutput,
    BadListing,
    TooMany,
}

// The number of a refusal.
impl From<Unwritten> for u8 {
    ghost from_gives = { λ refusal number. number ≡ unwritten_number refusal };

    fn from(refusal: Unwritten) -> u8 {
        match refusal {
            Unwritten::ShortOutput => 1,
            Unwritten::BadListing => 13,
            Unwritten::TooMany => 14,
        }
    }
}

// The shortest output: room for the 16 segments of the longest chunk.
pub const SHORTEST_OUTPUT: usize = MOST_SEGMENTS as usize * SEGMENT_BYTES;

const STUFFING: u8 = 0xFF;

// Writes the segments of a listing's list, for the kind, at the start of the lent output; how many there are. A refusal writes nothing.
pub fn write(listing: &[u8], kind: Kind, out: &mut [u8]) -> Result<usize, Unwritten>
    ensures { WriteSays listing.now kind out.old result out.new }
{
    if out.len() < SHORTEST_OUTPUT {
        return Err(Unwritten::ShortOutput);
    }
    let length = listing_checks::chunk_length(listing).ok_or(Unwritten::BadListing)?;
    if LONGEST_CHUNK < length {
        return Err(Unwritten::TooMany);
    }
    let count = (length + (PAYLOAD_BYTES - 1)) / PAYLOAD_BYTES;
    // only the last segment can have stuffing
    segments::put_payload([STUFFING; PAYLOAD_BYTES], out, PAYLOAD_BYTES * (count - 1));
    chunk_puts::put_chunk(listing, kind, out);
    segment_puts::move_segments(kind, (count - 1) as u8, out);
    Ok(count)
}
