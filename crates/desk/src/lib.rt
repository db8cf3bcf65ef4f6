// The desk: a slot for each kind, the lengths of the two listings, and which of the two lent buffers serves this frame.
#![tactic(auto)]

ghost use Rattle.std.specs.Prelude.{◌≡◌, true, cond, ◌++◌, ◌+◌, ◌≤◌, length, Ok};
ghost use Rattle.meaning.specs.Sizes.{longest_chunk, longest_listing};
ghost use Rattle.segments.specs.Segment.{segment_checks};
ghost use Rattle.slots.specs.Slots.{no_bytes};
ghost use Rattle.notes.specs.Notes.{lent_for};
ghost use Rattle.desk.specs.Desks.{desk as Desks·desk, fresh as Desks·fresh, well_formed, new_gathering, new_frame, after, taken_by, segment_after, shown_length, shown as Desks·shown};

use meaning::{Kind, LONGEST_CHUNK, Refusal};
use notes::Notes;
use slots::Answer;

// The desk: its numbers, and the bytes of the two slots, those for this frame first.
#[derive(Clone, Copy)]
pub struct Desk {
    pub notes: Notes,
    pub bytes: [u8; 1120],
}

pub const BYTES: usize = 2 * LONGEST_CHUNK;

// An answer to a segment, with the desk afterwards.
#[derive(Clone, Copy)]
pub struct Taken {
    pub answer: Result<Answer, Refusal>,
    pub desk: Desk,
}

// The same, with the desk's numbers only: its bytes were changed in place.
#[derive(Clone, Copy)]
pub struct Driven {
    pub answer: Result<Answer, Refusal>,
    pub notes: Notes,
}

// Whether a desk is well formed.
fn fits(notes: Notes, bytes: &[u8]) -> bool
    requires { length bytes.now ≡ longest_chunk + longest_chunk }
    ensures { result ≡ well_formed (Desks·desk notes bytes.now) }
{
    notes::length_fits(notes.shown)
        && notes::length_fits(notes.coming)
        && slots::slot_fits(notes.this, &bytes[..LONGEST_CHUNK])
        && slots::slot_fits(notes.next, &bytes[LONGEST_CHUNK..])
}

// Clears the bytes of both slots. Internal.
pub fn clear(notes: Notes, bytes: &mut [u8])
    requires { well_formed (Desks·desk notes bytes.old) ≡ true }
    ensures { bytes.new ≡ no_bytes ++ no_bytes }
{
    slots::clear(notes.this, &mut bytes[..LONGEST_CHUNK]);
    slots::clear(notes.next, &mut bytes[LONGEST_CHUNK..]);
}

// A segment that passed the checks on itself comes to the slot of its kind.
fn steer(
    kind: Kind,
    notes: Notes,
    bytes: &mut [u8],
    seg: &[u8],
    first: &mut [u8],
    second: &mut [u8],
) -> Driven
    requires { (well_formed (Desks·desk notes bytes.old) ≡ true) × (segment_checks seg.now ≡ Ok tt) × (longest_listing ≤ length first.old) × (longest_listing ≤ length second.old) }
    ensures { after result.answer (Desks·desk result.notes bytes.new) first.new second.new ≡ taken_by kind (Desks·desk notes bytes.old) seg.now first.old second.old }
{
    let slot = notes::own(kind, notes);
    let at = notes::start_of(kind);
    let one = notes::first_serves(kind, notes.swapped);
    let g = slots::gather(
        kind,
        slot,
        &mut bytes[at..at + LONGEST_CHUNK],
        seg,
        one,
        first,
        second,
    );
    Driven {
        answer: g.answer,
        notes: notes::with_slot(notes, kind, g.slot, g.answer),
    }
}

// A segment comes to a well formed desk whose bytes are lent in place, with buffers that are long enough. Internal: for callers that make many
// calls.
pub fn drive(
    notes: Notes,
    bytes: &mut [u8],
    seg: &[u8],
    first: &mut [u8],
    second: &mut [u8],
) -> Driven
    requires { (well_formed (Desks·desk notes bytes.old) ≡ true) × (longest_listing ≤ length first.old) × (longest_listing ≤ length second.old) }
    ensures { after result.answer (Desks·desk result.notes bytes.new) first.new second.new ≡ segment_after (Desks·desk notes bytes.old) seg.now first.old second.old }
{
    match segments::check_segment(seg) {
        Err(refusal) => Driven {
            answer: Err(refusal),
            notes,
        },
        Ok(_) => {
            let kind = Kind::from(seg[0] / 2 % 2);
            steer(kind, notes, bytes, seg, first, second)
        }
    }
}

impl Desk {
    // Empty slots, no listing, and the first buffer for this frame.
    pub fn fresh() -> Desk
        ensures { result ≡ Desks·fresh }
    {
        let notes = Notes::emptied(0, 0, false);
        Desk::bare(notes)
    }

    // These numbers, and no bytes.
    fn bare(notes: Notes) -> Desk
        ensures { result ≡ Desks·desk notes (no_bytes ++ no_bytes) }
    {
        Desk {
            notes,
            bytes: [0u8; BYTES],
        }
    }

    fn well_formed(self) -> bool
        ensures { result ≡ well_formed self }
    {
        fits(self.notes, &self.bytes)
    }

    // These numbers and no bytes if the desk is well formed, and else a fresh one.
    fn emptied(self, notes: Notes) -> Desk
        ensures { result ≡ cond (well_formed self) (Desks·desk notes (no_bytes ++ no_bytes)) Desks·fresh }
    {
        if self.well_formed() {
            Desk::bare(notes)
        } else {
            Desk::fresh()
        }
    }

    // Empties both slots.
    pub fn new_gathering(self) -> Desk
        ensures { result ≡ new_gathering self }
    {
        self.emptied(self.notes.gathering())
    }

    // Empties both slots; the next frame's listing becomes this frame's, and the buffers change roles.
    pub fn new_frame(self) -> Desk
        ensures { result ≡ new_frame self }
    {
        self.emptied(self.notes.frame())
    }

    // A segment goes to its kind's slot.
    pub fn segment(self, seg: &[u8], first: &mut [u8], second: &mut [u8]) -> Taken
        ensures { after result.answer result.desk first.new second.new ≡ segment_after self seg.now first.old second.old }
    {
        let formed = self.well_formed();
        let long = notes::roomy(first, second);
        if !formed {
            return Taken {
                answer: Err(Refusal::BadDesk),
                desk: self,
            };
        }
        if !long {
            return Taken {
                answer: Err(Refusal::ShortBuffer),
                desk: self,
            };
        }
        let mut bytes = self.bytes;
        let driven = drive(self.notes, &mut bytes, seg, first, second);
        Taken {
            answer: driven.answer,
            desk: Desk {
                notes: driven.notes,
                bytes,
            },
        }
    }

    // How much of a buffer is shown.
    #[tactic(auto, unfolding(crate::specs::Desks::shown_length))]
    fn shown_length(self, kind: Kind, first: &[u8], second: &[u8]) -> usize
        ensures { result ≡ shown_length kind self first.now second.now }
    {
        let formed = self.well_formed();
        let long = notes::roomy(first, second);
        let length = notes::listed_for(kind, self.notes);
        if formed && long { length } else { 0 }
    }

    // The part of one of the two buffers that holds the listing for this frame or the next.
    pub fn show<'a>(self, kind: Kind, first: &'a [u8], second: &'a [u8]) -> &'a [u8]
        ensures result_value { result.now ≡ Desks·shown kind self first.now second.now }
        ensures ref_ptr_value { result.ref_ptr ≡ lent_for kind self.notes.swapped first.entry.ref_ptr second.entry.ref_ptr }
    {
        let length = self.shown_length(kind, first, second);
        notes::part(kind, self.notes.swapped, length, first, second)
    }
}
