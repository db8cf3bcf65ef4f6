// The desk's numbers without its bytes, and the two lent buffers by their roles.
#![tactic(auto)]

ghost use Rattle.std.specs.Prelude.{◌≡◌, not, ◌||◌, ◌≤◌, take, length as List·length};
ghost use Rattle.meaning.specs.Sizes.{longest_chunk};
ghost use Rattle.notes.specs.Notes.{emptied_notes, length_fits, slot_for, length_for, length_after, notes_with, first_serves, lent_for, too_short};

use meaning::{Kind, LONGEST_CHUNK, LONGEST_LISTING, Refusal, TS_BYTES};
use slots::{Answer, Slot};

// The desk's numbers: the slots, the lengths of the listings for this frame and for the next (0 is none), and whether the second buffer
// serves this frame.
#[derive(Clone, Copy)]
pub struct Notes {
    pub this: Slot,
    pub next: Slot,
    pub shown: usize,
    pub coming: usize,
    pub swapped: bool,
}

impl Notes {
    // Empty slots and these listings. Internal.
    pub fn emptied(shown: usize, coming: usize, swapped: bool) -> Notes
        ensures { result ≡ emptied_notes shown coming swapped }
    {
        let empty = Slot {
            last: 0,
            held: 0,
            spoiled: false,
        };
        Notes {
            this: empty,
            next: empty,
            shown,
            coming,
            swapped,
        }
    }

    // The same numbers. Internal.
    // Stays: copied field by field, so that no byte between the fields is copied, which costs time in the loops of `replay` and `explaining`.
    pub fn anew(self) -> Notes
        ensures { result ≡ self }
    {
        Notes {
            this: self.this,
            next: self.next,
            shown: self.shown,
            coming: self.coming,
            swapped: self.swapped,
        }
    }

    // The numbers of a well formed desk in a new gathering. Internal.
    pub fn gathering(self) -> Notes
        ensures { result ≡ emptied_notes self.shown self.coming self.swapped }
    {
        Notes::emptied(self.shown, self.coming, self.swapped)
    }

    // The numbers of a well formed desk in a new frame. Internal.
    pub fn frame(self) -> Notes
        ensures { result ≡ emptied_notes self.coming 0 (not self.swapped) }
    {
        Notes::emptied(self.coming, 0, !self.swapped)
    }
}

// A length of a listing: 0, or 5 to 1,475. Internal.
pub fn length_fits(n: usize) -> bool
    ensures { result ≡ length_fits n }
{
    n == 0 || TS_BYTES <= n && n <= LONGEST_LISTING
}

// The length of a kind's listing, once a segment of that kind was answered.
fn length_after(answer: Result<Answer, Refusal>, before: usize) -> usize
    ensures { result ≡ length_after answer before }
{
    match answer {
        Ok(Answer::NewList { kind: _, length }) => length,
        Ok(Answer::Missing(_)) => before,
        Err(_) => before,
    }
}

// The slot of a kind. Internal.
pub fn own(kind: Kind, notes: Notes) -> Slot
    ensures { result ≡ slot_for kind notes }
{
    match kind {
        Kind::This => notes.this,
        Kind::Next => notes.next,
    }
}

// The length of a kind's listing. Internal.
pub fn listed_for(kind: Kind, notes: Notes) -> usize
    ensures { result ≡ length_for kind notes }
{
    match kind {
        Kind::This => notes.shown,
        Kind::Next => notes.coming,
    }
}

// Where the bytes of a kind's slot begin. Internal.
pub fn start_of(kind: Kind) -> usize
    ensures { (kind ≡ Kind.This → result ≡ 0) × (kind ≡ Kind.Next → result ≡ longest_chunk) }
{
    match kind {
        Kind::This => 0,
        Kind::Next => LONGEST_CHUNK,
    }
}

// The desk's numbers with a kind's slot as it became, and the length of its listing as the answer has it. Internal.
pub fn with_slot(notes: Notes, kind: Kind, slot: Slot, answer: Result<Answer, Refusal>) -> Notes
    ensures { result ≡ notes_with kind notes slot answer }
{
    match kind {
        Kind::This => Notes {
            this: slot,
            shown: length_after(answer, notes.shown),
            ..notes
        },
        Kind::Next => Notes {
            next: slot,
            coming: length_after(answer, notes.coming),
            ..notes
        },
    }
}

// Whether the first buffer serves this frame or the next. Internal.
pub fn first_serves(kind: Kind, swapped: bool) -> bool
    ensures { result ≡ first_serves kind swapped }
{
    match kind {
        Kind::This => !swapped,
        Kind::Next => swapped,
    }
}

// Whether both lent buffers are long enough. Internal.
pub fn roomy(first: &[u8], second: &[u8]) -> bool
    ensures { result ≡ not (too_short first.now || too_short second.now) }
{
    LONGEST_LISTING <= first.len() && LONGEST_LISTING <= second.len()
}

// The first bytes of the buffer that serves this frame or the next. Internal.
pub fn part<'a>(
    kind: Kind,
    swapped: bool,
    length: usize,
    first: &'a [u8],
    second: &'a [u8],
) -> &'a [u8]
    requires { length ≤ List·length (lent_for kind swapped first.now second.now) }
    ensures result_value { result.now ≡ take length (lent_for kind swapped first.now second.now) }
    ensures ref_ptr_value { result.ref_ptr ≡ lent_for kind swapped first.entry.ref_ptr second.entry.ref_ptr }
{
    if first_serves(kind, swapped) {
        &first[..length]
    } else {
        &second[..length]
    }
}
