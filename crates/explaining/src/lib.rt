// The program `explain`: a log replayed on a desk with each refusal explained under its line, and chunks by themselves.
#![tactic(auto)]

ghost use Rattle.std.specs.Prelude.{ℕ, ◌≡◌, false, [], ◌++◌, ◌+◌, ◌≤◌, ◌<◌, length, drop};
ghost use Rattle.text.specs.Output.{HasRoom, Adds};
ghost use Rattle.records.specs.Records.{length_bytes, mark_of, form_bytes, entry_in};
ghost use Rattle.programs.specs.Programs.{alone};
ghost use Rattle.meaning.specs.Sizes.{longest_chunk};
ghost use Rattle.segments.specs.Segment.{segment_kind, most_segments};
ghost use Rattle.slots.specs.Gathering.{chunk_in};
ghost use Rattle.notes.specs.Notes.{slot_for};
ghost use Rattle.desk.specs.Desks.{desk, bytes_for, side_of, segment_after, shown};
ghost use Rattle.desk.specs.Calls.{State, Ready};
ghost use Rattle.lines.specs.Lines.{answer_lines};
ghost use Rattle.replay.specs.Seen.{desk_of, seen, lent, SameMemories};
ghost use Rattle.explains.specs.Explaining.{chunk_explained, gathered_explained};
ghost use Rattle.explain_lines.specs.Lines.{explained_line, chunk_lines};
ghost use Rattle.explaining.specs.Explained.{explain_form, longest_record, refused_by, under_segment, longest_text, explain_program, RecordSays};

use explain_lines::LONGEST;
use explains::Explained;
use meaning::{Kind, LONGEST_CHUNK, Refusal};
use notes::Notes;
use programs::{Borrower, Put};
use records::{Entry, Form, LENGTH_BYTES};
use replay::{FRAME_MARK, GATHERING_MARK, Replay};
use segments::PAYLOAD_BYTES;
use slots::Answer;
use text::Output;

// The mark of a chunk, and the number that its two bytes say.
// Stays: (d) a constant's value cannot be a call, as of `from_be_bytes`.
const CH: [u8; 2] = *b"CH";

const CHUNK_MARK: u16 = CH[0] as u16 * 256 + CH[1] as u16;

// The program, in the state that the records so far left: that of the log.
#[derive(Drop)]
pub struct Explain<'a> {
    pub replay: Replay<'a>,
}

// What a mark of the file tells.
fn form_of(mark: u16) -> Form
    ensures form { result ≡ explain_form mark }
    ensures within { form_bytes result ≤ longest_record }
{
    match mark {
        CHUNK_MARK => Form::Counted {
            least: 0,
            most: 65535,
        },
        _ => replay::form_of(mark),
    }
}

// What stands at a place of the file.
pub fn entry_at(file: &[u8], at: usize) -> Entry
    ensures { result ≡ entry_in explain_form (drop at file.now) }
{
    programs::entry_at::<Explain>(file, at)
}

// ---- what is explained under a segment's line

// The kind of a segment.
fn kind_in(seg: &[u8]) -> Kind
    ensures { result ≡ segment_kind seg.now }
{
    if seg.len() == 0 {
        return Kind::Next;
    }
    Kind::from(seg[0] / 2 % 2)
}

// The segment itself and the slot of its kind.
fn explain_before(kind: Kind, notes: Notes, bytes: &[u8], seg: &[u8]) -> Option<Explained>
    requires { length bytes.now ≡ longest_chunk + longest_chunk }
    ensures { result ≡ gathered_explained (slot_for kind notes) (bytes_for kind (desk notes bytes.now)) seg.now }
{
    let slot = notes::own(kind, notes);
    match kind {
        Kind::This => explains::explain_gathered(seg, slot, &bytes[..LONGEST_CHUNK]),
        Kind::Next => explains::explain_gathered(seg, slot, &bytes[LONGEST_CHUNK..]),
    }
}

// The chunk that the slot of a kind holds.
fn explain_held(kind: Kind, notes: Notes, bytes: &[u8]) -> Option<Explained>
    requires { (length bytes.now ≡ longest_chunk + longest_chunk) × ((slot_for kind notes).last < most_segments) }
    ensures { result ≡ chunk_explained (chunk_in (side_of kind (desk notes bytes.now) [])) }
{
    let slot = notes::own(kind, notes);
    let end = PAYLOAD_BYTES * (slot.last as usize + 1);
    match kind {
        Kind::This => explains::explain_chunk(&bytes[..end]),
        Kind::Next => explains::explain_chunk(&bytes[LONGEST_CHUNK..LONGEST_CHUNK + end]),
    }
}

// Only a refusal is explained: by what was explained before, or else by that chunk.
fn explain_answer(
    answer: Result<Answer, Refusal>,
    before: Option<Explained>,
    kind: Kind,
    notes: Notes,
    bytes: &[u8],
) -> Option<Explained>
    requires { (length bytes.now ≡ longest_chunk + longest_chunk) × ((slot_for kind notes).last < most_segments) }
    ensures { result ≡ refused_by answer before (chunk_explained (chunk_in (side_of kind (desk notes bytes.now) []))) }
{
    match answer {
        Ok(_) => None,
        Err(_) => before.or_else(|| explain_held(kind, notes, bytes)),
    }
}

// ---- the records

impl Explain<'_> {
    // A segment: the desk driven, the lines of its answer, and the line that explains a refusal.
    fn segment(&mut self, seg: &[u8], out: &mut Output<'_>)
        requires ready { Ready (seen self.old.replay) }
        requires longest_text_in_bounds { HasRoom longest_text out.old }
        ensures left { (desk_of self.new.replay ≡ (segment_after (desk_of self.old.replay) seg.now self.old.replay.first.now self.old.replay.second.now).desk) × (self.new.replay.first.now ≡ (segment_after (desk_of self.old.replay) seg.now self.old.replay.first.now self.old.replay.second.now).first) × (self.new.replay.second.now ≡ (segment_after (desk_of self.old.replay) seg.now self.old.replay.first.now self.old.replay.second.now).second) }
        ensures same_memories { SameMemories self.old.replay self.new.replay }
        ensures put { Adds (answer_lines (segment_after (desk_of self.old.replay) seg.now self.old.replay.first.now self.old.replay.second.now).answer (shown (segment_kind seg.now) (desk_of self.new.replay) self.new.replay.first.now self.new.replay.second.now) ++ explained_line (under_segment (seen self.old.replay) seg.now)) out.old out.new }
    {
        let kind = kind_in(seg);
        let notes = self.replay.notes;
        let bytes = &mut *self.replay.bytes;
        let before = explain_before(kind, notes, bytes, seg);
        let answer = self.replay.segment(seg, out);
        let after = self.replay.notes;
        let bytes = &mut *self.replay.bytes;
        let explained = explain_answer(answer, before, kind, after, bytes);
        explain_lines::put_explained(explained, out);
    }

    // The call that a record with this mark makes, and its lines. A chunk stands behind its length, and changes nothing on the desk.
    fn call(&mut self, mark: u16, content: &[u8], out: &mut Output<'_>)
        requires ready { Ready (seen self.old.replay) }
        requires longest_text_in_bounds { HasRoom longest_text out.old }
        requires length_bytes_in_bounds { mark ≡ mark_of "CH" → length_bytes ≤ length content.now }
        ensures says { RecordSays (seen self.old.replay) mark content.now (seen self.new.replay) out.old out.new }
        ensures same_memories { SameMemories self.old.replay self.new.replay }
    {
        match mark {
            CHUNK_MARK => explain_lines::put_chunk(&content[LENGTH_BYTES..], out),
            FRAME_MARK => self.replay.call(mark, content, out),
            GATHERING_MARK => self.replay.call(mark, content, out),
            _ => self.segment(content, out),
        }
    }
}

impl Borrower for Explain<'_> {
    ghost Seen = { State };

    ghost seen = { λ p. seen p.replay };

    ghost channels = { alone explain_program };

    ghost Lent = { ℕ × ℕ × ℕ };

    ghost lent = { λ p. lent p.replay };

    ghost Ready = { λ p. Ready (seen p.replay) };

    ghost reports = { false };

    ghost longest_record = { longest_record };

    fn longest() -> usize
        ensures { result ≡ longest_text }
    {
        LONGEST
    }

    fn form_of(mark: u16) -> Form
        ensures form { result ≡ explain_form mark }
        ensures within { form_bytes result ≤ longest_record }
    {
        form_of(mark)
    }

    fn take(
        &mut self,
        mark: u16,
        content: &[u8],
        out: &mut [u8],
        to: usize,
        _report: &mut [u8],
        told: usize,
    ) -> Put {
        let mut output = Output { bytes: out, at: to };
        self.call(mark, content, &mut output);
        let wrote = output.at;
        Put { wrote, told }
    }

    fn put_last(&mut self, entry: Entry, out: &mut [u8], _report: &mut [u8]) -> Put {
        let wrote = records::put_last(entry, out);
        Put { wrote, told: 0 }
    }
}
