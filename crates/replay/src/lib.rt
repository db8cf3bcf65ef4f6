// The program `log`: a recorded log replayed on a desk, the call that each of its records makes, and the lines that are printed for it.
#![tactic(auto)]

ghost use Rattle.std.specs.Prelude.{ℕ, ◌≡◌, false, ◌+◌, ◌≤◌, length, length as List·length, take, drop};
ghost use Rattle.text.specs.Output.{HasRoom, Adds};
ghost use Rattle.records.specs.Records.{form_bytes, entry_in};
ghost use Rattle.programs.specs.Programs.{alone};
ghost use Rattle.segments.specs.Segment.{segment_kind};
ghost use Rattle.notes.specs.Notes.{lent_for};
ghost use Rattle.desk.specs.Desks.{fresh, new_frame, new_gathering, segment_after, shown};
ghost use Rattle.desk.specs.Calls.{State, state, Ready};
ghost use Rattle.lines.specs.Lines.{frame_lines, gathering_line, answer_lines, longest_lines};
ghost use Rattle.replay.specs.Log.{log_form, longest_record, log_program, CallSays};
ghost use Rattle.replay.specs.Seen.{desk_of, seen, lent, SameMemories};

use desk::{BYTES, Desk};
use lines::LONGEST_LINES;
use meaning::{Kind, LONGEST_LISTING, Refusal};
use notes::Notes;
use programs::{Borrower, Put};
use records::{Entry, Form};
use segments::SEGMENT_BYTES;
use slots::Answer;
use text::Output;

// The marks of a log's records, and the numbers that their two bytes say.
// Stays: (d) a constant's value cannot be a call, as of `from_be_bytes`.
const FR: [u8; 2] = *b"FR";

const GA: [u8; 2] = *b"GA";

const SG: [u8; 2] = *b"SG";

pub const FRAME_MARK: u16 = FR[0] as u16 * 256 + FR[1] as u16;

pub const GATHERING_MARK: u16 = GA[0] as u16 * 256 + GA[1] as u16;

const SEGMENT_MARK: u16 = SG[0] as u16 * 256 + SG[1] as u16;

// The program, in the state that the records so far left: the desk's numbers, and the lent memories of its bytes and of its two lists.
#[derive(Drop)]
pub struct Replay<'a> {
    pub notes: Notes,
    pub bytes: &'a mut [u8],
    pub first: &'a mut [u8],
    pub second: &'a mut [u8],
}

// What a mark of a log tells.
pub fn form_of(mark: u16) -> Form
    ensures form { result ≡ log_form mark }
    ensures within { form_bytes result ≤ longest_record }
{
    match mark {
        SEGMENT_MARK => Form::Fixed(SEGMENT_BYTES),
        GATHERING_MARK => Form::Fixed(0),
        FRAME_MARK => Form::Fixed(0),
        _ => Form::Foreign,
    }
}

impl<'a> Replay<'a> {
    // A fresh desk, with these memories.
    pub fn fresh(
        bytes: &'a mut [u8; BYTES],
        first: &'a mut [u8; LONGEST_LISTING],
        second: &'a mut [u8; LONGEST_LISTING],
    ) -> Replay<'a>
        ensures left { seen result ≡ state fresh first.old second.old }
        ensures ready { Ready (seen result) }
    {
        let desk = Desk::fresh();
        let none = desk.bytes;
        *bytes = none;
        Replay {
            notes: desk.notes,
            bytes,
            first,
            second,
        }
    }
}

impl Replay<'_> {
    // The first bytes of the memory that serves this frame or the next.
    fn listing(&self, kind: Kind, length: usize) -> &[u8]
        requires { length ≤ List·length (lent_for kind self.now.notes.swapped self.now.first.now self.now.second.now) }
        ensures { result.now ≡ take length (lent_for kind self.now.notes.swapped self.now.first.now self.now.second.now) }
    {
        notes::part(kind, self.notes.swapped, length, self.first, self.second)
    }

    // A new frame: the desk's bytes cleared, and the lines of what it shows.
    fn frame(&mut self, out: &mut Output<'_>)
        requires ready { Ready (seen self.old) }
        requires longest_lines_in_bounds { HasRoom longest_lines out.old }
        ensures left { seen self.new ≡ state (new_frame (desk_of self.old)) self.old.first.now self.old.second.now }
        ensures same_memories { SameMemories self.old self.new }
        ensures put { Adds (frame_lines (shown Kind.This (desk_of self.new) self.new.first.now self.new.second.now)) out.old out.new }
    {
        let notes = self.notes;
        desk::clear(notes, self.bytes);
        let after = notes.frame();
        self.notes = after;
        lines::put_frame(self.listing(Kind::This, after.shown), out);
    }

    // A new gathering: the desk's bytes cleared, and its line.
    fn gathering(&mut self, out: &mut Output<'_>)
        requires ready { Ready (seen self.old) }
        requires longest_lines_in_bounds { HasRoom longest_lines out.old }
        ensures left { seen self.new ≡ state (new_gathering (desk_of self.old)) self.old.first.now self.old.second.now }
        ensures same_memories { SameMemories self.old self.new }
        ensures put { Adds gathering_line out.old out.new }
    {
        let notes = self.notes;
        desk::clear(notes, self.bytes);
        self.notes = notes.gathering();
        lines::put_gathering(out);
    }

    // A segment: the desk driven, and the lines of its answer. Internal, as `call`: `explaining` calls them.
    pub fn segment(&mut self, seg: &[u8], out: &mut Output<'_>) -> Result<Answer, Refusal>
        requires ready { Ready (seen self.old) }
        requires longest_lines_in_bounds { HasRoom longest_lines out.old }
        ensures left { (desk_of self.new ≡ (segment_after (desk_of self.old) seg.now self.old.first.now self.old.second.now).desk) × (self.new.first.now ≡ (segment_after (desk_of self.old) seg.now self.old.first.now self.old.second.now).first) × (self.new.second.now ≡ (segment_after (desk_of self.old) seg.now self.old.first.now self.old.second.now).second) }
        ensures same_memories { SameMemories self.old self.new }
        ensures answer_value { result ≡ (segment_after (desk_of self.old) seg.now self.old.first.now self.old.second.now).answer }
        ensures put { Adds (answer_lines (segment_after (desk_of self.old) seg.now self.old.first.now self.old.second.now).answer (shown (segment_kind seg.now) (desk_of self.new) self.new.first.now self.new.second.now)) out.old out.new }
    {
        let notes = self.notes;
        let driven = desk::drive(notes, self.bytes, seg, self.first, self.second);
        self.notes = driven.notes.anew();
        let answer = driven.answer;
        match answer {
            Ok(Answer::NewList { kind, length }) => {
                lines::put_list(kind, self.listing(kind, length), out)
            }
            Ok(Answer::Missing(n)) => lines::put_missing(n, out),
            Err(refusal) => lines::put_refused(refusal, out),
        }
        answer
    }

    // The call that a record with this mark makes, and its lines.
    pub fn call(&mut self, mark: u16, content: &[u8], out: &mut Output<'_>)
        requires ready { Ready (seen self.old) }
        requires longest_lines_in_bounds { HasRoom longest_lines out.old }
        ensures says { CallSays (seen self.old) mark content.now (seen self.new) out.old out.new }
        ensures same_memories { SameMemories self.old self.new }
    {
        match mark {
            FRAME_MARK => self.frame(out),
            GATHERING_MARK => self.gathering(out),
            _ => {
                let _ = self.segment(content, out);
            }
        }
    }
}

impl Borrower for Replay<'_> {
    ghost Seen = { State };

    ghost seen = { seen };

    ghost channels = { alone log_program };

    ghost Lent = { ℕ × ℕ × ℕ };

    ghost lent = { lent };

    ghost Ready = { λ p. Ready (seen p) };

    ghost reports = { false };

    ghost longest_record = { longest_record };

    fn longest() -> usize
        ensures { result ≡ longest_lines }
    {
        LONGEST_LINES
    }

    fn form_of(mark: u16) -> Form
        ensures form { result ≡ log_form mark }
        ensures within { form_bytes result ≤ longest_record }
    {
        form_of(mark)
    }

    fn take(
        &mut self,
        mark: u16,
        content: &[u8],
        out: &mut [u8],
        to: usize,
        _report: &mut [u8],
        told: usize,
    ) -> Put {
        let mut output = Output { bytes: out, at: to };
        self.call(mark, content, &mut output);
        let wrote = output.at;
        Put { wrote, told }
    }

    fn put_last(&mut self, entry: Entry, out: &mut [u8], _report: &mut [u8]) -> Put {
        let wrote = records::put_last(entry, out);
        Put { wrote, told: 0 }
    }
}

// What stands at a place of a log.
pub fn entry_at(log: &[u8], at: usize) -> Entry
    ensures { result ≡ entry_in log_form (drop at log.now) }
{
    programs::entry_at::<Replay>(log, at)
}
