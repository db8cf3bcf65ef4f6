// What each offered call says of its result, for any arguments: each function here has the call's contract, word for word, and only makes the
// call. A call that said less, or that asked for something, would not be taken here. No `requires` stands on this page.
#![tactic(auto)]

ghost use Rattle.std.specs.Prelude.{◌≡◌, T, drop};
ghost use Rattle.octets.specs.Checks.{among};
ghost use Rattle.octets.specs.Word.{word, high, low};
ghost use Rattle.meaning.specs.Lists.{kind_of, current_of};
ghost use Rattle.meaning.specs.Numbers.{number_of, offset_of};
ghost use Rattle.meaning.specs.Reading.{checks, read_answer, read_buffer, ReadSays};
ghost use Rattle.segments.specs.Segment.{segment_checks};
ghost use Rattle.writer.specs.Writing.{unwritten_number, write_answer, write_output, WriteSays};
ghost use Rattle.typed.specs.Typed.{ReplySays};
ghost use Rattle.slots.specs.Slots.{slot_fits};
ghost use Rattle.notes.specs.Notes.{lent_for};
ghost use Rattle.desk.specs.Desks.{fresh, new_gathering, new_frame, after, segment_after, shown};
ghost use Rattle.records.specs.Records.{mark_in, entry_as, entry_in, end_number};
ghost use Rattle.replay.specs.Log.{log_form};
ghost use Rattle.lukasembo.specs.Packed.{packed_read, packed_written};
ghost use Rattle.manners.specs.Manners.{bytes_in, ended_by, status_of};
ghost use Rattle.blocks.specs.Blocks.{stops_at, run_statuses};
ghost use Rattle.replies.specs.Replies.{reply_statuses};

use blocks::Step;
use desk::{Desk, Taken};
use manners::{Came, Ending, Unsent};
use meaning::{Kind, Listed, Refusal};
use records::{Entry, Form};
use slots::Slot;
use std::io;
use typed::Unanswered;
use writer::Unwritten;

// ---- the reader

pub fn read(chunk: &[u8], out: &mut [u8]) -> Result<Listed, Refusal>
    ensures { ReadSays chunk.now out.old result out.new }
{
    reader::read(chunk, out)
}

pub fn check_chunk(chunk: &[u8]) -> Result<(), Refusal>
    ensures { result ≡ checks chunk.now }
{
    chunk_checks::check_chunk(chunk)
}

// ---- a segment by itself

pub fn check_segment(seg: &[u8]) -> Result<(), Refusal>
    ensures { result ≡ segment_checks seg.now }
{
    segments::check_segment(seg)
}

// ---- the writer

pub fn write(listing: &[u8], kind: Kind, out: &mut [u8]) -> Result<usize, Unwritten>
    ensures { WriteSays listing.now kind out.old result out.new }
{
    writer::write(listing, kind, out)
}

// ---- the desk

pub fn fresh_desk() -> Desk
    ensures { result ≡ fresh }
{
    Desk::fresh()
}

pub fn new_gathering(desk: Desk) -> Desk
    ensures { result ≡ new_gathering desk }
{
    desk.new_gathering()
}

pub fn new_frame(desk: Desk) -> Desk
    ensures { result ≡ new_frame desk }
{
    desk.new_frame()
}

pub fn segment(desk: Desk, seg: &[u8], first: &mut [u8], second: &mut [u8]) -> Taken
    ensures { after result.answer result.desk first.new second.new ≡ segment_after desk seg.now first.old second.old }
{
    desk.segment(seg, first, second)
}

// The part that is shown lies where one of the two buffers begins.
pub fn show<'a>(desk: Desk, kind: Kind, first: &'a [u8], second: &'a [u8]) -> &'a [u8]
    ensures result_value { result.now ≡ shown kind desk first.now second.now }
    ensures ref_ptr_value { result.ref_ptr ≡ lent_for kind desk.notes.swapped first.entry.ref_ptr second.entry.ref_ptr }
{
    desk.show(kind, first, second)
}

// ---- what is typed, for programs in C, and the small ones

pub fn respond(text: &[u8], log: &mut [u8]) -> Result<usize, Unanswered>
    ensures { ReplySays text.now log.old result log.new }
{
    typed::respond(text, log)
}

pub fn read_for_c(chunk: &[u8], buffer: &mut [u8]) -> u64
    ensures { (result ≡ packed_read (read_answer chunk.now buffer.old)) × (buffer.new ≡ read_buffer chunk.now buffer.old) }
{
    lukasembo::lukasembo_read(chunk, buffer)
}

pub fn write_for_c(listing: &[u8], current: u8, output: &mut [u8]) -> u64
    ensures { (result ≡ packed_written (write_answer listing.now (kind_of current) output.old)) × (output.new ≡ write_output listing.now (kind_of current) output.old) }
{
    lukasembo::lukasembo_write(listing, current, output)
}

pub fn entry_at(log: &[u8], at: usize) -> Entry
    ensures { result ≡ entry_in log_form (drop at log.now) }
{
    replay::entry_at(log, at)
}

// ---- records with a mark

pub fn mark_at(file: &[u8], at: usize) -> u16
    ensures { result ≡ mark_in (drop at file.now) }
{
    records::mark_at(file, at)
}

pub fn entry_as(file: &[u8], at: usize, form: Form) -> Entry
    ensures { result ≡ entry_as form (drop at file.now) }
{
    records::entry_at(file, at, form)
}

pub fn end_number(entry: Entry) -> u8
    ensures { result ≡ end_number entry }
{
    records::end_number(entry)
}

pub fn slot_fits(slot: Slot, bytes: &[u8]) -> bool
    ensures { result ≡ slot_fits slot bytes.now }
{
    slots::slot_fits(slot, bytes)
}

pub fn kind_of(current: u8) -> Kind
    ensures { result ≡ kind_of current }
{
    Kind::from(current)
}

pub fn current_of(kind: Kind) -> u8
    ensures { result ≡ current_of kind }
{
    u8::from(kind)
}

pub fn number_of(refusal: Refusal) -> u8
    ensures { result ≡ number_of refusal }
{
    u8::from(refusal)
}

pub fn offset_of(refusal: Refusal) -> u16
    ensures { result ≡ offset_of refusal }
{
    refusal.offset()
}

pub fn unwritten_number(refusal: Unwritten) -> u8
    ensures { result ≡ unwritten_number refusal }
{
    u8::from(refusal)
}

pub fn word_of(first: u8, second: u8) -> u16
    ensures { result ≡ word first second }
{
    octets::word_of(first, second)
}

pub fn high_of(w: u16) -> u8
    ensures { result ≡ high w }
{
    octets::high_of(w)
}

pub fn low_of(w: u16) -> u8
    ensures { result ≡ low w }
{
    octets::low_of(w)
}

// ---- how a program goes on and ends: by what came of a read or a write; the status by the ending, of a log and of what is typed one of a few

pub fn status_of(ending: Ending) -> u8
    ensures { result ≡ status_of ending }
{
    manners::status_of(ending)
}

pub fn ended(sent: Result<(), Unsent>, number: u8) -> Ending
    ensures { result ≡ ended_by sent number }
{
    manners::ended(sent, number)
}

pub fn bytes_in(came: Came) -> usize
    ensures { result ≡ bytes_in came }
{
    manners::bytes_in(came)
}

pub fn stops(step: Step) -> bool
    ensures { result ≡ stops_at step }
{
    blocks::stops(step)
}

pub fn copy<R: io::Read, W: io::Write>(from: &mut R, to: &mut W, block: &mut [u8; 65536]) -> Ending
    ensures { T (among run_statuses (status_of result)) }
{
    stream::copy(from, to, block)
}

pub fn copy_slowly<R: io::Read, W: io::Write>(
    from: &mut R,
    to: &mut W,
    block: &mut [u8; 39],
) -> Ending
    ensures { T (among run_statuses (status_of result)) }
{
    stream::copy_slowly(from, to, block)
}

pub fn reply<R: io::Read, W: io::Write, V: io::Write>(
    from: &mut R,
    to: &mut W,
    reasons: &mut V,
) -> Ending
    ensures { T (among reply_statuses (status_of result)) }
{
    replies::reply(from, to, reasons)
}
