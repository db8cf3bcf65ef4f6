// The program `wrap`: a file of timestamps and stored packets given to the tunnel's writer, record by record, the outer packets that come out, and the lines of the
// report.
#![tactic(auto)]

ghost use Rattle.std.specs.Prelude.{ℕ, ◌≡◌, true, ◌+◌, ◌*◌, ◌-◌, ◌≤◌, length, drop};
ghost use Rattle.std.proofs.lemmas.List.Edits.{sets};
ghost use Rattle.text.specs.Text.{Put as Text·Put};
ghost use Rattle.records.specs.Records.{form_bytes, entry_in};
ghost use Rattle.reports.specs.Reports.{longest_report};
ghost use Rattle.wrapper.specs.Wrap.{most_size, writer, fresh_numbers};
ghost use Rattle.wrapping.specs.Words.{size_in, capped};
ghost use Rattle.wrapping.specs.Wrapping.{stamp_bytes, wrap_form, longest_record, longest_output, State, stamp_in, closing, record_head_bytes, outer_record, outer_records, cut_into, wrap_channels, FedTo};
ghost use Rattle.wrapping.specs.Seen.{seen, lent};

use packets::{LONGEST_PACKET, SHORTEST_PACKET};
use programs::{Borrower, Put};
use records::{Entry, Form, LENGTH_BYTES};
use reports::Said;
use rtp::HEADER_BYTES;
use store::PACKET_MARK;
use text::Output;
use wrapper::Numbers;

// Room for what one call writes, and for both texts of any record.
pub const LONGEST_OUTPUT: usize = 4096;

// The mark and the length before an outer packet.
const RECORD_HEAD_BYTES: usize = 4;

// The mark of a timestamp, and the number that its two bytes say.
// Stays: (d) a constant's value cannot be a call, as of `from_be_bytes`.
const TI: [u8; 2] = *b"TI";

const STAMP_MARK: u16 = TI[0] as u16 * 256 + TI[1] as u16;

// The program, in the state that the records so far left: the writer's numbers, the memory of its bytes, the timestamp, and how many records were read; and
// lent memory for the outer packets of a call.
#[derive(Drop)]
pub struct Wrap<'a> {
    pub numbers: Numbers,
    pub bytes: [u8; 1400],
    pub stamp: u32,
    pub count: u64,
    pub outers: &'a mut [u8],
}

// ---- the word

// The payload's size that a word says, if payloads may have it.
pub fn size_of(word: &[u8]) -> Option<usize>
    ensures { result ≡ size_in word.now }
{
    let mut n = 0;
    for &byte in word {
        if !byte.is_ascii_digit() {
            return None;
        }
        n = more_of(n, byte);
    }
    if wrapper::is_size(n) { Some(n) } else { None }
}

// A number with one more digit; above the limits it stays there.
fn more_of(n: usize, digit: u8) -> usize
    requires { (n ≤ most_size + 1) × (48 ≤ digit) × (digit ≤ 57) }
    ensures { result ≡ capped (n * 10 + (digit - 48)) }
{
    let more = n * 10 + (digit - 48) as usize;
    if wrapper::MOST_SIZE < more {
        wrapper::MOST_SIZE + 1
    } else {
        more
    }
}

// ---- outer packets as records

// Puts an outer packet as a record.
fn put_outer(outer: &[u8], out: &mut [u8], to: usize)
    requires { (length outer.now ≤ 65535) × (to + (record_head_bytes + length outer.now) ≤ length out.old) }
    ensures { out.new ≡ sets out.old to (outer_record outer.now) }
{
    octets::put_mark(*b"OP", out, to);
    octets::put_word(outer.len() as u16, out, to + 2);
    copies::put(out, to + RECORD_HEAD_BYTES, outer, 0, outer.len());
}

// Puts k outer packets of n bytes each, which stand end to end, as records; answers the place after them.
fn put_outers(k: usize, n: usize, outers: &[u8], out: &mut [u8], to: usize) -> usize
    requires { (n ≤ 65535) × (k * n ≤ length outers.now) × (to + k * (record_head_bytes + n) ≤ length out.old) }
    ensures { Text·Put (outer_records (cut_into k n outers.now)) out.old to out.new result }
{
    let mut from = 0;
    let mut end = to;
    for _ in 0..k {
        put_outer(&outers[from..from + n], out, end);
        from += n;
        end += RECORD_HEAD_BYTES + n;
    }
    end
}

// ---- the records

// The timestamp that a record says.
fn stamp_of(content: &[u8]) -> u32
    requires { stamp_bytes ≤ length content.now }
    ensures { result ≡ stamp_in content.now }
{
    let high = octets::word_of(content[0], content[1]) as u32;
    let low = octets::word_of(content[2], content[3]) as u32;
    high * 65536 + low
}

impl<'a> Wrap<'a> {
    // A fresh writer of this size, with this memory.
    pub fn fresh(size: usize, outers: &'a mut [u8; LONGEST_OUTPUT]) -> Wrap<'a>
        ensures { (result.numbers ≡ fresh_numbers size 0) × (result.stamp ≡ 0) × (result.count ≡ 0) × (result.outers.now ≡ outers.old) }
    {
        Wrap {
            numbers: wrapper::fresh(size, 0),
            bytes: [0u8; 1400],
            stamp: 0,
            count: 0,
            outers,
        }
    }
}

impl Wrap<'_> {
    // A packet: the outer packets that it fills, and its line of the report.
    fn feed(
        &mut self,
        packet: &[u8],
        out: &mut [u8],
        to: usize,
        report: &mut [u8],
        told: usize,
    ) -> Put
        requires { (self.old.numbers.size ≤ most_size) × (longest_output ≤ length self.old.outers.now) × (to + longest_output ≤ length out.old) × (told + longest_report ≤ length report.old) }
        ensures fed { FedTo (seen self.old) packet.now out.old to report.old told (seen self.new) out.new result.wrote report.new result.told }
        ensures long { length self.new.outers.now ≡ length self.old.outers.now }
        ensures same_memories { lent self.new ≡ lent self.old }
    {
        let numbers = self.numbers;
        let each = HEADER_BYTES + numbers.size;
        let given = wrapper::wrap(numbers, &mut self.bytes, packet, self.stamp, self.outers);
        self.numbers = given.numbers;
        let v = wrapper::values_of(given.answer);
        let wrote = put_outers(v.wrote / each, each, self.outers, out, to);
        let n = reports::next_count(self.count);
        self.count = n;
        let said = Said {
            number: v.number,
            repeat: false,
            gap: 0,
            lost: 0,
        };
        let mut line = Output {
            bytes: report,
            at: told,
        };
        reports::put_report(b"IP", n, said, &mut line);
        Put {
            wrote,
            told: line.at,
        }
    }

    // Closes: the outer packet of what is left, if anything is, is put to the start of the output as a record. Internal: `put_last` calls it.
    pub fn put_close(&mut self, out: &mut [u8]) -> usize
        requires { (self.old.numbers.size ≤ most_size) × (longest_output ≤ length self.old.outers.now) × (longest_output ≤ length out.old) }
        ensures put { Text·Put (outer_records (closing (writer self.old.numbers self.old.bytes)).outers) out.old 0 out.new result }
        ensures left { seen self.new ≡ seen self.old }
        ensures same_memories { lent self.new ≡ lent self.old }
    {
        let given = wrapper::close(self.numbers, &self.bytes, self.outers);
        let v = wrapper::values_of(given.answer);
        if v.wrote == 0 {
            return 0;
        }
        put_outers(1, v.wrote, self.outers, out, 0)
    }
}

impl Borrower for Wrap<'_> {
    ghost Seen = { State };

    ghost seen = { seen };

    ghost channels = { wrap_channels };

    ghost Lent = { ℕ };

    ghost lent = { lent };

    ghost Ready = { λ p. (p.numbers.size ≤ most_size) × (longest_output ≤ length p.outers.now) };

    ghost reports = { true };

    ghost longest_record = { longest_record };

    fn longest() -> usize
        ensures { result ≡ longest_output }
    {
        LONGEST_OUTPUT
    }

    fn form_of(mark: u16) -> Form
        ensures form { result ≡ wrap_form mark }
        ensures within { form_bytes result ≤ longest_record }
    {
        match mark {
            STAMP_MARK => Form::Fixed(4),
            PACKET_MARK => Form::Counted {
                least: SHORTEST_PACKET,
                most: LONGEST_PACKET,
            },
            _ => Form::Foreign,
        }
    }

    // A timestamp, or a packet.
    fn take(
        &mut self,
        mark: u16,
        content: &[u8],
        out: &mut [u8],
        to: usize,
        report: &mut [u8],
        told: usize,
    ) -> Put {
        if mark == STAMP_MARK {
            self.stamp = stamp_of(content);
            self.count = reports::next_count(self.count);
            return Put { wrote: to, told };
        }
        self.feed(&content[LENGTH_BYTES..], out, to, report, told)
    }

    // The writer is closed, and the last line is told.
    fn put_last(&mut self, entry: Entry, out: &mut [u8], report: &mut [u8]) -> Put {
        let wrote = self.put_close(out);
        let told = records::put_last(entry, report);
        Put { wrote, told }
    }
}

// What stands at a place of the file.
pub fn entry_at(file: &[u8], at: usize) -> Entry
    ensures { result ≡ entry_in wrap_form (drop at file.now) }
{
    programs::entry_at::<Wrap>(file, at)
}
