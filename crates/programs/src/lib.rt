// Programs on a file of records: what the file's marks tell, what each record does, and what comes last. `fill` goes through a block of the file, record by
// record.
#![tactic(auto)]

ghost use Rattle.std.specs.Prelude.{◌≡◌, ◌⊎◌, ◌+◌, ◌-◌, ◌≤◌, ◌<◌, ℕ, Bool, length, drop};
ghost use Rattle.records.specs.Records.{form_bytes, entry_in};
ghost use Rattle.records.specs.Channels.{Channels, Fills};
ghost use Rattle.programs.specs.Programs.{Holds, Tellable, Takes, PutsLast};

use records::{Entry, Form, MARK_BYTES};

// How far an output and a report are written.
#[derive(Clone, Copy)]
pub struct Put {
    pub wrote: usize,
    pub told: usize,
}

// After some records: the next place of the file, of the output, and of the report.
#[derive(Clone, Copy)]
pub struct Filled {
    pub read: usize,
    pub wrote: usize,
    pub told: usize,
}

// A program, in the state that the records so far left. It writes an output, and may report beside it.
pub trait Program {
    // how the state is seen by what a program is said to do, and that
    ghost Seen: { Type 0 };

    ghost seen: { Self → Seen };

    ghost channels: { Channels Seen };

    // what is so of the state between two records
    ghost Ready: { Self → Type 0 };

    // whether anything is reported
    ghost reports: { Bool };

    // the bytes of the longest record
    ghost longest_record: { ℕ };

    // Room for both texts of any record, and for what comes last.
    const LONGEST: usize;

    ghost LONGEST: { ℕ };

    // What a mark of the file tells.
    fn form_of(mark: u16) -> Form
        ensures form { result ≡ channels.forms mark }
        ensures within { form_bytes result ≤ longest_record };

    // A record: its text is put to a place of the output, and what is reported of it to a place of the report.
    fn take(
        &mut self,
        mark: u16,
        content: &[u8],
        out: &mut [u8],
        to: usize,
        report: &mut [u8],
        told: usize,
    ) -> Put
        requires ready { Ready self.old }
        requires holds { Holds (channels.forms mark) content.now }
        requires room { to + channels.longest ≤ length out.old }
        requires tellable { Tellable reports told channels.longest report.old }
        ensures takes { Takes channels (seen self.old) (record { mark = mark; content = content.now }) out.old to report.old told (seen self.new) out.new result.wrote report.new result.told }
        ensures ready { Ready self.new };

    // What comes last, put to the starts of the output and of the report.
    fn put_last(&mut self, entry: Entry, out: &mut [u8], report: &mut [u8]) -> Put
        requires ready { Ready self.old }
        requires room { channels.longest ≤ length out.old }
        requires tellable { Tellable reports 0 channels.longest report.old }
        ensures { PutsLast channels (seen self.old) entry out.old report.old out.new result.wrote report.new result.told };

    ghost longest_is: { LONGEST ≡ channels.longest };
}

// The same of a program whose state may be lent its memories: `take` says that they stay the same ones.
// Stays beside `Program`: (a) who implements that one writes a constant, and has nothing to say of lent memories.
pub trait Borrower {
    // how the state is seen by what a program is said to do, and that
    ghost Seen: { Type 0 };

    ghost seen: { Self → Seen };

    ghost channels: { Channels Seen };

    // the memories that the state was lent, by their names in proofs
    ghost Lent: { Type 0 };

    ghost lent: { Self → Lent };

    // what is so of the state between two records
    ghost Ready: { Self → Type 0 };

    // whether anything is reported
    ghost reports: { Bool };

    // the bytes of the longest record
    ghost longest_record: { ℕ };

    // Room for both texts of any record, and for what comes last.
    // Stays: a function, since the check does not cover a constant in the `impl` of a type with a lifetime.
    fn longest() -> usize
        ensures { result ≡ channels.longest };

    // What a mark of the file tells.
    fn form_of(mark: u16) -> Form
        ensures form { result ≡ channels.forms mark }
        ensures within { form_bytes result ≤ longest_record };

    // A record: its text is put to a place of the output, and what is reported of it to a place of the report.
    fn take(
        &mut self,
        mark: u16,
        content: &[u8],
        out: &mut [u8],
        to: usize,
        report: &mut [u8],
        told: usize,
    ) -> Put
        requires ready { Ready self.old }
        requires holds { Holds (channels.forms mark) content.now }
        requires room { to + channels.longest ≤ length out.old }
        requires tellable { Tellable reports told channels.longest report.old }
        ensures takes { Takes channels (seen self.old) (record { mark = mark; content = content.now }) out.old to report.old told (seen self.new) out.new result.wrote report.new result.told }
        ensures ready { Ready self.new }
        ensures same_memories { lent self.new ≡ lent self.old };

    // What comes last, put to the starts of the output and of the report.
    fn put_last(&mut self, entry: Entry, out: &mut [u8], report: &mut [u8]) -> Put
        requires ready { Ready self.old }
        requires room { channels.longest ≤ length out.old }
        requires tellable { Tellable reports 0 channels.longest report.old }
        ensures { PutsLast channels (seen self.old) entry out.old report.old out.new result.wrote report.new result.told };
}

// A program that was lent nothing is one too.
impl<P: Program> Borrower for P {
    ghost Seen = { P.Seen };

    ghost seen = { P.seen };

    ghost channels = { P.channels };

    ghost Lent = { Unit {0} };

    ghost lent = { λ p. tt };

    ghost Ready = { P.Ready };

    ghost reports = { P.reports };

    ghost longest_record = { P.longest_record };

    fn longest() -> usize {
        P::LONGEST
    }

    fn form_of(mark: u16) -> Form {
        P::form_of(mark)
    }

    fn take(
        &mut self,
        mark: u16,
        content: &[u8],
        out: &mut [u8],
        to: usize,
        report: &mut [u8],
        told: usize,
    ) -> Put {
        <P as Program>::take(self, mark, content, out, to, report, told)
    }

    fn put_last(&mut self, entry: Entry, out: &mut [u8], report: &mut [u8]) -> Put {
        <P as Program>::put_last(self, entry, out, report)
    }
}

// What stands at a place of a program's file; the end, or a record that is cut, is shorter than the longest record.
pub fn entry_at<P: Borrower>(file: &[u8], at: usize) -> Entry
    ensures entry { result ≡ entry_in P.channels.forms (drop at file.now) }
    ensures short { (result ≡ Entry.End) ⊎ (result ≡ Entry.Cut) → length file.now - at < P.longest_record }
{
    let form = P::form_of(records::mark_at(file, at));
    records::entry_at(file, at, form)
}

// The whole records at the start of a block of the file, as many as the output has room for; the report shares that room.
pub fn fill<P: Borrower>(program: &mut P, file: &[u8], out: &mut [u8], report: &mut [u8]) -> Filled
    requires ready { P.Ready program.old }
    requires tellable { Tellable P.reports 0 (length out.old) report.old }
    ensures fills { Fills P.channels (P.seen program.old) file.now out.old report.old (P.seen program.new) result.read out.new result.wrote report.new result.told }
    ensures ready { P.Ready program.new }
    ensures same_memories { P.lent program.new ≡ P.lent program.old }
    ensures inside { (result.wrote ≤ length out.new) × (result.told ≤ length report.new) }
{
    let mut read = 0;
    let mut wrote = 0;
    let mut told = 0;
    while P::longest() <= out.len() - (wrote + told) {
        let mark = records::mark_at(file, read);
        match records::entry_at(file, read, P::form_of(mark)) {
            Entry::Whole(size) => {
                let next = read + size;
                let put = program.take(
                    mark,
                    &file[read + MARK_BYTES..next],
                    out,
                    wrote,
                    report,
                    told,
                );
                read = next;
                wrote = put.wrote;
                told = put.told;
            }
            Entry::End | Entry::Unknown | Entry::Cut => return Filled { read, wrote, told },
        }
    }
    Filled { read, wrote, told }
}
