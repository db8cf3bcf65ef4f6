// A file of records is read through a block: what is unread is kept, and more is read behind it.
#![tactic(auto)]

ghost use Rattle.std.specs.Prelude.{◌≡◌, ◌⊎◌, ◌+◌, ◌-◌, ◌≤◌, ◌<◌, T, length, take, drop};
ghost use Rattle.octets.specs.Checks.{among};
ghost use Rattle.manners.specs.Manners.{status_of};
ghost use Rattle.records.specs.Records.{entry_in};
ghost use Rattle.programs.specs.Programs.{Tellable};
ghost use Rattle.blocks.specs.Blocks.{unread as Blocks·unread, step_after, Refilled, Advances, Proceeds, stops_at, Concludes, run_statuses};
ghost use Rattle.blocks.specs.Channels.{BothSay, LastSaid, RunSays};

use manners::{Came, Ending, Unsent};
use programs::Borrower;
use records::Entry;
use std::io::{Read, Write};

// What a turn leaves to be done.
#[derive(Clone, Copy)]
pub enum Step {
    // the next turn
    Next,
    // the last line: no more can come
    Last,
    // nothing: the input could not be read
    NotRead,
    // nothing: whoever read the output has gone away
    Unheard,
    // nothing: the output could not be written
    NotWritten,
}

// The unread part of a block: from at up to have; and what is to be done next.
#[derive(Clone, Copy)]
pub struct Unread {
    pub at: usize,
    pub have: usize,
    pub step: Step,
}

// ---- one turn

// Moves the bytes from a place up to an end down to the start; how many they are.
fn move_down(block: &mut [u8], from: usize, end: usize) -> usize
    requires { (from ≤ end) × (end ≤ length block.old) }
    ensures value { result ≡ end - from }
    ensures block_after { take (end - from) block.new ≡ take (end - from) (drop from block.old) }
{
    let count = end - from;
    for i in 0..count {
        block[i] = block[from + i];
    }
    count
}

// What is to be done after a read.
fn step_after(came: Came) -> Step
    ensures { result ≡ step_after came }
{
    match came {
        Came::Bytes(_) => Step::Next,
        Came::End => Step::Last,
        Came::Failed => Step::NotRead,
    }
}

// Reads more behind what is unread, which comes to the start of the block and is kept byte for byte.
fn refill<R: Read>(from: &mut R, block: &mut [u8], at: usize, have: usize) -> Unread
    requires { (at ≤ have) × (have ≤ length block.old) × (have - at < length block.old) }
    ensures { Refilled block.old at have block.new result }
{
    let left = move_down(block, at, have);
    let came = manners::read_behind(from, block, left);
    stay(0, left + manners::bytes_in(came), step_after(came))
}

// The place stays.
fn stay(at: usize, have: usize, step: Step) -> Unread
    ensures { (result.at ≡ at) × (result.have ≡ have) × (result.step ≡ step) }
{
    Unread { at, have, step }
}

// What follows at a place of the block where this entry stands, the records before it being printed: a record waits there, or more has to be
// read, or it is over. The unread part of an entry that needs more leaves room in the block.
fn advance<R: Read>(from: &mut R, block: &mut [u8], at: usize, have: usize, entry: Entry) -> Unread
    requires at_le_have { (at ≤ have) × (have ≤ length block.old) }
    requires at_in_bounds { (entry ≡ Entry.End) ⊎ (entry ≡ Entry.Cut) → have - at < length block.old }
    ensures { Advances entry block.old at have block.new result }
{
    match entry {
        Entry::Whole(_) => stay(at, have, Step::Next),
        Entry::Unknown => stay(at, have, Step::Last),
        Entry::End => refill(from, block, at, have),
        Entry::Cut => refill(from, block, at, have),
    }
}

// What follows once the records between two places were written, or could not be.
pub fn proceed<R: Read>(
    sent: Result<(), Unsent>,
    from: &mut R,
    block: &mut [u8],
    at: usize,
    next: usize,
    have: usize,
    entry: Entry,
) -> Unread
    requires next_le_have { (next ≤ have) × (have ≤ length block.old) }
    requires next_in_bounds { (entry ≡ Entry.End) ⊎ (entry ≡ Entry.Cut) → have - next < length block.old }
    ensures { Proceeds sent entry block.old at next have block.new result }
{
    match sent {
        Ok(()) => advance(from, block, next, have, entry),
        Err(Unsent::Gone) => stay(at, have, Step::Unheard),
        Err(Unsent::Failed) => stay(at, have, Step::NotWritten),
    }
}

// ---- the end of a run

// Whether a step is the end of the run.
pub fn stops(step: Step) -> bool
    ensures { result ≡ stops_at step }
{
    match step {
        Step::Next => false,
        Step::Last => true,
        Step::NotRead => true,
        Step::Unheard => true,
        Step::NotWritten => true,
    }
}

// Ends a run at a step, where this entry stands: what comes last is written, and the last of the report, if no more can come.
pub fn conclude<W: Write, V: Write>(
    step: Step,
    entry: Entry,
    last: &[u8],
    to: &mut W,
    report: &[u8],
    aside: &mut V,
) -> Ending
    ensures { Concludes step entry result }
{
    match step {
        Step::Next => Ending::Spent,
        Step::Last => {
            let sent = manners::write_both(to, last, aside, report);
            manners::ended(sent, records::end_number(entry))
        }
        Step::NotRead => Ending::NotRead,
        Step::Unheard => Ending::Unheard,
        Step::NotWritten => Ending::NotWritten,
    }
}

// After a run: how it ended, after how many turns, and where in the block.
#[derive(Clone, Copy)]
pub struct Ended {
    pub ending: Ending,
    pub turns: u64,
    pub at: usize,
    pub have: usize,
}

// ---- a run of a program

// After a turn: how far the output and the report were written, and what is unread.
#[derive(Clone, Copy)]
struct Turned {
    wrote: usize,
    told: usize,
    unread: Unread,
}

// One turn: the records at the start of what is unread, as many as the output has room for; what they put is written, and it goes on behind them.
fn turn<P: Borrower, R: Read, W: Write, V: Write>(
    program: &mut P,
    block: &mut [u8],
    at: usize,
    have: usize,
    out: &mut [u8],
    report: &mut [u8],
    from: &mut R,
    to: &mut W,
    aside: &mut V,
) -> Turned
    requires ready { P.Ready program.old }
    requires at_le_have { (at ≤ have) × (have ≤ length block.old) × (P.longest_record ≤ length block.old) }
    requires tellable { Tellable P.reports 0 (length out.old) report.old }
    ensures both_say { BothSay P.channels (P.seen program.old) block.old at have out.old report.old (P.seen program.new) block.new out.new result.wrote report.new result.told result.unread }
    ensures ready { P.Ready program.new }
{
    let f = programs::fill(program, &block[at..have], out, report);
    let wrote = f.wrote;
    let told = f.told;
    let next = at + f.read;
    let entry = programs::entry_at::<P>(&block[..have], next);
    let sent = manners::write_both(to, &out[..wrote], aside, &report[..told]);
    let unread = proceed(sent, from, block, at, next, have, entry);
    Turned {
        wrote,
        told,
        unread,
    }
}

// Ends a run at a step: what comes last is put, and written if no more can come.
fn finish<P: Borrower, W: Write, V: Write>(
    program: &mut P,
    step: Step,
    turns: u64,
    block: &[u8],
    at: usize,
    have: usize,
    out: &mut [u8],
    report: &mut [u8],
    to: &mut W,
    aside: &mut V,
) -> Ended
    requires ready { P.Ready program.old }
    requires at_le_have { (at ≤ have) × (have ≤ length block.now) }
    requires room { P.channels.longest ≤ length out.old }
    requires tellable { Tellable P.reports 0 P.channels.longest report.old }
    ensures { Concludes step (entry_in P.channels.forms (Blocks·unread block.now at have)) result.ending × LastSaid P.channels (P.seen program.old) (entry_in P.channels.forms (Blocks·unread block.now at have)) out.new report.new × (result.turns ≡ turns) × (result.at ≡ at) × (result.have ≡ have) }
{
    let entry = programs::entry_at::<P>(&block[..have], at);
    let put = program.put_last(entry, out, report);
    let ending = conclude(
        step,
        entry,
        &out[..put.wrote],
        to,
        &report[..put.told],
        aside,
    );
    Ended {
        ending,
        turns,
        at,
        have,
    }
}

// Runs a program on a file that is read through the lent block. Internal.
pub fn run<P: Borrower, R: Read, W: Write, V: Write>(
    program: &mut P,
    block: &mut [u8],
    out: &mut [u8],
    report: &mut [u8],
    from: &mut R,
    to: &mut W,
    aside: &mut V,
) -> Ended
    requires ready { P.Ready program.old }
    requires room { (P.channels.longest ≤ length out.old) × (P.longest_record ≤ length block.old) }
    requires tellable { Tellable P.reports 0 (length out.old) report.old }
    ensures { RunSays P.channels result.ending result.turns (entry_in P.channels.forms (Blocks·unread block.new result.at result.have)) out.new report.new }
{
    let mut at = 0;
    let mut have = 0;
    let mut turns = 0u64;
    // Stays: (d) the count is handed out and said to be that of the turns, which the variable of a `for` is not.
    while turns < u64::MAX {
        turns += 1;
        let u = turn(program, block, at, have, out, report, from, to, aside).unread;
        at = u.at;
        have = u.have;
        if stops(u.step) {
            return finish(
                program, u.step, turns, block, at, have, out, report, to, aside,
            );
        }
    }
    finish(
        program,
        Step::Next,
        turns,
        block,
        at,
        have,
        out,
        report,
        to,
        aside,
    )
}

// The same with an output of its own; how the run ended. Internal.
pub fn print<P: Borrower, R: Read, W: Write, V: Write>(
    program: &mut P,
    from: &mut R,
    to: &mut W,
    report: &mut [u8],
    aside: &mut V,
    block: &mut [u8],
) -> Ending
    requires ready { P.Ready program.old }
    requires room { (P.channels.longest ≤ 65536) × (P.longest_record ≤ length block.old) }
    requires tellable { Tellable P.reports 0 65536 report.old }
    ensures { T (among run_statuses (status_of result)) }
{
    let mut out = [0u8; 65536];
    run(program, block, &mut out, report, from, to, aside).ending
}
