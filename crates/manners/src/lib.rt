// The manners of a program: what it does around its answers, where a read or a write fails, with words, and as it ends.
#![tactic(auto)]

ghost use Rattle.std.specs.Prelude.{◌≡◌, ◌<◌, ◌⊎◌, pos, length, take, None, Some, IfSome, IfOk, IfErr, OnOk};
ghost use Rattle.std.specs.Io.{ReadsAtMost, WritesAtMost};
ghost use Rattle.std.specs.IoError.{raw_os_error};
ghost use Rattle.std.specs.Option.{unwrap_or};
ghost use Rattle.std.specs.Io.KnownBytes.{Keeps, Appends, Consumes, ReadConsumes, WriteAppends};
ghost use Rattle.manners.specs.Manners.{came_of, bytes_in, count_of, sent_of, ended_by, misused, status_of, Counts, Room, Worked};

use std::env::FillError;
use std::fmt::InlineText;
use std::io;
use std::io::{Read, Stderr, Stdin, Stdout, Write};
use std::rt::Env;

// What came of a read that had room.
// Stays: (d) three ways to go on, each with a step of its own; in a Result the end would be `Ok(0)`, a number among those of bytes that came.
#[derive(Clone, Copy)]
pub enum Came {
    // so many bytes, one at least
    Bytes(usize),
    // the end of the input
    End,
    Failed,
}

// What a read that failed leaves of a text: how many bytes came before it, and its error.
#[derive(Clone, Copy, Debug)]
pub struct Unfinished {
    pub have: usize,
    pub error: io::Error,
}

// Why a write failed.
#[derive(Clone, Copy)]
pub enum Unsent {
    // whoever read the output has gone away
    Gone,
    Failed,
}

// How a program's work ended.
// Stays: (d) four ways beside the number, each told apart by the status or by what is said of it: of these `Unheard` is no failure, and an ending
// is where a program's work stops, with nothing after it that a `?` would pass over.
#[derive(Clone, Copy)]
pub enum Ending {
    // all was read and answered; the number is that of the last line or of the refusal
    Over(u8),
    // whoever read the output has gone away
    Unheard,
    // the input could not be read
    NotRead,
    // the output could not be written
    NotWritten,
    // no turn was left
    Spent,
}

// The statuses that are no number of an answer: a read or a write failed; the program was not used as it has to be.
pub const FAILED: u8 = 1;

pub const MISUSED: u8 = 2;

// The system's number of the error where nobody reads what is written.
const EPIPE: i32 = 32;

// A reader or a writer, and the error of the last call that failed.
#[derive(Drop)]
pub struct Watched<S> {
    pub inner: S,
    pub error: Option<io::Error>,
}

// ---- reading and writing

// By what the system answered to a read.
impl From<io::Result<usize>> for Came {
    ghost from_gives = { λ got came. came ≡ came_of got };

    fn from(got: io::Result<usize>) -> Came {
        match got {
            Ok(0) => Came::End,
            Ok(n) => Came::Bytes(n),
            Err(_) => Came::Failed,
        }
    }
}

// How many bytes came.
pub fn bytes_in(came: Came) -> usize
    ensures { result ≡ bytes_in came }
{
    match came {
        Came::Bytes(n) => n,
        Came::End => 0,
        Came::Failed => 0,
    }
}

// Reads once, behind the first bytes of a block, which are kept.
pub fn read_behind<R: Read>(from: &mut R, block: &mut [u8], have: usize) -> Came
    requires { have < length block.old }
    ensures room { Room (length block.old) have result }
    ensures block_unchanged { take have block.new ≡ take have block.old }
{
    Came::from(from.read(&mut block[have..]))
}

// Reads until the buffer is full or the input ends; how many bytes came, also where a read failed: they are the first of the buffer, and what the
// reader gave.
pub fn read_full<R: Read>(from: &mut R, buf: &mut [u8]) -> Result<usize, Unfinished>
    ensures counts { Counts (count_of result) buf.new }
    ensures came { Consumes (R.remaining from.old) (R.remaining from.new) (take (count_of result) buf.new) }
    ensures length { length buf.new ≡ length buf.old }
{
    let mut have = 0;
    // Stays: (d) what is counted is the bytes that came, by reads of any size, of which there may be one or many: no index runs here.
    while have < buf.len() {
        match from.read(&mut buf[have..]) {
            Ok(0) => break,
            Ok(came) => have += came,
            Err(error) => return Err(Unfinished { have, error }),
        }
    }
    Ok(have)
}

// By the system's number of the error, if it has one.
impl From<io::Error> for Unsent {
    ghost from_gives = { λ error unsent. unsent ≡ sent_of (unwrap_or (raw_os_error error) (pos 0)) };

    fn from(error: io::Error) -> Unsent {
        if error.raw_os_error().unwrap_or(0) == EPIPE {
            return Unsent::Gone;
        }
        Unsent::Failed
    }
}

// Writes all of some bytes.
pub fn write_out<W: Write>(to: &mut W, bytes: &[u8]) -> Result<(), Unsent> {
    to.write_all(bytes)?;
    Ok(())
}

// Writes what a program puts out, and then its report to another writer.
pub fn write_both<W: Write, V: Write>(
    to: &mut W,
    output: &[u8],
    aside: &mut V,
    report: &[u8],
) -> Result<(), Unsent> {
    write_out(to, output)?;
    write_out(aside, report)
}

// How a program ends with this number, once its last bytes were written or could not be.
pub fn ended(sent: Result<(), Unsent>, number: u8) -> Ending
    ensures { result ≡ ended_by sent number }
{
    match sent {
        Ok(()) => Ending::Over(number),
        Err(Unsent::Gone) => Ending::Unheard,
        Err(Unsent::Failed) => Ending::NotWritten,
    }
}

// ---- what failed

impl<S> Watched<S> {
    pub fn new(inner: S) -> Self
        ensures inner { result.inner ≡ inner }
        ensures error { result.error ≡ None }
    {
        Watched { inner, error: None }
    }

    // What a call answered, after keeping its error.
    fn keep<T>(&mut self, answer: io::Result<T>) -> io::Result<T>
        ensures answer { result ≡ answer }
        ensures inner { self.new.inner ≡ self.old.inner }
        ensures kept { IfErr result (λ e. self.new.error ≡ Some e) }
        ensures unchanged { OnOk result (self.new.error ≡ self.old.error) }
    {
        if let Err(e) = &answer {
            self.error = Some(*e);
        }
        answer
    }
}

impl<R: Read> Read for Watched<R> {
    ghost remaining = { λ w. R.remaining w.inner };

    fn read(&mut self, buf: &mut [u8]) -> io::Result<usize>
        ensures bound { ReadsAtMost result buf.new }
        ensures bytes { ReadConsumes (R.remaining self.old.inner) (R.remaining self.new.inner) result buf.new }
        ensures kept { IfErr result (λ e. self.new.error ≡ Some e) }
        ensures unchanged { OnOk result (self.new.error ≡ self.old.error) }
    {
        let answer = self.inner.read(buf);
        self.keep(answer)
    }
}

impl<W: Write> Write for Watched<W> {
    ghost contents = { λ w. W.contents w.inner };

    fn write(&mut self, buf: &[u8]) -> io::Result<usize>
        ensures bound { WritesAtMost result buf.now }
        ensures bytes { WriteAppends (W.contents self.old.inner) (W.contents self.new.inner) result buf.now }
        ensures kept { IfErr result (λ e. self.new.error ≡ Some e) }
        ensures unchanged { OnOk result (self.new.error ≡ self.old.error) }
    {
        let answer = self.inner.write(buf);
        self.keep(answer)
    }

    fn flush(&mut self) -> io::Result<()>
        ensures bytes { Keeps (W.contents self.old.inner) (W.contents self.new.inner) }
        ensures kept { IfErr result (λ e. self.new.error ≡ Some e) }
        ensures unchanged { OnOk result (self.new.error ≡ self.old.error) }
    {
        let answer = self.inner.flush();
        self.keep(answer)
    }

    fn write_all(&mut self, buf: &[u8]) -> io::Result<()>
        ensures bytes { OnOk result (Appends (W.contents self.old.inner) (W.contents self.new.inner) buf.now) }
        ensures kept { IfErr result (λ e. self.new.error ≡ Some e) }
        ensures unchanged { OnOk result (self.new.error ≡ self.old.error) }
    {
        let answer = self.inner.write_all(buf);
        self.keep(answer)
    }
}

// ---- words, and the end

// Whether the program was started with so many words.
pub fn has_word<R: Env>(rt: &R, number: usize) -> bool {
    let mut start = [0u8; 1];
    match rt.arg(number, &mut start) {
        Err(FillError::NotPresent) => false,
        _ => true,
    }
}

// Whether the program was started with words, which it does not take and are refused; then its status.
pub fn has_words<R: Env, W: Write>(rt: &R, to: &mut W, usage: &[u8]) -> Option<u8>
    ensures { IfSome result (λ status. status ≡ misused) }
{
    if !has_word(rt, 1) {
        return None;
    }
    Some(refuse_words(to, usage))
}

// Does a program's work, from standard input to standard output, with what there is to report on standard error; its status.
pub fn run<F>(rt: &HostRuntime, name: &[u8], work: F) -> u8
where
    F: FnOnce(&mut Watched<Stdin>, &mut Watched<Stdout>, &mut Watched<Stderr>) -> Ending,
    requires { F.IsAlwaysCallable work }
    ensures { Worked F.FnOnce work result }
{
    let mut from = Watched::new(rt.stdin());
    let mut to = Watched::new(rt.stdout());
    let mut aside = Watched::new(rt.stderr());
    let ending = work(&mut from, &mut to, &mut aside);
    let error = from.error.or(to.error).or(aside.error);
    finish(&mut aside, name, ending, error)
}

// The same for a program that takes no words.
pub fn run_wordless<F>(rt: &HostRuntime, name: &[u8], usage: &[u8], work: F) -> u8
where
    F: FnOnce(&mut Watched<Stdin>, &mut Watched<Stdout>, &mut Watched<Stderr>) -> Ending,
    requires { F.IsAlwaysCallable work }
    ensures { (result ≡ misused) ⊎ Worked F.FnOnce work result }
{
    if let Some(status) = has_words(rt, &mut rt.stderr(), usage) {
        return status;
    }
    run(rt, name, work)
}

// Refuses words that the program does not take, with a line that says how it is used; its status.
pub fn refuse_words<W: Write>(to: &mut W, usage: &[u8]) -> u8
    ensures { result ≡ misused }
{
    let _ = to.write_all(usage);
    MISUSED
}

// Refuses what the program was given, with a number, which is its status.
pub fn refuse<W: Write>(to: &mut W, name: &[u8], number: u8) -> u8
    ensures { result ≡ number }
{
    tell_refused(to, name, number);
    number
}

// A line: the program's name, and the number that it refused with.
pub fn tell_refused<W: Write>(to: &mut W, name: &[u8], number: u8) {
    let _ = to.write_all(name);
    let _ = writeln!(to, ": refused with {number}");
}

// Says how the work of a program ended, a failure with its error; the status.
pub fn finish<W: Write>(to: &mut W, name: &[u8], ending: Ending, error: Option<io::Error>) -> u8
    ensures { result ≡ status_of ending }
{
    match ending {
        Ending::Over(_) => {}
        Ending::Unheard => {}
        Ending::NotRead => fail(to, name, b": standard input could not be read", error),
        Ending::NotWritten => fail(to, name, b": standard output could not be written", error),
        Ending::Spent => say(to, name, b": no turn is left\n"),
    }
    status_of(ending)
}

// The program's name, and a text.
fn say<W: Write>(to: &mut W, name: &[u8], text: &[u8]) {
    let _ = to.write_all(name);
    let _ = to.write_all(text);
}

// A line: the program's name, what failed, and the system's words for the error.
fn fail<W: Write>(to: &mut W, name: &[u8], what: &[u8], error: Option<io::Error>) {
    say(to, name, what);
    if let Some(e) = error {
        let text: InlineText<256> = InlineText::of(e);
        let _ = to.write_all(b": ");
        let _ = to.write_all(words_of(text.as_str()).as_bytes());
    }
    let _ = to.write_all(b"\n");
}

// The system's words for an error, of its text, where they come before its number.
pub fn words_of(text: &str) -> &str {
    match text.split_once(" (os error ") {
        Some((words, _)) => words,
        None => text,
    }
}

// The status of a program whose work ended so.
pub fn status_of(ending: Ending) -> u8
    ensures { result ≡ status_of ending }
{
    match ending {
        Ending::Over(number) => number,
        Ending::Unheard => 0,
        Ending::NotRead => FAILED,
        Ending::NotWritten => FAILED,
        Ending::Spent => FAILED,
    }
}
