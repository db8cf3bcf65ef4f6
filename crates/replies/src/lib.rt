// The answer to what is typed to the program `write`, put out: its log to one writer; where there is none, the reason to another.
#![tactic(auto)]

ghost use Rattle.std.specs.Prelude.{◌≡◌, T};
ghost use Rattle.writer.specs.Writing.{unwritten_number};
ghost use Rattle.replies.specs.Replies.{replied, RepliesEnd, reply_statuses};
ghost use Rattle.octets.specs.Checks.{among};
ghost use Rattle.manners.specs.Manners.{status_of, EndsWriting};

use manners::{Ending, FAILED, MISUSED};
use std::io::{Read, Write};
use typed::{LONGEST_LOG, Unanswered};
use writer::Unwritten;

// Puts out a log.
fn put<W: Write>(to: &mut W, log: &[u8]) -> Ending
    ensures { EndsWriting 0 result }
{
    let sent = manners::write_out(to, log);
    manners::ended(sent, 0)
}

// Puts out the writer's refusal.
fn refuse<W: Write>(reasons: &mut W, refusal: Unwritten) -> Ending
    ensures { result ≡ Ending.Over (unwritten_number refusal) }
{
    let number = u8::from(refusal);
    manners::tell_refused(reasons, b"write", number);
    Ending::Over(number)
}

// Puts out another reason.
fn say<W: Write>(reasons: &mut W, line: &[u8], status: u8) -> Ending
    ensures { result ≡ Ending.Over status }
{
    let _ = reasons.write_all(line);
    Ending::Over(status)
}

// Puts out the answer to a text; how that ended.
fn answer<W: Write, V: Write>(text: &[u8], to: &mut W, reasons: &mut V) -> Ending
    ensures { RepliesEnd (replied text.now) result }
{
    let mut log = [0u8; LONGEST_LOG];
    match typed::respond(text, &mut log) {
        Ok(length) => put(to, &log[..length]),
        Err(Unanswered::Not(refusal)) => refuse(reasons, refusal),
        Err(Unanswered::Unclear) => say(
            reasons,
            b"write: not the word this or next, a space, and a listing in hex\n",
            MISUSED,
        ),
        Err(Unanswered::TooLong) => { say(reasons, b"write: more than 65,535 bytes\n", MISUSED) }
        Err(Unanswered::NoRoom) => say(reasons, b"write: no room for the log\n", FAILED),
    }
}

// Reads a text, and puts out the answer to it; how that ended.
pub fn reply<R: Read, W: Write, V: Write>(from: &mut R, to: &mut W, reasons: &mut V) -> Ending
    ensures { T (among reply_statuses (status_of result)) }
{
    let mut text = [0u8; 65536];
    let Ok(have) = manners::read_full(from, &mut text) else {
        return Ending::NotRead;
    };
    answer(&text[..have], to, reasons)
}
