// The lines of a report, put to an output.
#![tactic(auto)]

ghost use Rattle.std.specs.Prelude.{◌≡◌, cond, [], ◌++◌, ◌+◌, ◌≤◌, eqb, length};
ghost use Rattle.text.specs.Text.{text, decimal};
ghost use Rattle.text.specs.Output.{HasRoom, Adds};
ghost use Rattle.reports.specs.Reports.{following, said_of, report_line, held_line, longest_report};

use text::Output;

// Room for any line.
pub const LONGEST_REPORT: usize = 128;

// The number of the next record.
pub fn next_count(n: u64) -> u64
    ensures { result ≡ following n }
{
    n.wrapping_add(1)
}

// What there is to say of a record: its refusal's number; that it is a repeat; how many outer packets were left out; how many bytes were thrown away.
#[derive(Clone, Copy)]
pub struct Said {
    pub number: u8,
    pub repeat: bool,
    pub gap: u16,
    pub lost: usize,
}

// Puts a number behind a word, where it is not 0.
fn put_counted(word: &[u8], n: u64, out: &mut Output<'_>)
    requires { HasRoom (length word.now + 20) out.old }
    ensures { Adds (cond (eqb n 0) [] (word.now ++ decimal n)) out.old out.new }
{
    if n == 0 {
        return;
    }
    out.put(word);
    out.number(n);
}

// Puts the word for a repeat, where it is one.
fn put_repeat(repeat: bool, out: &mut Output<'_>)
    requires { HasRoom 7 out.old }
    ensures { Adds (cond repeat (text " repeat") []) out.old out.new }
{
    if !repeat {
        return;
    }
    out.put(b" repeat");
}

impl Said {
    // Whether there is nothing to say.
    #[tactic(auto, using(crate::proofs::Laws::said_silent))]
    fn is_silent(self) -> bool
        ensures { result ≡ eqb (length (said_of self)) 0 }
    {
        self.number == 0 && !self.repeat && self.gap == 0 && self.lost == 0
    }

    // Puts what there is to say.
    fn put(self, out: &mut Output<'_>)
        requires { HasRoom 79 out.old }
        ensures { Adds (said_of self) out.old out.new }
    {
        put_counted(b" ", self.number as u64, out);
        put_repeat(self.repeat, out);
        put_counted(b" gap ", self.gap as u64, out);
        put_counted(b" lost ", self.lost as u64, out);
    }
}

// Puts the line of the n-th record, which has this mark, if there is something to say.
pub fn put_report(mark: &[u8], n: u64, said: Said, out: &mut Output<'_>)
    requires { (length mark.now ≤ 2) × HasRoom longest_report out.old }
    ensures { Adds (report_line mark.now n (said_of said)) out.old out.new }
{
    if said.is_silent() {
        return;
    }
    out.put(mark);
    out.put(b" ");
    out.number(n);
    said.put(out);
    out.put(b"\n");
}

// Puts the line for a part of so many bytes that is held when the input ends.
pub fn put_held(n: usize, out: &mut Output<'_>)
    requires { HasRoom longest_report out.old }
    ensures { Adds (held_line n) out.old out.new }
{
    if n == 0 {
        return;
    }
    out.put(b"held ");
    out.numbered(n as u64);
}
