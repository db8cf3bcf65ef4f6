// The lines of explanations and of chunks by themselves, put to an output.
#![tactic(auto)]

ghost use Rattle.std.specs.Prelude.{◌+◌, ◌≤◌, length};
ghost use Rattle.text.specs.Output.{HasRoom, Adds};
ghost use Rattle.lines.specs.Lines.{longest_lines};
ghost use Rattle.explain_lines.specs.Lines.{field_name, found_text, explained_line, checked_line, chunk_lines, longest_explained};

use explains::{Explained, Field};
use lines::LONGEST_LINES;
use meaning::Refusal;
use text::Output;

// Room for the lines of any record: those of the log, and one more.
pub const LONGEST: usize = LONGEST_LINES + 92;

// The name of a field.
fn put_field(field: Field, out: &mut Output<'_>)
    requires { HasRoom (length (field_name field)) out.old }
    ensures { Adds (field_name field) out.old out.new }
{
    match field {
        Field::Length => out.put(b"length"),
        Field::Row { table, row } => field_names::put_name(table, row, out),
        Field::Payload => out.put(b"payload"),
    }
}
// Where a field begins, and what was found there, to the end of the line.
fn put_found(at: u16, value: usize, out: &mut Output<'_>)
    requires { HasRoom 53 out.old }
    ensures { Adds (found_text at value) out.old out.new }
{
    out.put(b" at bit ");
    out.number(at as u64);
    out.put(b" is ");
    out.numbered(value as u64);
}

// The line of an explanation, if there is one.
pub fn put_explained(explained: Option<Explained>, out: &mut Output<'_>)
    requires { HasRoom longest_explained out.old }
    ensures { Adds (explained_line explained) out.old out.new }
{
    let Some(explained) = explained else {
        return;
    };
    match explained {
        Explained::Found {
            field,
            at,
            value,
            ..
        } => {
            out.put(b"  ");
            put_field(field, out);
            put_found(at, value, out);
        }
        Explained::Spoiled => out.put(b"  slot spoiled\n"),
    }
}

// What the checks say of a chunk.
fn put_checked(checked: Result<(), Refusal>, out: &mut Output<'_>)
    requires { HasRoom longest_lines out.old }
    ensures { Adds (checked_line checked) out.old out.new }
{
    match checked {
        Ok(_) => out.put(b"CH 0\n"),
        Err(refusal) => {
            out.put(b"CH ");
            lines::put_refusal(refusal, out);
        }
    }
}

// The lines of a chunk.
pub fn put_chunk(chunk: &[u8], out: &mut Output<'_>)
    requires { HasRoom (longest_lines + longest_explained) out.old }
    ensures { Adds (chunk_lines chunk.now) out.old out.new }
{
    put_checked(chunk_checks::check_chunk(chunk), out);
    put_explained(explains::explain_chunk(chunk), out);
}
