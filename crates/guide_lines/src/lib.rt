// The lines of the program `guide`, put to an output.
#![tactic(auto)]

ghost use Rattle.std.specs.Prelude.{◌≡◌, ◌++◌, ◌≤◌, length, Result, Ok};
ghost use Rattle.text.specs.Text.{numbered};
ghost use Rattle.text.specs.Output.{HasRoom, Adds};
ghost use Rattle.sections.specs.declared.Standing.TheVariants.{InForce};
ghost use Rattle.sections.specs.Reading.{standing, names_in};
ghost use Rattle.guide_lines.specs.Lines.{escaped, escaped_name, name_text, name_line, name_lines, refusal_line, NamesHad, section_lines, longest_lines};

use guides::Answer;
use sections::{HEAD_BYTES, Refusal};
use text::Output;

// Room for the lines of any section.
pub const LONGEST_LINES: usize = 24 + 255 * 10 + 4 * 4096;

// ---- names

// A byte of a name, so that it can't steer a terminal.
fn put_byte(byte: u8, out: &mut Output<'_>)
    requires { HasRoom (length (escaped byte)) out.old }
    ensures { Adds (escaped byte) out.old out.new }
{
    match byte {
        b'\\' => out.put(b"\\\\"),
        0x20..=0x7E => out.put(&[byte]),
        _ => {
            out.put(b"\\x");
            hex_text::put_hex_to(&[byte], out);
        }
    }
}

// All bytes of a name.
fn put_escaped(name: &[u8], out: &mut Output<'_>)
    requires { HasRoom (length (escaped_name name.now)) out.old }
    ensures { Adds (escaped_name name.now) out.old out.new }
{
    for &byte in name {
        put_byte(byte, out);
    }
}

// What stands behind a name's number.
fn put_name(name: &[u8], out: &mut Output<'_>)
    requires { HasRoom (length (name_text name.now)) out.old }
    ensures { Adds (name_text name.now) out.old out.new }
{
    if name.is_empty() {
        return;
    }
    out.put(b" ");
    put_escaped(name, out);
}

// The line of a name.
fn put_name_line(n: usize, name: &[u8], out: &mut Output<'_>)
    requires { HasRoom (length (name_line n name.now)) out.old }
    ensures { Adds (name_line n name.now) out.old out.new }
{
    out.put(b"name ");
    out.number(n as u64);
    put_name(name, out);
    out.put(b"\n");
}

// The lines of a section's names, of one in force.
#[tactic(auto, using(crate::proofs::Laws::of_names))]
fn put_names(section: &[u8], out: &mut Output<'_>)
    requires { (standing section.now ≡ Ok InForce) × HasRoom (length (name_lines 0 (names_in section.now))) out.old }
    ensures { Adds (name_lines 0 (names_in section.now)) out.old out.new }
{
    let mut place = HEAD_BYTES;
    for n in 0..section[8] as usize {
        let from = place + 1;
        let length = section[place] as usize;
        put_name_line(n, &section[from..from + length], out);
        place = sections::step_provider(section, place).unwrap();
    }
}

// ---- answers

// The line of a refusal; 23 tells an offset.
fn put_refusal(refusal: Refusal, out: &mut Output<'_>)
    requires { HasRoom longest_lines out.old }
    ensures { Adds (refusal_line refusal) out.old out.new }
{
    out.put(b"SE ");
    out.refused(23, u8::from(refusal), refusal.offset());
}

// The line of a section that was read.
fn put_missing(words: &[u8], missing: u16, out: &mut Output<'_>)
    requires { (length words.now ≤ 20) × HasRoom longest_lines out.old }
    ensures { Adds (words.now ++ numbered missing) out.old out.new }
{
    out.put(words);
    out.numbered(missing as u64);
}

// The lines of a section that was answered so.
#[tactic(auto, unfolding(crate::specs::Lines::answer_line))]
pub fn put_section(answer: Result<Answer, Refusal>, section: &[u8], out: &mut Output<'_>)
    requires names_had { NamesHad answer section.now }
    requires longest_lines_in_bounds { HasRoom longest_lines out.old }
    ensures { Adds (section_lines answer section.now) out.old out.new }
{
    match answer {
        Ok(Answer::NotOurs) => out.put(b"SE not ours\n"),
        Ok(Answer::NotYet) => out.put(b"SE not yet\n"),
        Ok(Answer::Noted { missing }) => {
            put_missing(b"SE 0 missing ", missing, out);
            put_names(section, out);
        }
        Ok(Answer::Repeat { missing }) => put_missing(b"SE 0 repeat missing ", missing, out),
        Err(refusal) => put_refusal(refusal, out),
    }
}
