// The program `guide`: a file of sections given to a gathering, record by record, and the lines that are printed for each.
#![tactic(auto)]

ghost use Rattle.std.specs.Prelude.{◌≡◌, false, refl, drop};
ghost use Rattle.records.specs.Records.{entry_in};
ghost use Rattle.programs.specs.Programs.{alone};
ghost use Rattle.guides.specs.declared.Gathering.{Gathering};
ghost use Rattle.guide_lines.specs.Lines.{longest_lines};
ghost use Rattle.guiding.specs.Guiding.{guide_form, longest_record, guide_program};

use guide_lines::LONGEST_LINES;
use guides::Gathering;
use programs::{Program, Put};
use records::{Entry, Form, LENGTH_BYTES};
use text::Output;

// The program, in the state that the records so far left.
#[derive(Clone, Copy)]
pub struct Guide {
    pub gathering: Gathering,
}

// The mark of a section, and the number that its two bytes say.
// Stays: (d) a constant's value cannot be a call, as of `from_be_bytes`.
const SE: [u8; 2] = *b"SE";

const SECTION_MARK: u16 = SE[0] as u16 * 256 + SE[1] as u16;

impl Program for Guide {
    ghost Seen = { Gathering };

    ghost seen = { λ p. p.gathering };

    ghost channels = { alone guide_program };

    ghost Ready = { λ p. Unit {0} };

    ghost reports = { false };

    ghost longest_record = { longest_record };

    const LONGEST: usize = LONGEST_LINES;

    ghost LONGEST = { longest_lines };

    fn form_of(mark: u16) -> Form {
        match mark {
            SECTION_MARK => Form::Counted {
                least: 0,
                most: 65535,
            },
            _ => Form::Foreign,
        }
    }

    // A section: the gathering takes it, and its lines.
    fn take(
        &mut self,
        _mark: u16,
        content: &[u8],
        out: &mut [u8],
        to: usize,
        _report: &mut [u8],
        told: usize,
    ) -> Put {
        let section = &content[LENGTH_BYTES..];
        let t = self.gathering.take(section);
        self.gathering = t.gathering;
        let mut output = Output { bytes: out, at: to };
        guide_lines::put_section(t.answer, section, &mut output);
        let wrote = output.at;
        Put { wrote, told }
    }

    fn put_last(&mut self, entry: Entry, out: &mut [u8], _report: &mut [u8]) -> Put {
        let wrote = records::put_last(entry, out);
        Put { wrote, told: 0 }
    }

    ghost longest_is = { refl };
}

// What stands at a place of the file.
pub fn entry_at(file: &[u8], at: usize) -> Entry
    ensures { result ≡ entry_in guide_form (drop at file.now) }
{
    programs::entry_at::<Guide>(file, at)
}
