// The program `unwrap`: a file of outer packets given to the tunnel's reader, record by record, the packets that come out, and the lines of the report.
#![tactic(auto)]

ghost use Rattle.std.specs.Prelude.{◌≡◌, true, refl, drop};
ghost use Rattle.records.specs.Records.{entry_in};
ghost use Rattle.tunnel.specs.Unwrap.{shortest_output};
ghost use Rattle.unwrapping.specs.Unwrapping.{outer_form, longest_record, State, state, unwrap_channels};

use programs::{Program, Put};
use records::{Entry, Form, LENGTH_BYTES};
use reports::Said;
use text::Output;
use tunnel::{Numbers, SHORTEST_OUTPUT};

// The program, in the state that the records so far left: the reader's numbers, the memory of its part, and how many records were read.
#[derive(Clone, Copy)]
pub struct Unwrap {
    pub numbers: Numbers,
    pub part: [u8; 1500],
    pub count: u64,
}

// The mark of an outer packet, and the number that its two bytes say.
// Stays: (d) a constant's value cannot be a call, as of `from_be_bytes`.
const OP: [u8; 2] = *b"OP";

const OUTER_MARK: u16 = OP[0] as u16 * 256 + OP[1] as u16;

impl Program for Unwrap {
    ghost Seen = { State };

    ghost seen = { λ p. state p.numbers p.part p.count };

    ghost channels = { unwrap_channels };

    ghost Ready = { λ p. Unit {0} };

    ghost reports = { true };

    ghost longest_record = { longest_record };

    const LONGEST: usize = SHORTEST_OUTPUT;

    ghost LONGEST = { shortest_output };

    fn form_of(mark: u16) -> Form {
        match mark {
            OUTER_MARK => Form::Counted {
                least: 0,
                most: 65535,
            },
            _ => Form::Foreign,
        }
    }

    // An outer packet: the packets that it finishes, and its line of the report.
    fn take(
        &mut self,
        _mark: u16,
        content: &[u8],
        out: &mut [u8],
        to: usize,
        report: &mut [u8],
        told: usize,
    ) -> Put {
        let numbers = self.numbers;
        let fed = tunnel::unwrap(
            numbers,
            &mut self.part,
            &content[LENGTH_BYTES..],
            &mut out[to..],
        );
        self.numbers = fed.numbers;
        let v = tunnel::values_of(fed.answer);
        let n = reports::next_count(self.count);
        let said = Said {
            number: v.number,
            repeat: v.repeat,
            gap: v.gap,
            lost: v.lost,
        };
        let mut line = Output {
            bytes: report,
            at: told,
        };
        reports::put_report(b"OP", n, said, &mut line);
        self.count = n;
        Put {
            wrote: to + v.stored,
            told: line.at,
        }
    }

    // The part that is held and the last line are told, and nothing comes last in the output.
    fn put_last(&mut self, entry: Entry, _out: &mut [u8], report: &mut [u8]) -> Put {
        let held = tunnel::held(self.numbers, &self.part);
        let mut told = Output {
            bytes: report,
            at: 0,
        };
        reports::put_held(held, &mut told);
        let line = told.at;
        let end = line + records::put_last(entry, &mut told.bytes[line..]);
        Put {
            wrote: 0,
            told: end,
        }
    }

    ghost longest_is = { refl };
}

// What stands at a place of the file.
pub fn entry_at(file: &[u8], at: usize) -> Entry
    ensures { result ≡ entry_in outer_form (drop at file.now) }
{
    programs::entry_at::<Unwrap>(file, at)
}
