// What each offered call of the guide says of its result, for any arguments: each function here has the call's contract, word for word, and only makes the call. No
// `requires` stands on this page.
#![tactic(auto)]

ghost use Rattle.std.specs.Prelude.{◌≡◌, ◌+◌, T, drop};
ghost use Rattle.octets.specs.Checks.{among};
ghost use Rattle.manners.specs.Manners.{status_of};
ghost use Rattle.blocks.specs.Blocks.{run_statuses};
ghost use Rattle.records.specs.Records.{entry_in};
ghost use Rattle.sections.specs.Reading.{standing, number_of, offset_of, name_count, name_in, name_place, Stands};
ghost use Rattle.guides.specs.Gathering.{empty, guide_values, SectionSays};
ghost use Rattle.lukasembo.specs.Guides.{packed_name, GuideStepSays};
ghost use Rattle.guiding.specs.Guiding.{guide_form};

use guides::{Answer, Gathering, Told, Values};
use manners::Ending;
use records::Entry;
use sections::{Place, Refusal, Standing};
use std::io::{Read, Write};

// ---- a section

pub fn check_section(section: &[u8]) -> Result<Standing, Refusal>
    ensures { result ≡ standing section.now }
{
    sections::check_section(section)
}

pub fn number_of(refusal: Refusal) -> u8
    ensures { result ≡ number_of refusal }
{
    u8::from(refusal)
}

pub fn offset_of(refusal: Refusal) -> u16
    ensures { result ≡ offset_of refusal }
{
    refusal.offset()
}

pub fn name_count(section: &[u8]) -> usize
    ensures { result ≡ name_count section.now }
{
    sections::name_count(section)
}

pub fn name_place(section: &[u8], n: usize) -> Place
    ensures { Stands section.now n result.from result.length }
{
    sections::name_place(section, n)
}

pub fn name(section: &[u8], n: usize) -> &[u8]
    ensures result_value { result.now ≡ name_in section.now n }
    ensures ref_ptr_value { result.ref_ptr ≡ (section.entry.ref_ptr.0, section.entry.ref_ptr.1 + name_place section.now n) }
{
    sections::name(section, n)
}

// ---- a gathering

pub fn fresh() -> Gathering
    ensures { result ≡ empty }
{
    guides::fresh()
}

pub fn take(g: Gathering, section: &[u8]) -> Told
    ensures { SectionSays g section.now result.answer result.gathering }
{
    g.take(section)
}

pub fn values_of(answer: Result<Answer, Refusal>) -> Values
    ensures { result ≡ guide_values answer }
{
    guides::values_of(answer)
}

// ---- for programs in C; the program

pub fn guide_for_c(numbers: u64, noted: &mut [u64; 4], section: &[u8]) -> lukasembo::Step
    ensures { GuideStepSays numbers noted.old section.now result.answer result.numbers noted.new }
{
    lukasembo::lukasembo_guide_step(numbers, noted, section)
}

pub fn names_for_c(section: &[u8]) -> usize
    ensures { result ≡ name_count section.now }
{
    lukasembo::lukasembo_guide_names(section)
}

pub fn name_place_for_c(section: &[u8], n: usize) -> u64
    ensures { result ≡ packed_name section.now n }
{
    lukasembo::lukasembo_name_place(section, n)
}

pub fn entry_at(file: &[u8], at: usize) -> Entry
    ensures { result ≡ entry_in guide_form (drop at file.now) }
{
    guiding::entry_at(file, at)
}

pub fn copy<R: Read, W: Write>(from: &mut R, to: &mut W, block: &mut [u8; 131072]) -> Ending
    ensures { T (among run_statuses (status_of result)) }
{
    guide_stream::copy(from, to, block)
}

pub fn copy_slowly<R: Read, W: Write>(from: &mut R, to: &mut W, block: &mut [u8; 65539]) -> Ending
    ensures { T (among run_statuses (status_of result)) }
{
    guide_stream::copy_slowly(from, to, block)
}
