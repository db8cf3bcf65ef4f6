// The reader, the writer, the tunnel's two, the guide's and the explanations for programs in C: thin over the proved calls. lukasembo_c exports them, and
// include/lukasembo.h declares them.
#![tactic(auto)]

ghost use Rattle.std.specs.Prelude.{◌≡◌, ◌≤◌, ◌<◌, length, drop};
ghost use Rattle.meaning.specs.Sizes.{longest_chunk, longest_listing};
ghost use Rattle.meaning.specs.Lists.{kind_of};
ghost use Rattle.meaning.specs.Numbers.{read_values};
ghost use Rattle.meaning.specs.Reading.{read_answer, read_buffer};
ghost use Rattle.segments.specs.Segment.{most_segments};
ghost use Rattle.writer.specs.Writing.{written_values, write_answer, write_output};
ghost use Rattle.store.specs.Store.{next_in};
ghost use Rattle.tunnel.specs.Unwrap.{unwrapped_values};
ghost use Rattle.wrapper.specs.Wrap.{wrapped_values};
ghost use Rattle.sections.specs.Reading.{name_count};
ghost use Rattle.explains.specs.Explaining.{chunk_explained, segment_explained, gathered_explained};
ghost use Rattle.lukasembo.specs.Explains.{table_number, field_number, slot_in, ExplainSays};
ghost use Rattle.lukasembo.specs.Guides.{packed_guide, gathering_in, guide_left, packed_name, GuideStepSays};
ghost use Rattle.lukasembo.specs.Packed.{packed_read, packed_written};
ghost use Rattle.lukasembo.specs.Steps.{packed_unwrapped, numbers_in, packed_numbers, numbers_left, packed_next, StepSays};
ghost use Rattle.lukasembo.specs.Wraps.{packed_wrapped, writer_in, packed_writer, WrapStepSays, CloseStepSays};

use explains::{Explained, Field};
use fields::Table;
use guides::{Answer, Gathering, Told};
use meaning::{Kind, Listed, Refusal};
use slots::Slot;
use tunnel::{Numbers, Unwrapped};
use writer::Unwritten;

// The reader's answer as one number.
fn pack_read(answer: Result<Listed, Refusal>) -> u64
    requires { ((read_values answer).length ≤ longest_listing) × ((read_values answer).at ≤ longest_chunk) }
    ensures { result ≡ packed_read answer }
{
    match answer {
        Ok(listed) => {
            let current = u8::from(listed.kind);
            current as u64 * 0x100 + listed.minor as u64 * 0x200 + listed.length as u64 * 0x10000
        }
        Err(refusal) => {
            let number = u8::from(refusal);
            let at = refusal.offset();
            number as u64 + at as u64 * 0x100000000
        }
    }
}

// The writer's answer as one number.
fn pack_written(answer: Result<usize, Unwritten>) -> u64
    requires { (written_values answer).count ≤ most_segments }
    ensures { result ≡ packed_written answer }
{
    match answer {
        Ok(count) => count as u64 * 0x10000,
        Err(refusal) => u8::from(refusal) as u64,
    }
}

// Reads a chunk: its listing goes to the start of the buffer.
pub fn lukasembo_read(chunk: &[u8], buffer: &mut [u8]) -> u64
    ensures { (result ≡ packed_read (read_answer chunk.now buffer.old)) × (buffer.new ≡ read_buffer chunk.now buffer.old) }
{
    let answer = reader::read(chunk, buffer);
    pack_read(answer)
}

// Writes the segments of a listing for the kind with this current_next: they go to the start of the output.
pub fn lukasembo_write(listing: &[u8], current: u8, output: &mut [u8]) -> u64
    ensures { (result ≡ packed_written (write_answer listing.now (kind_of current) output.old)) × (output.new ≡ write_output listing.now (kind_of current) output.old) }
{
    let kind = Kind::from(current);
    let answer = writer::write(listing, kind, output);
    pack_written(answer)
}

// ---- the tunnel

// After a call: the answer, and the numbers that the caller keeps.
#[repr(C)]
#[derive(Clone, Copy)]
pub struct Step {
    pub answer: u64,
    pub numbers: u64,
}

// The reader's numbers, as the caller keeps them.
fn unpack_numbers(packed: u64) -> Numbers
    ensures { result ≡ numbers_in packed }
{
    let held = (packed % 0x10000) as usize;
    if packed / 0x100000000 == 0 {
        return Numbers { last: None, held };
    }
    let last = (packed / 0x10000 % 0x10000) as u16;
    Numbers {
        last: Some(last),
        held,
    }
}

fn pack_numbers(numbers: Numbers) -> u64
    requires { numbers.held < 65536 }
    ensures { result ≡ packed_numbers numbers }
{
    match numbers.last {
        Some(last) => numbers.held as u64 + last as u64 * 0x10000 + 0x100000000,
        None => numbers.held as u64,
    }
}

// What the caller keeps after an answer: where nothing changes, what was given.
fn left_numbers(answer: Result<Unwrapped, tunnel::Refusal>, before: u64, after: Numbers) -> u64
    requires { after.held < 65536 }
    ensures { result ≡ numbers_left answer before after }
{
    match answer {
        Ok(
            Unwrapped::Stored {
                stored: _,
                gap: _,
                lost: _,
            },
        ) => pack_numbers(after),
        Ok(Unwrapped::Repeat) => before,
        Err(tunnel::Refusal::ShortOutput) => before,
        Err(tunnel::Refusal::Foreign) => before,
        Err(tunnel::Refusal::BadOffset { gap: _, lost: _ }) => pack_numbers(after),
    }
}

// The tunnel's answer as one number.
fn pack_unwrapped(answer: Result<Unwrapped, tunnel::Refusal>) -> u64
    requires { ((unwrapped_values answer).stored < 65536) × ((unwrapped_values answer).lost < 65536) }
    ensures { result ≡ packed_unwrapped answer }
{
    let v = tunnel::values_of(answer);
    let low = v.number as u64 + v.repeat as u64 * 0x100 + v.gap as u64 * 0x10000;
    low + v.stored as u64 * 0x100000000 + v.lost as u64 * 0x1000000000000
}

// Reads an outer packet: the inner packets that it finishes go to the start of the output.
pub fn lukasembo_unwrap_step(
    numbers: u64,
    part: &mut [u8; 1500],
    outer: &[u8],
    output: &mut [u8],
) -> Step
    ensures { StepSays numbers part.old outer.now output.old result.answer result.numbers part.new output.new }
{
    let m = unpack_numbers(numbers);
    let fed = tunnel::unwrap(m, part, outer, output);
    let answer = fed.answer;
    let after = fed.numbers;
    Step {
        answer: pack_unwrapped(answer),
        numbers: left_numbers(answer, numbers, after),
    }
}

// What stands at a place of a store.
pub fn lukasembo_next_packet(store: &[u8], at: usize) -> u64
    ensures { result ≡ packed_next (next_in (drop at store.now)) }
{
    match store::next_at(store, at) {
        Ok(Some(n)) => n as u64 * 0x10000,
        Ok(None) => 0,
        Err(broken) => u8::from(broken) as u64,
    }
}

// ---- the tunnel's writer

// The writer's numbers, as the caller keeps them.
fn unpack_writer(packed: u64, since: u32) -> wrapper::Numbers
    ensures { result ≡ writer_in packed since }
{
    wrapper::Numbers {
        size: (packed % 0x10000) as usize,
        next: (packed / 0x10000 % 0x10000) as u16,
        left: (packed / 0x100000000 % 0x10000) as usize,
        begin: (packed / 0x1000000000000) as usize,
        timestamp: since,
    }
}

fn pack_writer(numbers: wrapper::Numbers) -> u64
    requires { (numbers.size < 65536) × (numbers.left < 65536) × (numbers.begin < 65536) }
    ensures { result ≡ packed_writer numbers }
{
    let low = numbers.size as u64 + numbers.next as u64 * 0x10000;
    low + numbers.left as u64 * 0x100000000 + numbers.begin as u64 * 0x1000000000000
}

// Its answer, and the timestamp of the first byte that is left, as one number.
fn pack_wrapped(values: wrapper::Values, timestamp: u32) -> u64
    requires { values.wrote < 65536 }
    ensures { result ≡ packed_wrapped values timestamp }
{
    values.number as u64 + values.wrote as u64 * 0x10000 + timestamp as u64 * 0x100000000
}

// What a call gave, as the caller gets it.
fn pack_given(given: wrapper::Given) -> Step
    requires { ((wrapped_values given.answer).wrote < 65536) × (given.numbers.size < 65536) × (given.numbers.left < 65536) × (given.numbers.begin < 65536) }
    ensures { (result.answer ≡ packed_wrapped (wrapped_values given.answer) given.numbers.timestamp) × (result.numbers ≡ packed_writer given.numbers) }
{
    let values = wrapper::values_of(given.answer);
    Step {
        answer: pack_wrapped(values, given.numbers.timestamp),
        numbers: pack_writer(given.numbers),
    }
}

// Writes a packet: the outer packets that it fills go to the start of the output.
pub fn lukasembo_wrap_step(
    numbers: u64,
    since: u32,
    left: &mut [u8; 1400],
    packet: &[u8],
    timestamp: u32,
    output: &mut [u8],
) -> Step
    ensures { WrapStepSays numbers since left.old packet.now timestamp output.old result.answer result.numbers left.new output.new }
{
    let before = unpack_writer(numbers, since);
    pack_given(wrapper::wrap(before, left, packet, timestamp, output))
}

// Closes: what is left, if anything, goes to the start of the output.
pub fn lukasembo_close_step(numbers: u64, since: u32, left: &[u8; 1400], output: &mut [u8]) -> Step
    ensures { CloseStepSays numbers since left.now output.old result.answer result.numbers output.new }
{
    let before = unpack_writer(numbers, since);
    pack_given(wrapper::close(before, left, output))
}

// ---- the guide

// What the caller keeps after an answer: where nothing changes, what was given.
fn left_gathering(answer: Result<Answer, sections::Refusal>, before: u64, after: Gathering) -> u64
    ensures { result ≡ guide_left answer before after }
{
    match answer {
        Ok(Answer::Noted { .. } | Answer::Repeat { .. }) => {
            after.version as u64 + after.last as u64 * 0x100
        }
        Ok(Answer::NotOurs | Answer::NotYet) | Err(_) => before,
    }
}

// The guide's answer as one number.
fn pack_guide(answer: Result<Answer, sections::Refusal>) -> u64
    ensures { result ≡ packed_guide answer }
{
    match answer {
        Ok(Answer::NotOurs) => 0x200,
        Ok(Answer::NotYet) => 0x400,
        Ok(Answer::Noted { missing }) => missing as u64 * 0x10000,
        Ok(Answer::Repeat { missing }) => 0x100 + missing as u64 * 0x10000,
        Err(refusal) => u8::from(refusal) as u64 + refusal.offset() as u64 * 0x100000000,
    }
}

// Takes a section of the guide: its number is noted in the caller's four words.
pub fn lukasembo_guide_step(numbers: u64, noted: &mut [u64; 4], section: &[u8]) -> Step
    ensures { GuideStepSays numbers noted.old section.now result.answer result.numbers noted.new }
{
    let words = *noted;
    let before = Gathering {
        version: (numbers % 0x100) as u8,
        last: (numbers / 0x100 % 0x100) as u8,
        noted: words,
    };
    let Told { answer, gathering } = before.take(section);
    let words = gathering.noted;
    *noted = words;
    Step {
        answer: pack_guide(answer),
        numbers: left_gathering(answer, numbers, gathering),
    }
}

// How many names a section has.
pub fn lukasembo_guide_names(section: &[u8]) -> usize
    ensures { result ≡ name_count section.now }
{
    sections::name_count(section)
}

// Where a name stands in its section.
pub fn lukasembo_name_place(section: &[u8], n: usize) -> u64
    ensures { result ≡ packed_name section.now n }
{
    let place = sections::name_place(section, n);
    place.from as u64 + place.length as u64 * 0x10000
}

// ---- explanations

// The number, the field and the offset as one number; the value.
#[repr(C)]
#[derive(Clone, Copy)]
pub struct Explanation {
    pub answer: u64,
    pub value: u64,
}

// Stays: (a) numbers of the C interface, as lukasembo.h has them; a `From` would belong to `fields`, which knows nothing of C.
fn table_number(table: Table) -> u8
    ensures value { result ≡ table_number table }
    ensures upper_bound { result ≤ 0x40 }
{
    match table {
        Table::Chunk => 0x10,
        Table::Ensemble => 0x20,
        Table::Service => 0x30,
        Table::Segment => 0x40,
    }
}

fn field_number(field: Field) -> u16
    ensures { result ≡ field_number field }
{
    match field {
        Field::Length => 1,
        Field::Payload => 2,
        Field::Row { table, row } => table_number(table) as u16 + row as u16,
    }
}

fn pack_explained(explained: Option<Explained>) -> Explanation
    ensures { ExplainSays explained result.answer result.value }
{
    match explained {
        None => Explanation {
            answer: 0,
            value: 0,
        },
        Some(
            Explained::Found {
                number,
                field,
                at,
                value,
            },
        ) => {
            let low = number as u64 + field_number(field) as u64 * 0x100;
            Explanation {
                answer: low + at as u64 * 0x100000000,
                value: value as u64,
            }
        }
        Some(Explained::Spoiled) => Explanation {
            answer: 0x307,
            value: 0,
        },
    }
}

// A slot's numbers, as the caller has them.
fn unpack_slot(packed: u64) -> Slot
    ensures { result ≡ slot_in packed }
{
    Slot {
        held: (packed % 0x10000) as u16,
        last: (packed / 0x10000 % 0x100) as u8,
        spoiled: packed / 0x1000000 != 0,
    }
}

// Why the reader would refuse a chunk.
pub fn lukasembo_explain_chunk(chunk: &[u8]) -> Explanation
    ensures { ExplainSays (chunk_explained chunk.now) result.answer result.value }
{
    let explained = explains::explain_chunk(chunk);
    pack_explained(explained)
}

// Why a segment would be refused for its own length or header.
pub fn lukasembo_explain_segment(segment: &[u8]) -> Explanation
    ensures { ExplainSays (segment_explained segment.now) result.answer result.value }
{
    let explained = explains::explain_segment(segment);
    pack_explained(explained)
}

// The same, or why the slot of its kind would refuse it.
pub fn lukasembo_explain_gathered(segment: &[u8], slot: u64, bytes: &[u8]) -> Explanation
    ensures { ExplainSays (gathered_explained (slot_in slot) bytes.now segment.now) result.answer result.value }
{
    let numbers = unpack_slot(slot);
    let explained = explains::explain_gathered(segment, numbers, bytes);
    pack_explained(explained)
}
