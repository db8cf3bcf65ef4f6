// The calls of the library for programs in C, exported: each is the library's call of that name, with its clauses. include/lukasembo.h declares them.
#![tactic(auto)]

ghost use Rattle.std.specs.Prelude.{◌≡◌, drop};
ghost use Rattle.meaning.specs.Lists.{kind_of};
ghost use Rattle.meaning.specs.Reading.{read_answer, read_buffer};
ghost use Rattle.writer.specs.Writing.{write_answer, write_output};
ghost use Rattle.store.specs.Store.{next_in};
ghost use Rattle.sections.specs.Reading.{name_count};
ghost use Rattle.explains.specs.Explaining.{chunk_explained, segment_explained, gathered_explained};
ghost use Rattle.lukasembo.specs.Explains.{slot_in, ExplainSays};
ghost use Rattle.lukasembo.specs.Guides.{packed_name, GuideStepSays};
ghost use Rattle.lukasembo.specs.Packed.{packed_read, packed_written};
ghost use Rattle.lukasembo.specs.Steps.{packed_next, StepSays};
ghost use Rattle.lukasembo.specs.Wraps.{WrapStepSays, CloseStepSays};

// Reads a chunk: its listing goes to the start of the buffer.
#[unsafe(no_mangle)]
pub extern "C" fn lukasembo_read(chunk: &[u8], buffer: &mut [u8]) -> u64
    ensures { (result ≡ packed_read (read_answer chunk.now buffer.old)) × (buffer.new ≡ read_buffer chunk.now buffer.old) }
{
    lukasembo::lukasembo_read(chunk, buffer)
}

// Writes the segments of a listing for the kind with this current_next: they go to the start of the output.
#[unsafe(no_mangle)]
pub extern "C" fn lukasembo_write(listing: &[u8], current: u8, output: &mut [u8]) -> u64
    ensures { (result ≡ packed_written (write_answer listing.now (kind_of current) output.old)) × (output.new ≡ write_output listing.now (kind_of current) output.old) }
{
    lukasembo::lukasembo_write(listing, current, output)
}

// Reads an outer packet: the inner packets that it finishes go to the start of the output.
#[unsafe(no_mangle)]
pub extern "C" fn lukasembo_unwrap_step(
    numbers: u64,
    part: &mut [u8; 1500],
    outer: &[u8],
    output: &mut [u8],
) -> lukasembo::Step
    ensures { StepSays numbers part.old outer.now output.old result.answer result.numbers part.new output.new }
{
    lukasembo::lukasembo_unwrap_step(numbers, part, outer, output)
}

// What stands at a place of a store.
#[unsafe(no_mangle)]
pub extern "C" fn lukasembo_next_packet(store: &[u8], at: usize) -> u64
    ensures { result ≡ packed_next (next_in (drop at store.now)) }
{
    lukasembo::lukasembo_next_packet(store, at)
}

// Writes a packet: the outer packets that it fills go to the start of the output.
#[unsafe(no_mangle)]
pub extern "C" fn lukasembo_wrap_step(
    numbers: u64,
    since: u32,
    left: &mut [u8; 1400],
    packet: &[u8],
    timestamp: u32,
    output: &mut [u8],
) -> lukasembo::Step
    ensures { WrapStepSays numbers since left.old packet.now timestamp output.old result.answer result.numbers left.new output.new }
{
    lukasembo::lukasembo_wrap_step(numbers, since, left, packet, timestamp, output)
}

// Closes: what is left, if anything, goes to the start of the output.
#[unsafe(no_mangle)]
pub extern "C" fn lukasembo_close_step(
    numbers: u64,
    since: u32,
    left: &[u8; 1400],
    output: &mut [u8],
) -> lukasembo::Step
    ensures { CloseStepSays numbers since left.now output.old result.answer result.numbers output.new }
{
    lukasembo::lukasembo_close_step(numbers, since, left, output)
}

// Takes a section of the guide: its number is noted in the caller's four words.
#[unsafe(no_mangle)]
pub extern "C" fn lukasembo_guide_step(
    numbers: u64,
    noted: &mut [u64; 4],
    section: &[u8],
) -> lukasembo::Step
    ensures { GuideStepSays numbers noted.old section.now result.answer result.numbers noted.new }
{
    lukasembo::lukasembo_guide_step(numbers, noted, section)
}

// How many names a section has.
#[unsafe(no_mangle)]
pub extern "C" fn lukasembo_guide_names(section: &[u8]) -> usize
    ensures { result ≡ name_count section.now }
{
    lukasembo::lukasembo_guide_names(section)
}

// Where a name stands in its section.
#[unsafe(no_mangle)]
pub extern "C" fn lukasembo_name_place(section: &[u8], n: usize) -> u64
    ensures { result ≡ packed_name section.now n }
{
    lukasembo::lukasembo_name_place(section, n)
}

// Why the reader would refuse a chunk.
#[unsafe(no_mangle)]
pub extern "C" fn lukasembo_explain_chunk(chunk: &[u8]) -> lukasembo::Explanation
    ensures { ExplainSays (chunk_explained chunk.now) result.answer result.value }
{
    lukasembo::lukasembo_explain_chunk(chunk)
}

// Why a segment would be refused for its own length or header.
#[unsafe(no_mangle)]
pub extern "C" fn lukasembo_explain_segment(segment: &[u8]) -> lukasembo::Explanation
    ensures { ExplainSays (segment_explained segment.now) result.answer result.value }
{
    lukasembo::lukasembo_explain_segment(segment)
}

// The same, or why the slot of its kind would refuse it.
#[unsafe(no_mangle)]
pub extern "C" fn lukasembo_explain_gathered(
    segment: &[u8],
    slot: u64,
    bytes: &[u8],
) -> lukasembo::Explanation
    ensures { ExplainSays (gathered_explained (slot_in slot) bytes.now segment.now) result.answer result.value }
{
    lukasembo::lukasembo_explain_gathered(segment, slot, bytes)
}
