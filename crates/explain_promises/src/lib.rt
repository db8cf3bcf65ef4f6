// What each offered call that explains a refusal says of its result, for any arguments: each function here has the call's contract, word for word, and only makes the
// call. No `requires` stands on this page.
#![tactic(auto)]

ghost use Rattle.std.specs.Prelude.{◌≡◌, T, drop};
ghost use Rattle.octets.specs.Checks.{among};
ghost use Rattle.manners.specs.Manners.{status_of};
ghost use Rattle.blocks.specs.Blocks.{run_statuses};
ghost use Rattle.records.specs.Records.{entry_in};
ghost use Rattle.explains.specs.Explaining.{chunk_explained, segment_explained, gathered_explained};
ghost use Rattle.lukasembo.specs.Explains.{slot_in, ExplainSays};
ghost use Rattle.explaining.specs.Explained.{explain_form};

use explains::Explained;
use manners::Ending;
use records::Entry;
use slots::Slot;
use std::io::{Read, Write};

pub fn explain_chunk(chunk: &[u8]) -> Option<Explained>
    ensures { result ≡ chunk_explained chunk.now }
{
    explains::explain_chunk(chunk)
}

pub fn explain_segment(seg: &[u8]) -> Option<Explained>
    ensures { result ≡ segment_explained seg.now }
{
    explains::explain_segment(seg)
}

pub fn explain_gathered(seg: &[u8], slot: Slot, bytes: &[u8]) -> Option<Explained>
    ensures { result ≡ gathered_explained slot bytes.now seg.now }
{
    explains::explain_gathered(seg, slot, bytes)
}

// ---- for programs in C; the program

pub fn chunk_for_c(chunk: &[u8]) -> lukasembo::Explanation
    ensures { ExplainSays (chunk_explained chunk.now) result.answer result.value }
{
    lukasembo::lukasembo_explain_chunk(chunk)
}

pub fn segment_for_c(segment: &[u8]) -> lukasembo::Explanation
    ensures { ExplainSays (segment_explained segment.now) result.answer result.value }
{
    lukasembo::lukasembo_explain_segment(segment)
}

pub fn gathered_for_c(segment: &[u8], slot: u64, bytes: &[u8]) -> lukasembo::Explanation
    ensures { ExplainSays (gathered_explained (slot_in slot) bytes.now segment.now) result.answer result.value }
{
    lukasembo::lukasembo_explain_gathered(segment, slot, bytes)
}

pub fn entry_at(file: &[u8], at: usize) -> Entry
    ensures { result ≡ entry_in explain_form (drop at file.now) }
{
    explaining::entry_at(file, at)
}

pub fn copy<R: Read, W: Write>(from: &mut R, to: &mut W, block: &mut [u8; 131072]) -> Ending
    ensures { T (among run_statuses (status_of result)) }
{
    explain_stream::copy(from, to, block)
}

pub fn copy_slowly<R: Read, W: Write>(from: &mut R, to: &mut W, block: &mut [u8; 65539]) -> Ending
    ensures { T (among run_statuses (status_of result)) }
{
    explain_stream::copy_slowly(from, to, block)
}
