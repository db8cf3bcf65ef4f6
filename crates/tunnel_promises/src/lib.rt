// What each offered call of the tunnel says of its result, for any arguments: each function here has the call's contract, word for word, and only makes the call. No
// `requires` stands on this page.
#![tactic(auto)]

ghost use Rattle.std.specs.Prelude.{◌≡◌, ◌+◌, T, length, drop, Err};
ghost use Rattle.octets.specs.Checks.{among};
ghost use Rattle.manners.specs.Manners.{status_of};
ghost use Rattle.blocks.specs.Blocks.{run_statuses};
ghost use Rattle.rtp.specs.Header.{is_plain};
ghost use Rattle.store.specs.Store.{next_in, next_number, packet_in, packet_place};
ghost use Rattle.tunnel.specs.Unwrap.{fresh_numbers, reader, part_of, refusal_number, unwrapped_values, UnwrapSays};
ghost use Rattle.packets.specs.Packets.{is_carried};
ghost use Rattle.wrapper.specs.Wrap.{is_size, fresh_numbers as Wrap·freshNumbers, wrapped_values, WrapSays, CloseSays};
ghost use Rattle.lukasembo.specs.Steps.{packed_next, StepSays};
ghost use Rattle.lukasembo.specs.Wraps.{WrapStepSays, CloseStepSays};
ghost use Rattle.wrapping.specs.Words.{size_in};
ghost use Rattle.wrap_stream.specs.Streams.{wrap_statuses};

use manners::Ending;
use std::io::{Read, Write};
use store::Broken;
use tunnel::{Fed, Numbers, Refusal, Unwrapped, Values};

// ---- the reader

pub fn fresh() -> Numbers
    ensures { result ≡ fresh_numbers }
{
    tunnel::fresh()
}

pub fn unwrap(numbers: Numbers, part: &mut [u8; 1500], outer: &[u8], out: &mut [u8]) -> Fed
    ensures { UnwrapSays numbers part.old outer.now out.old result.answer result.numbers part.new out.new }
{
    tunnel::unwrap(numbers, part, outer, out)
}

pub fn values_of(answer: Result<Unwrapped, Refusal>) -> Values
    ensures { result ≡ unwrapped_values answer }
{
    tunnel::values_of(answer)
}

pub fn refusal_number(refusal: Refusal) -> u8
    ensures { result ≡ refusal_number refusal }
{
    u8::from(refusal)
}

pub fn held(numbers: Numbers, part: &[u8; 1500]) -> usize
    ensures { result ≡ length (part_of (reader numbers part.now)) }
{
    tunnel::held(numbers, part)
}

pub fn is_plain(kind: u8, packet: &[u8]) -> bool
    ensures { result ≡ is_plain kind packet.now }
{
    rtp::is_plain(kind, packet)
}

// ---- a store

pub fn next_at(store: &[u8], at: usize) -> Result<Option<usize>, Broken>
    ensures { result ≡ next_in (drop at store.now) }
{
    store::next_at(store, at)
}

pub fn next_number(next: Result<Option<usize>, Broken>) -> u8
    ensures { result ≡ next_number next }
{
    store::next_number(next)
}

pub fn broken_number(broken: Broken) -> u8
    ensures { result ≡ next_number (Err broken) }
{
    u8::from(broken)
}

pub fn packet_at(store: &[u8], at: usize) -> &[u8]
    ensures result_value { result.now ≡ packet_in (drop at store.now) }
    ensures ref_ptr_value { result.ref_ptr ≡ (store.entry.ref_ptr.0, store.entry.ref_ptr.1 + packet_place (next_in (drop at store.now)) at) }
{
    store::packet_at(store, at)
}

// ---- for programs in C; the program

pub fn unwrap_for_c(
    numbers: u64,
    part: &mut [u8; 1500],
    outer: &[u8],
    output: &mut [u8],
) -> lukasembo::Step
    ensures { StepSays numbers part.old outer.now output.old result.answer result.numbers part.new output.new }
{
    lukasembo::lukasembo_unwrap_step(numbers, part, outer, output)
}

pub fn next_packet_for_c(store: &[u8], at: usize) -> u64
    ensures { result ≡ packed_next (next_in (drop at store.now)) }
{
    lukasembo::lukasembo_next_packet(store, at)
}

pub fn copy<R: Read, W: Write, V: Write>(
    from: &mut R,
    to: &mut W,
    aside: &mut V,
    block: &mut [u8; 131072],
) -> Ending
    ensures { T (among run_statuses (status_of result)) }
{
    unwrap_stream::copy(from, to, aside, block)
}

pub fn copy_slowly<R: Read, W: Write, V: Write>(
    from: &mut R,
    to: &mut W,
    aside: &mut V,
    block: &mut [u8; 65539],
) -> Ending
    ensures { T (among run_statuses (status_of result)) }
{
    unwrap_stream::copy_slowly(from, to, aside, block)
}

// ---- the writer

pub fn fresh_writer(size: usize, first: u16) -> wrapper::Numbers
    ensures { result ≡ Wrap·freshNumbers size first }
{
    wrapper::fresh(size, first)
}

pub fn is_size(size: usize) -> bool
    ensures { result ≡ is_size size }
{
    wrapper::is_size(size)
}

pub fn wrap(
    numbers: wrapper::Numbers,
    bytes: &mut [u8; 1400],
    packet: &[u8],
    timestamp: u32,
    out: &mut [u8],
) -> wrapper::Given
    ensures { WrapSays numbers bytes.old packet.now timestamp out.old result.answer result.numbers bytes.new out.new }
{
    wrapper::wrap(numbers, bytes, packet, timestamp, out)
}

pub fn close(numbers: wrapper::Numbers, bytes: &[u8; 1400], out: &mut [u8]) -> wrapper::Given
    ensures { CloseSays numbers bytes.now out.old result.answer result.numbers out.new }
{
    wrapper::close(numbers, bytes, out)
}

pub fn wrapped_values(answer: Result<usize, wrapper::Refusal>) -> wrapper::Values
    ensures { result ≡ wrapped_values answer }
{
    wrapper::values_of(answer)
}

pub fn is_carried(packet: &[u8]) -> bool
    ensures { result ≡ is_carried packet.now }
{
    packets::is_carried(packet)
}

// ---- for programs in C; the program

pub fn wrap_for_c(
    numbers: u64,
    since: u32,
    left: &mut [u8; 1400],
    packet: &[u8],
    timestamp: u32,
    output: &mut [u8],
) -> lukasembo::Step
    ensures { WrapStepSays numbers since left.old packet.now timestamp output.old result.answer result.numbers left.new output.new }
{
    lukasembo::lukasembo_wrap_step(numbers, since, left, packet, timestamp, output)
}

pub fn close_for_c(
    numbers: u64,
    since: u32,
    left: &[u8; 1400],
    output: &mut [u8],
) -> lukasembo::Step
    ensures { CloseStepSays numbers since left.now output.old result.answer result.numbers output.new }
{
    lukasembo::lukasembo_close_step(numbers, since, left, output)
}

pub fn size_of(word: &[u8]) -> Option<usize>
    ensures { result ≡ size_in word.now }
{
    wrapping::size_of(word)
}

pub fn copy_wrapped<R: Read, W: Write, V: Write>(
    size: usize,
    from: &mut R,
    to: &mut W,
    aside: &mut V,
    block: &mut [u8; 131072],
) -> Ending
    ensures { T (among (wrap_statuses size) (status_of result)) }
{
    wrap_stream::copy(size, from, to, aside, block)
}

pub fn copy_wrapped_slowly<R: Read, W: Write, V: Write>(
    size: usize,
    from: &mut R,
    to: &mut W,
    aside: &mut V,
    block: &mut [u8; 1504],
) -> Ending
    ensures { T (among (wrap_statuses size) (status_of result)) }
{
    wrap_stream::copy_slowly(size, from, to, aside, block)
}
