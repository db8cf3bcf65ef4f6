// A file of timestamps and stored packets from a reader, the outer packets to a writer and the report to another, in blocks. What is written is decided by
// `wrapping`, and `blocks` moves the bytes.
#![tactic(auto)]

ghost use Rattle.std.specs.Prelude.{◌≤◌, T, length};
ghost use Rattle.octets.specs.Checks.{among};
ghost use Rattle.manners.specs.Manners.{status_of};
ghost use Rattle.wrapping.specs.Wrapping.{longest_record};
ghost use Rattle.wrap_stream.specs.Streams.{wrap_statuses};

use manners::Ending;
use std::io::{Read, Write};
use wrapping::{LONGEST_OUTPUT, Wrap};

// The number of a size that payloads may not have.
const BAD_SIZE: u8 = 18;

// Wraps a file, reading it through the lent block. Where payloads may not have this size, nothing is read, and 18 is the number.
fn wrap<R: Read, W: Write, V: Write>(
    size: usize,
    from: &mut R,
    to: &mut W,
    aside: &mut V,
    block: &mut [u8],
) -> Ending
    requires { longest_record ≤ length block.old }
    ensures { T (among (wrap_statuses size) (status_of result)) }
{
    if !wrapper::is_size(size) {
        return Ending::Over(BAD_SIZE);
    }
    let mut outers = [0u8; LONGEST_OUTPUT];
    let mut program = Wrap::fresh(size, &mut outers);
    let mut report = [0u8; 65536];
    blocks::print(&mut program, from, to, &mut report, aside, block)
}

// Wraps a file, reading it through a large block.
// Stays: (a) a public call has no `requires`, so each size of a block has a function.
pub fn copy<R: Read, W: Write, V: Write>(
    size: usize,
    from: &mut R,
    to: &mut W,
    aside: &mut V,
    block: &mut [u8; 131072],
) -> Ending
    ensures { T (among (wrap_statuses size) (status_of result)) }
{
    wrap(size, from, to, aside, block)
}

// The same through a block that holds one of the longest records and no more.
pub fn copy_slowly<R: Read, W: Write, V: Write>(
    size: usize,
    from: &mut R,
    to: &mut W,
    aside: &mut V,
    block: &mut [u8; 1504],
) -> Ending
    ensures { T (among (wrap_statuses size) (status_of result)) }
{
    wrap(size, from, to, aside, block)
}
