// A file of outer packets from a reader, the packets to a writer and the report to another, in blocks. What is written is decided by `unwrapping`, and `blocks`
// moves the bytes.
#![tactic(auto)]

ghost use Rattle.std.specs.Prelude.{◌≤◌, T, length};
ghost use Rattle.octets.specs.Checks.{among};
ghost use Rattle.manners.specs.Manners.{status_of};
ghost use Rattle.blocks.specs.Blocks.{run_statuses};
ghost use Rattle.unwrapping.specs.Unwrapping.{longest_record};

use manners::Ending;
use std::io::{Read, Write};
use unwrapping::Unwrap;

// Unwraps a file, reading it through the lent block.
fn unwrap<R: Read, W: Write, V: Write>(
    from: &mut R,
    to: &mut W,
    aside: &mut V,
    block: &mut [u8],
) -> Ending
    requires { longest_record ≤ length block.old }
    ensures { T (among run_statuses (status_of result)) }
{
    let mut program = Unwrap {
        numbers: tunnel::fresh(),
        part: [0u8; 1500],
        count: 0,
    };
    let mut report = [0u8; 65536];
    blocks::print(&mut program, from, to, &mut report, aside, block)
}

// Unwraps a file, reading it through a block that holds two of the longest records.
// Stays: (a) a public call has no `requires`, so each size of a block has a function.
pub fn copy<R: Read, W: Write, V: Write>(
    from: &mut R,
    to: &mut W,
    aside: &mut V,
    block: &mut [u8; 131072],
) -> Ending
    ensures { T (among run_statuses (status_of result)) }
{
    unwrap(from, to, aside, block)
}

// The same through a block that holds one of the longest records and no more.
pub fn copy_slowly<R: Read, W: Write, V: Write>(
    from: &mut R,
    to: &mut W,
    aside: &mut V,
    block: &mut [u8; 65539],
) -> Ending
    ensures { T (among run_statuses (status_of result)) }
{
    unwrap(from, to, aside, block)
}
