// A file for `explain` from a reader, its lines to a writer, in blocks. What is printed is decided by `explaining`, and `blocks` moves the bytes.
#![tactic(auto)]

ghost use Rattle.std.specs.Prelude.{T};
ghost use Rattle.octets.specs.Checks.{among};
ghost use Rattle.blocks.specs.Blocks.{run_statuses};
ghost use Rattle.manners.specs.Manners.{status_of};

use desk::BYTES;
use explaining::Explain;
use manners::Ending;
use meaning::LONGEST_LISTING;
use replay::Replay;
use std::io;
use std::io::{Read, Write};

// Prints the lines of a file, reading it through the lent block, from a fresh desk.
// Stays: (a) a public call has no `requires`, so each size of a block has a function.
pub fn copy<R: Read, W: Write>(from: &mut R, to: &mut W, block: &mut [u8; 131072]) -> Ending
    ensures { T (among run_statuses (status_of result)) }
{
    let mut bytes = [0u8; BYTES];
    let mut first = [0u8; LONGEST_LISTING];
    let mut second = [0u8; LONGEST_LISTING];
    let mut explain = Explain {
        replay: Replay::fresh(&mut bytes, &mut first, &mut second),
    };
    blocks::print(&mut explain, from, to, &mut [], &mut io::sink(), block)
}

// The same through a block that holds one of the longest records and no more, as a file that comes slowly is read.
pub fn copy_slowly<R: Read, W: Write>(from: &mut R, to: &mut W, block: &mut [u8; 65539]) -> Ending
    ensures { T (among run_statuses (status_of result)) }
{
    let mut bytes = [0u8; BYTES];
    let mut first = [0u8; LONGEST_LISTING];
    let mut second = [0u8; LONGEST_LISTING];
    let mut explain = Explain {
        replay: Replay::fresh(&mut bytes, &mut first, &mut second),
    };
    blocks::print(&mut explain, from, to, &mut [], &mut io::sink(), block)
}
