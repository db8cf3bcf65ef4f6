// The log program's lines, put to an output.
#![tactic(auto)]

ghost use Rattle.std.specs.Prelude.{◌≤◌, length};
ghost use Rattle.meaning.specs.Sizes.{longest_listing};
ghost use Rattle.text.specs.Output.{HasRoom, Adds};
ghost use Rattle.lines.specs.Lines.{listing_lines, frame_lines, gathering_line, kind_text, refusal_line, missing_line, list_lines, refused_line, longest_lines};

use meaning::{Kind, LONGEST_LISTING, Refusal};
use text::Output;

// Room for the lines of any record.
pub const LONGEST_LINES: usize = 15 + 4 + 2 * LONGEST_LISTING + 2;

// A listing's length, and on the next line the listing.
fn put_listing(listing: &[u8], out: &mut Output<'_>)
    requires { (length listing.now ≤ longest_listing) × HasRoom (length (listing_lines listing.now)) out.old }
    ensures { Adds (listing_lines listing.now) out.old out.new }
{
    out.numbered(listing.len() as u64);
    hex_text::put_hex_to(listing, out);
    out.put(b"\n");
}

// The lines of a new frame that shows this listing.
pub fn put_frame(listing: &[u8], out: &mut Output<'_>)
    requires { (length listing.now ≤ longest_listing) × HasRoom longest_lines out.old }
    ensures { Adds (frame_lines listing.now) out.old out.new }
{
    if listing.len() == 0 {
        out.put(b"FR none\n");
        return;
    }
    out.put(b"FR ");
    put_listing(listing, out);
}

// The line of a new gathering.
pub fn put_gathering(out: &mut Output<'_>)
    requires { HasRoom longest_lines out.old }
    ensures { Adds gathering_line out.old out.new }
{
    out.put(b"GA\n");
}

// The words before a listing of this kind.
fn put_kind(kind: Kind, out: &mut Output<'_>)
    requires { HasRoom (length (kind_text kind)) out.old }
    ensures { Adds (kind_text kind) out.old out.new }
{
    match kind {
        Kind::This => out.put(b"SG 0 list this "),
        Kind::Next => out.put(b"SG 0 list next "),
    }
}

// A refusal, to the end of its line; 9 tells an offset. Internal, as those below: `explain_lines` and `replay` call them.
pub fn put_refusal(refusal: Refusal, out: &mut Output<'_>)
    requires { HasRoom 32 out.old }
    ensures { Adds (refusal_line refusal) out.old out.new }
{
    out.refused(9, u8::from(refusal), refusal.offset());
}

// The line of a segment of whose chunk so many are still missing.
pub fn put_missing(n: u8, out: &mut Output<'_>)
    requires { HasRoom longest_lines out.old }
    ensures { Adds (missing_line n) out.old out.new }
{
    out.put(b"SG 0 missing ");
    out.numbered(n as u64);
}

// The lines of a segment that made this listing of this kind.
pub fn put_list(kind: Kind, listing: &[u8], out: &mut Output<'_>)
    requires { (length listing.now ≤ longest_listing) × HasRoom longest_lines out.old }
    ensures { Adds (list_lines kind listing.now) out.old out.new }
{
    put_kind(kind, out);
    put_listing(listing, out);
}

// The line of a refused segment.
pub fn put_refused(refusal: Refusal, out: &mut Output<'_>)
    requires { HasRoom longest_lines out.old }
    ensures { Adds (refused_line refusal) out.old out.new }
{
    out.put(b"SG ");
    put_refusal(refusal, out);
}
