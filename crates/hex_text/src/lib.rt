// Bytes in hex: put at a place of an output, and taken from a place of a text.
#![tactic(auto)]

ghost use Rattle.std.specs.Prelude.{◌≡◌, true, ◌+◌, ◌*◌, ◌≤◌, ◌<◌, is_some, length, drop};
ghost use Rattle.std.specs.List.{list_all};
ghost use Rattle.std.proofs.lemmas.List.Edits.{sets};
ghost use Rattle.text.specs.Text.{Put};
ghost use Rattle.text.specs.Output.{HasRoom, Adds};
ghost use Rattle.hex_text.specs.Hex.{glyph as Hex·glyph, hex, digit_of, hex_fits, hex_said};

use text::Output;

// ---- written

// A digit. By arithmetic with no branch, which a processor does for many bytes at a time; it looks a table's places up one by one.
fn glyph(n: u8) -> u8
    requires { n < 16 }
    ensures { result ≡ Hex·glyph n }
{
    let letter = 39 * (9 < n) as u8;
    48 + n + letter
}

// Puts bytes in hex at a place of the output; the place after them.
pub fn put_hex(bytes: &[u8], out: &mut [u8], to: usize) -> usize
    requires { to + 2 * length bytes.now ≤ length out.old }
    ensures { Put (hex bytes.now) out.old to out.new result }
{
    for (i, &byte) in bytes.iter().enumerate() {
        let at = to + 2 * i;
        out[at] = glyph(byte / 16);
        out[at + 1] = glyph(byte % 16);
    }
    to + 2 * bytes.len()
}

// Puts bytes in hex to an output.
pub fn put_hex_to(bytes: &[u8], out: &mut Output<'_>)
    requires { HasRoom (2 * length bytes.now) out.old }
    ensures { Adds (hex bytes.now) out.old out.new }
{
    out.at = put_hex(bytes, out.bytes, out.at);
}

// ---- read

// The value of a hex digit; none for any other character.
fn digit(c: u8) -> Option<u8>
    ensures { result ≡ digit_of c }
{
    (c as char).to_digit(16).map(|value| value as u8)
}

// Whether all of a text is hex digits.
fn are_digits(text: &[u8]) -> bool
    ensures { result ≡ list_all (λ c. is_some (digit_of c)) text.now }
{
    text.iter().all(|&c| digit(c).is_some())
}

// Whether count bytes in hex stand from a place of the text on.
pub fn hex_fits(text: &[u8], from: usize, count: usize) -> bool
    requires { from + 2 * count ≤ length text.now }
    ensures { result ≡ hex_fits count (drop from text.now) }
{
    are_digits(&text[from..from + 2 * count])
}

// Takes those bytes to the start of a buffer.
pub fn take_hex(text: &[u8], from: usize, count: usize, bytes: &mut [u8])
    requires count_in_bounds { (from + 2 * count ≤ length text.now) × (count ≤ length bytes.old) }
    requires text_value { hex_fits count (drop from text.now) ≡ true }
    ensures { bytes.new ≡ sets bytes.old 0 (hex_said count (drop from text.now)) }
{
    for to in 0..count {
        let at = from + 2 * to;
        bytes[to] = digit(text[at]).unwrap() * 16 + digit(text[at + 1]).unwrap();
    }
}
