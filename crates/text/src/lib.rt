// Words and decimal numbers, put at a place of an output; each answers the place after what it has put.
#![tactic(auto)]

ghost use Rattle.std.specs.Prelude.{◌≡◌, ◌+◌, ◌≤◌, length};
ghost use Rattle.std.proofs.lemmas.List.Edits.{sets};
ghost use Rattle.text.specs.Text.{decimal, numbered, offset_text, refused_with, Put};
ghost use Rattle.text.specs.Output.{HasRoom, Adds};

// Puts a word at a place of the output; the place after it.
pub fn put_text(word: &[u8], out: &mut [u8], to: usize) -> usize
    requires { to + length word.now ≤ length out.old }
    ensures { Put word.now out.old to out.new result }
{
    for (i, &byte) in word.iter().enumerate() {
        out[to + i] = byte;
    }
    to + word.len()
}

// Puts the count digits of a number, from the last to the first.
fn put_digits(n: u64, count: usize, out: &mut [u8], to: usize)
    requires { (count ≡ length (decimal n)) × (to + count ≤ length out.old) }
    ensures { out.new ≡ sets out.old to (decimal n) }
{
    let mut rest = n;
    for at in (to..to + count).rev() {
        out[at] = b'0' + (rest % 10) as u8;
        rest /= 10;
    }
}

// Puts a number in decimal.
pub fn put_number(n: u64, out: &mut [u8], to: usize) -> usize
    requires { to + length (decimal n) ≤ length out.old }
    ensures { Put (decimal n) out.old to out.new result }
{
    // most numbers have one digit
    if n < 10 {
        out[to] = b'0' + n as u8;
        return to + 1;
    }
    let count = n.ilog10() as usize + 1;
    put_digits(n, count, out, to);
    to + count
}

// Puts a number in decimal and ends the line.
pub fn put_numbered(n: u64, out: &mut [u8], to: usize) -> usize
    requires { to + length (numbered n) ≤ length out.old }
    ensures { Put (numbered n) out.old to out.new result }
{
    let end = put_number(n, out, to);
    out[end] = b'\n';
    end + 1
}

// The offset behind the number that tells one.
fn put_offset(telling: u8, number: u8, offset: u16, out: &mut [u8], to: usize) -> usize
    requires { to + 24 ≤ length out.old }
    ensures { Put (offset_text telling number offset) out.old to out.new result }
{
    if number != telling {
        return to;
    }
    let at = put_text(b" at ", out, to);
    put_number(offset as u64, out, at)
}

// Puts a refusal's number, the offset behind it if it is the number that tells one, and ends the line.
pub fn put_refused(telling: u8, number: u8, offset: u16, out: &mut [u8], to: usize) -> usize
    requires { to + 32 ≤ length out.old }
    ensures { Put (refused_with telling number offset) out.old to out.new result }
{
    let at = put_number(number as u64, out, to);
    let end = put_offset(telling, number, offset, out, at);
    put_text(b"\n", out, end)
}

// ---- an output, and the place that it has come to

// An output's bytes, and the place in them where what is put next begins.
#[derive(Drop)]
pub struct Output<'a> {
    pub bytes: &'a mut [u8],
    pub at: usize,
}

impl Output<'_> {
    // Puts bytes.
    pub fn put(&mut self, bytes: &[u8])
        requires { HasRoom (length bytes.now) self.old }
        ensures { Adds bytes.now self.old self.new }
    {
        self.at = put_text(bytes, self.bytes, self.at);
    }

    // Puts a number in decimal.
    pub fn number(&mut self, n: u64)
        requires { HasRoom (length (decimal n)) self.old }
        ensures { Adds (decimal n) self.old self.new }
    {
        self.at = put_number(n, self.bytes, self.at);
    }

    // Puts a number in decimal and ends the line.
    pub fn numbered(&mut self, n: u64)
        requires { HasRoom (length (numbered n)) self.old }
        ensures { Adds (numbered n) self.old self.new }
    {
        self.at = put_numbered(n, self.bytes, self.at);
    }

    // Puts a refusal's number, the offset behind it if it is the number that tells one, and ends the line.
    pub fn refused(&mut self, telling: u8, number: u8, offset: u16)
        requires { HasRoom 32 self.old }
        ensures { Adds (refused_with telling number offset) self.old self.new }
    {
        self.at = put_refused(telling, number, offset, self.bytes, self.at);
    }
}
