// Two-byte numbers, big-endian, and two-byte marks: the whole project takes the ones apart and puts both here.
#![tactic(auto)]

ghost use Rattle.std.specs.Prelude.{◌≡◌, ◌+◌, ◌≤◌, length};
ghost use Rattle.std.proofs.lemmas.List.Edits.{sets};
ghost use Rattle.octets.specs.Word.{word, high, low, word_bytes};

// The number that two bytes say.
pub fn word_of(first: u8, second: u8) -> u16
    ensures { result ≡ word first second }
{
    u16::from_be_bytes([first, second])
}

// The first of its two bytes.
pub fn high_of(w: u16) -> u8
    ensures { result ≡ high w }
{
    w.to_be_bytes()[0]
}

// The second of its two bytes.
pub fn low_of(w: u16) -> u8
    ensures { result ≡ low w }
{
    w.to_be_bytes()[1]
}

// Puts both bytes at a place.
pub fn put_word(w: u16, out: &mut [u8], at: usize)
    requires { at + 2 ≤ length out.old }
    ensures { out.new ≡ sets out.old at (word_bytes w) }
{
    put_mark(w.to_be_bytes(), out, at);
}

// Puts a record's mark at a place.
pub fn put_mark(mark: [u8; 2], out: &mut [u8], at: usize)
    requires { at + 2 ≤ length out.old }
    ensures { out.new ≡ sets out.old at mark }
{
    out[at..at + 2].copy_from_slice(&mark);
}
