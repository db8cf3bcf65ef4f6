// Records with a mark: what stands at a place of a file of them.
#![tactic(auto)]

ghost use Rattle.std.specs.Prelude.{◌≡◌, ◌+◌, ◌≤◌, length, drop};
ghost use Rattle.text.specs.Text.{Put};
ghost use Rattle.records.specs.Records.{mark_bytes, mark_in, entry_of, entry_as, end_number, last_line, longest_last};

// What a mark tells: so many bytes follow it; or it is none of this file's.
#[derive(Clone, Copy)]
pub enum Form {
    Foreign,
    Fixed(usize),
    // a two-byte length follows the mark, big-endian, and that many bytes, no fewer and no more than these
    Counted { least: usize, most: usize },
}

// What stands at a place of a file.
#[derive(Clone, Copy)]
pub enum Entry {
    End,
    // a whole record of so many bytes
    Whole(usize),
    // an unknown mark, or one with a length that it does not take
    Unknown,
    Cut,
}

pub const MARK_BYTES: usize = 2;

pub const LENGTH_BYTES: usize = 2;

// The mark at a place; 0 if there are fewer than two bytes.
pub fn mark_at(file: &[u8], at: usize) -> u16
    ensures { result ≡ mark_in (drop at file.now) }
{
    // the same tests as below, so that the compiler makes them once
    if file.len() <= at {
        return 0;
    }
    let left = file.len() - at;
    if left < MARK_BYTES {
        return 0;
    }
    octets::word_of(file[at], file[at + 1])
}

// What stands at a place whose mark a length within these limits follows.
fn counted_at(file: &[u8], at: usize, least: usize, most: usize) -> Entry
    requires { at + mark_bytes ≤ length file.now }
    ensures { result ≡ entry_of (Form.Counted least most) (drop at file.now) }
{
    let left = file.len() - at;
    if left < MARK_BYTES + LENGTH_BYTES {
        return Entry::Cut;
    }
    let from = at + MARK_BYTES;
    let count = octets::word_of(file[from], file[from + 1]) as usize;
    if count < least {
        return Entry::Unknown;
    }
    if most < count {
        return Entry::Unknown;
    }
    let size = MARK_BYTES + LENGTH_BYTES + count;
    if left < size {
        Entry::Cut
    } else {
        Entry::Whole(size)
    }
}

// What stands at a place whose mark tells this.
pub fn entry_at(file: &[u8], at: usize, form: Form) -> Entry
    ensures { result ≡ entry_as form (drop at file.now) }
{
    if file.len() <= at {
        return Entry::End;
    }
    let left = file.len() - at;
    if left < MARK_BYTES {
        return Entry::Cut;
    }
    match form {
        Form::Foreign => Entry::Unknown,
        Form::Fixed(n) => {
            if left - MARK_BYTES < n {
                Entry::Cut
            } else {
                Entry::Whole(MARK_BYTES + n)
            }
        }
        Form::Counted { least, most } => counted_at(file, at, least, most),
    }
}

// The number of the last line.
pub fn end_number(entry: Entry) -> u8
    ensures { result ≡ end_number entry }
{
    match entry {
        Entry::End => 0,
        Entry::Whole(_) => 0,
        Entry::Unknown => 15,
        Entry::Cut => 15,
    }
}

// Puts the last line at the start of the output.
pub fn put_last(entry: Entry, out: &mut [u8]) -> usize
    requires { longest_last ≤ length out.old }
    ensures { Put (last_line entry) out.old 0 out.new result }
{
    let end = text::put_text(b"END ", out, 0);
    text::put_numbered(end_number(entry) as u64, out, end)
}
