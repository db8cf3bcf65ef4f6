// What is typed to the program `write`: a kind and a listing in hex; and the answer, a log of the writer's segments.
#![tactic(auto)]

ghost use Rattle.std.specs.Prelude.{◌≡◌, true, ◌++◌, ◌+◌, ◌*◌, ◌≤◌, ◌<◌, length, take, drop};
ghost use Rattle.std.proofs.lemmas.List.Edits.{sets};
ghost use Rattle.text.specs.Text.{text as Text·text};
ghost use Rattle.hex_text.specs.Hex.{hex_fits, hex_said};
ghost use Rattle.records.specs.Records.{mark_bytes};
ghost use Rattle.segments.specs.Segment.{segment_bytes, most_segments};
ghost use Rattle.typed.specs.declared.Unanswered.TheVariants.{Not};
ghost use Rattle.typed.specs.Typed.{kind_bytes, word_kind, line_length, longest_log, answer_for, reply_for, reply_log, ReplySays, log_put};

use meaning::Kind;
use records::MARK_BYTES;
use segments::{MOST_SEGMENTS, SEGMENT_BYTES};
use writer::{SHORTEST_OUTPUT, Unwritten};

// Why a text is answered by no log.
#[derive(Clone, Copy)]
pub enum Unanswered {
    // the writer refuses the listing
    Not(Unwritten),
    // it is no kind, a space and bytes in hex
    Unclear,
    TooLong,
    // the lent buffer is too short for the log of the longest chunk
    NoRoom,
}

impl From<Unwritten> for Unanswered {
    ghost from_gives = { λ refusal reason. reason ≡ Not refusal };

    fn from(refusal: Unwritten) -> Unanswered {
        Unanswered::Not(refusal)
    }
}

const LONGEST_TEXT: usize = 65535;

const KIND_BYTES: usize = 5;

// The longest listing that such a text can have.
const LISTING: usize = 32768;

// Room for the log of the longest chunk: a mark and a segment, 16 times.
pub const LONGEST_LOG: usize = MOST_SEGMENTS as usize * (MARK_BYTES + SEGMENT_BYTES);

// ---- the text

// The kind whose word the text begins with; none if it begins with neither.
fn word_kind(text: &[u8]) -> Option<Kind>
    ensures { result ≡ word_kind text.now }
{
    if text.starts_with(b"this ") {
        return Some(Kind::This);
    }
    if text.starts_with(b"next ") {
        return Some(Kind::Next);
    }
    None
}

// How long the text is without the newline at its end.
fn line_length(text: &[u8]) -> usize
    ensures { result ≡ line_length text.now }
{
    match text.last() {
        Some(b'\n') => text.len() - 1,
        _ => text.len(),
    }
}

// ---- the log

// Puts the mark SG and a segment at a place of the log.
fn put_record(segments: &[u8], from: usize, log: &mut [u8], to: usize)
    requires { (from + segment_bytes ≤ length segments.now) × (to + (mark_bytes + segment_bytes) ≤ length log.old) }
    ensures { log.new ≡ sets log.old to (Text·text "SG" ++ take segment_bytes (drop from segments.now)) }
{
    octets::put_mark(*b"SG", log, to);
    let start = to + MARK_BYTES;
    log[start..start + SEGMENT_BYTES].copy_from_slice(&segments[from..from + SEGMENT_BYTES]);
}

// Puts the log of the first count segments.
fn put_log(segments: &[u8], count: usize, log: &mut [u8])
    requires { (count ≤ most_segments) × (segment_bytes * count ≤ length segments.now) × ((mark_bytes + segment_bytes) * count ≤ length log.old) }
    ensures { log.new ≡ sets log.old 0 (log_put count segments.now) }
{
    for i in 0..count {
        put_record(
            segments,
            SEGMENT_BYTES * i,
            log,
            (MARK_BYTES + SEGMENT_BYTES) * i,
        );
    }
}

// ---- the answer

// Answers to a listing: its segments' log, or the writer's refusal.
fn answer(kind: Kind, listing: &[u8], log: &mut [u8]) -> Result<usize, Unanswered>
    requires { longest_log ≤ length log.old }
    ensures value { result ≡ reply_for (answer_for kind listing.now) }
    ensures log_after { log.new ≡ reply_log result kind listing.now log.old }
{
    let mut output = [0u8; SHORTEST_OUTPUT];
    let count = writer::write(listing, kind, &mut output)?;
    put_log(&output, count, log);
    Ok((MARK_BYTES + SEGMENT_BYTES) * count)
}

// Answers to a text that has count bytes in hex after its word.
fn answer_text(
    text: &[u8],
    kind: Kind,
    count: usize,
    listing: &mut [u8],
    log: &mut [u8],
) -> Result<usize, Unanswered>
    requires count_in_bounds { (kind_bytes + 2 * count ≤ length text.now) × (count ≤ length listing.old) }
    requires text_value { (hex_fits count (drop kind_bytes text.now) ≡ true) × (longest_log ≤ length log.old) }
    ensures value { result ≡ reply_for (answer_for kind (hex_said count (drop kind_bytes text.now))) }
    ensures log_after { log.new ≡ reply_log result kind (hex_said count (drop kind_bytes text.now)) log.old }
{
    hex_text::take_hex(text, KIND_BYTES, count, listing);
    answer(kind, &listing[..count], log)
}

// Answers to a text: the log goes to the start of the lent buffer, and its length is the answer; where there is none, nothing is written.
pub fn respond(text: &[u8], log: &mut [u8]) -> Result<usize, Unanswered>
    ensures { ReplySays text.now log.old result log.new }
{
    if log.len() < LONGEST_LOG {
        return Err(Unanswered::NoRoom);
    }
    if LONGEST_TEXT < text.len() {
        return Err(Unanswered::TooLong);
    }
    let kind = word_kind(text).ok_or(Unanswered::Unclear)?;
    let digits = line_length(text) - KIND_BYTES;
    if digits % 2 != 0 {
        return Err(Unanswered::Unclear);
    }
    let count = digits / 2;
    if !hex_text::hex_fits(text, KIND_BYTES, count) {
        return Err(Unanswered::Unclear);
    }
    let mut listing = [0u8; LISTING];
    answer_text(text, kind, count, &mut listing, log)
}
