// The standard's tables as widths in bits: where a field begins, which is the first that does not fit whole, and what number stands in it. Internal, all of it:
// `explains` calls it (docs/DECISIONS.md, 7).
#![tactic(auto)]

ghost use Rattle.std.specs.Prelude.{◌≡◌, ℕ, ◌+◌, ◌*◌, ◌≤◌, ◌<◌, length, get_or, map};
ghost use Rattle.octets.specs.Bits.{laid, run};
ghost use Rattle.octets.specs.Tables.{before, number_at};
ghost use Rattle.fields.specs.Fields.{rows_of, widths_of, bits_of, cut_in, found_in};

use Width::{Bits, Run};

// Table 6.5; of Table 6.6 an ensemble, up to its services, and a service; Table 6.9.
#[derive(Clone, Copy)]
pub enum Table {
    Chunk,
    Ensemble,
    Service,
    Segment,
}

// A row, from 0, and the bits before it.
#[derive(Clone, Copy)]
pub struct Place {
    pub row: u8,
    pub at: u16,
}

// The bits before a row, and the number in its bits.
#[derive(Clone, Copy)]
pub struct Found {
    pub at: u16,
    pub value: usize,
}

// ---- the tables

// What a row has: so many bits, or a run of extension bytes, whose number the chunk's header says.
#[derive(Clone, Copy)]
enum Width {
    Bits(u8),
    Run,
}

impl Width {
    // Its bits, where a run has n bytes.
    fn bits(self, n: u8) -> usize
        requires { n < 8 }
        ensures value { result ≡ bits_of n self }
        ensures upper_bound { result ≤ 255 }
    {
        match self {
            Bits(width) => width as usize,
            Run => 8 * n as usize,
        }
    }
}

const CHUNK_ROWS: [Width; 10] = [
    Bits(2),
    Bits(3),
    Bits(3),
    Bits(3),
    Bits(3),
    Bits(1),
    Bits(1),
    Bits(16),
    Run,
    Bits(8),
];

const ENSEMBLE_ROWS: [Width; 9] = [
    Bits(8),
    Bits(3),
    Bits(5),
    Bits(1),
    Bits(1),
    Bits(1),
    Bits(5),
    Run,
    Bits(8),
];

const SERVICE_ROWS: [Width; 6] = [Bits(16), Bits(3), Bits(2), Bits(2), Bits(1), Run];

const SEGMENT_ROWS: [Width; 8] = [
    Bits(2),
    Bits(1),
    Bits(1),
    Bits(2),
    Bits(1),
    Bits(1),
    Bits(4),
    Bits(4),
];

impl Table {
    // The widths of its rows.
    fn rows(self) -> &'static [Width]
        ensures widths { (n : ℕ) → map (bits_of n) result.now ≡ widths_of n self }
        ensures count { length result.now ≡ length (rows_of self) }
        ensures upper_bound { length result.now ≤ 10 }
    {
        match self {
            Table::Chunk => &CHUNK_ROWS,
            Table::Ensemble => &ENSEMBLE_ROWS,
            Table::Service => &SERVICE_ROWS,
            Table::Segment => &SEGMENT_ROWS,
        }
    }
}

// ---- over any rows

// The bits before a row, where a run has n bytes.
fn sum_before(rows: &[Width], n: u8, row: usize) -> usize
    requires { (n < 8) × (row ≤ length rows.now) × (length rows.now ≤ 16) }
    ensures value { result ≡ before row (map (bits_of n) rows.now) }
    ensures upper_bound { result ≤ 255 * row }
{
    let mut at = 0usize;
    for width in &rows[..row] {
        at += width.bits(n);
    }
    at
}

// The first row that so many bits do not hold whole, where a run has n bytes, and the bits before it; behind the last row, if they hold all.
fn cut_in(rows: &[Width], n: u8, bits: usize) -> Place
    requires { (n < 8) × (length rows.now ≤ 16) }
    ensures value { result ≡ cut_in (map (bits_of n) rows.now) bits }
    ensures at_bound { result.at ≤ 4080 }
{
    let mut at = 0usize;
    for (row, width) in rows.iter().enumerate() {
        let end = at + width.bits(n);
        if bits < end {
            return Place {
                row: row as u8,
                at: at as u16,
            };
        }
        at = end;
    }
    Place {
        row: rows.len() as u8,
        at: at as u16,
    }
}

// ---- what stands there

// One bit of a byte string; bits count from the most significant of its first byte on.
fn bit_at(bytes: &[u8], at: usize) -> usize
    requires { at < 8 * length bytes.now }
    ensures value { result ≡ get_or (laid (run bytes.now)) at 0 }
    ensures upper_bound { result < 2 }
{
    let byte = bytes[at / 8];
    let behind = (7 - at % 8) as u8;
    (byte / (1u8 << behind) % 2) as usize
}

// The number in some bits of a byte string, from a bit on.
fn number_at(bytes: &[u8], from: usize, width: usize) -> usize
    requires { (from + width ≤ 8 * length bytes.now) × (from < 65536) × (width ≤ 16) }
    ensures { result ≡ number_at bytes.now from width }
{
    let mut number = 0usize;
    for i in 0..width {
        number = number * 2 + bit_at(bytes, from + i);
    }
    number
}

// Where a row begins, where a run has n bytes, and the number in its bits of a byte string that has them.
fn found_in(rows: &[Width], n: u8, row: usize, bytes: &[u8]) -> Found
    requires { (n < 8) × (row < length rows.now) × (length rows.now ≤ 16) × (get_or (map (bits_of n) rows.now) row 0 ≤ 16) × (before row (map (bits_of n) rows.now) + get_or (map (bits_of n) rows.now) row 0 ≤ 8 * length bytes.now) }
    ensures { result ≡ found_in (map (bits_of n) rows.now) row bytes.now }
{
    let at = sum_before(rows, n, row);
    let width = rows[row].bits(n);
    let value = number_at(bytes, at, width);
    Found {
        at: at as u16,
        value,
    }
}

// ---- over each table

// The first row that so many bits do not hold whole, where a run has n bytes, and the bits before it; behind the last row, if they hold all.
pub fn cut(table: Table, n: u8, bits: usize) -> Place
    requires { n < 8 }
    ensures value { result ≡ cut_in (widths_of n table) bits }
    ensures at_bound { result.at ≤ 4080 }
{
    cut_in(table.rows(), n, bits)
}

// Where a row of at most 16 bits begins, where a run has n bytes, and the number in its bits of a byte string that has them.
pub fn row_found(table: Table, n: u8, row: u8, bytes: &[u8]) -> Found
    requires { (n < 8) × (row < length (rows_of table)) × (get_or (widths_of n table) row 0 ≤ 16) × (before row (widths_of n table) + get_or (widths_of n table) row 0 ≤ 8 * length bytes.now) }
    ensures { result ≡ found_in (widths_of n table) row bytes.now }
{
    found_in(table.rows(), n, row as usize, bytes)
}

// A whole byte: the bits before it, and its value as the number in its bits.
pub fn byte_found(at: usize, bytes: &[u8]) -> Found
    requires { (at < length bytes.now) × (at < 4096) }
    ensures { (result.at ≡ 8 * at) × (result.value ≡ number_at bytes.now (8 * at) 8) }
{
    let from = 8 * at;
    let value = number_at(bytes, from, 8);
    Found {
        at: from as u16,
        value,
    }
}
