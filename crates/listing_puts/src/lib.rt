// The reader's writing: the listing of a chunk that the checks passed.
#![tactic(auto)]

ghost use Rattle.std.specs.Prelude.{◌≡◌, ◌+◌, ◌*◌, ◌≤◌, ◌<◌, length, drop, Ok};
ghost use mathlib.Core.List.{flat_map};
ghost use Rattle.std.proofs.lemmas.List.Edits.{sets};
ghost use Rattle.meaning.specs.Sizes.{longest_chunk, longest_listing, ensemble_bytes, service_bytes, en_bytes, eu_bytes, sv_bytes};
ghost use Rattle.meaning.specs.Lists.{known};
ghost use Rattle.meaning.specs.Listing.{sv_record, eu_record, ensemble_listing, listing};
ghost use Rattle.meaning.specs.Reading.{checks, ensembles_checks, service_at, services_at, known_at, unknown_at, ensemble_at, ensembles_at, services_in, services_room, list_in};

use meaning::{
    CHUNK_HEADER_BYTES, EN_BYTES, ENSEMBLE_BYTES, EU_BYTES, SERVICE_BYTES, SV_BYTES, TS_BYTES,
};

// The record of the service at a place of the chunk, of the ensemble with this id, put at a place of the output.
fn write_service(chunk: &[u8], at: usize, ensemble: u8, out: &mut [u8], to: usize)
    requires { (at + service_bytes ≤ length chunk.now) × (to + sv_bytes ≤ length out.old) }
    ensures { out.new ≡ sets out.old to (sv_record ensemble (service_at (drop at chunk.now))) }
{
    let high = chunk[at];
    let low = chunk[at + 1];
    let third = chunk[at + 2];
    octets::put_mark(*b"SV", out, to);
    out[to + 2] = ensemble;
    out[to + 3] = high;
    out[to + 4] = low;
    out[to + 5] = third / 8 % 4;
    out[to + 6] = third / 2 % 4;
    out[to + 7] = third % 2;
}

// The records of count services from a place of the chunk on, their extensions s bytes long, of the ensemble with this id.
fn write_services(
    chunk: &[u8],
    from: usize,
    s: usize,
    ensemble: u8,
    count: usize,
    out: &mut [u8],
    start: usize,
)
    requires { (from + count * (service_bytes + s) ≤ length chunk.now) × (start + sv_bytes * count ≤ length out.old) }
    ensures { out.new ≡ sets out.old start (flat_map (sv_record ensemble) (services_at s count (drop from chunk.now))) }
{
    let mut at = from;
    let mut to = start;
    for _ in 0..count {
        write_service(chunk, at, ensemble, out, to);
        at += SERVICE_BYTES + s;
        to += SV_BYTES;
    }
}

// The record of the unknown ensemble at a place of the chunk, put at a place of the output.
fn write_unknown(chunk: &[u8], at: usize, out: &mut [u8], to: usize)
    requires { (at + ensemble_bytes ≤ length chunk.now) × (to + eu_bytes ≤ length out.old) }
    ensures { out.new ≡ sets out.old to (eu_record (unknown_at (drop at chunk.now))) }
{
    octets::put_mark(*b"EU", out, to);
    out[to + 2] = chunk[at];
    out[to + 3] = chunk[at + 1] % 32;
}

// The record of the known ensemble at a place of the chunk, then those of its services; the place after them in the output.
fn write_known(chunk: &[u8], at: usize, e: usize, s: usize, out: &mut [u8], to: usize) -> usize
    requires chunk_in_bounds { at + (ensemble_bytes + e) + services_room e s (drop at chunk.now) ≤ length chunk.now }
    requires chunk_in_bounds_2 { to + (en_bytes + sv_bytes * services_in e (drop at chunk.now)) ≤ length out.old }
    ensures value { result ≡ to + (en_bytes + sv_bytes * services_in e (drop at chunk.now)) }
    ensures out_after { out.new ≡ sets out.old to (ensemble_listing (known (known_at e s (drop at chunk.now)))) }
{
    let id = chunk[at];
    let third = chunk[at + 2];
    let services = chunk[at + (3 + e)];
    octets::put_mark(*b"EN", out, to);
    out[to + 2] = id;
    out[to + 3] = third / 32;
    out[to + 4] = third % 32;
    out[to + 5] = services;
    let count = services as usize;
    write_services(
        chunk,
        at + (ENSEMBLE_BYTES + e),
        s,
        id,
        count,
        out,
        to + EN_BYTES,
    );
    to + (EN_BYTES + SV_BYTES * count)
}

// The records of the ensemble at a place of the chunk, of either sort; the place after them in the output.
fn write_ensemble(chunk: &[u8], at: usize, e: usize, s: usize, out: &mut [u8], to: usize) -> usize
    requires chunk_in_bounds { at + (ensemble_bytes + e) + services_room e s (drop at chunk.now) ≤ length chunk.now }
    requires chunk_in_bounds_2 { to + length (ensemble_listing (ensemble_at e s (drop at chunk.now))) ≤ length out.old }
    ensures value { result ≡ to + length (ensemble_listing (ensemble_at e s (drop at chunk.now))) }
    ensures out_after { out.new ≡ sets out.old to (ensemble_listing (ensemble_at e s (drop at chunk.now))) }
{
    if chunk[at + 1] % 32 == 0 {
        return write_known(chunk, at, e, s, out, to);
    }
    write_unknown(chunk, at, out, to);
    to + EU_BYTES
}

// The records of count ensembles from a place of the chunk on, that the checks passed; the place after them in the output.
fn write_ensembles(
    chunk: &[u8],
    from: usize,
    e: usize,
    s: usize,
    count: usize,
    out: &mut [u8],
    start: usize,
) -> usize
    requires from_in_bounds { (from ≤ length chunk.now) × (length chunk.now ≤ longest_chunk) × (e < 8) × (s < 8) }
    requires chunk_value { ensembles_checks e s count from (drop from chunk.now) ≡ Ok tt }
    requires chunk_in_bounds { start + length (flat_map ensemble_listing (ensembles_at e s count (drop from chunk.now))) ≤ length out.old }
    ensures value { result ≡ start + length (flat_map ensemble_listing (ensembles_at e s count (drop from chunk.now))) }
    ensures out_after { out.new ≡ sets out.old start (flat_map ensemble_listing (ensembles_at e s count (drop from chunk.now))) }
{
    let mut at = from;
    let mut to = start;
    for _ in 0..count {
        to = write_ensemble(chunk, at, e, s, out, to);
        let services = chunk[at + (3 + e)] as usize;
        at = at + (ENSEMBLE_BYTES + e) + services * (SERVICE_BYTES + s);
    }
    to
}

// The listing of a chunk that the checks passed, at the start of the output; its length. Internal: the desk calls it once it has seen that the
// kind agrees (docs/DECISIONS.md, 7).
pub fn write_listing(chunk: &[u8], out: &mut [u8]) -> usize
    requires { (checks chunk.now ≡ Ok tt) × (longest_listing ≤ length out.old) }
    ensures value { result ≡ length (listing (list_in chunk.now)) }
    ensures out_after { out.new ≡ sets out.old 0 (listing (list_in chunk.now)) }
{
    let h = (chunk[0] % 8) as usize;
    let second = chunk[1];
    let e = (second / 32) as usize;
    let s = (second / 4 % 8) as usize;
    let stream = octets::word_of(chunk[2], chunk[3]);
    let count = chunk[4 + h];
    octets::put_mark(*b"TS", out, 0);
    octets::put_word(stream, out, 2);
    out[4] = count;
    write_ensembles(
        chunk,
        CHUNK_HEADER_BYTES + h,
        e,
        s,
        count as usize,
        out,
        TS_BYTES,
    )
}
