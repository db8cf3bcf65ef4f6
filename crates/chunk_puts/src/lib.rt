// The chunk of a listing, put record by record.
#![tactic(auto)]

ghost use Rattle.std.specs.Prelude.{◌≡◌, true, ℕ, ◌+◌, ◌*◌, ◌≤◌, length};
ghost use Rattle.std.proofs.lemmas.List.Edits.{sets};
ghost use Rattle.meaning.specs.Sizes.{ensemble_bytes, service_bytes};
ghost use Rattle.meaning.specs.Said.{services_fit, ensembles_fit, listing_fits, id_said, count_said, after_en};
ghost use Rattle.chunk_puts.specs.Laid.{ServiceSaid, service_laid, services_laid, EnsembleSaid, ensemble_laid, ensembles_laid, chunk_laid};

use meaning::{
    CHUNK_HEADER_BYTES, EN_BYTES, ENSEMBLE_BYTES, Kind, SERVICE_BYTES, SV_BYTES, TS_BYTES,
};

// Puts the service whose record, of whichever ensemble, stands at the start of these bytes at a place of the chunk. All is read before anything is
// put: so the compiler may take two bytes at once.
fn put_service(record: &[u8], chunk: &mut [u8], to: usize)
    requires said { ServiceSaid record.now }
    requires room { to + service_bytes ≤ length chunk.old }
    ensures { chunk.new ≡ sets chunk.old to (service_laid record.now) }
{
    let high = record[3];
    let low = record[4];
    let multi = record[5];
    let status = record[6];
    let sp = record[7];
    chunk[to] = high;
    chunk[to + 1] = low;
    chunk[to + 2] = 224 + multi * 8 + status * 2 + sp;
}

// Puts count services, of whichever ensemble.
fn put_services(records: &[u8], count: usize, chunk: &mut [u8], start: usize)
    requires fit { (e : ℕ) × (services_fit e count records.now ≡ true) }
    requires room { start + service_bytes * count ≤ length chunk.old }
    ensures { chunk.new ≡ sets chunk.old start (services_laid count records.now) }
{
    for i in 0..count {
        put_service(&records[SV_BYTES * i..], chunk, start + SERVICE_BYTES * i);
    }
}

// Puts the ensemble whose record stands at the start of these bytes, then its services.
fn put_ensemble(record: &[u8], chunk: &mut [u8], to: usize)
    requires said { EnsembleSaid record.now }
    requires fit { services_fit (id_said record.now) (count_said record.now) (after_en record.now) ≡ true }
    requires room { to + (ensemble_bytes + service_bytes * count_said record.now) ≤ length chunk.old }
    ensures { chunk.new ≡ sets chunk.old to (ensemble_laid record.now) }
{
    let head = [record[2], 224, record[3] * 32 + record[4], record[5]];
    chunk[to..to + ENSEMBLE_BYTES].copy_from_slice(&head);
    put_services(
        &record[EN_BYTES..],
        record[5] as usize,
        chunk,
        to + ENSEMBLE_BYTES,
    );
}

// Puts count ensembles with their services.
fn put_ensembles(records: &[u8], count: u8, chunk: &mut [u8], start: usize)
    requires fit { ensembles_fit count records.now ≡ true }
    requires room { start + length (ensembles_laid count records.now) ≤ length chunk.old }
    ensures { chunk.new ≡ sets chunk.old start (ensembles_laid count records.now) }
{
    let mut rest = records;
    let mut to = start;
    for _ in 0..count {
        let services = rest[5] as usize;
        put_ensemble(rest, chunk, to);
        rest = &rest[EN_BYTES + SV_BYTES * services..];
        to += ENSEMBLE_BYTES + SERVICE_BYTES * services;
    }
}

// Puts the chunk of a well formed listing at the start. Internal: the writer calls it (docs/DECISIONS.md, 7).
pub fn put_chunk(listing: &[u8], kind: Kind, chunk: &mut [u8])
    requires listing_value { listing_fits listing.now ≡ true }
    requires listing_in_bounds { length (chunk_laid kind listing.now) ≤ length chunk.old }
    ensures { chunk.new ≡ sets chunk.old 0 (chunk_laid kind listing.now) }
{
    let header = [0, 2 + u8::from(kind), listing[2], listing[3], listing[4]];
    chunk[..CHUNK_HEADER_BYTES].copy_from_slice(&header);
    put_ensembles(&listing[TS_BYTES..], listing[4], chunk, CHUNK_HEADER_BYTES);
}
