// The writer's checks on a listing, that write nothing.
#![tactic(auto)]

ghost use Rattle.std.specs.Prelude.{◌≡◌, cond, Some, None, ◌+◌, ◌≤◌, length};
ghost use Rattle.records.specs.Records.{mark_bytes};
ghost use Rattle.meaning.specs.Sizes.{chunk_header_bytes, sv_bytes};
ghost use Rattle.meaning.specs.Said.{stands as Said·stands, sv_fits, services_fit, en_fits, ensembles_fit, listing_fits, list_said};
ghost use Rattle.meaning.specs.Plain.{plain_length};
ghost use Rattle.listing_checks.specs.Lengths.{ensembles_length};

use meaning::{
    CHUNK_HEADER_BYTES, EN_BYTES, ENSEMBLE_BYTES, MOST_CHANNEL, MOST_FLAGS, MOST_MULTI, MOST_SP,
    MOST_STATUS, SERVICE_BYTES, SV_BYTES, TS_BYTES,
};

// Whether a record of so many bytes with this mark stands at the start of these.
fn stands(bytes: &[u8], size: usize, mark: [u8; 2]) -> bool
    requires { mark_bytes ≤ size }
    ensures { result ≡ Said·stands mark size bytes.now }
{
    size <= bytes.len() && bytes.starts_with(&mark)
}

// Whether a service's record, of the ensemble with this id, stands at the start of these bytes, which have room for one.
#[tactic(auto, unfolding(meaning::specs::Said::sv_fits))]
fn service_fits(record: &[u8], ensemble: u8) -> bool
    requires { sv_bytes ≤ length record.now }
    ensures { result ≡ sv_fits ensemble record.now }
{
    record.starts_with(b"SV")
        && record[2] == ensemble
        && record[5] <= MOST_MULTI
        && record[6] <= MOST_STATUS
        && record[7] <= MOST_SP
}

// Whether the records of count services, of the ensemble with this id, stand at the start of these bytes.
fn services_fit(records: &[u8], ensemble: u8, count: u8) -> bool
    ensures { result ≡ services_fit ensemble count records.now }
{
    // one test of the length for all of them
    if records.len() < SV_BYTES * count as usize {
        return false;
    }
    for i in 0..count as usize {
        if !service_fits(&records[SV_BYTES * i..], ensemble) {
            return false;
        }
    }
    true
}

// Whether an ensemble's record stands at the start of these bytes.
#[tactic(auto, unfolding(meaning::specs::Said::en_fits))]
fn ensemble_fits(record: &[u8]) -> bool
    ensures { result ≡ en_fits record.now }
{
    stands(record, EN_BYTES, *b"EN") && record[3] <= MOST_FLAGS && record[4] <= MOST_CHANNEL
}

// The length of a chunk with the count ensembles whose records, with their services', are these bytes; none if they are not.
#[tactic(auto, using(meaning::proofs::Counts::en_room, meaning::proofs::Counts::services_room_lem))]
fn ensembles_length(records: &[u8], count: u8) -> Option<usize>
    ensures { result ≡ cond (ensembles_fit count records.now) (Some (chunk_header_bytes + ensembles_length count records.now)) None }
{
    let mut rest = records;
    let mut length = CHUNK_HEADER_BYTES;
    for _ in 0..count {
        if !ensemble_fits(rest) {
            return None;
        }
        if !services_fit(&rest[EN_BYTES..], rest[2], rest[5]) {
            return None;
        }
        let services = rest[5] as usize;
        length += ENSEMBLE_BYTES + SERVICE_BYTES * services;
        rest = &rest[EN_BYTES + SV_BYTES * services..];
    }
    if rest.is_empty() { Some(length) } else { None }
}

// The length of the chunk of a listing; none if the listing is not well formed. Internal: the writer calls it.
pub fn chunk_length(listing: &[u8]) -> Option<usize>
    ensures { result ≡ cond (listing_fits listing.now) (Some (plain_length (list_said listing.now))) None }
{
    if !stands(listing, TS_BYTES, *b"TS") {
        return None;
    }
    ensembles_length(&listing[TS_BYTES..], listing[4])
}
