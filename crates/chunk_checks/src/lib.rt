// The reader's checks on a chunk, that write nothing.
#![tactic(auto)]

ghost use Rattle.std.specs.Prelude.{◌≡◌, ◌+◌, ◌*◌, ◌≤◌, ◌<◌, length, drop};
ghost use Rattle.meaning.specs.Sizes.{longest_chunk};
ghost use Rattle.meaning.specs.Reading.{checks, ensembles_checks};

use meaning::{CHUNK_HEADER_BYTES, ENSEMBLE_BYTES, LONGEST_CHUNK, Part, Refusal, SERVICE_BYTES};

// The checks on count ensembles from a place of the chunk on, their extensions e and s bytes long. An ensemble of any version has this form.
fn check_ensembles(
    chunk: &[u8],
    from: usize,
    e: usize,
    s: usize,
    count: usize,
) -> Result<(), Refusal>
    requires { (from ≤ length chunk.now) × (length chunk.now ≤ longest_chunk) × (e < 8) × (s < 8) }
    ensures { result ≡ ensembles_checks e s count from (drop from chunk.now) }
{
    let mut at = from;
    for _ in 0..count {
        if chunk.len() - at < ENSEMBLE_BYTES + e {
            // its fields run past the end
            let start = at as u16;
            return Err(Refusal::EndsEarly {
                part: Part::EnsembleFields,
                at: start,
            });
        }
        let services = chunk[at + (3 + e)] as usize;
        let inside = at + (ENSEMBLE_BYTES + e);
        let width = SERVICE_BYTES + s;
        let room = services * width;
        let rest = chunk.len() - inside;
        if rest < room {
            // so many of its services fit, and the next runs past the end
            let fit = rest / width;
            let next = (inside + fit * width) as u16;
            return Err(Refusal::EndsEarly {
                part: Part::SingleService,
                at: next,
            });
        }
        at = inside + room;
    }
    Ok(())
}

// The checks on a chunk, in document 01's order.
pub fn check_chunk(chunk: &[u8]) -> Result<(), Refusal>
    ensures { result ≡ checks chunk.now }
{
    if LONGEST_CHUNK < chunk.len() {
        return Err(Refusal::TooLong);
    }
    if chunk.len() < 2 {
        return Err(Refusal::EndsEarly {
            part: Part::Header,
            at: 0,
        });
    }
    let first = chunk[0];
    if first / 64 != 0 {
        return Err(Refusal::OtherMajor);
    }
    let h = (first % 8) as usize;
    if chunk.len() < CHUNK_HEADER_BYTES + h {
        return Err(Refusal::EndsEarly {
            part: Part::Header,
            at: 0,
        });
    }
    let second = chunk[1];
    let e = (second / 32) as usize;
    let s = (second / 4 % 8) as usize;
    let count = chunk[4 + h] as usize;
    check_ensembles(chunk, CHUNK_HEADER_BYTES + h, e, s, count)
}
