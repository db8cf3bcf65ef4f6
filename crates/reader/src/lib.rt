// The reader: a chunk in, the listing of its list out. All checks first, then all writing, so that a refusal writes nothing.
#![tactic(auto)]

ghost use Rattle.meaning.specs.Reading.{ReadSays};

use meaning::{Kind, LONGEST_LISTING, Listed, Refusal};

// Reads a chunk: its listing goes to the start of the lent buffer, and a refusal writes nothing.
pub fn read(chunk: &[u8], out: &mut [u8]) -> Result<Listed, Refusal>
    ensures { ReadSays chunk.now out.old result out.new }
{
    if out.len() < LONGEST_LISTING {
        return Err(Refusal::ShortBuffer);
    }
    chunk_checks::check_chunk(chunk)?;
    let length = listing_puts::write_listing(chunk, out);
    let kind = Kind::from(chunk[1] % 2);
    let minor = chunk[0] / 8 % 8;
    Ok(Listed {
        kind,
        minor,
        length,
    })
}
