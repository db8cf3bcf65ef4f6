// The words that the whole project uses: the kinds, the refusals, the answers, and the sizes by name.

#![tactic(auto)]

ghost use Rattle.std.specs.Prelude.{◌≡◌};
ghost use Rattle.meaning.specs.Lists.{kind_of, current_of};
ghost use Rattle.meaning.specs.Numbers.{number_of, offset_of};

// The frame that a list is for: the one it comes in, or the one after it.
#[derive(Clone, Copy)]
pub enum Kind {
    This,
    Next,
}

// What has to be in a chunk whole: its header, an ensemble's fields, a single service.
#[derive(Clone, Copy)]
pub enum Part {
    Header,
    EnsembleFields,
    SingleService,
}

// Why the reader or the desk refuses, a variant for each of their numbers in document 01. A chunk that ends early says which part is the first
// that does not fit whole, and its offset in the chunk.
#[derive(Clone, Copy)]
pub enum Refusal {
    ShortBuffer,
    SegmentLength,
    SegmentType,
    ErrorBit,
    OtherMajor,
    NumberAboveLast,
    Clash,
    TooLong,
    EndsEarly { part: Part, at: u16 },
    KindDiffers,
    BadDesk,
}

// What the reader answers to a chunk that it doesn't refuse: the kind and the minor version of its list, and the length of the listing.
#[derive(Clone, Copy)]
pub struct Listed {
    pub kind: Kind,
    pub minor: u8,
    pub length: usize,
}

// The longest chunk: 16 segments of 35 bytes.
pub const LONGEST_CHUNK: usize = 16 * 35;

// The bytes of a chunk's header, of an ensemble and of a service, with no extension.
pub const CHUNK_HEADER_BYTES: usize = 5;

pub const ENSEMBLE_BYTES: usize = 4;

pub const SERVICE_BYTES: usize = 3;

// The longest listing of a chunk, and the listing's four records.
pub const LONGEST_LISTING: usize = 1475;

pub const TS_BYTES: usize = 5;

pub const EN_BYTES: usize = 6;

pub const EU_BYTES: usize = 4;

pub const SV_BYTES: usize = 8;

// The greatest flags, channel version, multi, status and SP of a listing.
pub const MOST_FLAGS: u8 = 7;

pub const MOST_CHANNEL: u8 = 31;

pub const MOST_MULTI: u8 = 3;

pub const MOST_STATUS: u8 = 3;

pub const MOST_SP: u8 = 1;

// The kind that a current_next_indicator says.
impl From<u8> for Kind {
    ghost from_gives = { λ current kind. kind ≡ kind_of current };

    fn from(current: u8) -> Kind {
        if current == 1 { Kind::This } else { Kind::Next }
    }
}

// The current_next_indicator that says a kind.
impl From<Kind> for u8 {
    ghost from_gives = { λ kind current. current ≡ current_of kind };

    fn from(kind: Kind) -> u8 {
        match kind {
            Kind::This => 1,
            Kind::Next => 0,
        }
    }
}

// The number of a refusal.
impl From<Refusal> for u8 {
    ghost from_gives = { λ refusal number. number ≡ number_of refusal };

    fn from(refusal: Refusal) -> u8 {
        match refusal {
            Refusal::ShortBuffer => 1,
            Refusal::SegmentLength => 2,
            Refusal::SegmentType => 3,
            Refusal::ErrorBit => 4,
            Refusal::OtherMajor => 5,
            Refusal::NumberAboveLast => 6,
            Refusal::Clash => 7,
            Refusal::TooLong => 8,
            Refusal::EndsEarly { part: _, at: _ } => 9,
            Refusal::KindDiffers => 10,
            Refusal::BadDesk => 12,
        }
    }
}

impl Refusal {
    // The offset in the chunk that it tells, 0 where it tells none.
    pub fn offset(self) -> u16
        ensures { result ≡ offset_of self }
    {
        match self {
            Refusal::ShortBuffer => 0,
            Refusal::SegmentLength => 0,
            Refusal::SegmentType => 0,
            Refusal::ErrorBit => 0,
            Refusal::OtherMajor => 0,
            Refusal::NumberAboveLast => 0,
            Refusal::Clash => 0,
            Refusal::TooLong => 0,
            Refusal::EndsEarly { part: _, at } => at,
            Refusal::KindDiffers => 0,
            Refusal::BadDesk => 0,
        }
    }
}
