// Inner packets: what some bytes are as the start of one; and the bytes before a packet that is stored.
#![tactic(auto)]

ghost use Rattle.std.specs.Prelude.{◌≡◌, ◌+◌, ◌≤◌, length};
ghost use Rattle.std.proofs.lemmas.List.Edits.{sets};
ghost use Rattle.packets.specs.Packets.{longest_packet, is_carried, start_by, start_of};
ghost use Rattle.packets.specs.Stored.{stored_head, stored_head_bytes};

// What some bytes are, as the start of a packet.
// Stays: none of the three refuses a call, no caller passes one up by `?`, and each `match` names all three; `Result<Option<usize>, Fault>` would only be longer.
#[derive(Clone, Copy)]
pub enum Start {
    // one that is running, so far right
    Running,
    // a whole one of so many bytes
    Whole(usize),
    // none
    Fault,
}

// The limits of a packet's length.
pub const SHORTEST_PACKET: usize = 28;

pub const LONGEST_PACKET: usize = 1500;

const IP_VERSION: u8 = 4;

// So many bytes tell the total length.
const TELLING_BYTES: usize = 4;

// By how many they are, the first of them, and the total length; that is not looked at where they are too few to tell it.
#[tactic(auto, unfolding(crate::specs::Packets::start_by))]
pub fn start_by(n: usize, first: u8, total: usize) -> Start
    ensures { result ≡ start_by n first total }
{
    if n == 0 {
        return Start::Running;
    }
    if first / 16 != IP_VERSION {
        return Start::Fault;
    }
    if n < TELLING_BYTES {
        return Start::Running;
    }
    if total < SHORTEST_PACKET || LONGEST_PACKET < total {
        return Start::Fault;
    }
    if n < total {
        return Start::Running;
    }
    Start::Whole(total)
}

// What some bytes are.
pub fn start_of(bytes: &[u8]) -> Start
    ensures { result ≡ start_of bytes.now }
{
    match bytes {
        [first, _, third, fourth, ..] => {
            let total = u16::from_be_bytes([*third, *fourth]);
            start_by(bytes.len(), *first, total as usize)
        }
        [first, ..] => start_by(bytes.len(), *first, 0),
        [] => Start::Running,
    }
}

// Whether some bytes are a packet that may be carried.
pub fn is_carried(packet: &[u8]) -> bool
    ensures { result ≡ is_carried packet.now }
{
    match start_of(packet) {
        Start::Whole(n) => n == packet.len(),
        Start::Running | Start::Fault => false,
    }
}

// The bytes before a stored packet: its mark and its length.
pub const STORED_HEAD_BYTES: usize = 4;

// Puts the bytes before a packet of n bytes at a place of a store.
pub fn put_head(n: usize, store: &mut [u8], at: usize)
    requires { (n ≤ longest_packet) × (at + stored_head_bytes ≤ length store.old) }
    ensures { store.new ≡ sets store.old at (stored_head n) }
{
    octets::put_mark(*b"IP", store, at);
    octets::put_word(n as u16, store, at + 2);
}
