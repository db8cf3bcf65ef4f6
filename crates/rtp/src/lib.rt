// RTP's fixed header: the tests on it, and the fields that are looked at.
#![tactic(auto)]

ghost use Rattle.std.specs.Prelude.{◌≡◌, ◌≤◌, length};
ghost use Rattle.rtp.specs.Header.{header_bytes, is_plain, marker_in, sequence_in};

pub const HEADER_BYTES: usize = 12;

// Whether a packet has a header of version 2 without padding, extension and CSRC, of this payload type.
pub fn is_plain(kind: u8, packet: &[u8]) -> bool
    ensures { result ≡ is_plain kind packet.now }
{
    if packet.len() < HEADER_BYTES {
        return false;
    }
    // version 2, and all else of the first byte 0
    packet[0] == 128 && packet[1] % 128 == kind
}

// The marker of a packet with a header.
pub fn marker_of(packet: &[u8]) -> u8
    requires { header_bytes ≤ length packet.now }
    ensures { result ≡ marker_in packet.now }
{
    packet[1] / 128
}

// Its sequence number.
pub fn sequence_of(packet: &[u8]) -> u16
    requires { header_bytes ≤ length packet.now }
    ensures { result ≡ sequence_in packet.now }
{
    u16::from_be_bytes([packet[2], packet[3]])
}
