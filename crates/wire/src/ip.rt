// The IPv4 header, octets 0 to 19 of a packet.
ghost use Rattle.std.specs.Prelude.{◌≡◌, ◌≤◌, ◌++◌, length, take, drop};
ghost use Rattle.std.proofs.lemmas.List.Edits.{sets};
ghost use Rattle.checksum.specs.Checksum.{checksum_of};
ghost use Rattle.octets.specs.Octets.{two};
ghost use Rattle.wire.specs.Ip.{header_length, checksum_place, ip_form, ip_checksum, protocol, header_start, header_back};

use super::Address;
use super::addresses::put_address;
use octets::{put_two, put_words, two_at};

pub const LENGTH: usize = 20;

// Version 4 in the high half, header length 5 in the low one.
const VERSION_AND_LENGTH: u8 = 0x45;

const HELLO: u8 = 63;

// The first word of a header that is sent: version and length, and service 0.
const VERSION_LENGTH_SERVICE: u16 = 0x4500;

// The fifth word: time to live 255, and the protocol.
const LIFE_AND_PROTOCOL: u16 = 0xFF3F;

// The places of the fields.
const VERSION: usize = 0;

const TOTAL: usize = 2;

const IDENTIFICATION: usize = 4;

const FRAGMENT: usize = 6;

const TIME_TO_LIVE: usize = 8;

const PROTOCOL: usize = 9;

const CHECKSUM: usize = 10;

pub const SOURCE: usize = 12;

const DESTINATION: usize = 16;

// Whether the header has the form of answer 3.
#[tactic(auto, unfolding(crate::specs::Ip::ip_form))]
pub fn form(packet: &[u8]) -> bool
    ensures { result ≡ ip_form packet.now }
{
    packet.len() >= LENGTH
        && packet[VERSION] == VERSION_AND_LENGTH
        && two_at(packet, TOTAL) as usize == packet.len()
        && two_at(packet, FRAGMENT) % 0x4000 == 0
}

// Whether the header's checksum is good.
#[tactic(auto, unfolding(crate::specs::Ip::ip_checksum))]
pub fn checksum(packet: &[u8]) -> bool
    requires { header_length ≤ length packet.now }
    ensures { result ≡ ip_checksum packet.now }
{
    checksum::good(&packet[..LENGTH])
}

// Whether the protocol is HELLO's.
#[tactic(auto, unfolding(crate::specs::Ip::protocol))]
pub fn protocol(packet: &[u8]) -> bool
    requires { header_length ≤ length packet.now }
    ensures { result ≡ protocol packet.now }
{
    packet[PROTOCOL] == HELLO
}

// The header, with a checksum of zero.
pub fn put_fields(packet: &mut [u8], total: u16, source: Address, destination: Address)
    requires { header_length ≤ length packet.old }
    ensures { packet.new ≡ header_start total ++ two 0 ++ header_back source destination ++ drop header_length packet.old }
{
    put_words(packet, VERSION, VERSION_LENGTH_SERVICE, total);
    put_words(packet, IDENTIFICATION, 0, 0);
    put_words(packet, TIME_TO_LIVE, LIFE_AND_PROTOCOL, 0);
    put_address(packet, SOURCE, source);
    put_address(packet, DESTINATION, destination);
}

// The checksum of a header whose other fields are written: that of its octets as they are.
pub fn seal(packet: &mut [u8])
    requires { header_length ≤ length packet.old }
    ensures { packet.new ≡ sets packet.old checksum_place (two (checksum_of (take header_length packet.old))) }
{
    let checksum = checksum::complement(&packet[..LENGTH]);
    put_two(packet, CHECKSUM, checksum);
}
