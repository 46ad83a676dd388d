// The header: its tests, and its fields read and written.
ghost use Rattle.std.specs.Prelude.{◌≡◌, ◌≤◌, true, length, IfOk};
ghost use Rattle.ntp.specs.Header.{header_length, version_good, mode_good, leap_good, fields, read, octets_of, write};
ghost use Rattle.ntp.specs.code.Passed.{HeaderPasses};

use super::values::{put_time, signed_at, time_at};
use super::{Answer, Header};
use octets::{four_at, put_four};

pub const LENGTH: usize = 48;

const VERSION: u8 = 4;

// The places of the fields. Octet 0 has leap, version and mode.
const FIRST_OCTET: usize = 0;

const STRATUM: usize = 1;

const POLL: usize = 2;

const PRECISION: usize = 3;

const ROOT_DELAY: usize = 4;

const ROOT_DISPERSION: usize = 8;

const REFERENCE_ID: usize = 12;

const REFERENCE: usize = 16;

const ORIGIN: usize = 24;

const RECEIVE: usize = 32;

const TRANSMIT: usize = 40;

fn version_good(version: u8) -> bool
    ensures { result ≡ version_good version }
{
    version == VERSION
}

fn mode_good(mode: u8) -> bool
    ensures { result ≡ mode_good mode }
{
    1 <= mode && mode <= 5
}

fn leap_good(leap: u8) -> bool
    ensures { result ≡ leap_good leap }
{
    leap <= 3
}

// The fields of 48 octets.
#[tactic(auto, unfolding(crate::specs::Header::fields))]
fn fields(octets: &[u8]) -> Header
    requires { header_length ≤ length octets.now }
    ensures { result ≡ fields octets.now }
{
    let front = octets[FIRST_OCTET];
    Header {
        leap: front / 64,
        version: front / 8 % 8,
        mode: front % 8,
        stratum: octets[STRATUM],
        poll: signed_at(octets, POLL),
        precision: signed_at(octets, PRECISION),
        root_delay: four_at(octets, ROOT_DELAY),
        root_dispersion: four_at(octets, ROOT_DISPERSION),
        reference_id: four_at(octets, REFERENCE_ID),
        reference: time_at(octets, REFERENCE),
        origin: time_at(octets, ORIGIN),
        receive: time_at(octets, RECEIVE),
        transmit: time_at(octets, TRANSMIT),
    }
}

// A header read: the tests of answers 23 to 25 in their order, and the fields of one that passes.
#[tactic(auto, unfolding(crate::specs::Header::read))]
pub fn read(octets: &[u8]) -> Result<Header, Answer>
    ensures value { result ≡ read octets.now }
    ensures in_table { IfOk result (λ h. mode_good h.mode ≡ true) }
{
    if octets.len() != LENGTH {
        return Err(Answer::NtpLength);
    }
    let h = fields(octets);
    if !version_good(h.version) {
        return Err(Answer::NtpVersion);
    }
    if !mode_good(h.mode) {
        return Err(Answer::NtpMode);
    }
    Ok(h)
}

// The octets of a header that passes the tests.
#[tactic(auto, unfolding(crate::specs::Header::octets_of))]
fn octets_of(header: Header) -> [u8; LENGTH]
    requires { HeaderPasses header }
    ensures { result ≡ octets_of header }
{
    let mut octets = [0; LENGTH];
    octets[FIRST_OCTET] = header.leap * 64 + header.version * 8 + header.mode;
    octets[STRATUM] = header.stratum;
    octets[POLL] = header.poll.octet();
    octets[PRECISION] = header.precision.octet();
    put_four(&mut octets, ROOT_DELAY, header.root_delay);
    put_four(&mut octets, ROOT_DISPERSION, header.root_dispersion);
    put_four(&mut octets, REFERENCE_ID, header.reference_id);
    put_time(&mut octets, REFERENCE, header.reference);
    put_time(&mut octets, ORIGIN, header.origin);
    put_time(&mut octets, RECEIVE, header.receive);
    put_time(&mut octets, TRANSMIT, header.transmit);
    octets
}

// A header written: the tests of answers 24 and 25 in their order, and the octets of one that passes.
#[tactic(auto, unfolding(crate::specs::Header::write))]
pub fn write(header: Header) -> Result<[u8; LENGTH], Answer>
    ensures { result ≡ write header }
{
    if !version_good(header.version) {
        return Err(Answer::NtpVersion);
    }
    if !mode_good(header.mode) {
        return Err(Answer::NtpMode);
    }
    if !leap_good(header.leap) {
        return Err(Answer::NtpMode);
    }
    Ok(octets_of(header))
}
