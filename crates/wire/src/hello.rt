// The HELLO after the IP header.
ghost use Rattle.std.specs.Prelude.{◌≡◌, ◌+◌, ◌≤◌, [], ◌++◌, length, drop};
ghost use Rattle.octets.specs.Octets.{two};
ghost use Rattle.wire.specs.Hello.{fixed_length, report_length, report_place, hello_length, hello_form, hello_checksum, report_at, hello_rest};
ghost use Rattle.wire.specs.code.Ranges.{Two, Four};
ghost use Rattle.wire.specs.code.Sealing.{hello_with_report, sealed_hello};

use super::{Packet, Report};
use octets::{put_four, put_two, put_words, two_at};

// The octets before the reports.
const FIXED: usize = 12;

// The octets of one host's report.
const REPORT: usize = 4;

// The places of the fields.
const CHECKSUM: usize = 0;

pub const DATE: usize = 2;

pub const TIME: usize = 4;

pub const TSP: usize = 8;

pub const ADDRESS_OFFSET: usize = 10;

pub const NHOSTS: usize = 11;

// The octets of a HELLO of n hosts.
pub fn length(nhosts: u8) -> usize
    ensures { result ≡ hello_length nhosts }
{
    FIXED + REPORT * nhosts as usize
}

// Whether the length is that of a HELLO of as many hosts as it says.
#[tactic(auto, unfolding(crate::specs::Hello::hello_form))]
pub fn form(hello: &[u8]) -> bool
    ensures { result ≡ hello_form hello.now }
{
    hello.len() >= FIXED && hello.len() == length(hello[NHOSTS])
}

// Whether the HELLO's checksum is good.
#[tactic(auto, unfolding(crate::specs::Hello::hello_checksum))]
pub fn checksum(hello: &[u8]) -> bool
    ensures { result ≡ hello_checksum hello.now }
{
    checksum::good(hello)
}

// What is reported of host i.
#[tactic(auto, unfolding(crate::specs::Hello::report_at))]
pub fn report(hello: &[u8], i: usize) -> Report
    requires { report_place i + report_length ≤ length hello.now }
    ensures { (result ≡ report_at hello.now i) × Two result.delay.0 }
{
    let place = FIXED + REPORT * i;
    let delay = two_at(hello, place);
    let offset = two_at(hello, place + 2);
    Report {
        delay: quantity::Millis::from(delay as u32),
        offset: quantity::Word::of_bits(offset),
    }
}

// The report of host i put in its place.
#[tactic(auto, using(crate::proofs::Stores::hello_report_put))]
pub fn put_report(hello: &mut [u8], i: usize, r: Report)
    requires { report_place i + report_length ≤ length hello.old }
    ensures { hello.new ≡ hello_with_report i r hello.old }
{
    let place = FIXED + REPORT * i;
    put_words(hello, place, r.delay.bits(), r.offset.bits());
}

// The fixed part, with a checksum of zero.
fn put_fixed(hello: &mut [u8], p: Packet)
    requires fixed_length_in_bounds { fixed_length ≤ length hello.old }
    requires four { Four p.time.0 }
    ensures { hello.new ≡ two 0 ++ hello_rest p [] ++ drop fixed_length hello.old }
{
    put_words(hello, CHECKSUM, 0, p.date.0);
    put_four(hello, TIME, p.time.unsigned());
    put_words(
        hello,
        TSP,
        p.tsp.bits(),
        p.address_offset as u16 * 256 + p.nhosts as u16,
    );
}

// The HELLO filled in around its reports, which are in their places. All fields are written before the checksum is computed over their octets.
pub fn seal(hello: &mut [u8], p: Packet)
    requires nhosts_in_bounds { hello_length p.nhosts ≤ length hello.old }
    requires four { Four p.time.0 }
    ensures { hello.new ≡ sealed_hello p hello.old }
{
    let n = length(p.nhosts);
    put_fixed(hello, p);
    let sum = checksum::complement(&hello[..n]);
    put_two(hello, CHECKSUM, sum);
}
