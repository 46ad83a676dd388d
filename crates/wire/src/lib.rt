// Packets: the IP header and the HELLO after it.
#![tactic(auto)]

ghost use Rattle.std.specs.Prelude.{◌≡◌, ◌+◌, ◌≤◌, length, IfOk};
ghost use Rattle.lists.specs.Lists.{over};
ghost use Rattle.wire.specs.Octets.{zero_address, same_address};
ghost use Rattle.wire.specs.Ip.{header_length};
ghost use Rattle.wire.specs.Hello.{report_length, report_place, report_at};
ghost use Rattle.wire.specs.Packet.{packet_length, hello_of, fields, parse};
ghost use Rattle.wire.specs.code.Ranges.{Two, Four};
ghost use Rattle.wire.specs.ReadBack.{ReadBack, ReportsBack};
ghost use Rattle.wire.specs.code.Sealing.{with_report, sealed};

use answer::Answer;

pub mod addresses;
mod hello;
mod ip;

// An Internet address: its four octets, the highest first. C programs lay them out by name, so it is no array.
#[repr(C)]
#[derive(Clone, Copy, PartialEq, Eq)]
pub struct Address {
    pub first: u8,
    pub second: u8,
    pub third: u8,
    pub fourth: u8,
}

// What a packet says, except the reports of its table: its source, and the fixed part of its HELLO. That its time fits four octets is said in contracts: the definition `fields` makes a packet of any list, so the type cannot ask it.
#[derive(Clone, Copy)]
pub struct Packet {
    pub source: Address,
    pub date: calendar::Date,
    pub time: quantity::Millis,
    pub tsp: quantity::Word,
    pub address_offset: u8,
    pub nhosts: u8,
}

// What a packet's table says of one host.
#[derive(Clone, Copy)]
pub struct Report {
    pub delay: quantity::Millis,
    pub offset: quantity::Word,
}

impl Address {
    pub const ZERO: Address = Address {
        first: 0,
        second: 0,
        third: 0,
        fourth: 0,
    };

    pub fn is_zero(self) -> bool
        ensures { result ≡ same_address self zero_address }
    {
        self == Address::ZERO
    }
}

// The fields of a packet, except the reports.
pub fn fields(packet: &[u8]) -> Packet
    requires { packet_length 0 ≤ length packet.now }
    ensures { (result ≡ fields packet.now) × Four result.time.0 }
{
    let source = addresses::address_at(packet, ip::SOURCE);
    let part = &packet[ip::LENGTH..];
    let date = octets::two_at(part, hello::DATE);
    let time = octets::four_at(part, hello::TIME);
    let tsp = octets::two_at(part, hello::TSP);
    Packet {
        source,
        date: calendar::Date(date),
        time: quantity::Millis::from(time),
        tsp: quantity::Word::of_bits(tsp),
        address_offset: part[hello::ADDRESS_OFFSET],
        nhosts: part[hello::NHOSTS],
    }
}

// A packet read: the tests of answers 3 to 7 in their order, and the fields of one that passes.
#[tactic(auto, using(crate::proofs::Parsing::ip_long, crate::proofs::Parsing::hello_long, crate::proofs::Parts::from_on), unfolding(crate::specs::Packet::parse))]
pub fn parse(packet: &[u8]) -> Result<Packet, Answer>
    ensures { (result ≡ parse packet.now) × IfOk result (λ p. Four p.time.0) }
{
    if !ip::form(packet) {
        return Err(Answer::IpForm);
    }
    if !ip::checksum(packet) {
        return Err(Answer::IpChecksum);
    }
    if !ip::protocol(packet) {
        return Err(Answer::Protocol);
    }
    let part = &packet[ip::LENGTH..];
    if !hello::form(part) {
        return Err(Answer::HelloForm);
    }
    if !hello::checksum(part) {
        return Err(Answer::HelloChecksum);
    }
    Ok(fields(packet))
}

// What a packet reports of host i.
pub fn report_at(packet: &[u8], i: usize) -> Report
    requires { header_length + report_place i + report_length ≤ length packet.now }
    ensures { (result ≡ report_at (hello_of packet.now) i) × Two result.delay.0 }
{
    hello::report(&packet[ip::LENGTH..], i)
}

// The octets of a packet of n hosts.
pub fn length(nhosts: u8) -> usize
    ensures { result ≡ packet_length nhosts }
{
    ip::LENGTH + hello::length(nhosts)
}

// The report of host i put in its place in a packet.
#[tactic(auto, using(crate::proofs::Stores::report_put))]
pub fn put_report(buffer: &mut [u8], i: usize, r: Report)
    requires { header_length + report_place i + report_length ≤ length buffer.old }
    ensures { buffer.new ≡ with_report i r buffer.old }
{
    hello::put_report(&mut buffer[ip::LENGTH..], i, r);
}

// SEND-5, SEND-4: completes a packet around its reports: the header's fields, the HELLO from octet 20 on, then the header's checksum. Octets after the message stay.
pub fn seal(buffer: &mut [u8], destination: Address, p: Packet)
    requires nhosts_in_bounds { packet_length p.nhosts ≤ length buffer.old }
    requires four { Four p.time.0 }
    ensures { buffer.new ≡ sealed destination p buffer.old }
{
    let total = length(p.nhosts);
    ip::put_fields(buffer, total as u16, p.source, destination);
    hello::seal(&mut buffer[ip::LENGTH..], p);
    ip::seal(buffer);
}

// What was written is read back: a message is never refused, and its fields and reports are those that were written.
#[tactic(auto, using(crate::proofs::ReadBack::message_is_back))]
pub fn read_back()
    ensures { ReadBack }
{}

#[tactic(auto, using(crate::proofs::ReadBack::reports_are_back))]
pub fn reports_back()
    ensures { ReportsBack }
{}

// Octets copied to a place. With `copy_from_slice` the archive for C programs needs `memmove` too.
pub fn copy(to: &mut [u8], place: usize, from: &[u8])
    requires { place + length from.now ≤ length to.old }
    ensures { to.new ≡ over to.old place from.now }
{
    for i in 0..from.len() {
        to[place + i] = from[i];
    }
}
