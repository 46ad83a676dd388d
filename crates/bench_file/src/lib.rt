// The file of a class bench: its header, its records, and what 18 and 19 refuse of them.
#![tactic(auto)]

ghost use Rattle.std.specs.Prelude.{◌≡◌, true, ◌≤◌, ◌<◌, length};
ghost use Rattle.quantity.specs.Words.{signed_bits};
ghost use Rattle.bench_file.specs.Header.{header_length, event_length, header_of, header_fits, header_bad};
ghost use Rattle.bench_file.specs.Records.{link_count_at, end_at, count_of, counter_of, event_of, event_at};
ghost use Rattle.bench_file.specs.Absent.{end_good, cable_good, event_good, mark_good, cables_good, events_good};
ghost use Rattle.bench_file.specs.code.Sections.{Sections};

use clock::Counter;
use octets::{four_at, octet_at, two_at};
use quantity::Count;

pub mod hosts;

// BENCH-2: how many hosts, cables and events, and the octets at which cables and events begin.
// Octets and header are passed apart, since the definitions that state what they must be (`Sections`, `bench/code/Turns: Fits`) take them so, beside other facts of the same octets.
#[derive(Clone, Copy)]
pub struct Header {
    pub hosts: usize,
    pub cables: usize,
    pub events: usize,
    pub cables_start: usize,
    pub events_start: usize,
}

// An end of a cable: a link of a host.
#[derive(Clone, Copy)]
pub struct End {
    pub host: usize,
    pub link: usize,
}

// A call that an event makes. A send names a cable, one of its ends and a slot; an arrival names a slot only.
// A record of no kind is an event too: `carried` gives it its answer, 3, as it does the others.
#[derive(Clone, Copy)]
pub enum Event {
    Tick(usize, Count),
    Adjust(usize, Count),
    Set(usize, i32, Count),
    Second(usize),
    SelfReport(usize, Counter),
    Send(usize, usize, usize, Counter),
    Arrival(usize, Counter),
    Unknown,
}

// 32 bits, read as a signed number in two's complement.
fn signed(n: u32) -> i32
    ensures { result ≡ signed_bits 32 n }
{
    n.cast_signed()
}

// The octets of the header, and of each record.
const HEADER: usize = 20;

const HOST: usize = 321;

const CABLE: usize = 4;

const EVENT: usize = 14;

// The place of a host's count of links in its record.
const LINK_COUNT: usize = 24;

pub const SLOTS: usize = 32;

pub fn read_header(file: &[u8]) -> Header
    requires { header_length ≤ length file.now }
    ensures { result ≡ header_of file.now }
{
    Header {
        hosts: four_at(file, 0) as usize,
        cables: four_at(file, 4) as usize,
        events: four_at(file, 8) as usize,
        cables_start: four_at(file, 12) as usize,
        events_start: four_at(file, 16) as usize,
    }
}

// Are the counts those of a file, and do the sections touch and end with it?
#[tactic(auto, unfolding(crate::specs::Header::header_fits))]
pub fn header_fits(header: Header, n: usize) -> bool
    ensures { result ≡ header_fits header n }
{
    header.hosts <= 16
        && header.cables <= 32
        && header.events <= 2048
        && header.cables_start == HEADER + HOST * header.hosts
        && header.events_start == header.cables_start + CABLE * header.cables
        && n == header.events_start + EVENT * header.events
}

// Is there no header that fits the file?
pub fn header_bad(file: &[u8]) -> bool
    ensures { result ≡ header_bad file.now }
{
    file.len() < HEADER || !header_fits(read_header(file), file.len())
}

// How many links a host's record says that it has.
fn link_count(file: &[u8], header: Header, host: usize) -> usize
    requires { Sections header (length file.now) × (host < header.hosts) }
    ensures { result ≡ link_count_at file.now host }
{
    octet_at(file, HEADER + HOST * host + LINK_COUNT)
}

// An end of a cable, 0 or 1.
pub fn end_at(file: &[u8], header: Header, cable: usize, end: usize) -> End
    requires { Sections header (length file.now) × (cable < header.cables) × (end ≤ 1) }
    ensures { result ≡ end_at file.now header cable end }
{
    let at = header.cables_start + CABLE * cable + 2 * end;
    End {
        host: octet_at(file, at),
        link: octet_at(file, at + 1),
    }
}

fn count_of(part: &[u8]) -> Count
    requires { event_length ≤ length part.now }
    ensures { result ≡ count_of part.now }
{
    Count(two_at(part, 6))
}

fn counter_of(part: &[u8]) -> Counter
    requires { event_length ≤ length part.now }
    ensures { result ≡ counter_of part.now }
{
    Counter {
        count: count_of(part),
        overflow: part[5],
        again: Count(two_at(part, 8)),
    }
}

// What an event's record says.
#[tactic(auto, unfolding(crate::specs::Records::event_of))]
pub fn event_of(part: &[u8]) -> Event
    requires { event_length ≤ length part.now }
    ensures { result ≡ event_of part.now }
{
    match part[0] {
        1 => Event::Tick(octet_at(part, 1), count_of(part)),
        2 => Event::Adjust(octet_at(part, 1), count_of(part)),
        3 => Event::Set(octet_at(part, 1), signed(four_at(part, 10)), count_of(part)),
        4 => Event::Second(octet_at(part, 1)),
        5 => Event::SelfReport(octet_at(part, 1), counter_of(part)),
        6 => Event::Send(
            octet_at(part, 2),
            octet_at(part, 3),
            octet_at(part, 4),
            counter_of(part),
        ),
        7 => Event::Arrival(octet_at(part, 4), counter_of(part)),
        _ => Event::Unknown,
    }
}

pub fn event_at(file: &[u8], header: Header, event: usize) -> Event
    requires { Sections header (length file.now) × (event < header.events) }
    ensures { result ≡ event_at file.now header event }
{
    let at = header.events_start + EVENT * event;
    event_of(&file[at..at + EVENT])
}

// Is an end a link of a host of the file?
#[tactic(auto, unfolding(crate::specs::Absent::end_good))]
fn end_good(file: &[u8], header: Header, end: End) -> bool
    requires { Sections header (length file.now) }
    ensures { result ≡ end_good file.now header end }
{
    end.host < header.hosts && 1 <= end.link && end.link <= link_count(file, header, end.host)
}

#[tactic(auto, unfolding(crate::specs::Absent::cable_good))]
fn cable_good(file: &[u8], header: Header, cable: usize) -> bool
    requires { Sections header (length file.now) × (cable < header.cables) }
    ensures { result ≡ cable_good file.now header cable }
{
    end_good(file, header, end_at(file, header, cable, 0))
        && end_good(file, header, end_at(file, header, cable, 1))
}

fn mark_good(counter: Counter) -> bool
    ensures { result ≡ mark_good counter }
{
    counter.overflow <= 1
}

// Does an event name only what there is?
fn event_good(header: Header, event: Event) -> bool
    ensures { result ≡ event_good header event }
{
    match event {
        Event::Tick(host, _)
        | Event::Adjust(host, _)
        | Event::Set(host, _, _)
        | Event::Second(host) => { host < header.hosts }
        Event::SelfReport(host, k) => host < header.hosts && mark_good(k),
        Event::Send(cable, end, slot, k) => {
            cable < header.cables && end <= 1 && slot < SLOTS && mark_good(k)
        }
        Event::Arrival(slot, k) => slot < SLOTS && mark_good(k),
        Event::Unknown => false,
    }
}

pub fn cables_good(file: &[u8], header: Header) -> bool
    requires { Sections header (length file.now) }
    ensures { result ≡ cables_good file.now header }
{
    (0..header.cables).all(|i| cable_good(file, header, i))
}

pub fn events_good(file: &[u8], header: Header) -> bool
    requires { Sections header (length file.now) }
    ensures { result ≡ events_good file.now header }
{
    (0..header.events).all(|i| event_good(header, event_at(file, header, i)))
}
