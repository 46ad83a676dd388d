// The library for programs in C, Rust and Python: the calls of a host, with the answer as its number.
#![tactic(auto)]

ghost use Rattle.std.specs.Prelude.{◌≡◌};
ghost use Rattle.checksum.specs.Checksum.{checksum_of};
ghost use Rattle.calls.specs.declared.Request.TheVariants.{
  Initialize,
  Tick,
  Adjust,
  Set,
  Read,
  Second,
  SelfReport,
  Lookup,
  Step,
};
ghost use Rattle.host.specs.CallState.{call_state};
ghost use Rattle.calls.specs.Perform.{ask, inspect, act, receive, open_walk};
ghost use Rattle.owned_host.specs.Program.{program_answer};
ghost use Rattle.hello.specs.Returned.{
  numbered,
  time_returned,
  sent_returned,
  route_returned,
  inspected_returned,
  stepped_returned,
};
ghost use Rattle.hello.specs.Contract.{Exports, ExportsSend};

use arrival::Delivery;
use calls::Request;
use clock::{Clock, Counter};
use host::walk::Walk;
use host::{Links, Reply, Settings};
use net_table::NetTable;
use quantity::Count;
use table::Entry;
use wire::Address;

mod captures;
mod dates;
mod ntp_calls;
mod paper;
mod sums;
mod tutor;

// What a send answers: the number of the answer, and the length of the message.
#[repr(C)]
#[derive(Clone, Copy)]
pub struct Sent {
    pub answer: u8,
    pub length: usize,
}

// What a lookup answers: the number of the answer, the host id and the PID of the route.
#[repr(C)]
#[derive(Clone, Copy)]
pub struct Route {
    pub answer: u8,
    pub id: usize,
    pub pid: u8,
}

// What a read answers: the number of the answer, the time and DATE.
#[repr(C)]
#[derive(Clone, Copy)]
pub struct Time {
    pub answer: u8,
    pub time: quantity::Millis,
    pub date: calendar::Date,
}

// What an inspection answers: the number of the answer, and of a packet that passes its source, time, TSP (as an unsigned number) and NHOSTS.
#[repr(C)]
#[derive(Clone, Copy)]
pub struct Inspected {
    pub answer: u8,
    pub source: Address,
    pub time: quantity::Millis,
    pub tsp: u16,
    pub nhosts: u8,
}

// What opening a walk and a step of it return: the number of the answer and the next place: the step, and in step 5 the line, 1 to 4 for (a) to (d), and the host id; zeros if none remains.
#[repr(C)]
#[derive(Clone, Copy)]
pub struct Stepped {
    pub answer: u8,
    pub step: u8,
    pub line: u8,
    pub id: usize,
}

// ---- the values of a reply

fn numbered(t: Reply) -> u8
    ensures { result ≡ numbered t }
{
    u8::from(t.answer)
}

fn time_returned(t: Reply) -> Time
    ensures { result ≡ time_returned t }
{
    Time {
        answer: u8::from(t.answer),
        time: t.time,
        date: t.date,
    }
}

fn sent_returned(t: Reply) -> Sent
    ensures { result ≡ sent_returned t }
{
    Sent {
        answer: u8::from(t.answer),
        length: t.length,
    }
}

fn route_returned(t: Reply) -> Route
    ensures { result ≡ route_returned t }
{
    Route {
        answer: u8::from(t.answer),
        id: t.id,
        pid: t.pid,
    }
}

fn inspected_returned(t: Reply) -> Inspected
    ensures { result ≡ inspected_returned t }
{
    Inspected {
        answer: u8::from(t.answer),
        source: t.source,
        time: t.time,
        tsp: t.tsp,
        nhosts: t.nhosts,
    }
}

fn stepped_returned(t: Reply) -> Stepped
    ensures { result ≡ stepped_returned t }
{
    Stepped {
        answer: u8::from(t.answer),
        step: t.step,
        line: t.line,
        id: t.id,
    }
}

// ---- the calls

// The checksum of the octets.
#[unsafe(no_mangle)]
pub extern "C" fn hello_checksum(octets: &[u8]) -> u16
    ensures { result ≡ checksum_of octets.now }
{
    checksum::complement(octets)
}

// The number of the answer of a fresh host, that of the packet program, to one packet.
#[unsafe(no_mangle)]
pub extern "C" fn hello_packet(octets: &[u8]) -> u8
    ensures { result ≡ program_answer octets.now }
{
    owned_host::answer(octets)
}

// The host is initialized.
#[unsafe(no_mangle)]
pub extern "C" fn hello_initialize(
    settings: &Settings,
    net_table: &NetTable,
    number: usize,
    clock: &mut Clock,
    links: &mut Links,
    walk: &mut Walk,
    copy: &[u8],
    entries: &mut [Entry],
) -> u8
    ensures { Exports numbered (ask Initialize)
        (call_state settings.now net_table.now number clock.old links.old walk.old copy.now entries.old)
        result clock.new links.new walk.new copy.now entries.new }
{
    let a = calls::initialize(
        settings, net_table, number, clock, links, walk, copy, entries,
    );
    numbered(a)
}

// CLOCK-TICK is added to the clock.
#[unsafe(no_mangle)]
pub extern "C" fn hello_tick(
    settings: &Settings,
    net_table: &NetTable,
    number: usize,
    clock: &mut Clock,
    links: &Links,
    walk: &Walk,
    copy: &[u8],
    entries: &[Entry],
    count: Count,
) -> u8
    ensures { Exports numbered (ask (Tick count))
        (call_state settings.now net_table.now number clock.old links.now walk.now copy.now entries.now)
        result clock.new links.now walk.now copy.now entries.now }
{
    let a = calls::tick(
        settings, net_table, number, clock, links, walk, copy, entries, count,
    );
    numbered(a)
}

// A share of DELTA goes into the clock.
#[unsafe(no_mangle)]
pub extern "C" fn hello_adjust(
    settings: &Settings,
    net_table: &NetTable,
    number: usize,
    clock: &mut Clock,
    links: &Links,
    walk: &Walk,
    copy: &[u8],
    entries: &[Entry],
    count: Count,
) -> u8
    ensures { Exports numbered (ask (Adjust count))
        (call_state settings.now net_table.now number clock.old links.now walk.now copy.now entries.now)
        result clock.new links.now walk.now copy.now entries.now }
{
    let a = calls::adjust(
        settings, net_table, number, clock, links, walk, copy, entries, count,
    );
    numbered(a)
}

// The clock is set by a signed count of milliseconds.
#[unsafe(no_mangle)]
pub extern "C" fn hello_set(
    settings: &Settings,
    net_table: &NetTable,
    number: usize,
    clock: &mut Clock,
    links: &Links,
    walk: &Walk,
    copy: &[u8],
    entries: &[Entry],
    ms: i32,
    count: Count,
) -> u8
    ensures { Exports numbered (ask (Set ms count))
        (call_state settings.now net_table.now number clock.old links.now walk.now copy.now entries.now)
        result clock.new links.now walk.now copy.now entries.now }
{
    let a = calls::set(
        settings, net_table, number, clock, links, walk, copy, entries, ms, count,
    );
    numbered(a)
}

// The time and DATE.
#[unsafe(no_mangle)]
pub extern "C" fn hello_read(
    settings: &Settings,
    net_table: &NetTable,
    number: usize,
    clock: &mut Clock,
    links: &Links,
    walk: &Walk,
    copy: &[u8],
    entries: &[Entry],
    counter: Counter,
) -> Time
    ensures { Exports time_returned (ask (Read counter))
        (call_state settings.now net_table.now number clock.old links.now walk.now copy.now entries.now)
        result clock.new links.now walk.now copy.now entries.now }
{
    let a = calls::read(
        settings, net_table, number, clock, links, walk, copy, entries, counter,
    );
    time_returned(a)
}

// A second passes.
#[unsafe(no_mangle)]
pub extern "C" fn hello_second(
    settings: &Settings,
    net_table: &NetTable,
    number: usize,
    clock: &mut Clock,
    links: &Links,
    walk: &Walk,
    copy: &[u8],
    entries: &mut [Entry],
) -> u8
    ensures { Exports numbered (ask Second)
        (call_state settings.now net_table.now number clock.old links.now walk.now copy.now entries.old)
        result clock.new links.now walk.now copy.now entries.new }
{
    let a = calls::second(
        settings, net_table, number, clock, links, walk, copy, entries,
    );
    numbered(a)
}

// The host reports itself.
#[unsafe(no_mangle)]
pub extern "C" fn hello_self_report(
    settings: &Settings,
    net_table: &NetTable,
    number: usize,
    clock: &mut Clock,
    links: &Links,
    walk: &Walk,
    copy: &[u8],
    entries: &mut [Entry],
    counter: Counter,
) -> u8
    ensures { Exports numbered (ask (SelfReport counter))
        (call_state settings.now net_table.now number clock.old links.now walk.now copy.now entries.old)
        result clock.new links.now walk.now copy.now entries.new }
{
    let a = calls::self_report(
        settings, net_table, number, clock, links, walk, copy, entries, counter,
    );
    numbered(a)
}

// A message for the neighbor of a link, written to the front of the buffer.
#[unsafe(no_mangle)]
pub extern "C" fn hello_send(
    settings: &Settings,
    net_table: &NetTable,
    number: usize,
    clock: &mut Clock,
    links: &mut Links,
    walk: &Walk,
    copy: &[u8],
    entries: &[Entry],
    link: usize,
    counter: Counter,
    buffer: &mut [u8],
) -> Sent
    ensures { ExportsSend link counter buffer.old
        (call_state settings.now net_table.now number clock.old links.old walk.now copy.now entries.now)
        result clock.new links.new walk.now copy.now entries.now buffer.new }
{
    let a = calls::send(
        settings, net_table, number, clock, links, walk, copy, entries, link, counter, buffer,
    );
    sent_returned(a)
}

// A packet that arrives on a link is looked at; nothing changes.
#[unsafe(no_mangle)]
pub extern "C" fn hello_inspect(
    settings: &Settings,
    net_table: &NetTable,
    number: usize,
    clock: &Clock,
    links: &Links,
    walk: &Walk,
    copy: &[u8],
    entries: &[Entry],
    link: usize,
    packet: &[u8],
) -> Inspected
    ensures { Exports inspected_returned (inspect link packet.now)
        (call_state settings.now net_table.now number clock.now links.now walk.now copy.now entries.now)
        result clock.now links.now walk.now copy.now entries.now }
{
    let a = calls::inspect(
        settings, net_table, number, clock, links, walk, copy, entries, link, packet,
    );
    inspected_returned(a)
}

// A packet that arrives on a link is acted on.
#[unsafe(no_mangle)]
pub extern "C" fn hello_act(
    settings: &Settings,
    net_table: &NetTable,
    number: usize,
    clock: &mut Clock,
    links: &mut Links,
    walk: &Walk,
    copy: &[u8],
    entries: &mut [Entry],
    link: usize,
    counter: Counter,
    packet: &[u8],
) -> u8
    ensures { Exports numbered (act link counter packet.now)
        (call_state settings.now net_table.now number clock.old links.old walk.now copy.now entries.old)
        result clock.new links.new walk.now copy.now entries.new }
{
    let d = Delivery::Act(link, counter);
    let a = calls::deliver(
        settings, net_table, number, clock, links, walk, copy, entries, d, packet,
    );
    numbered(a)
}

// A packet that arrives on a link, in one piece: it is looked at and, if that is answered 0, acted on.
#[unsafe(no_mangle)]
pub extern "C" fn hello_receive(
    settings: &Settings,
    net_table: &NetTable,
    number: usize,
    clock: &mut Clock,
    links: &mut Links,
    walk: &Walk,
    copy: &[u8],
    entries: &mut [Entry],
    link: usize,
    counter: Counter,
    packet: &[u8],
) -> u8
    ensures { Exports numbered (receive link counter packet.now)
        (call_state settings.now net_table.now number clock.old links.old walk.now copy.now entries.old)
        result clock.new links.new walk.now copy.now entries.new }
{
    let d = Delivery::Receive(link, counter);
    let a = calls::deliver(
        settings, net_table, number, clock, links, walk, copy, entries, d, packet,
    );
    numbered(a)
}

// The route to an address.
#[unsafe(no_mangle)]
pub extern "C" fn hello_lookup(
    settings: &Settings,
    net_table: &NetTable,
    number: usize,
    clock: &Clock,
    links: &Links,
    walk: &Walk,
    copy: &[u8],
    entries: &[Entry],
    address: Address,
) -> Route
    ensures { Exports route_returned (ask (Lookup address))
        (call_state settings.now net_table.now number clock.now links.now walk.now copy.now entries.now)
        result clock.now links.now walk.now copy.now entries.now }
{
    let a = calls::lookup(
        settings, net_table, number, clock, links, walk, copy, entries, address,
    );
    route_returned(a)
}

// A walk is opened for a packet on a link: the packet is copied, and the first box is next.
#[unsafe(no_mangle)]
pub extern "C" fn hello_open_walk(
    settings: &Settings,
    net_table: &NetTable,
    number: usize,
    clock: &Clock,
    links: &Links,
    walk: &mut Walk,
    copy: &mut [u8],
    entries: &[Entry],
    link: usize,
    packet: &[u8],
) -> Stepped
    ensures { Exports stepped_returned (open_walk link packet.now)
        (call_state settings.now net_table.now number clock.now links.now walk.old copy.old entries.now)
        result clock.now links.now walk.new copy.new entries.now }
{
    let a = calls::open_walk(
        settings, net_table, number, clock, links, walk, copy, entries, link, packet,
    );
    stepped_returned(a)
}

// One box of a walk.
#[unsafe(no_mangle)]
pub extern "C" fn hello_step(
    settings: &Settings,
    net_table: &NetTable,
    number: usize,
    clock: &mut Clock,
    links: &mut Links,
    walk: &mut Walk,
    copy: &[u8],
    entries: &mut [Entry],
    counter: Counter,
) -> Stepped
    ensures { Exports stepped_returned (ask (Step counter))
        (call_state settings.now net_table.now number clock.old links.old walk.old copy.now entries.old)
        result clock.new links.new walk.new copy.now entries.new }
{
    let a = calls::call(
        settings,
        net_table,
        number,
        clock,
        links,
        walk,
        copy,
        entries,
        Request::Step(counter),
    );
    stepped_returned(a)
}
