// What an event asks: a call of a host, a send, an arrival, or only a note of its answer.
ghost use Rattle.std.specs.Prelude.{◌≡◌, true, ◌*◌, ◌≤◌, ◌<◌, length};
ghost use Rattle.bench_file.specs.Absent.{slots};
ghost use Rattle.bench_file.specs.Records.{event_at};
ghost use Rattle.bench_file.specs.code.Sections.{Sections};
ghost use Rattle.bench.specs.Slots.{slot_length, slots_good};
ghost use Rattle.bench.specs.code.Returned.{
  OnlyAsk,
  OnlySend,
  OnlyNote,
  ReturnsArrival,
  SendNames,
  TakeNames,
  ask_of,
  send_of,
  take_of,
  EventFits,
  Tells,
};

use super::requests::Ask;
use super::sends::Sending;
use super::slots::label_at;
use super::takes::Taking;
use bench_file::{Event, Header};
use calls::Request;
use clock::Counter;

// Events, from one up to another, of a file with this header.
#[derive(Clone, Copy)]
pub struct Turns {
    pub first: usize,
    pub end: usize,
    pub header: Header,
}

// What is asked of a host.
#[derive(Clone, Copy)]
pub struct Asking {
    pub host: usize,
    pub request: Request,
}

// A message that goes from an end of a cable into a slot.
#[derive(Clone, Copy)]
pub struct Going {
    pub cable: usize,
    pub side: usize,
    pub slot: usize,
    pub counter: Counter,
}

// A message that comes out of a slot.
#[derive(Clone, Copy)]
pub struct Coming {
    pub slot: usize,
    pub counter: Counter,
}

// A call, a send, an arrival, or a note: the event answers 3, and no host is asked.
#[derive(Clone, Copy)]
pub enum Returned {
    Ask(Asking),
    Send(Going),
    Take(Coming),
    Note,
}

// ---- with the settings of its host

// A tick, adjust, set, second or self-report.
pub fn ask_of(file: &[u8], w: Turns, x: Asking) -> Ask
    requires { Sections w.header (length file.now) × (x.host < w.header.hosts) }
    ensures { result ≡ ask_of file.now x.host x.request }
{
    Ask {
        host: x.host,
        settings: bench_file::hosts::settings_at(file, w.header, x.host),
        request: x.request,
    }
}

// A send from an end of a cable into a slot.
pub fn send_of(file: &[u8], w: Turns, x: Going) -> Sending
    requires { SendNames file.now w.header x.cable x.side }
    ensures { result ≡ send_of file.now w.header x.cable x.side x.slot x.counter }
{
    let e = bench_file::end_at(file, w.header, x.cable, x.side);
    Sending {
        host: e.host,
        slot: x.slot,
        settings: bench_file::hosts::settings_at(file, w.header, e.host),
        link: e.link,
        counter: x.counter,
        cable: x.cable,
        side: x.side,
    }
}

// An arrival of a slot's packet at the far end of its cable.
pub fn take_of(file: &[u8], octets: &[u8], w: Turns, x: Coming) -> Taking
    requires { TakeNames file.now octets.now w.header x.slot }
    ensures { result ≡ take_of file.now octets.now w.header x.slot x.counter }
{
    let h = w.header;
    let k = x.counter;
    let l = label_at(octets, x.slot);
    let e = bench_file::end_at(file, h, l.cable, 1 - l.end);
    let s = bench_file::hosts::settings_at(file, h, e.host);
    Taking {
        host: e.host,
        slot: x.slot,
        size: l.length,
        settings: s,
        link: e.link,
        counter: k,
    }
}

// ---- which it is

fn ask(host: usize, request: Request) -> Returned
    ensures { OnlyAsk host request result }
{
    Returned::Ask(Asking { host, request })
}

fn send(cable: usize, side: usize, slot: usize, counter: Counter) -> Returned
    ensures { OnlySend cable side slot counter result }
{
    Returned::Send(Going {
        cable,
        side,
        slot,
        counter,
    })
}

// Answer 3.
fn only_note() -> Returned
    ensures { OnlyNote result }
{
    Returned::Note
}

// A slot that was never filled is only noted.
fn take(octets: &[u8], h: Header, slot: usize, counter: Counter) -> Returned
    requires { (slot_length * slots ≤ length octets.now) × (slots_good h octets.now ≡ true) × (slot < slots) }
    ensures { ReturnsArrival octets.now slot counter result }
{
    let l = label_at(octets, slot);
    if l.length == 0 {
        return only_note();
    }
    Returned::Take(Coming { slot, counter })
}

// What event i asks.
pub fn tell(file: &[u8], octets: &[u8], i: usize, w: Turns) -> Returned
    requires { EventFits file.now octets.now i w.header }
    ensures { Tells octets.now (event_at file.now w.header i) result }
{
    match bench_file::event_at(file, w.header, i) {
        Event::Tick(host, n) => ask(host, Request::Tick(n)),
        Event::Adjust(host, n) => ask(host, Request::Adjust(n)),
        Event::Set(host, by, n) => ask(host, Request::Set(by, n)),
        Event::Second(host) => ask(host, Request::Second),
        Event::SelfReport(host, k) => ask(host, Request::SelfReport(k)),
        Event::Send(cable, side, slot, k) => send(cable, side, slot, k),
        Event::Arrival(slot, k) => take(octets, w.header, slot, k),
        Event::Unknown => only_note(),
    }
}
