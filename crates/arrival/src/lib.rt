// A packet that arrives, by value: the inspection, steps 2 to 4, and what step 5 does to the entries.
#![tactic(auto)]

ghost use Rattle.std.specs.Prelude.{◌≡◌, true, ◌≤◌, ◌<◌, ◌^◌};
ghost use Rattle.clock.specs.Midnight.{day_millis};
ghost use Rattle.wire.specs.code.Ranges.{Four};
ghost use Rattle.table.specs.Entry.{up_to};
ghost use Rattle.host.specs.Settings.{settings_good};
ghost use Rattle.host.specs.State.{has_place, with_link};
ghost use Rattle.host.specs.CallState.{host};
ghost use Rattle.host.specs.code.Returned.{RowsBelow};
ghost use Rattle.arrival.specs.Steps.{at_least_min, neighbor_update};
ghost use Rattle.arrival.specs.Arrival.{
  no_updates,
  ends,
  updated,
  no_table,
  step5,
  action,
  inspection,
  act,
  on_link,
  delivered,
};

use answer::Answer;
use calendar::Date;
use clock::{Clock, Counter};
use host::link_number::LinkNumber;
use host::link_state::{broadcast, link_of, with_link};
use host::replies::plainly;
use host::{GoodHost, Host, Link, Links, Reply, host_count, inspection};
use net_table::NetTable;
use quantity::{Count, Millis, Seconds, Word};
use std::ops::ControlFlow;
use table::Update;
use table::entries::Updates;
use wire::Packet;

pub mod steps;

// An arrival between its steps: our reading, the link after the steps so far, DELAY and OFFSET.
#[derive(Clone, Copy)]
pub struct Flight {
    pub reading: quantity::Millis,
    pub link: host::Link,
    pub delay: quantity::Millis,
    pub offset: quantity::Word,
}

// What is done with a packet that arrives on a link: it is looked at, it is acted on, or both in turn, the arrival in one piece.
#[derive(Clone, Copy)]
pub enum Delivery {
    Inspect(usize),
    Act(usize, Counter),
    Receive(usize, Counter),
}

// The result of an arriving packet: the reply, the links afterwards, and the updates of which ids, with the clock that they start from.
#[derive(Clone, Copy)]
pub struct Arrived {
    pub reply: Reply,
    pub links: Links,
    pub work: Updates,
}

// No updates: the clock stays.
pub fn no_updates(c: Clock) -> Updates
    ensures { result ≡ no_updates c }
{
    Updates {
        first: 0,
        end: 0,
        clock: c,
        base: 0,
        clock_host: 0,
        hold_interval: Seconds(0),
        count: Count(0),
        date: Date(0),
        update: Update {
            pid: 0,
            delay: Millis(0),
            offset: Word(0),
            reading: Millis(0),
        },
        table: false,
    }
}

// An answer; the entries stay.
fn ends(a: Answer, h: Host) -> Arrived
    ensures { result ≡ ends a h }
{
    Arrived {
        reply: plainly(a),
        links: h.links,
        work: no_updates(h.clock),
    }
}

// ARRIVE-5: a DELAY of less than 100 becomes 100.
pub fn at_least_min(delay: Millis) -> Millis
    ensures { result ≡ at_least_min delay }
{
    if delay < table::MIN_DELAY {
        return table::MIN_DELAY;
    }
    delay
}

// What step 5 updates the neighbor's entry with.
fn neighbor_update(link: LinkNumber, f: Flight) -> Update
    ensures { result ≡ neighbor_update link.number f }
{
    Update {
        pid: link.number as u8,
        delay: at_least_min(f.delay),
        offset: f.offset,
        reading: f.reading,
    }
}

// n ids from one on are updated.
fn updated(h: Host, n: Count, p: Packet, u: Update, id: usize, ids: usize, table: bool) -> Arrived
    requires { (id ≤ 255) × (ids ≤ 255) }
    ensures { result ≡ updated h n p u id ids table }
{
    Arrived {
        reply: plainly(Answer::Done),
        links: h.links,
        work: Updates {
            first: id,
            end: id + ids,
            clock: h.clock,
            base: 0,
            clock_host: h.settings.clock_host,
            hold_interval: h.settings.hold_interval,
            count: n,
            date: p.date,
            update: u,
            table,
        },
    }
}

// Step 5 where the packet has no table: the id that was found for NEIGHBOR-ADDRESS.
fn no_table(
    h: Host,
    link: LinkNumber,
    n: Count,
    p: Packet,
    f: Flight,
    found: Option<usize>,
) -> Arrived
    requires { has_place found ≡ true }
    ensures { result ≡ no_table h link.number n p f found }
{
    match found {
        None => ends(Answer::NoHost, h),
        Some(id) => updated(h, n, p, neighbor_update(link, f), id, 1, false),
    }
}

fn step5(h: Host, t: &NetTable, link: LinkNumber, n: Count, p: Packet, f: Flight) -> Arrived
    requires { (settings_good h.settings ≡ true) × RowsBelow t.now h.settings }
    ensures { result ≡ step5 t.now h link.number n p f }
{
    if p.nhosts == 0 {
        let settings = h.settings;
        let found = host::found_for(t, &settings, f.link.neighbor);
        return no_table(h, link, n, p, f, found);
    }
    let ids = host_count(h.settings);
    updated(h, n, p, neighbor_update(link, f), 0, ids, true)
}

// The host once its clock is read and a link is stored.
fn stored(h: Host, clock: Clock, link: LinkNumber, x: Link) -> Host
    ensures { result ≡ host h.settings clock (with_link link.number x h.links) }
{
    Host {
        clock,
        links: with_link(h.links, link, x),
        ..h
    }
}

// Steps 2 to 5, with one reading.
fn action(h: GoodHost, t: &NetTable, link: LinkNumber, k: Counter, p: Packet) -> Arrived
    requires rows { RowsBelow t.now h.host.settings }
    requires four { Four p.time.0 }
    ensures { result ≡ action k t.now h.host link.number p }
{
    let settings = h.host.settings;
    let r = host::our_reading(h, k);
    let clock = r.clock;
    let x = link_of(h.host.links, link);
    match steps::two_to_four(broadcast(&settings, link), clock.hold, p, r.time, x) {
        ControlFlow::Break(f) => ends(Answer::DelayNotValid, stored(h.host, clock, link, f.link)),
        ControlFlow::Continue(f) => {
            let after = stored(h.host, clock, link, f.link);
            step5(after, t, link, k.used(), p, f)
        }
    }
}

// The inspection: answers 3 to 9, and what a packet that passes has in it. Nothing changes.
fn look(h: Host, link: LinkNumber, packet: &[u8]) -> Arrived
    ensures { result ≡ inspection link.number packet.now h }
{
    let settings = h.settings;
    let p = inspection::inspect(&settings, link, packet);
    Arrived {
        reply: inspection::tells(p),
        links: h.links,
        work: no_updates(h.clock),
    }
}

// Answers 3 to 9 by the inspection, then the action.
fn act(h: GoodHost, t: &NetTable, link: LinkNumber, k: Counter, packet: &[u8]) -> Arrived
    requires { RowsBelow t.now h.host.settings }
    ensures { result ≡ act link.number k packet.now t.now h.host }
{
    let settings = h.host.settings;
    match inspection::inspect(&settings, link, packet) {
        Err(a) => ends(a, h.host),
        Ok(p) => action(h, t, link, k, p),
    }
}

pub fn on_link(d: Delivery) -> usize
    ensures { result ≡ on_link d }
{
    match d {
        Delivery::Inspect(i) | Delivery::Act(i, _) | Delivery::Receive(i, _) => i,
    }
}

// The arrival in one piece equals the action alone, since the action inspects too.
pub fn deliver(h: GoodHost, t: &NetTable, d: Delivery, packet: &[u8]) -> Arrived
    requires { (1 ≤ on_link d) × (on_link d ≤ 8) × RowsBelow t.now h.host.settings }
    ensures { (result ≡ delivered d packet.now t.now h.host) × (result.work.count.0 < 2 ^ 16) }
{
    match d {
        Delivery::Inspect(number) => look(h.host, LinkNumber { number }, packet),
        Delivery::Act(number, k) | Delivery::Receive(number, k) => {
            act(h, t, LinkNumber { number }, k, packet)
        }
    }
}
