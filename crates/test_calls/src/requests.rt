// What a send, a second and a lookup do with an entry and a link.
use super::arrivals::own_entries;
use super::show;
use calendar::Date;
use calls::Request;
use clock::{Clock, Counter};
use host::link_number::LinkNumber;
use host::{GoodHost, Host, Link};
use owned_host::HostReply;
use quantity::{Millis, Seconds, Word};
use std::io;
use table::Entry;
use wire::Address;

// A route by that PID.
fn route_by(pid: u8, delay: i64, ttl: u16) -> Entry {
    Entry {
        delay: Millis(delay),
        offset: Word(7),
        ttl: Seconds(ttl),
        pid,
        here: 0,
        time: Millis(0),
    }
}

// A line of what a send on link 1 advertises for a route.
fn advertised(rt: &impl Print, name: &str, pid: u8, delay: i64) -> io::Result<()> {
    print!(rt; "{name}")?;
    show::report(rt, table::advertised(1, route_by(pid, delay, 60)))?;
    println!(rt)
}

// Routes by way of the neighbor are not reported to it (split horizon).
pub(crate) fn split_horizon(rt: &impl Print) -> io::Result<()> {
    advertised(rt, "sent on link 1, of a route by link 1", 1, 500)?;
    advertised(rt, "sent on link 1, of a route by link 2", 2, 500)?;
    advertised(rt, "sent on link 1, of the host itself", 0, 0)
}

// The host of the packet program, all of whose entries are equal, after a request.
fn asked(e: Entry, q: Request) -> HostReply {
    let s = owned_host::settings();
    owned_host::call(
        s,
        owned_host::net_table(),
        0,
        Clock::fresh(Millis(0), Date::FIRST),
        host::link_state::fresh(s),
        host::walk::none(),
        b"",
        own_entries(0, e),
        q,
    )
}

// A line of a route by link 1 a second later.
fn second(rt: &impl Print, name: &str, delay: i64, ttl: u16) -> io::Result<()> {
    let w = asked(route_by(1, delay, ttl), Request::Second);
    print!(rt; "{name}")?;
    show::entry(rt, w.entries[0])?;
    println!(rt)
}

// TABLE-5: TTL decreases, and an entry that is up goes down at zero.
pub(crate) fn ageing(rt: &impl Print) -> io::Result<()> {
    second(rt, "a second, live entry, TTL 2", 500, 2)?;
    second(rt, "a second, live entry, TTL 1", 500, 1)?;
    second(rt, "a second, live entry, TTL 0", 500, 0)?;
    second(rt, "a second, down entry, TTL 1", table::MAX_DELAY.0, 1)
}

// A line of a lookup of 192.0.2.3, whose id is 2, where that id has such a route.
fn lookup(rt: &impl Print, name: &str, pid: u8, delay: i64) -> io::Result<()> {
    let address = Address {
        first: 192,
        second: 0,
        third: 2,
        fourth: 3,
    };
    let w = asked(route_by(pid, delay, 60), Request::Lookup(address));
    print!(rt; "{name}")?;
    show::answer(rt, w.reply.answer)?;
    println!(rt; ": id {} PID {}", w.reply.id, w.reply.pid)
}

// CALL-3: what a lookup returns, and 13 for a host that is down.
pub(crate) fn lookups(rt: &impl Print) -> io::Result<()> {
    lookup(rt, "lookup, route by link 1:", 1, 500)?;
    lookup(rt, "lookup, route by link 8:", 8, 29_999)?;
    lookup(rt, "lookup, the host is down:", 1, table::MAX_DELAY.0)
}

// What a message on link 1 carries as TSP, and KEEP-ALIVE after it.
#[derive(Clone, Copy)]
struct Sent {
    tsp: Word,
    keep_alive: u8,
}

fn sent_at(x: Link, c: Clock) -> Sent {
    let s = owned_host::settings();
    let one = LinkNumber { number: 1 };
    let links = host::link_state::with_link(host::link_state::fresh(s), one, x);
    let h = Host {
        settings: s,
        clock: c,
        links,
    };
    if host::good(s) && c.in_range() {
        let p = sending::send_in(GoodHost { host: h }, one, Counter::zero(), 32);
        if let Some(m) = p.message {
            return Sent {
                tsp: m.packet.tsp,
                keep_alive: host::link_state::link_of(p.links, one).keep_alive,
            };
        }
    }
    Sent {
        tsp: Word(0),
        keep_alive: 0,
    }
}

// A line of what B sends at 45,530 where its TSP is -530.
fn message(rt: &impl Print, name: &str, keep_alive: u8) -> io::Result<()> {
    let x = Link {
        neighbor: Address::ZERO,
        keep_alive,
        tsp: Word(-530),
    };
    let m = sent_at(x, Clock::fresh(Millis(45530), Date::FIRST));
    println!(rt; "{name}: TSP {}, KEEP-ALIVE {}", m.tsp.bits(), m.keep_alive)
}

// SUM-6, SEND-3: B's answer has TSP 45,000 if KEEP-ALIVE is not zero, and else 0.
pub(crate) fn tsp(rt: &impl Print) -> io::Result<()> {
    message(rt, "B answers at 45,530 where its TSP is -530", 4)?;
    message(rt, "the same where KEEP-ALIVE is 0", 0)
}
