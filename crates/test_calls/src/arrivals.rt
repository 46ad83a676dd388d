// Arrivals on link 1 of a host of 192.0.2, one to a record of standard input. tests/packets.py has the table of them, and makes the records.
use super::show;
use calendar::Date;
use clock::{Clock, Counter};
use host::link_number::LinkNumber;
use host::{Link, Settings};
use owned_host::HostReply;
use quantity::{Millis, Seconds, Word};
use std::io;
use table::Entry;
use table::marks::Marks;
use wire::Address;

// The octets of a record: the name (64), the host's state (16), the packet (48).
pub const RECORD: usize = 128;

// A number of three octets, in milliseconds.
fn millis(high: u8, middle: u8, low: u8) -> Millis {
    Millis::from(u32::from_be_bytes([0, high, middle, low]))
}

// The address of a host of 192.0.2; 0 means none.
fn address(octet: u8) -> Address {
    if octet == 0 {
        return Address::ZERO;
    }
    Address {
        first: 192,
        second: 0,
        third: 2,
        fourth: octet,
    }
}

// The clock on 1 January 1972, which reads a time of that day.
fn clock_at(time: Millis, hold: Seconds) -> Clock {
    let start = Clock::fresh(Millis(0), Date::FIRST);
    if time < Millis(0) || clock::DAY <= time {
        return start;
    }
    Clock {
        hold,
        ..Clock::fresh(time, Date::FIRST)
    }
}

// The entries of a host whose own id alone is marked, otherwise all the same.
pub(crate) fn own_entries(own: usize, e: Entry) -> [Entry; 255] {
    let mut entries = [e; 255];
    if own < 255 {
        entries[own].here = 1;
    }
    entries
}

// One id below 64 alone is marked.
fn only(id: usize) -> Marks {
    Marks {
        words: [1 << (id % 64), 0, 0, 0],
    }
}

// The id of the host of that address, by the settings of the packet program.
fn own_id(host: Address) -> usize {
    if host.fourth == 0 {
        return 0;
    }
    (host.fourth - 1) as usize
}

// The packet arrives at the host of that address, whose neighbor is so, and all whose entries are the same.
fn arrival(host: Address, neighbor: Address, c: Clock, e: Entry, octets: &[u8]) -> HostReply {
    let own = own_id(host);
    let s = Settings {
        address: host,
        marks: only(own),
        ..owned_host::settings()
    };
    let link = Link {
        neighbor,
        keep_alive: 0,
        tsp: Word(0),
    };
    let links = host::link_state::with_link(
        host::link_state::fresh(s),
        LinkNumber { number: 1 },
        link,
    );
    owned_host::take(
        s,
        owned_host::net_table(),
        0,
        c,
        links,
        host::walk::none(),
        octets,
        own_entries(own, e),
        1,
        Counter::zero(),
        octets,
    )
}

// The entry of an id.
fn entry_of(entries: [Entry; 255], id: u8) -> Entry {
    if id < 255 {
        return entries[id as usize];
    }
    table::fresh()
}

// A line's end: the answer, link 1, and the entry of an id.
fn returned(rt: &impl Print, w: HostReply, id: u8) -> io::Result<()> {
    show::answer(rt, w.reply.answer)?;
    show::link(
        rt,
        host::link_state::link_of(w.links, LinkNumber { number: 1 }),
    )?;
    print!(rt; "; id {id}")?;
    show::entry(rt, entry_of(w.entries, id))?;
    println!(rt)
}

// The host's clock before.
fn clock_before(r: &[u8; RECORD]) -> Clock {
    clock_at(millis(r[66], r[67], r[68]), Seconds(r[69] as u16))
}

// All its entries before.
fn entry_before(r: &[u8; RECORD]) -> Entry {
    Entry {
        delay: millis(0, r[70], r[71]),
        offset: Word(0),
        ttl: Seconds(r[72] as u16),
        pid: r[73],
        here: 0,
        time: Millis(0),
    }
}

// The arrival of a record. A packet is at most 48 octets long.
pub(crate) fn run(rt: &impl Print, r: &[u8; RECORD]) -> io::Result<()> {
    let length = r[75] as usize;
    rt.write_all(&r[..64])?;
    if length > 48 {
        return Ok(());
    }
    let packet = &r[80..80 + length];
    let w = arrival(
        address(r[64]),
        address(r[65]),
        clock_before(r),
        entry_before(r),
        packet,
    );
    returned(rt, w, r[74])
}
