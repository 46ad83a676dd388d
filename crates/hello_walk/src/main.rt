// Reads one packet from standard input, to its end, and walks it for the host of the packet program: it prints a line for each box, with what it changed, and the number of the answer below them. A packet that is refused has the number alone.
// The buffer holds one octet more than any IP packet has: of a longer input it is full, and the answer is 3.
#![tactic(auto)]

use calls::Request;
use clock::Counter;
use host::link_number::LinkNumber;
use owned_host::HostReply;
use std::io::Result;
use table::Entry;

mod show;

// The most boxes of a walk: the five steps, and lines (a) to (d) of 255 ids.
const BOXES: u32 = 1025;

// The entry of an id.
fn entry_of(entries: [Entry; 255], id: u8) -> Entry {
    if id < 255 {
        return entries[id as usize];
    }
    table::fresh()
}

// The line of a box: the host before it and after it.
fn line(rt: &impl Print, before: HostReply, after: HostReply) -> Result<()> {
    let id = before.walk.id;
    let mut any = false;
    show::place(rt, before.walk)?;
    show::reading(rt, &mut any, before.walk, after.walk)?;
    let one = LinkNumber { number: 1 };
    let link = host::link_state::link_of(before.links, one);
    show::link(
        rt,
        &mut any,
        link,
        host::link_state::link_of(after.links, one),
    )?;
    show::held(rt, &mut any, before.walk, after.walk)?;
    show::entry(
        rt,
        &mut any,
        entry_of(before.entries, id),
        entry_of(after.entries, id),
    )?;
    if any {
        return println!(rt);
    }
    println!(rt; " nothing")
}

// The next box. The host's clock is a line clock.
fn next(h: HostReply, copy: &[u8]) -> HostReply {
    owned_host::call(
        owned_host::settings(),
        owned_host::net_table(),
        0,
        h.clock,
        h.links,
        h.walk,
        copy,
        h.entries,
        Request::Step(Counter::zero()),
    )
}

// The boxes from an opened walk on, to its end, a line each.
fn boxes(rt: &impl Print, start: HostReply, copy: &[u8]) -> Result<HostReply> {
    let mut h = start;
    for _ in 0..BOXES {
        if !host::walk::is_open(h.walk) {
            break;
        }
        let after = next(h, copy);
        line(rt, h, after)?;
        h = after;
    }
    Ok(h)
}

// The walk is opened, on link 1.
fn opened(copy: &mut [u8], packet: &[u8]) -> HostReply {
    let h = owned_host::fresh_host(packet);
    owned_host::open_walk(
        owned_host::settings(),
        owned_host::net_table(),
        0,
        h.clock,
        h.links,
        h.walk,
        copy,
        h.entries,
        1,
        packet,
    )
}

// The walk of a packet, and the number of its answer.
fn walk(rt: &impl Print, packet: &[u8]) -> Result<()> {
    let mut copy = [0u8; 1052];
    let h = opened(&mut copy, packet);
    let end = boxes(rt, h, &copy)?;
    println!(rt; "{}", u8::from(end.reply.answer))
}

fn main(rt: HostRuntime) {
    let mut octets = io::large_buffer();
    let n = io::read_full(0, &mut octets);
    let _ = walk(&rt, &octets[..n]);
}
