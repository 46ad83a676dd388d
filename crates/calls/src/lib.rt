// The calls of a HELLO host. Each borrows the host's clock, links, walk with its copy of a packet, the host table, and the net table, which no call changes. The guard comes first: 12, 16 or 1 for bad settings, number or borrowed state.
// C lends each part by a pointer of its own, and each call borrows mutably only what it changes, so the parts stay apart.
// A frame of the guard with a closure for the work would take the request too, for its contract alone, so the guard stands in each call.
#![tactic(auto)]

ghost use Rattle.std.specs.Prelude.{◌≡◌, not};
ghost use Rattle.host.specs.CallState.{host, call_state};
ghost use Rattle.host.specs.Guard.{done};
ghost use Rattle.host.specs.declared.guard.Scope.TheVariants.{All, OnLink, Opening};
ghost use Rattle.calls.specs.declared.Request.TheVariants.{Initialize, Tick, Adjust, Set, Read, Second, SelfReport, Lookup};
ghost use Rattle.calls.specs.Perform.{ask, deliver, inspect, open_walk};
ghost use Rattle.arrival.specs.Arrival.{on_link};
ghost use Rattle.calls.specs.Contract.{Does, Sends};
ghost use Rattle.calls.specs.Laws.{EverySendKeeps};

use answer::Answer;
use arrival::Delivery;
use clock::{Clock, Counter};
use host::guard::{Scope, guard, guard_initialize};
use host::link_number::LinkNumber;
use host::replies::plainly;
use host::walk::Walk;
use host::{GoodHost, Host, Links, Reply, Settings};
use net_table::NetTable;
use quantity::Count;
use table::Entry;
use table::entries::{change_all, entry_of, fresh_all, read_out, update_all};

mod effects;
mod places;
mod plans;
pub mod queries;

// What is asked of a host, with its input.
#[derive(Clone, Copy)]
pub enum Request {
    // initialization
    Initialize,
    Tick(Count),
    Adjust(Count),
    // by a signed count of ms
    Set(i32, Count),
    Read(Counter),
    Second,
    SelfReport(Counter),
    Lookup(wire::Address),
    // one box of a walk
    Step(Counter),
}

// Does the guard refuse the call?
fn refuses(g: Answer) -> bool
    ensures { result ≡ not (done g) }
{
    g != Answer::Done
}

// The host of its borrowed parts.
#[inline(always)]
fn host_of(settings: &Settings, clock: &Clock, links: &Links) -> Host
    ensures { result ≡ host settings.now clock.now links.now }
{
    Host {
        settings: *settings,
        clock: *clock,
        links: *links,
    }
}

// A request: the calls that borrow no octets except the copy of a walk's packet.
pub fn call(
    settings: &Settings,
    net_table: &NetTable,
    number: usize,
    clock: &mut Clock,
    links: &mut Links,
    walk: &mut Walk,
    copy: &[u8],
    entries: &mut [Entry],
    request: Request,
) -> Reply
    ensures { Does (ask request)
        (call_state settings.now net_table.now number clock.old links.old walk.old copy.now entries.old)
        result clock.new links.new walk.new copy.now entries.new }
{
    let a = effects::scope_of(request);
    let g = guard(
        settings, net_table, number, clock, links, walk, copy, a, entries,
    );
    if refuses(g) {
        return plainly(g);
    }
    let v = *walk;
    let z = places::sought(settings, net_table, v, number, request);
    let e = entry_of(entries, z);
    let h = host_of(settings, clock, links);
    let p = effects::effect(h, net_table, v, copy, e, request);
    let w = places::placed(number, p.work);
    change_all(entries, w);
    *clock = p.clock;
    *links = p.links;
    *walk = p.walk;
    p.reply
}

// The host is initialized.
pub fn initialize(
    settings: &Settings,
    net_table: &NetTable,
    number: usize,
    clock: &mut Clock,
    links: &mut Links,
    walk: &mut Walk,
    copy: &[u8],
    entries: &mut [Entry],
) -> Reply
    ensures { Does (ask Initialize)
        (call_state settings.now net_table.now number clock.old links.old walk.old copy.now entries.old)
        result clock.new links.new walk.new copy.now entries.new }
{
    let g = guard_initialize(settings, net_table, number, entries.len());
    if refuses(g) {
        return plainly(g);
    }
    let p = effects::initialize(*settings);
    let w = places::placed(number, p.work);
    fresh_all(entries, w);
    *clock = p.clock;
    *links = p.links;
    *walk = p.walk;
    p.reply
}

// CLOCK-TICK is added to the clock.
pub fn tick(
    settings: &Settings,
    net_table: &NetTable,
    number: usize,
    clock: &mut Clock,
    links: &Links,
    walk: &Walk,
    copy: &[u8],
    entries: &[Entry],
    count: Count,
) -> Reply
    ensures { Does (ask (Tick count))
        (call_state settings.now net_table.now number clock.old links.now walk.now copy.now entries.now)
        result clock.new links.now walk.now copy.now entries.now }
{
    let g = guard(
        settings,
        net_table,
        number,
        clock,
        links,
        walk,
        copy,
        Scope::All,
        entries,
    );
    if refuses(g) {
        return plainly(g);
    }
    let h = GoodHost {
        host: host_of(settings, clock, links),
    };
    let p = plans::tick(h, count);
    *clock = p.clock;
    p.reply
}

// A share of DELTA goes into the clock.
pub fn adjust(
    settings: &Settings,
    net_table: &NetTable,
    number: usize,
    clock: &mut Clock,
    links: &Links,
    walk: &Walk,
    copy: &[u8],
    entries: &[Entry],
    count: Count,
) -> Reply
    ensures { Does (ask (Adjust count))
        (call_state settings.now net_table.now number clock.old links.now walk.now copy.now entries.now)
        result clock.new links.now walk.now copy.now entries.now }
{
    let g = guard(
        settings,
        net_table,
        number,
        clock,
        links,
        walk,
        copy,
        Scope::All,
        entries,
    );
    if refuses(g) {
        return plainly(g);
    }
    let h = GoodHost {
        host: host_of(settings, clock, links),
    };
    let p = plans::adjust(h, count);
    *clock = p.clock;
    p.reply
}

// The clock is set by a signed count of ms.
pub fn set(
    settings: &Settings,
    net_table: &NetTable,
    number: usize,
    clock: &mut Clock,
    links: &Links,
    walk: &Walk,
    copy: &[u8],
    entries: &[Entry],
    ms: i32,
    count: Count,
) -> Reply
    ensures { Does (ask (Set ms count))
        (call_state settings.now net_table.now number clock.old links.now walk.now copy.now entries.now)
        result clock.new links.now walk.now copy.now entries.now }
{
    let g = guard(
        settings,
        net_table,
        number,
        clock,
        links,
        walk,
        copy,
        Scope::All,
        entries,
    );
    if refuses(g) {
        return plainly(g);
    }
    let h = GoodHost {
        host: host_of(settings, clock, links),
    };
    let p = plans::set(h, ms, count);
    *clock = p.clock;
    p.reply
}

// The time and DATE.
pub fn read(
    settings: &Settings,
    net_table: &NetTable,
    number: usize,
    clock: &mut Clock,
    links: &Links,
    walk: &Walk,
    copy: &[u8],
    entries: &[Entry],
    counter: Counter,
) -> Reply
    ensures { Does (ask (Read counter))
        (call_state settings.now net_table.now number clock.old links.now walk.now copy.now entries.now)
        result clock.new links.now walk.now copy.now entries.now }
{
    let g = guard(
        settings,
        net_table,
        number,
        clock,
        links,
        walk,
        copy,
        Scope::All,
        entries,
    );
    if refuses(g) {
        return plainly(g);
    }
    let h = GoodHost {
        host: host_of(settings, clock, links),
    };
    let p = plans::read(h, counter);
    *clock = p.clock;
    p.reply
}

// A second has gone by: HOLD and the entries age.
pub fn second(
    settings: &Settings,
    net_table: &NetTable,
    number: usize,
    clock: &mut Clock,
    links: &Links,
    walk: &Walk,
    copy: &[u8],
    entries: &mut [Entry],
) -> Reply
    ensures { Does (ask Second)
        (call_state settings.now net_table.now number clock.old links.now walk.now copy.now entries.old)
        result clock.new links.now walk.now copy.now entries.new }
{
    let g = guard(
        settings,
        net_table,
        number,
        clock,
        links,
        walk,
        copy,
        Scope::All,
        entries,
    );
    if refuses(g) {
        return plainly(g);
    }
    let p = plans::second(host_of(settings, clock, links));
    let w = places::placed(number, p.work);
    change_all(entries, w);
    *clock = p.clock;
    p.reply
}

// Each host that lives here reports itself.
pub fn self_report(
    settings: &Settings,
    net_table: &NetTable,
    number: usize,
    clock: &mut Clock,
    links: &Links,
    walk: &Walk,
    copy: &[u8],
    entries: &mut [Entry],
    counter: Counter,
) -> Reply
    ensures { Does (ask (SelfReport counter))
        (call_state settings.now net_table.now number clock.old links.now walk.now copy.now entries.old)
        result clock.new links.now walk.now copy.now entries.new }
{
    let g = guard(
        settings,
        net_table,
        number,
        clock,
        links,
        walk,
        copy,
        Scope::All,
        entries,
    );
    if refuses(g) {
        return plainly(g);
    }
    let h = GoodHost {
        host: host_of(settings, clock, links),
    };
    let p = plans::self_report(h, counter);
    let w = places::placed(number, p.work);
    change_all(entries, w);
    *clock = p.clock;
    p.reply
}

// The host id of an address, and the link of its route.
pub fn lookup(
    settings: &Settings,
    net_table: &NetTable,
    number: usize,
    clock: &Clock,
    links: &Links,
    walk: &Walk,
    copy: &[u8],
    entries: &[Entry],
    address: wire::Address,
) -> Reply
    ensures { Does (ask (Lookup address))
        (call_state settings.now net_table.now number clock.now links.now walk.now copy.now entries.now)
        result clock.now links.now walk.now copy.now entries.now }
{
    let g = guard(
        settings,
        net_table,
        number,
        clock,
        links,
        walk,
        copy,
        Scope::All,
        entries,
    );
    if refuses(g) {
        return plainly(g);
    }
    let f = host::found_for(net_table, settings, address);
    let z = places::seek_at(number, f);
    let e = entry_of(entries, z);
    effects::looked(f, e)
}

// A walk is opened for a packet on a link: the packet is copied, and the first box is next.
pub fn open_walk(
    settings: &Settings,
    net_table: &NetTable,
    number: usize,
    clock: &Clock,
    links: &Links,
    walk: &mut Walk,
    copy: &mut [u8],
    entries: &[Entry],
    link: usize,
    packet: &[u8],
) -> Reply
    ensures { Does (open_walk link packet.now)
        (call_state settings.now net_table.now number clock.now links.now walk.old copy.old entries.now)
        result clock.now links.now walk.new copy.new entries.now }
{
    let g = guard(
        settings,
        net_table,
        number,
        clock,
        links,
        walk,
        copy,
        Scope::Opening(link),
        entries,
    );
    if refuses(g) {
        return plainly(g);
    }
    let i = LinkNumber { number: link };
    let p = walk::opened_by(settings, *walk, i, packet);
    walk::keep(copy, packet, p.octets);
    *walk = p.walk;
    p.reply
}

// A message for the neighbor of a link, written to the front of the buffer.
pub fn send(
    settings: &Settings,
    net_table: &NetTable,
    number: usize,
    clock: &mut Clock,
    links: &mut Links,
    walk: &Walk,
    copy: &[u8],
    entries: &[Entry],
    link: usize,
    counter: Counter,
    buffer: &mut [u8],
) -> Reply
    ensures { Sends link counter buffer.old
        (call_state settings.now net_table.now number clock.old links.old walk.now copy.now entries.now)
        result clock.new links.new walk.now copy.now entries.now buffer.new }
{
    let g = guard(
        settings,
        net_table,
        number,
        clock,
        links,
        walk,
        copy,
        Scope::OnLink(link),
        entries,
    );
    if refuses(g) {
        return plainly(g);
    }
    let h = GoodHost {
        host: host_of(settings, clock, links),
    };
    let i = LinkNumber { number: link };
    let p = sending::send_in(h, i, counter, buffer.len());
    let w = places::reports_at(number, p.work);
    read_out(buffer, entries, w);
    sending::finish(buffer, p);
    *clock = p.clock;
    *links = p.links;
    p.reply
}

// Every send keeps the entries and the buffer's length, and the length that it returns fits the buffer.
pub fn send_keeps()
    ensures { EverySendKeeps }
{}

// A packet is inspected; nothing changes.
pub fn inspect(
    settings: &Settings,
    net_table: &NetTable,
    number: usize,
    clock: &Clock,
    links: &Links,
    walk: &Walk,
    copy: &[u8],
    entries: &[Entry],
    link: usize,
    packet: &[u8],
) -> Reply
    ensures { Does (inspect link packet.now)
        (call_state settings.now net_table.now number clock.now links.now walk.now copy.now entries.now)
        result clock.now links.now walk.now copy.now entries.now }
{
    let g = guard(
        settings,
        net_table,
        number,
        clock,
        links,
        walk,
        copy,
        Scope::OnLink(link),
        entries,
    );
    if refuses(g) {
        return plainly(g);
    }
    let i = LinkNumber { number: link };
    plans::inspect(settings, i, packet)
}

// A packet that arrives on a link: it is inspected, acted on, or received, which is both in turn.
pub fn deliver(
    settings: &Settings,
    net_table: &NetTable,
    number: usize,
    clock: &mut Clock,
    links: &mut Links,
    walk: &Walk,
    copy: &[u8],
    entries: &mut [Entry],
    delivery: Delivery,
    packet: &[u8],
) -> Reply
    ensures { Does (deliver delivery packet.now)
        (call_state settings.now net_table.now number clock.old links.old walk.now copy.now entries.old)
        result clock.new links.new walk.now copy.now entries.new }
{
    let g = guard(
        settings,
        net_table,
        number,
        clock,
        links,
        walk,
        copy,
        Scope::OnLink(arrival::on_link(delivery)),
        entries,
    );
    if refuses(g) {
        return plainly(g);
    }
    let h = GoodHost {
        host: host_of(settings, clock, links),
    };
    let p = arrival::deliver(h, net_table, delivery, packet);
    let w = places::updates_at(number, p.work);
    *links = p.links;
    *clock = update_all(entries, w, packet);
    p.reply
}
