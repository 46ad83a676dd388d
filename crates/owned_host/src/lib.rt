// A host that its holder keeps by value: its requests, walks and arrivals. And what the host of the packet program answers.
#![tactic(auto)]

ghost use Rattle.std.specs.Prelude.{◌≡◌};
ghost use Rattle.host.specs.CallState.{call_state};
ghost use Rattle.calls.specs.Perform.{perform, ask, deliver, open_walk, in_turn};
ghost use Rattle.owned_host.specs.Held.{host_reply_of};
ghost use Rattle.owned_host.specs.Program.{
  program_settings,
  program_table,
  program_host,
  program_answer,
  program_inspection,
};

use arrival::Delivery;
use calendar::Date;
use calls::Request;
use clock::{Clock, Counter};
use host::walk::Walk;
use host::{LinkSetting, Links};
use net_table::NetTable;
use quantity::{Millis, Seconds, Units};
use route::Layout;
use table::Entry;
use table::marks::Marks;
use wire::Address;

// A call's reply, and the host's full state after the call.
#[derive(Clone, Copy)]
pub struct HostReply {
    pub reply: host::Reply,
    pub clock: Clock,
    pub links: Links,
    pub walk: Walk,
    pub entries: [Entry; 255],
}

// A request.
pub fn call(
    settings: host::Settings,
    net_table: NetTable,
    number: usize,
    mut clock: Clock,
    mut links: Links,
    mut walk: Walk,
    copy: &[u8],
    mut entries: [Entry; 255],
    request: Request,
) -> HostReply
    ensures { result ≡ host_reply_of (perform (ask request) (call_state settings net_table number clock links walk copy.now entries)) }
{
    let reply = calls::call(
        &settings,
        &net_table,
        number,
        &mut clock,
        &mut links,
        &mut walk,
        copy,
        &mut entries,
        request,
    );
    HostReply {
        reply,
        clock,
        links,
        walk,
        entries,
    }
}

// A walk is opened for a packet on a link.
pub fn open_walk(
    settings: host::Settings,
    net_table: NetTable,
    number: usize,
    clock: Clock,
    links: Links,
    mut walk: Walk,
    copy: &mut [u8],
    entries: [Entry; 255],
    link: usize,
    packet: &[u8],
) -> HostReply
    ensures { (result ≡ host_reply_of (perform (open_walk link packet.now) (call_state settings net_table number clock links walk copy.old entries)))
        × (copy.new ≡ (perform (open_walk link packet.now) (call_state settings net_table number clock links walk copy.old entries)).copy) }
{
    let reply = calls::open_walk(
        &settings, &net_table, number, &clock, &links, &mut walk, copy, &entries, link, packet,
    );
    HostReply {
        reply,
        clock,
        links,
        walk,
        entries,
    }
}

// A packet that arrives on a link, and what is done with it.
pub fn deliver(
    settings: host::Settings,
    net_table: NetTable,
    number: usize,
    mut clock: Clock,
    mut links: Links,
    walk: Walk,
    copy: &[u8],
    mut entries: [Entry; 255],
    delivery: Delivery,
    packet: &[u8],
) -> HostReply
    ensures { result ≡ host_reply_of (perform (deliver delivery packet.now)
        (call_state settings net_table number clock links walk copy.now entries)) }
{
    let reply = calls::deliver(
        &settings,
        &net_table,
        number,
        &mut clock,
        &mut links,
        &walk,
        copy,
        &mut entries,
        delivery,
        packet,
    );
    HostReply {
        reply,
        clock,
        links,
        walk,
        entries,
    }
}

// A packet is inspected and, where that is answered 0, acted on.
#[tactic(auto, unfolding(calls::specs::Perform::perform))]
pub fn take(
    settings: host::Settings,
    net_table: NetTable,
    number: usize,
    clock: Clock,
    links: Links,
    walk: Walk,
    copy: &[u8],
    entries: [Entry; 255],
    link: usize,
    counter: Counter,
    packet: &[u8],
) -> HostReply
    ensures { result ≡ host_reply_of (in_turn link counter packet.now (call_state settings net_table number clock links walk copy.now entries)) }
{
    let looked = deliver(
        settings,
        net_table,
        number,
        clock,
        links,
        walk,
        copy,
        entries,
        Delivery::Inspect(link),
        packet,
    );
    if !calls::queries::is_done(looked.reply.answer) {
        return looked;
    }
    deliver(
        settings,
        net_table,
        number,
        looked.clock,
        looked.links,
        looked.walk,
        copy,
        looked.entries,
        Delivery::Act(link, counter),
        packet,
    )
}

// The settings of the packet program's host.
pub fn settings() -> host::Settings
    ensures { result ≡ program_settings }
{
    let unset = LinkSetting {
        broadcast: 0,
        neighbor: Address::ZERO,
    };
    host::Settings {
        address: Address {
            first: 192,
            second: 0,
            third: 2,
            fourth: 1,
        },
        layout: Layout {
            address_offset: 1,
            nhosts: 4,
        },
        clock_host: 255,
        hold_interval: Seconds(1),
        clock_tick: Units(1),
        time: Millis(0),
        date: Date::FIRST,
        link_count: 1,
        links: [unset; 8],
        marks: Marks {
            words: [1, 0, 0, 0],
        },
    }
}

// The net table of its class: no rows.
pub fn net_table() -> NetTable
    ensures { result ≡ program_table }
{
    net_table::without_rows(4)
}

// That host, initialized. No walk is open on it, so any octets serve as a copy.
#[tactic(auto, unfolding(crate::specs::Program::program_host))]
pub fn fresh_host(copy: &[u8]) -> HostReply
    ensures { result ≡ host_reply_of (program_host copy.now) }
{
    let s = settings();
    let c = Clock::fresh(s.time, s.date);
    let l = host::link_state::fresh(s);
    let v = host::walk::none();
    let e = table::fresh();
    let t = net_table();
    call(s, t, 0, c, l, v, copy, [e; 255], Request::Initialize)
}

// The number of its answer to a packet on link 1.
#[tactic(auto, unfolding(crate::specs::Program::program_answer))]
pub fn answer(packet: &[u8]) -> u8
    ensures { result ≡ program_answer packet.now }
{
    let s = settings();
    let t = net_table();
    let h = fresh_host(packet);
    let k = Counter::zero();
    let taken = take(
        s, t, 0, h.clock, h.links, h.walk, packet, h.entries, 1, k, packet,
    );
    u8::from(taken.reply.answer)
}

// What it returns for a packet on link 1 that it only inspects.
#[tactic(auto, unfolding(crate::specs::Program::program_inspection))]
pub fn inspection(packet: &[u8]) -> host::Reply
    ensures { result ≡ program_inspection packet.now }
{
    let s = settings();
    let t = net_table();
    let h = fresh_host(packet);
    let d = Delivery::Inspect(1);
    let looked = deliver(
        s, t, 0, h.clock, h.links, h.walk, packet, h.entries, d, packet,
    );
    looked.reply
}
