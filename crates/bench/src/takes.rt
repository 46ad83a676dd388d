// A slot's packet that arrives at a host: the inspection and, if it passes, the action.
ghost use Rattle.std.specs.Prelude.{◌≡◌, ◌+◌, ◌≤◌, ◌<◌};
ghost use Rattle.host.specs.Guard.{longest, done};
ghost use Rattle.arrival.specs.declared.Delivery.TheVariants.{Act};
ghost use Rattle.bench_file.specs.Absent.{slots};
ghost use Rattle.bench.specs.Slots.{room_place};
ghost use Rattle.bench.specs.code.Takes.{TakeFits, DoesLook, DoesAct, DoesTake};

use super::HostState;
use super::places::copy_of;
use super::slots::room_start;
use arrival::Delivery;
use clock::Counter;
use host::{Reply, Settings};
use net_table::NetTable;
use table::Entry;

// The host, the slot and the length of its packet, the host's settings, the link and the counter.
#[derive(Clone, Copy)]
pub struct Taking {
    pub host: usize,
    pub slot: usize,
    pub size: usize,
    pub settings: Settings,
    pub link: usize,
    pub counter: Counter,
}

fn packet_end(slot: usize, size: usize) -> usize
    requires { (slot < slots) × (size ≤ longest) }
    ensures { result ≡ room_place slot + size }
{
    room_start(slot) + size
}

fn acts(link: usize, counter: Counter) -> Delivery
    ensures { result ≡ Act link counter }
{
    Delivery::Act(link, counter)
}

// Did the inspection pass?
fn passes(r: Reply) -> bool
    ensures { result ≡ done r.answer }
{
    calls::queries::is_done(r.answer)
}

fn look_at(
    net_table: &NetTable,
    hosts: &[HostState],
    copies: &[u8],
    entries: &[Entry],
    slots: &[u8],
    w: Taking,
) -> Reply
    requires { TakeFits w hosts.now copies.now slots.now }
    ensures { DoesLook w net_table.now hosts.now copies.now entries.now slots.now result }
{
    let v = &hosts[w.host];
    calls::inspect(
        &w.settings,
        net_table,
        w.host,
        &v.clock,
        &v.links,
        &v.walk,
        copy_of(copies, w.host),
        entries,
        w.link,
        &slots[room_start(w.slot)..packet_end(w.slot, w.size)],
    )
}

fn act_at(
    net_table: &NetTable,
    hosts: &mut [HostState],
    copies: &[u8],
    entries: &mut [Entry],
    slots: &[u8],
    w: Taking,
) -> Reply
    requires { TakeFits w hosts.old copies.now slots.now }
    ensures { DoesAct w net_table.now hosts.old copies.now entries.old slots.now result hosts.new entries.new }
{
    let v = &mut hosts[w.host];
    calls::deliver(
        &w.settings,
        net_table,
        w.host,
        &mut v.clock,
        &mut v.links,
        &v.walk,
        copy_of(copies, w.host),
        entries,
        acts(w.link, w.counter),
        &slots[room_start(w.slot)..packet_end(w.slot, w.size)],
    )
}

pub fn take_at(
    net_table: &NetTable,
    hosts: &mut [HostState],
    copies: &[u8],
    entries: &mut [Entry],
    slots: &[u8],
    w: Taking,
) -> Reply
    requires { TakeFits w hosts.old copies.now slots.now }
    ensures { DoesTake w net_table.now hosts.old copies.now entries.old slots.now result hosts.new entries.new }
{
    let reply = look_at(net_table, hosts, copies, entries, slots, w);
    if !passes(reply) {
        return reply;
    }
    act_at(net_table, hosts, copies, entries, slots, w)
}
