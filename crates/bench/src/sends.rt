// A send from an end of a cable into a slot.
ghost use Rattle.std.specs.Prelude.{◌≡◌, ◌*◌, ◌≤◌, ◌<◌, length};
ghost use Rattle.bench_file.specs.Header.{most_cables};
ghost use Rattle.bench_file.specs.Absent.{slots};
ghost use Rattle.bench.specs.Slots.{slot_length};
ghost use Rattle.bench.specs.code.Sends.{SendFits, DoesSend, labelled};

use super::HostState;
use super::places::copy_of;
use super::slots::{put_label, room_end, room_start};
use clock::Counter;
use host::{Reply, Settings};
use net_table::NetTable;
use table::Entry;

// The host, the slot for the message, the host's settings, the link and the counter, and the cable's end that the message goes from.
#[derive(Clone, Copy)]
pub struct Sending {
    pub host: usize,
    pub slot: usize,
    pub settings: Settings,
    pub link: usize,
    pub counter: Counter,
    pub cable: usize,
    pub side: usize,
}

// The slot gets the label of what was sent; after a refusal it keeps the old one.
fn label(octets: &mut [u8], w: Sending, r: Reply)
    requires { (slot_length * slots ≤ length octets.old) × (w.slot < slots) × (w.cable < most_cables) × (w.side ≤ 1) }
    ensures { octets.new ≡ labelled w r octets.old }
{
    if calls::queries::is_done(r.answer) {
        put_label(octets, w.slot, r.length, w.cable as u8, w.side as u8);
    }
}

pub fn send_at(
    net_table: &NetTable,
    hosts: &mut [HostState],
    copies: &[u8],
    entries: &[Entry],
    slots: &mut [u8],
    w: Sending,
) -> Reply
    requires { SendFits w hosts.old copies.now slots.old }
    ensures { DoesSend w net_table.now hosts.old copies.now entries.now slots.old result hosts.new slots.new }
{
    let v = &mut hosts[w.host];
    let reply = calls::send(
        &w.settings,
        net_table,
        w.host,
        &mut v.clock,
        &mut v.links,
        &v.walk,
        copy_of(copies, w.host),
        entries,
        w.link,
        w.counter,
        &mut slots[room_start(w.slot)..room_end(w.slot)],
    );
    label(slots, w, reply);
    reply
}
