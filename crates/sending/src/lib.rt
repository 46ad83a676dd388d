// A send by value: its result, and how the message is completed.
#![tactic(auto)]

ghost use Rattle.std.specs.Prelude.{◌≡◌, true};
ghost use Rattle.clock.specs.Midnight.{day_millis};
ghost use Rattle.table.specs.Entry.{up_to};
ghost use Rattle.host.specs.State.{link_of};
ghost use Rattle.sending.specs.Message.{table_goes, sent_tsp, link_sent, packet_sent};
ghost use Rattle.sending.specs.Send.{unsent, report_count, sends, send_in};
ghost use Rattle.sending.specs.code.Finish.{Finishable, finished};

use answer::Answer;
use calendar::Date;
use clock::{Clock, Counter};
use host::link_number::LinkNumber;
use host::link_state::{link_of, with_link};
use host::replies::{plainly, returns_length};
use host::{GoodHost, Host, Link, Links, Reply, Settings, host_count};
use quantity::{Millis, Word};
use table::entries::Reports;
use wire::{Address, Packet};

// A message: where it goes, and what it says beside its reports.
#[derive(Clone, Copy)]
pub struct Message {
    pub destination: Address,
    pub packet: Packet,
}

// The result of a send: the reply, the clock and the links afterwards, the ids that are reported, and the message, if one goes.
#[derive(Clone, Copy)]
pub struct Sending {
    pub reply: Reply,
    pub clock: Clock,
    pub links: Links,
    pub work: Reports,
    pub message: Option<Message>,
}

// No message: nothing changes.
fn unsent(a: Answer, h: Host) -> Sending
    ensures { result ≡ unsent a h }
{
    Sending {
        reply: plainly(a),
        clock: h.clock,
        links: h.links,
        work: Reports {
            first: 0,
            end: 0,
            pid: 0,
        },
        message: None,
    }
}

// Does the table go out on the link?
fn table_goes(s: Settings, x: Link) -> bool
    ensures { result ≡ table_goes s x }
{
    !x.neighbor.is_zero() && route::same_net(s.address, x.neighbor)
}

// How many reports go out on the link.
fn report_count(s: Settings, x: Link) -> u8
    ensures { result ≡ report_count s x }
{
    if table_goes(s, x) {
        return host_count(s) as u8;
    }
    0
}

// The TSP that is sent at a time.
fn sent_tsp(x: Link, time: Millis) -> Word
    requires { up_to day_millis time ≡ true }
    ensures { result ≡ sent_tsp x time }
{
    if x.keep_alive == 0 {
        return Word(0);
    }
    Word::of_millis(Millis::from(x.tsp) + time)
}

// The link once a message is sent on it.
fn link_sent(x: Link) -> Link
    ensures { result ≡ link_sent x }
{
    Link {
        keep_alive: x.keep_alive.saturating_sub(1),
        ..x
    }
}

fn packet_sent(s: Settings, x: Link, time: Millis, date: Date, count: u8) -> Packet
    requires { up_to day_millis time ≡ true }
    ensures { result ≡ packet_sent s x time date count }
{
    Packet {
        source: s.address,
        date,
        time,
        tsp: sent_tsp(x, time),
        address_offset: s.layout.address_offset,
        nhosts: count,
    }
}

// A send of n reports on a link in this state.
fn sends(h: GoodHost, link: LinkNumber, k: Counter, x: Link, count: u8) -> Sending
    requires { (x ≡ link_of h.host.links link.number) × (count ≡ report_count h.host.settings x) }
    ensures { result ≡ sends link.number k h.host }
{
    let r = host::our_reading(h, k);
    Sending {
        reply: returns_length(wire::length(count)),
        clock: r.clock,
        links: with_link(h.host.links, link, link_sent(x)),
        work: Reports {
            first: 0,
            end: count as usize,
            pid: link.number as u8,
        },
        message: Some(Message {
            destination: x.neighbor,
            packet: packet_sent(h.host.settings, x, r.time, r.clock.date, count),
        }),
    }
}

// A send into a buffer of n octets.
pub fn send_in(h: GoodHost, link: LinkNumber, k: Counter, room: usize) -> Sending
    ensures { result ≡ send_in link.number k room h.host }
{
    let x = link_of(h.host.links, link);
    let count = report_count(h.host.settings, x);
    if room < wire::length(count) {
        return unsent(Answer::ShortBuffer, h.host);
    }
    sends(h, link, k, x, count)
}

// The message completed around its reports, if one is sent.
pub fn finish(buffer: &mut [u8], p: Sending)
    requires { Finishable p buffer.old }
    ensures { buffer.new ≡ finished p buffer.old }
{
    if let Some(m) = p.message {
        wire::seal(buffer, m.destination, m.packet);
    }
}
