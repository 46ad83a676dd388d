// Steps 1 to 5, a box each, and the box of a place.
ghost use Rattle.std.specs.Prelude.{◌≡◌, true};
ghost use Rattle.clock.specs.Midnight.{day_millis};
ghost use Rattle.table.specs.Entry.{up_to};
ghost use Rattle.arrival.specs.Steps.{step3};
ghost use Rattle.wire.specs.code.Ranges.{Four};
ghost use Rattle.host.specs.State.{has_place};
ghost use Rattle.host.specs.Walk.{reading_in_range, place_of, walk_fields_at, packet_fits};
ghost use Rattle.host.specs.Inspection.{inspect};
ghost use Rattle.host.specs.code.Returned.{RowsBelow};
ghost use Rattle.host.specs.code.Walks.{Reported};
ghost use Rattle.walk.specs.Boxes.{raised, to_neighbor, box1, box2, box3, box4, box5, box_at, box_of};

use super::held::{OnLink, at, ended, holding, holding_reading, in_flight, onward, storing};
use super::lines::{box_a, box_b, box_c, box_d};
use answer::Answer;
use arrival::Flight;
use arrival::steps::{delay_of, offset_of, step4, tsp_of};
use clock::Counter;
use host::effects::{answers, nothing};
use host::link_state::{KEEP_ALIVE_INTERVAL, broadcast, link_of};
use host::replies::plainly;
use host::walk::{Place, Walk};
use host::{Effect, GoodHost, Host, Link};
use net_table::NetTable;
use quantity::{Millis, Word};
use std::ops::ControlFlow;
use table::Entry;
use wire::Packet;

#[tactic(auto, unfolding(crate::specs::Boxes::box1))]
#[inline(always)]
fn box1(h: GoodHost, w: Walk, k: Counter) -> Effect
    ensures { result ≡ box1 k h.host w }
{
    let r = host::our_reading(h, k);
    onward(
        at(2, 0, 0, holding_reading(k.used(), r.time, w)),
        r.clock,
        h.host.links,
        nothing(),
    )
}

#[tactic(auto, unfolding(crate::specs::Boxes::box2, arrival::specs::Steps::step2))]
#[inline(always)]
fn box2(h: Host, w: OnLink) -> Effect
    ensures { result ≡ box2 h w.walk }
{
    let mut f = in_flight(h.links, w);
    f.link.keep_alive = KEEP_ALIVE_INTERVAL;
    onward(
        at(3, 0, 0, w.walk),
        h.clock,
        storing(f, w, h.links),
        nothing(),
    )
}

// TSP, DELAY and OFFSET.
#[tactic(auto, unfolding(arrival::specs::Steps::step3))]
fn measured(broadcast: bool, p: Packet, f: Flight) -> Flight
    requires four { Four p.time.0 }
    requires reading_value { up_to day_millis f.reading ≡ true }
    ensures { result ≡ step3 broadcast p f }
{
    let tsp = tsp_of(p.time, f.reading);
    let delay = delay_of(broadcast, f.reading, p.tsp);
    Flight {
        link: Link { tsp, ..f.link },
        delay,
        offset: offset_of(tsp, delay),
        ..f
    }
}

#[tactic(auto, unfolding(crate::specs::Boxes::box3))]
#[inline(always)]
fn box3(h: Host, w: OnLink, p: Packet) -> Effect
    requires four { Four p.time.0 }
    requires w_value { reading_in_range w.walk ≡ true }
    ensures { result ≡ box3 p h w.walk }
{
    let settings = h.settings;
    let f = measured(broadcast(&settings, w.link()), p, in_flight(h.links, w));
    onward(
        at(4, 0, 0, holding(f, w.walk)),
        h.clock,
        storing(f, w, h.links),
        nothing(),
    )
}

#[inline(always)]
fn box4(h: Host, w: OnLink, p: Packet) -> Effect
    ensures { result ≡ box4 p h w.walk }
{
    let settings = h.settings;
    match step4(
        broadcast(&settings, w.link()),
        h.clock.hold,
        p,
        in_flight(h.links, w),
    ) {
        ControlFlow::Break(f) => ended(
            Answer::DelayNotValid,
            h.clock,
            storing(f, w, h.links),
            nothing(),
        ),
        ControlFlow::Continue(f) => onward(
            at(5, 0, 0, holding(f, w.walk)),
            h.clock,
            storing(f, w, h.links),
            nothing(),
        ),
    }
}

fn raised(w: Walk) -> Walk
    ensures { result ≡ raised w }
{
    Walk {
        delay: Word::of_millis(arrival::at_least_min(Millis::from(w.delay))),
        ..w
    }
}

#[inline(always)]
fn to_neighbor(h: Host, w: Walk, found: Option<usize>) -> Effect
    requires { has_place found ≡ true }
    ensures { result ≡ to_neighbor h w found }
{
    match found {
        None => ended(Answer::NoHost, h.clock, h.links, nothing()),
        Some(id) => onward(at(5, 1, id as u8, w), h.clock, h.links, nothing()),
    }
}

#[tactic(auto, unfolding(crate::specs::Boxes::box5))]
#[inline(always)]
fn box5(h: GoodHost, t: &NetTable, w: OnLink, p: Packet) -> Effect
    requires rows { RowsBelow t.now h.host.settings }
    ensures { result ≡ box5 p t.now h.host w.walk }
{
    let host = h.host;
    if p.nhosts == 0 {
        let settings = host.settings;
        let found = host::found_for(t, &settings, link_of(host.links, w.link()).neighbor);
        return to_neighbor(host, raised(w.walk), found);
    }
    onward(
        at(5, 1, 0, raised(w.walk)),
        host.clock,
        host.links,
        nothing(),
    )
}

// The box of a place: a match, since each box takes other parts of the walk.
#[inline(always)]
fn box_at(
    h: GoodHost,
    t: &NetTable,
    w: OnLink,
    p: Packet,
    packet: &[u8],
    e: Entry,
    k: Counter,
) -> Effect
    requires rows { RowsBelow t.now h.host.settings }
    requires four { Four p.time.0 }
    requires reported { Reported h.host.settings p packet.now }
    requires packet_value { walk_fields_at (place_of w.walk) h.host.settings w.walk p packet.now ≡ true }
    ensures { result ≡ box_at (place_of w.walk) k p packet.now t.now h.host w.walk e }
{
    let host = h.host;
    match host::walk::place_of(w.walk) {
        None => answers(host.clock, host.links, w.walk, plainly(Answer::OutOfRange)),
        Some(Place::Step1) => box1(h, w.walk, k),
        Some(Place::Step2) => box2(host, w),
        Some(Place::Step3) => box3(host, w, p),
        Some(Place::Step4) => box4(host, w, p),
        Some(Place::Step5) => box5(h, t, w, p),
        Some(Place::LineA) => box_a(host, w.walk, p, packet, e),
        Some(Place::LineB) => box_b(host, w.walk, p, packet, e),
        Some(Place::LineC) => box_c(host, w.walk, p, packet, e),
        Some(Place::LineD) => box_d(host, w.walk, p, packet),
    }
}

// The box of the walk's place. The guard tested the packet, so its fields are read without a test.
#[inline(always)]
pub fn box_of(h: GoodHost, t: &NetTable, w: OnLink, packet: &[u8], e: Entry, k: Counter) -> Effect
    requires rows { RowsBelow t.now h.host.settings }
    requires packet_value { packet_fits h.host.settings w.walk packet.now (inspect h.host.settings w.walk.link packet.now) ≡ true }
    ensures { result ≡ box_of k packet.now t.now h.host w.walk e (inspect h.host.settings w.walk.link packet.now) }
{
    let p = wire::fields(packet);
    box_at(h, t, w, p, packet, e, k)
}
