// Lines (a) to (d) of an id, a box each.
// What the packet and the id are to satisfy stands in each contract: a type of the packet with its fields would hold the settings too, and each line the walk beside it.
ghost use Rattle.std.specs.Prelude.{◌≡◌, true, eqb};
ghost use Rattle.clock.specs.Clock.{clock_in_range};
ghost use Rattle.table.specs.Forms.{on};
ghost use Rattle.host.specs.Walk.{id_in_range};
ghost use Rattle.host.specs.code.Walks.{Reported};
ghost use Rattle.walk.specs.Boxes.{next_id, put, after_c, box_a, box_b, box_c, box_d};

use super::held::{at, ended, onward};
use answer::Answer;
use host::effects::{nothing, one};
use host::walk::{Walk, line_update};
use host::{Effect, Host, Settings, host_count};
use std::ops::ControlFlow;
use table::Entry;
use table::entries::{Change, Changes};
use wire::Packet;

// The next id, or the end.
#[inline(always)]
fn next_id(h: Host, w: Walk, p: Packet, work: Changes) -> Effect
    ensures { result ≡ next_id p h w work }
{
    if p.nhosts == 0 || w.id as usize + 1 >= host_count(h.settings) {
        return ended(Answer::Done, h.clock, h.links, work);
    }
    onward(at(5, 1, w.id + 1, w), h.clock, h.links, work)
}

fn put(w: Walk, e: Entry) -> Changes
    ensures { result ≡ put w e }
{
    one(w.id as usize, Change::Put(e))
}

fn is_clock_host(s: Settings, w: Walk) -> bool
    ensures { result ≡ eqb w.id s.clock_host }
{
    w.id == s.clock_host
}

#[inline(always)]
pub fn box_a(h: Host, w: Walk, p: Packet, packet: &[u8], e: Entry) -> Effect
    requires reported { Reported h.settings p packet.now }
    requires w_value { id_in_range h.settings w ≡ true }
    ensures { result ≡ box_a p packet.now h w e }
{
    match table::line_a(line_update(&h.settings, w, p, packet), e) {
        ControlFlow::Break(_) => next_id(h, w, p, nothing()),
        ControlFlow::Continue(_) => onward(at(5, 2, w.id, w), h.clock, h.links, nothing()),
    }
}

#[inline(always)]
pub fn box_b(h: Host, w: Walk, p: Packet, packet: &[u8], e: Entry) -> Effect
    requires reported { Reported h.settings p packet.now }
    requires w_value { id_in_range h.settings w ≡ true }
    ensures { result ≡ box_b p packet.now h w e }
{
    match table::line_b(line_update(&h.settings, w, p, packet), e) {
        ControlFlow::Break(x) => next_id(h, w, p, put(w, x)),
        ControlFlow::Continue(_) => onward(at(5, 3, w.id, w), h.clock, h.links, nothing()),
    }
}

// Line (d) follows for the clock host only.
#[inline(always)]
fn after_c(h: Host, w: Walk, p: Packet, x: Entry) -> Effect
    ensures { result ≡ after_c p h w (on x) }
{
    if is_clock_host(h.settings, w) {
        return onward(at(5, 4, w.id, w), h.clock, h.links, put(w, x));
    }
    next_id(h, w, p, put(w, x))
}

#[inline(always)]
pub fn box_c(h: Host, w: Walk, p: Packet, packet: &[u8], e: Entry) -> Effect
    requires reported { Reported h.settings p packet.now }
    requires w_value { id_in_range h.settings w ≡ true }
    ensures { result ≡ box_c p packet.now h w e }
{
    match table::line_c(line_update(&h.settings, w, p, packet), e) {
        ControlFlow::Break(x) => next_id(h, w, p, put(w, x)),
        ControlFlow::Continue(x) => after_c(h, w, p, x),
    }
}

#[tactic(auto, unfolding(crate::specs::LineBoxes::box_d))]
#[inline(always)]
pub fn box_d(h: Host, w: Walk, p: Packet, packet: &[u8]) -> Effect
    requires reported { Reported h.settings p packet.now }
    requires w_value { id_in_range h.settings w ≡ true }
    requires in_range { clock_in_range h.clock ≡ true }
    ensures { result ≡ box_d p packet.now h w }
{
    if !is_clock_host(h.settings, w) {
        return next_id(h, w, p, nothing());
    }
    let u = line_update(&h.settings, w, p, packet);
    let clock = table::line_d(h.settings.hold_interval, w.count, p.date, u.offset, h.clock);
    next_id(Host { clock, ..h }, w, p, nothing())
}
