// A walk: an arrival in progress, as a place in section 3.3.3 with the values that its steps found. The copy of its packet is separate.
ghost use Rattle.std.specs.Prelude.{◌≡◌, true, ◌&&◌, ◌≤◌, Some};
ghost use Rattle.table.specs.Update.{own_in_range, delay_in_range};
ghost use Rattle.host.specs.Walk.{
  is_open,
  no_walk,
  step_place,
  line_place,
  place_of,
  walk_update,
  line_update,
  reading_in_range,
  id_in_range,
  storable,
  walk_fields_at,
  packet_fits,
  walk_in_range,
};
ghost use Rattle.host.specs.declared.walk.Place.TheVariants.{LineC};
ghost use Rattle.host.specs.Inspection.{inspect};
ghost use Rattle.host.specs.code.Walks.{Reported};

use super::link_number::LinkNumber;
use super::{Settings, inspection, link_state};
use quantity::{Count, Millis, Word};
use table::Update;
use table::entries::plus_report;
use wire::Packet;

// C programs lay out a walk, so its mark, link and place are numbers, which `in_range` tests.
#[repr(C)]
#[derive(Clone, Copy)]
pub struct Walk {
    // 0: no walk is open
    pub opened: u8,
    pub link: u8,
    // the place: step 1 to 5, and in step 5 the line, 1 to 4 for (a) to (d), of a host id
    pub step: u8,
    pub line: u8,
    pub id: u8,
    // the octets of the packet
    pub length: u16,
    // from step 1: the count that was used, and our reading
    pub count: Count,
    pub reading: Millis,
    // from step 3: DELAY and OFFSET
    pub delay: Word,
    pub offset: Word,
}

// The place of a walk.
#[derive(Clone, Copy)]
pub enum Place {
    Step1,
    Step2,
    Step3,
    Step4,
    Step5,
    LineA,
    LineB,
    LineC,
    LineD,
}

pub fn none() -> Walk
    ensures { result ≡ no_walk }
{
    Walk {
        opened: 0,
        link: 0,
        step: 0,
        line: 0,
        id: 0,
        length: 0,
        count: Count(0),
        reading: Millis(0),
        delay: Word(0),
        offset: Word(0),
    }
}

pub fn is_open(w: Walk) -> bool
    ensures { result ≡ is_open w }
{
    w.opened != 0
}

fn step_place(n: u8) -> Option<Place>
    ensures { result ≡ step_place n }
{
    match n {
        1 => Some(Place::Step1),
        2 => Some(Place::Step2),
        3 => Some(Place::Step3),
        4 => Some(Place::Step4),
        5 => Some(Place::Step5),
        _ => None,
    }
}

fn line_place(m: u8) -> Option<Place>
    ensures { result ≡ line_place m }
{
    match m {
        1 => Some(Place::LineA),
        2 => Some(Place::LineB),
        3 => Some(Place::LineC),
        4 => Some(Place::LineD),
        _ => None,
    }
}

// The place of a walk; none if its numbers are no place.
#[tactic(auto, unfolding(crate::specs::Walk::place_of))]
pub fn place_of(w: Walk) -> Option<Place>
    ensures { result ≡ place_of w }
{
    match (w.step, w.line) {
        (n, 0) => step_place(n),
        (5, m) => line_place(m),
        _ => None,
    }
}

// What a walk holds of an update: DELAY and OFFSET.
fn walk_update(w: Walk) -> Update
    ensures { (result ≡ walk_update w) × (own_in_range result ≡ true) }
{
    Update {
        pid: w.link,
        delay: Millis::from(w.delay),
        offset: w.offset,
        reading: w.reading,
    }
}

// What the lines of its id update it with.
pub fn line_update(s: &Settings, w: Walk, p: Packet, packet: &[u8]) -> Update
    requires reported { Reported s.now p packet.now }
    requires w_value { id_in_range s.now w ≡ true }
    ensures { (result ≡ line_update w p packet.now) × (delay_in_range result ≡ true) }
{
    let u = walk_update(w);
    if p.nhosts == 0 {
        return u;
    }
    plus_report(u, wire::report_at(packet, w.id as usize))
}

// Would line (c) store a DELAY from 100 to 29,999?
fn storable(u: Update) -> bool
    ensures { result ≡ storable u }
{
    table::MIN_DELAY <= u.delay && u.delay < table::MAX_DELAY
}

// Is our reading within its day?
fn reading_good(w: Walk) -> bool
    ensures { result ≡ reading_in_range w }
{
    table::up_to(clock::DAY, w.reading)
}

// Are our reading and the id within their ranges?
fn id_good(s: &Settings, w: Walk) -> bool
    ensures { result ≡ (reading_in_range w && id_in_range s.now w) }
{
    reading_good(w) && (w.id as usize) < s.layout.nhosts
}

// Our reading, the id, and what line (c) would store.
fn line_c_good(s: &Settings, w: Walk, p: Packet, packet: &[u8]) -> bool
    requires { Reported s.now p packet.now }
    ensures { result ≡ walk_fields_at (Some LineC) s.now w p packet.now }
{
    id_good(s, w) && storable(line_update(s, w, p, packet))
}

// Are the values that a walk has at its place within their ranges?
fn fields_good(s: &Settings, w: Walk, p: Packet, packet: &[u8]) -> bool
    requires { Reported s.now p packet.now }
    ensures { result ≡ walk_fields_at (place_of w) s.now w p packet.now }
{
    match place_of(w) {
        None => false,
        Some(Place::Step1) => true,
        Some(Place::Step2 | Place::Step3 | Place::Step4 | Place::Step5) => reading_good(w),
        Some(Place::LineA | Place::LineB | Place::LineD) => id_good(s, w),
        Some(Place::LineC) => line_c_good(s, w, p, packet),
    }
}

// Does the inspection pass the packet, and are the walk's other values within their ranges?
#[tactic(auto, using(crate::proofs::Inspected::inspected_fits))]
fn packet_good(s: &Settings, w: Walk, packet: &[u8]) -> bool
    requires { (1 ≤ w.link) × (w.link ≤ 8) }
    ensures { result ≡ packet_fits s.now w packet.now (inspect s.now w.link packet.now) }
{
    let number = w.link as usize;
    match inspection::inspect(s, LinkNumber { number }, packet) {
        Err(_) => false,
        Ok(p) => fields_good(s, w, p, packet),
    }
}

// Is a walk, if one is open, within its ranges?
#[tactic(auto, unfolding(crate::specs::Walk::walk_in_range, crate::specs::State::no_link))]
pub fn in_range(s: &Settings, w: Walk, copy: &[u8]) -> bool
    ensures { result ≡ walk_in_range s.now w copy.now }
{
    if !is_open(w) {
        return true;
    }
    if !link_state::is_link(link_state::count(*s), w.link as usize) {
        return false;
    }
    let n = w.length as usize;
    if n > copy.len() {
        return false;
    }
    packet_good(s, w, &copy[..n])
}
