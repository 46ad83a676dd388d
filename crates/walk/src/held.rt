// What a walk holds between its boxes, and the effects that carry it on or end it.
ghost use Rattle.std.specs.Prelude.{◌≡◌, ◌≤◌};
ghost use Rattle.wire.specs.code.Ranges.{SignedTwo};
ghost use Rattle.walk.specs.Boxes.{in_flight, storing, holding_reading, holding, at, onward, ended};

use answer::Answer;
use arrival::Flight;
use clock::Clock;
use host::link_number::LinkNumber;
use host::link_state::{link_of, with_link};
use host::replies::{plainly, returns_place};
use host::walk::Walk;
use host::{Effect, Links};
use quantity::{Count, Millis, Word};
use table::entries::Changes;

// A walk whose link is one that a host may have. C programs lay out the walk itself, so its link is a number.
#[derive(Clone, Copy)]
pub struct OnLink {
    pub walk: Walk,
    pub ghost from_one: { 1 ≤ walk.link },
    pub ghost to_eight: { walk.link ≤ 8 },
}

impl OnLink {
    pub fn link(self) -> LinkNumber
        ensures { result.number ≡ self.walk.link }
    {
        let number = self.walk.link as usize;
        LinkNumber { number }
    }
}

// The arrival in flight.
pub fn in_flight(l: Links, w: OnLink) -> Flight
    ensures { result ≡ in_flight l w.walk }
{
    Flight {
        reading: w.walk.reading,
        link: link_of(l, w.link()),
        delay: Millis::from(w.walk.delay),
        offset: w.walk.offset,
    }
}

// The links with the one that a step changed.
pub fn storing(f: Flight, w: OnLink, l: Links) -> Links
    ensures { result ≡ storing f w.walk l }
{
    with_link(l, w.link(), f.link)
}

// The count that was used, and our reading.
pub fn holding_reading(count: Count, reading: Millis, w: Walk) -> Walk
    ensures { result ≡ holding_reading count reading w }
{
    Walk {
        count,
        reading,
        ..w
    }
}

// DELAY and OFFSET.
pub fn holding(f: Flight, w: Walk) -> Walk
    ensures { result ≡ holding f w }
{
    Walk {
        delay: Word::of_millis(f.delay),
        offset: f.offset,
        ..w
    }
}

// At another place.
pub fn at(step: u8, line: u8, id: u8, w: Walk) -> Walk
    ensures { result ≡ at step line id w }
{
    Walk {
        step,
        line,
        id,
        ..w
    }
}

// A box that goes on: its reply is the next place.
pub fn onward(w: Walk, c: Clock, l: Links, work: Changes) -> Effect
    ensures { result ≡ onward w c l work }
{
    Effect {
        reply: returns_place(w.step, w.line, w.id),
        clock: c,
        links: l,
        walk: w,
        work,
    }
}

// The end of a walk.
pub fn ended(a: Answer, c: Clock, l: Links, work: Changes) -> Effect
    ensures { result ≡ ended a c l work }
{
    Effect {
        reply: plainly(a),
        clock: c,
        links: l,
        walk: host::walk::none(),
        work,
    }
}
