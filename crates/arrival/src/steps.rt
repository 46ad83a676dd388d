// Steps 2 to 4 of an arrival. C programs lay out the reading that a walk holds between them, so each step asks for its range.
ghost use Rattle.std.specs.Prelude.{◌≡◌, true, cond, pos};
ghost use Rattle.quantity.specs.Quantity.{millis};
ghost use Rattle.clock.specs.Midnight.{day_millis};
ghost use Rattle.wire.specs.code.Ranges.{SignedTwo, Four};
ghost use Rattle.table.specs.Entry.{up_to};
ghost use Rattle.table.specs.Forms.{flow_of};
ghost use Rattle.arrival.specs.Steps.{tsp_of, delay_of, offset_of, new_neighbor, step4, measured, steps2to4};

use super::Flight;
use host::Link;
use host::link_state::KEEP_ALIVE_INTERVAL;
use quantity::{Millis, Seconds, Word};
use std::ops::ControlFlow;
use wire::Packet;

pub fn tsp_of(time: Millis, reading: Millis) -> Word
    requires four { Four time.0 }
    requires reading_value { up_to day_millis reading ≡ true }
    ensures { result ≡ tsp_of time reading }
{
    Word::of_millis(time - reading)
}

// DELAY: none on a broadcast link.
pub fn delay_of(broadcast: bool, reading: Millis, tsp: Word) -> Millis
    requires { up_to day_millis reading ≡ true }
    ensures { (result ≡ cond broadcast (millis (pos 0)) (delay_of reading tsp)) × SignedTwo result.0 }
{
    if broadcast {
        return Millis(0);
    }
    Millis::from(Word::of_millis(reading - Millis::from(tsp)))
}

pub fn offset_of(tsp: Word, delay: Millis) -> Word
    requires { SignedTwo delay.0 }
    ensures { result ≡ offset_of tsp delay }
{
    Word::of_millis(Millis::from(tsp) + delay.half())
}

// Steps 2 and 3.
fn measured(broadcast: bool, p: Packet, reading: Millis, x: Link) -> Flight
    requires four { Four p.time.0 }
    requires reading_value { up_to day_millis reading ≡ true }
    ensures { result ≡ measured broadcast p reading x }
{
    let tsp = tsp_of(p.time, reading);
    let delay = delay_of(broadcast, reading, p.tsp);
    Flight {
        reading,
        link: Link {
            keep_alive: KEEP_ALIVE_INTERVAL,
            tsp,
            ..x
        },
        delay,
        offset: offset_of(tsp, delay),
    }
}

// A packet from another neighbor than the link's: stored there.
fn new_neighbor(p: Packet, f: Flight) -> Flight
    ensures { result ≡ new_neighbor p f }
{
    Flight {
        link: Link {
            neighbor: p.source,
            ..f.link
        },
        delay: table::MAX_DELAY,
        ..f
    }
}

// Step 4 continues with step 5, or breaks off.
#[tactic(auto, unfolding(crate::specs::Steps::step4))]
pub fn step4(broadcast: bool, hold: Seconds, p: Packet, f: Flight) -> ControlFlow<Flight, Flight>
    ensures { result ≡ flow_of (step4 broadcast hold p f) }
{
    if broadcast {
        return ControlFlow::Continue(f);
    }
    let source = p.source;
    let x = f.link;
    if source != x.neighbor {
        return ControlFlow::Continue(new_neighbor(p, f));
    }
    let tsp = p.tsp;
    if tsp == Word(0) {
        return ControlFlow::Break(f);
    }
    if hold.0 != 0 {
        return ControlFlow::Break(f);
    }
    ControlFlow::Continue(f)
}

pub fn two_to_four(
    broadcast: bool,
    hold: Seconds,
    p: Packet,
    reading: Millis,
    x: Link,
) -> ControlFlow<Flight, Flight>
    requires four { Four p.time.0 }
    requires reading_value { up_to day_millis reading ≡ true }
    ensures { result ≡ flow_of (steps2to4 broadcast hold p reading x) }
{
    step4(broadcast, hold, p, measured(broadcast, p, reading, x))
}
