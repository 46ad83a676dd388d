// The results of the calls that change neither links nor walk, by value.
ghost use Rattle.std.specs.Prelude.{◌≡◌};
ghost use Rattle.host.specs.Inspection.{inspect, tells};
ghost use Rattle.calls.specs.declared.Request.TheVariants.{Tick, Adjust, Set, Read, Second, SelfReport};
ghost use Rattle.calls.specs.code.Planned.{Timely, Aging};

use answer::Answer;
use clock::{Clock, Counter};
use host::effects::each;
use host::link_number::LinkNumber;
use host::replies::{plainly, returns_time};
use host::{GoodHost, Host, Reply, Settings, inspection};
use quantity::{Count, Millis};
use table::entries::{Change, Changes};

// The reply and the clock; the entries stay.
#[derive(Clone, Copy)]
pub struct Timed {
    pub reply: Reply,
    pub clock: Clock,
}

// The reply, the clock, and what becomes of the entries.
#[derive(Clone, Copy)]
pub struct Aged {
    pub reply: Reply,
    pub clock: Clock,
    pub work: Changes,
}

#[tactic(auto, unfolding(crate::specs::Effects::tick))]
pub(crate) fn tick(h: GoodHost, n: Count) -> Timed
    ensures { Timely result (Tick n) h.host }
{
    let s = h.host.settings;
    Timed {
        reply: plainly(Answer::Done),
        clock: h.host.clock.ticked(s.clock_tick, s.hold_interval, n),
    }
}

#[tactic(auto, unfolding(crate::specs::Effects::adjust))]
pub(crate) fn adjust(h: GoodHost, n: Count) -> Timed
    ensures { Timely result (Adjust n) h.host }
{
    let s = h.host.settings;
    Timed {
        reply: plainly(Answer::Done),
        clock: h.host.clock.adjusted(s.hold_interval, n),
    }
}

#[inline]
pub(crate) fn set(h: GoodHost, ms: i32, n: Count) -> Timed
    ensures { Timely result (Set ms n) h.host }
{
    let s = h.host.settings;
    Timed {
        reply: plainly(Answer::Done),
        clock: h.host.clock.set_by(s.hold_interval, n, Millis::from(ms)),
    }
}

#[inline(always)]
#[tactic(auto, unfolding(crate::specs::Effects::read))]
pub(crate) fn read(h: GoodHost, k: Counter) -> Timed
    ensures { Timely result (Read k) h.host }
{
    let r = host::our_reading(h, k);
    Timed {
        reply: returns_time(r.time, r.clock.date),
        clock: r.clock,
    }
}

#[tactic(auto, unfolding(crate::specs::Effects::second))]
pub(crate) fn second(h: Host) -> Aged
    ensures { Aging result Second h }
{
    Aged {
        reply: plainly(Answer::Done),
        clock: h.clock.second(),
        work: each(h.settings, Change::Aged),
    }
}

#[tactic(auto, unfolding(crate::specs::Effects::self_report))]
pub(crate) fn self_report(h: GoodHost, k: Counter) -> Aged
    ensures { Aging result (SelfReport k) h.host }
{
    let r = host::our_reading(h, k);
    Aged {
        reply: plainly(Answer::Done),
        clock: r.clock,
        work: each(h.host.settings, Change::Reported(r.time)),
    }
}

pub(crate) fn inspect(s: &Settings, link: LinkNumber, packet: &[u8]) -> Reply
    ensures { result ≡ tells (inspect s.now link.number packet.now) }
{
    inspection::tells(inspection::inspect(s, link, packet))
}
