// The result of each request, by value.
ghost use Rattle.std.specs.Prelude.{◌≡◌, true, false};
ghost use Rattle.host.specs.Settings.{settings_good};
ghost use Rattle.host.specs.Effect.{answers};
ghost use Rattle.host.specs.Walk.{walk_in_range};
ghost use Rattle.host.specs.code.Returned.{initialized, Ready, RowsBelow};
ghost use Rattle.calls.specs.Effects.{
  looked,
  initialize,
  self_report,
  scope_of,
  effect,
};

use super::plans::{Aged, Timed};
use super::{Request, plans};
use answer::Answer;
use clock::{Clock, Counter};
use host::effects::{answers, each};
use host::guard::Scope;
use host::replies::{plainly, returns_route};
use host::walk::Walk;
use host::{Effect, GoodHost, Host, Links, Reply, Settings};
use net_table::NetTable;
use table::Entry;
use table::entries::Change;

// How much of the borrowed state is tested.
pub(crate) fn scope_of(q: Request) -> Scope
    ensures { result ≡ scope_of q }
{
    match q {
        Request::Initialize => Scope::Places,
        Request::Step(_) => Scope::Walking,
        Request::Tick(_)
        | Request::Adjust(_)
        | Request::Set(_, _)
        | Request::Read(_)
        | Request::Second
        | Request::SelfReport(_)
        | Request::Lookup(_) => Scope::All,
    }
}

#[tactic(auto, unfolding(crate::specs::Effects::initialize))]
pub(crate) fn initialize(s: Settings) -> Effect
    requires { settings_good s ≡ true }
    ensures { result ≡ initialize s }
{
    Effect {
        reply: plainly(Answer::Done),
        clock: Clock::fresh(s.time, s.date),
        links: host::link_state::fresh(s),
        walk: host::walk::none(),
        work: each(s, Change::Fresh),
    }
}

// A clock and a reply.
fn timed(p: Timed, l: Links, w: Walk) -> Effect
    ensures { result ≡ answers p.reply p.clock l w }
{
    answers(p.clock, l, w, p.reply)
}

// These, and the entries changed.
fn aged(p: Aged, l: Links, w: Walk) -> Effect
    ensures { result ≡ record { reply = p.reply; clock = p.clock; links = l; walk = w; work = p.work } }
{
    Effect {
        reply: p.reply,
        clock: p.clock,
        links: l,
        walk: w,
        work: p.work,
    }
}

// A self-report. The call of its own has another function for it (`plans::self_report`), which is then called once and compiled into it.
#[tactic(auto, unfolding(crate::specs::Effects::self_report))]
fn self_report(h: GoodHost, w: Walk, k: Counter) -> Effect
    ensures { result ≡ self_report k h.host w }
{
    let r = host::our_reading(h, k);
    Effect {
        reply: plainly(Answer::Done),
        clock: r.clock,
        links: h.host.links,
        walk: w,
        work: each(h.host.settings, Change::Reported(r.time)),
    }
}

pub(crate) fn looked(found: Option<usize>, e: Entry) -> Reply
    ensures { result ≡ looked found e }
{
    match found {
        None => plainly(Answer::NoHost),
        Some(id) => {
            if !table::up(e) {
                return plainly(Answer::HostDown);
            }
            returns_route(id, e.pid)
        }
    }
}

// A match, since each request has input of its own.
#[inline(always)]
pub(crate) fn effect(host: Host, t: &NetTable, w: Walk, copy: &[u8], e: Entry, q: Request) -> Effect
    requires { Ready (scope_of q) host.settings host.clock × RowsBelow t.now host.settings × (initialized (scope_of q) ≡ false → walk_in_range host.settings w copy.now ≡ true) }
    ensures { result ≡ effect q t.now host w copy.now e }
{
    let l = host.links;
    match q {
        Request::Initialize => initialize(host.settings),
        Request::Tick(n) => timed(plans::tick(GoodHost { host }, n), l, w),
        Request::Adjust(n) => timed(plans::adjust(GoodHost { host }, n), l, w),
        Request::Set(ms, n) => timed(plans::set(GoodHost { host }, ms, n), l, w),
        Request::Read(k) => timed(plans::read(GoodHost { host }, k), l, w),
        Request::Second => aged(plans::second(host), l, w),
        Request::SelfReport(k) => self_report(GoodHost { host }, w, k),
        Request::Lookup(a) => {
            answers(
                host.clock,
                l,
                w,
                looked(host::found_for(t, &host.settings, a), e),
            )
        }
        Request::Step(k) => walk::step(GoodHost { host }, t, w, copy, e, k),
    }
}
