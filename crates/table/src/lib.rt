// The host table.
#![tactic(auto)]

ghost use Rattle.std.specs.Prelude.{◌≡◌, true};
ghost use Rattle.clock.specs.Clock.{clock_in_range};
ghost use Rattle.table.specs.Entry.{fresh_entry, up, with_mark, with_ttl, taken_down, aged, advertised, up_to, entry_in_range, lives_here};
ghost use Rattle.table.specs.Forms.{flow_of};
ghost use Rattle.table.specs.Update.{delay_in_range, line_a, line_b, line_c, lines, date_taken, line_d, update, self_reported, reported_here};
ghost use Rattle.table.specs.Switching.{Switching};

use calendar::Date;
use clock::Clock;
use quantity::{Count, Millis, Seconds, Word};
use std::ops::ControlFlow;
use wire::Report;

pub mod entries;
pub mod fours;
pub mod marks;
pub mod self_reports;

// MAXDELAY, MINDELAY and the time of hold-down.
pub const MAX_DELAY: Millis = Millis(30000);

pub const MIN_DELAY: Millis = Millis(100);

pub const HOLD_DOWN: Seconds = Seconds(120);

// TABLE-1: an entry of the host table. The mark `here` is 1 if its host lives here, else 0; `time` is that of its last update. C programs lay out the mark as an octet.
#[repr(C)]
#[derive(Clone, Copy)]
pub struct Entry {
    pub delay: Millis,
    pub offset: Word,
    pub ttl: Seconds,
    pub pid: u8,
    pub here: u8,
    pub time: Millis,
}

// What an entry is updated with: PID, DELAY, OFFSET, and our reading.
#[derive(Clone, Copy)]
pub struct Update {
    pub pid: u8,
    pub delay: Millis,
    pub offset: Word,
    pub reading: Millis,
}

// The result of an update: the clock, which line (d) may set, and the entry.
#[derive(Clone, Copy)]
pub struct Updated {
    pub clock: Clock,
    pub entry: Entry,
}

// A route moves to another link only where that is shorter by 100 ms or more.
#[tactic(auto, using(crate::proofs::LineA::switching_holds))]
pub fn switching()
    ensures { Switching }
{}

// The entry of a host that nothing is known of.
#[tactic(auto, unfolding(crate::specs::Entry::fresh_entry))]
pub fn fresh() -> Entry
    ensures { result ≡ fresh_entry }
{
    Entry {
        delay: MAX_DELAY,
        offset: Word(0),
        ttl: Seconds(0),
        pid: 0,
        here: 0,
        time: Millis(0),
    }
}

// Is the host up?
pub fn up(e: Entry) -> bool
    ensures { result ≡ up e }
{
    e.delay < MAX_DELAY
}

// Does the host live here?
fn lives_here(e: Entry) -> bool
    ensures { result ≡ lives_here e }
{
    e.here == 1
}

// The entry with another mark.
fn with_mark(e: Entry, here: u8) -> Entry
    ensures { result ≡ with_mark here e }
{
    Entry { here, ..e }
}

// The entry with another TTL.
fn with_ttl(e: Entry, ttl: Seconds) -> Entry
    ensures { result ≡ with_ttl ttl e }
{
    Entry { ttl, ..e }
}

// The entry with its host taken down.
fn taken_down(e: Entry) -> Entry
    ensures { result ≡ taken_down e }
{
    Entry {
        delay: MAX_DELAY,
        ttl: HOLD_DOWN,
        ..e
    }
}

// The entry a second later. The tests of the TTL that is left and of the DELAY are apart: joined by `&&` they become a choice without a branch, and a second takes half as long again.
#[tactic(auto, unfolding(crate::specs::Entry::aged))]
pub fn aged(e: Entry) -> Entry
    ensures { result ≡ aged e }
{
    if e.ttl.0 == 0 {
        return e;
    }
    let left = e.ttl.fall();
    if left.0 != 0 {
        return with_ttl(e, left);
    }
    if up(e) {
        return taken_down(e);
    }
    with_ttl(e, left)
}

// What a send on the link of that PID advertises for the entry.
#[tactic(auto, unfolding(crate::specs::Entry::advertised))]
pub fn advertised(pid: u8, e: Entry) -> Report
    ensures { result ≡ advertised pid e }
{
    if e.pid == pid {
        return Report {
            delay: MAX_DELAY,
            offset: e.offset,
        };
    }
    Report {
        delay: e.delay,
        offset: e.offset,
    }
}

// Is m from 0 to the most?
pub fn up_to(most: Millis, m: Millis) -> bool
    ensures { result ≡ up_to most m }
{
    Millis(0) <= m && m <= most
}

// Is the entry within its ranges?
#[tactic(auto, unfolding(crate::specs::Entry::entry_in_range))]
pub fn in_range(e: Entry) -> bool
    ensures { result ≡ entry_in_range e }
{
    up_to(MAX_DELAY, e.delay) && e.ttl.0 <= HOLD_DOWN.0 && e.pid <= 8 && up_to(clock::DAY, e.time)
}

// A line of an update continues with the next line, or breaks off, with the entry as it is then.

// Line (a): a route by another link ends here unless it is shorter by MINDELAY.
#[tactic(auto, unfolding(crate::specs::Update::line_a))]
pub fn line_a(u: Update, e: Entry) -> ControlFlow<Entry, Entry>
    requires { delay_in_range u ≡ true }
    ensures { result ≡ flow_of (line_a u e) }
{
    if u.pid == e.pid {
        return ControlFlow::Continue(e);
    }
    if e.delay < u.delay + MIN_DELAY {
        return ControlFlow::Break(e);
    }
    ControlFlow::Continue(e)
}

// Line (b): a DELAY of 30,000 or more takes the host down; a host that is down comes up only with its TTL at 0.
#[tactic(auto, unfolding(crate::specs::Update::line_b))]
pub fn line_b(u: Update, e: Entry) -> ControlFlow<Entry, Entry>
    ensures { result ≡ flow_of (line_b u e) }
{
    let reached = u.delay < MAX_DELAY;
    if up(e) {
        if reached {
            return ControlFlow::Continue(e);
        }
        return ControlFlow::Break(taken_down(e));
    }
    if reached && e.ttl.0 == 0 {
        return ControlFlow::Continue(e);
    }
    ControlFlow::Break(e)
}

// Line (c): the update is stored.
#[tactic(auto, unfolding(crate::specs::Update::line_c))]
pub fn line_c(u: Update, e: Entry) -> ControlFlow<Entry, Entry>
    ensures { result ≡ flow_of (line_c u e) }
{
    ControlFlow::Continue(Entry {
        delay: u.delay,
        offset: u.offset,
        ttl: HOLD_DOWN,
        pid: u.pid,
        here: e.here,
        time: u.reading,
    })
}

// Lines (a) to (c).
#[tactic(auto, using(crate::proofs::Stages::goes_on, crate::proofs::Stages::ends), unfolding(crate::specs::Update::lines))]
pub fn lines(u: Update, e: Entry) -> ControlFlow<Entry, Entry>
    requires { delay_in_range u ≡ true }
    ensures { result ≡ flow_of (lines u e) }
{
    let x = line_a(u, e)?;
    let y = line_b(u, x)?;
    line_c(u, y)
}

// The clock with the packet's date, if that is real and its bit 15 is zero.
fn date_taken(date: Date, c: Clock) -> Clock
    ensures { result ≡ date_taken date c }
{
    if date.is_real() && !date.awaited() {
        return Clock { date, ..c };
    }
    c
}

// Line (d), for the clock host: the packet's date is taken, and the clock is set by OFFSET. It is inlined: a call of it would keep the clock in memory, where the loop over the entries copied it twice for each.
#[tactic(auto, unfolding(crate::specs::Update::line_d), using(crate::proofs::Kept::date_in_range))]
#[inline(always)]
pub fn line_d(hold_interval: Seconds, n: Count, date: Date, offset: Word, c: Clock) -> Clock
    requires { clock_in_range c ≡ true }
    ensures { result ≡ line_d hold_interval n date offset c }
{
    date_taken(date, c).set_by(hold_interval, n, Millis::from(offset))
}

// One entry updated by an arrival, and the clock. Only the entry of the clock host can set the clock.
#[tactic(auto, using(crate::proofs::Stages::goes_on, crate::proofs::Stages::ends), unfolding(crate::specs::Update::update))]
pub fn update_entry(
    clock_host: bool,
    hold_interval: Seconds,
    n: Count,
    date: Date,
    u: Update,
    c: Clock,
    e: Entry,
) -> Updated
    requires u_value { delay_in_range u ≡ true }
    requires c_value { clock_in_range c ≡ true }
    ensures { result ≡ update clock_host hold_interval n date u c e }
{
    match lines(u, e) {
        ControlFlow::Continue(entry) if clock_host => {
            let clock = line_d(hold_interval, n, date, u.offset, c);
            Updated { clock, entry }
        }
        ControlFlow::Continue(entry) | ControlFlow::Break(entry) => Updated { clock: c, entry },
    }
}

// Self-report: the entry of a host that lives here, with our reading.
#[tactic(auto, using(crate::proofs::Stages::goes_on, crate::proofs::Stages::ends), unfolding(crate::specs::Update::self_reported))]
fn self_reported(reading: Millis, e: Entry) -> Entry
    ensures { result ≡ self_reported reading e }
{
    let u = Update {
        pid: 0,
        delay: Millis(0),
        offset: Word(0),
        reading,
    };
    match lines(u, e) {
        ControlFlow::Continue(x) | ControlFlow::Break(x) => x,
    }
}

// The entry after a self-report, which covers the hosts that live here.
#[tactic(auto, unfolding(crate::specs::Update::reported_here))]
pub fn reported_here(reading: Millis, e: Entry) -> Entry
    ensures { result ≡ reported_here reading e }
{
    if lives_here(e) {
        return self_reported(reading, e);
    }
    e
}
