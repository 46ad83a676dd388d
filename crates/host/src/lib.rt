// A host: its settings and their test (answer 1), its links, and its places in the host table.
#![tactic(auto)]

ghost use Rattle.std.specs.Prelude.{◌≡◌, true, not, ◌&&◌, ◌||◌, ltb, eqb, pos, ◌≤◌};
ghost use Rattle.quantity.specs.Quantity.{millis, less_millis};
ghost use Rattle.clock.specs.Midnight.{day_millis};
ghost use Rattle.clock.specs.Clock.{clock_in_range};
ghost use Rattle.host.specs.Settings.{
  from_to,
  clock_setting_off,
  own_id,
  found_for,
  found_marked,
  switches_good,
  numbers_good,
  marks_good,
  settings_good,
  settings_fit,
};
ghost use Rattle.host.specs.State.{first_place, host_count};
ghost use Rattle.host.specs.CallState.{our_reading};

use link_state::MAX_LINKS;
use net_table::NetTable;

pub mod effects;
pub mod guard;
pub mod inspection;
pub mod link_number;
pub mod link_state;
pub mod replies;
pub mod walk;

// A link as it is set: its switch (0 point-to-point, 1 broadcast), and for a broadcast link its NEIGHBOR-ADDRESS.
#[repr(C)]
#[derive(Clone, Copy)]
pub struct LinkSetting {
    pub broadcast: u8,
    pub neighbor: wire::Address,
}

// The settings of a host.
#[repr(C)]
#[derive(Clone, Copy)]
pub struct Settings {
    // LOCAL-ADDRESS
    pub address: wire::Address,
    // ADDRESS-OFFSET and NHOSTS
    pub layout: route::Layout,
    // the id of the clock host; 255: clock setting off
    pub clock_host: u8,
    // HOLD-INTERVAL
    pub hold_interval: quantity::Seconds,
    // CLOCK-TICK
    pub clock_tick: quantity::Units,
    // the starting time and date
    pub time: quantity::Millis,
    pub date: calendar::Date,
    // the links: the first `link_count`, numbered from 1
    pub link_count: usize,
    pub links: [LinkSetting; 8],
    // the ids whose hosts live here, our own among them
    pub marks: table::marks::Marks,
}

// The state of a link: NEIGHBOR-ADDRESS, KEEP-ALIVE and TSP.
#[repr(C)]
#[derive(Clone, Copy)]
pub struct Link {
    pub neighbor: wire::Address,
    pub keep_alive: u8,
    pub tsp: quantity::Word,
}

// The links of a host; link 1 comes first.
#[repr(C)]
#[derive(Clone, Copy)]
pub struct Links {
    pub all: [Link; 8],
}

// A host by itself: settings, clock and links.
#[derive(Clone, Copy)]
pub struct Host {
    pub settings: Settings,
    pub clock: clock::Clock,
    pub links: Links,
}

// A host that the guard let pass: its settings are good, and its clock is in range. The net table stays beside it, since ticks, sends and readings use none.
#[derive(Clone, Copy)]
pub struct GoodHost {
    pub host: Host,
    pub ghost good: { settings_good host.settings ≡ true },
    pub ghost in_range: { clock_in_range host.clock ≡ true },
}

// The answer of a call and its values: a send returns the length of its message, a lookup the host id and PID of the route, a read the time and DATE, an inspection the packet's source, time, TSP and NHOSTS, a step the next place of its walk (step, line and host id).
// It stays flat: REPLY-2 and the theorems over `reply.answer` speak of a refusal as its answer beside zeros.
#[derive(Clone, Copy)]
pub struct Reply {
    pub answer: answer::Answer,
    pub length: usize,
    pub id: usize,
    pub pid: u8,
    pub time: quantity::Millis,
    pub date: calendar::Date,
    pub source: wire::Address,
    pub tsp: u16,
    pub nhosts: u8,
    pub step: u8,
    pub line: u8,
}

// The result of a call: the reply, the clock, the links and the walk afterwards, and the change of the entries of which ids.
#[derive(Clone, Copy)]
pub struct Effect {
    pub reply: Reply,
    pub clock: clock::Clock,
    pub links: Links,
    pub walk: walk::Walk,
    pub work: table::entries::Changes,
}

// The most seconds of HOLD-INTERVAL.
const MAX_HOLD_INTERVAL: usize = 255;

// The last first octet of class C.
const LAST_OCTET: usize = 223;

// The clock host id that turns clock setting off.
const CLOCK_SETTING_OFF: u8 = 255;

// Is n from the least to the most?
fn from_to(least: usize, most: usize, n: usize) -> bool
    ensures { result ≡ from_to least most n }
{
    least <= n && n <= most
}

// Is the clock host's id off, or that of a host?
fn clock_host_good(clock_host: u8, nhosts: usize) -> bool
    ensures { result ≡ (eqb clock_host clock_setting_off || ltb clock_host nhosts) }
{
    clock_host == CLOCK_SETTING_OFF || (clock_host as usize) < nhosts
}

// Is a starting time within its day?
fn time_good(time: quantity::Millis) -> bool
    ensures { result ≡ (not (less_millis time (millis (pos 0))) && less_millis time day_millis) }
{
    quantity::Millis(0) <= time && time < clock::DAY
}

// The id that LOCAL-ADDRESS gives, the host's own.
pub fn own_id(s: Settings) -> Option<usize>
    ensures { result ≡ own_id s }
{
    route::local_id(s.layout, s.address)
}

// The id of an address, by the host's own net or the class's net table.
pub fn found_for(t: &NetTable, s: &Settings, a: wire::Address) -> Option<usize>
    ensures { result ≡ found_for t.now s.now a }
{
    route::find(s.address, s.layout, &t.net, a)
}

// Is there an id, and is it marked?
fn found_marked(m: table::marks::Marks, found: Option<usize>) -> bool
    ensures { result ≡ found_marked m found }
{
    match found {
        None => false,
        Some(id) => table::marks::mark(m, id) == 1,
    }
}

// Our reading of the clock, and the clock to carry on with. It is compiled into its callers, so that a host by value is not copied for it.
#[inline(always)]
pub fn our_reading(h: GoodHost, k: clock::Counter) -> clock::Reading
    ensures { result ≡ our_reading k h.host }
{
    let s = h.host.settings;
    h.host.clock.reading(s.clock_tick, s.hold_interval, k)
}

// Are the links, the numbers, the time and the date of the settings within their rules?
fn numbers_good(s: &Settings) -> bool
    ensures { result ≡ numbers_good s.now }
{
    let nhosts = s.layout.nhosts;
    if !(from_to(1, MAX_LINKS, s.link_count) & link_state::switches_good(s)) {
        return false;
    }
    if !(from_to(1, PLACES, nhosts) & from_to(1, LAST_OCTET, s.address.first as usize)) {
        return false;
    }
    if !(clock_host_good(s.clock_host, nhosts)
        & from_to(1, MAX_HOLD_INTERVAL, s.hold_interval.0 as usize))
    {
        return false;
    }
    if !(clock::tick_in_range(s.clock_tick) & time_good(s.time)) {
        return false;
    }
    s.date.is_real()
}

// Is there an id of our own, is it marked, and none from NHOSTS on?
fn marks_good(s: Settings) -> bool
    ensures { result ≡ marks_good s }
{
    let own = own_id(s);
    if !(own.is_some() & found_marked(s.marks, own)) {
        return false;
    }
    table::marks::none_from(s.marks, s.layout.nhosts)
}

// Are all settings within their rules?
#[tactic(auto, unfolding(crate::specs::Settings::settings_good))]
pub fn good(s: Settings) -> bool
    ensures { result ≡ settings_good s }
{
    numbers_good(&s) & marks_good(s)
}

// Are they, and is the class's NHOSTS theirs?
pub fn fit(t: NetTable, s: Settings) -> bool
    ensures { result ≡ settings_fit t s }
{
    good(s) && s.layout.nhosts == t.nhosts
}

// The hosts of one net, and the places of each in the host table, which is the most NHOSTS.
pub const HOSTS: usize = 16;

pub const PLACES: usize = 255;

// The octets of a packet with that many reports, the longest.
pub const LONGEST: usize = 1052;

// The place of a host's id 0.
pub fn first_place(number: usize) -> usize
    requires { number ≤ 15 }
    ensures { result ≡ first_place number }
{
    PLACES * number
}

// How many entries a host has: no more than it has places.
pub fn host_count(s: Settings) -> usize
    ensures { result ≡ host_count s }
{
    s.layout.nhosts.min(PLACES)
}
