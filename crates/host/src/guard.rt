// The guard: answers 12, 16 and 1, before anything else in every call.
ghost use Rattle.std.specs.Prelude.{◌≡◌, ◌≤◌};
ghost use Rattle.host.specs.CallState.{host, call_state};
ghost use Rattle.host.specs.Guard.{in_walk, guard};
ghost use Rattle.host.specs.code.Returned.{initialized};
ghost use Rattle.host.specs.code.Held.{places_missing, nowhere, full_scan, names_link, held, judged, judged_initialize};

use super::walk::{Walk, is_open};
use super::{HOSTS, LONGEST, Links, PLACES, Settings, first_place, host_count};
use answer::Answer;
use clock::Clock;
use net_table::NetTable;
use table::Entry;
use table::entries::{Scan, all_in_range};
use table::marks::Marks;

// How much of the borrowed state a call tests for 12.
#[derive(Clone, Copy)]
pub enum Scope {
    // initialization: the table, numbers and places only
    Places,
    All,
    // all, and that this is a link of the host
    OnLink(usize),
    // opening a walk on this link: the same, and the room for its packet
    Opening(usize),
    // a step of a walk: all
    Walking,
}

// Are the host's places not all among n entries?
fn places_missing(number: usize, n: usize) -> bool
    ensures { result ≡ places_missing number n }
{
    number >= HOSTS || n < first_place(number) + PLACES
}

// No entry.
fn nowhere() -> Scan
    ensures { result ≡ nowhere }
{
    Scan {
        first: 0,
        end: 0,
        marks: table::marks::none(),
    }
}

// The first n entries and their marks, if the clock, the host's links and the walk are within their ranges.
fn full_scan(
    number: usize,
    count: usize,
    c: Clock,
    l: &Links,
    links: usize,
    walk: bool,
    marks: Marks,
) -> Option<Scan>
    requires { (number ≤ 15) × (count ≤ 255) × (links ≤ 8) }
    ensures { result ≡ full_scan number count c l.now links walk marks }
{
    if !(c.in_range() && super::link_state::in_range(links, l) && walk) {
        return None;
    }
    let first = first_place(number);
    Some(Scan {
        first,
        end: first + count,
        marks,
    })
}

// Does the scope name no more than numbers and places?
fn initialized(scope: Scope) -> bool
    ensures { result ≡ initialized scope }
{
    matches!(scope, Scope::Places)
}

// Is the link that the scope names, if any, a link of a host with n links? If a walk is opened, does the copy have room for the packet?
fn names_link(links: usize, octets: usize, scope: Scope) -> bool
    ensures { result ≡ names_link links octets scope }
{
    match scope {
        Scope::Places | Scope::All | Scope::Walking => true,
        Scope::OnLink(i) => super::link_state::is_link(links, i),
        Scope::Opening(i) => (octets >= LONGEST) & super::link_state::is_link(links, i),
    }
}

// Does an open walk refuse the call?
fn in_walk(w: Walk, scope: Scope) -> bool
    ensures { result ≡ in_walk scope w }
{
    match scope {
        Scope::Places | Scope::Walking => false,
        Scope::All | Scope::OnLink(_) | Scope::Opening(_) => is_open(w),
    }
}

// Which entries to look at, if all that is tested before them is good.
fn held(
    s: &Settings,
    t: &NetTable,
    number: usize,
    c: Clock,
    l: &Links,
    w: Walk,
    copy: &[u8],
    scope: Scope,
    n: usize,
) -> Option<Scan>
    ensures { result ≡ held scope t.now number (host s.now c l.now) w copy.now n }
{
    if net_table::is_bad(t) || places_missing(number, n) {
        return None;
    }
    if initialized(scope) {
        return Some(nowhere());
    }
    let links = super::link_state::count(*s);
    if !names_link(links, copy.len(), scope) {
        return None;
    }
    full_scan(
        number,
        host_count(*s),
        c,
        l,
        links,
        super::walk::in_range(s, w, copy),
        s.marks,
    )
}

// All is within its range: 16 during a walk, then 1. The settings are tested in parts, here and in `guard_initialize`: each part is small enough to be inlined into both, and one test of all, `fit`, is not.
#[tactic(auto, unfolding(crate::specs::Settings::settings_good))]
fn judged(s: &Settings, t: &NetTable, w: Walk, scope: Scope) -> Answer
    ensures { result ≡ judged s.now t.now w scope }
{
    if in_walk(w, scope) {
        return Answer::InWalk;
    }
    if !(super::numbers_good(s) && super::marks_good(*s) && s.layout.nhosts == t.nhosts) {
        return Answer::Setting;
    }
    Answer::Done
}

// The answer that refuses the call, or Done.
pub fn guard(
    settings: &Settings,
    net_table: &NetTable,
    number: usize,
    clock: &Clock,
    links: &Links,
    walk: &Walk,
    copy: &[u8],
    scope: Scope,
    entries: &[Entry],
) -> Answer
    ensures { result ≡ guard scope (call_state settings.now net_table.now number clock.now links.now walk.now copy.now entries.now) }
{
    let Some(scan) = held(
        settings,
        net_table,
        number,
        *clock,
        links,
        *walk,
        copy,
        scope,
        entries.len(),
    ) else {
        return Answer::OutOfRange;
    };
    if !all_in_range(entries, scan) {
        return Answer::OutOfRange;
    }
    judged(settings, net_table, *walk, scope)
}

// The same for initialization: clock, links, walk and entries may be anything; the host table has that many places.
#[tactic(auto, unfolding(crate::specs::Settings::settings_good))]
pub fn guard_initialize(s: &Settings, t: &NetTable, number: usize, places: usize) -> Answer
    ensures { result ≡ judged_initialize s.now t.now number places }
{
    if net_table::is_bad(t) || places_missing(number, places) {
        return Answer::OutOfRange;
    }
    if !(super::numbers_good(s) && super::marks_good(*s) && s.layout.nhosts == t.nhosts) {
        return Answer::Setting;
    }
    Answer::Done
}
