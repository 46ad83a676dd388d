// The host table that all hosts share, as a borrowed slice: one loop for each use. A loop goes over the places from `first` up to `end`, and touches no other.
ghost use Rattle.std.specs.Prelude.{◌≡◌, true, ℕ, ◌-◌, ◌≤◌, ◌<◌, IfSome, length};
ghost use Rattle.clock.specs.Clock.{clock_in_range};
ghost use Rattle.wire.specs.code.Ranges.{Two};
ghost use Rattle.table.specs.declared.entries.Change.TheVariants.{Fresh};
ghost use Rattle.table.specs.Update.{plus_report, own_in_range, delay_in_range};
ghost use Rattle.table.specs.Runs.{changes, update_at, updated_at, updates};
ghost use Rattle.table.specs.code.Loops.{InEntries, Makes, all_in_range, entry_of, Updatable, UpdatesFit, reported, ReportFits, ReportsFit, read_out};
ghost use Rattle.table.specs.code.Words.{InWord, stretch_of, WordFits, as_in_word, all_as_in_word};
ghost use Rattle.table.specs.code.Fours.{rest_of};

use super::fours::all_fours;
use super::marks::{Marks, mark, mark_in, word_of};
use super::self_reports::report_all;
use super::{Entry, Update, Updated};
use calendar::Date;
use clock::Clock;
use quantity::{Count, Millis, Seconds, Word};
use wire::Report;

// Are the entries within their ranges, and marked as they should be? `first` is the place of id 0.
#[derive(Clone, Copy)]
pub struct Scan {
    pub first: usize,
    pub end: usize,
    pub marks: Marks,
}

// The entries of the ids that have their marks in one word, and that word; `first` is the place of the lowest.
// Two places and no subslice: what is left after the fours is the same with a later place and the word moved along.
#[derive(Clone, Copy)]
pub struct Stretch {
    pub first: usize,
    pub end: usize,
    pub word: u64,
}

// A change of an entry: it is initialized, it ages by a second, its host reports itself at a reading if it lives here, or another entry replaces it.
#[derive(Clone, Copy)]
pub enum Change {
    Fresh,
    Aged,
    Reported(Millis),
    Put(Entry),
}

// Entries that are initialized get these marks; `first` is then the place of id 0.
// This plan and the two below are made before the host table is borrowed, so they name places and have no slice.
#[derive(Clone, Copy)]
pub struct Changes {
    pub first: usize,
    pub end: usize,
    pub change: Change,
    pub marks: Marks,
}

// An arrival's updates, from the clock on: `base` is the place of id 0, `count` that of the reading, and `update` what the neighbor itself is updated with, to which a packet's table, if there is one, adds its reports.
// `table` only tells that the packet has one: the packet itself is lent to `update_all`, so that the plan borrows nothing.
#[derive(Clone, Copy)]
pub struct Updates {
    pub first: usize,
    pub end: usize,
    pub clock: Clock,
    pub base: usize,
    pub clock_host: u8,
    pub hold_interval: Seconds,
    pub count: Count,
    pub date: Date,
    pub update: Update,
    pub table: bool,
}

// What a send on the link of that PID advertises; `first` is the place of id 0.
#[derive(Clone, Copy)]
pub struct Reports {
    pub first: usize,
    pub end: usize,
    pub pid: u8,
}

// The ids of word k: 64, or the remaining ones.
fn stretch_of(k: usize, w: Scan) -> Stretch
    requires { InWord k w }
    ensures { result ≡ stretch_of k w }
{
    let id = 64 * k;
    let first = w.first + id;
    Stretch {
        first,
        end: first + (w.end - first).min(64),
        word: word_of(w.marks, id),
    }
}

// Has the entry of the n-th id its mark in the word, and is it within its ranges?
fn as_in_word(e: Entry, n: usize, word: u64) -> bool
    ensures { result ≡ as_in_word word n e }
{
    e.here == mark_in(word, n) && super::in_range(e)
}

// The entries that remain of a word after its fours. The loop ends at the first that fails.
fn all_as_in_word(entries: &[Entry], w: Stretch) -> bool
    requires { InEntries w.first w.end entries.now }
    ensures { result ≡ all_as_in_word w entries.now }
{
    for i in w.first..w.end {
        if !as_in_word(entries[i], i - w.first, w.word) {
            return false;
        }
    }
    true
}

// What remains of a word's entries after its fours.
fn rest_of(w: Stretch) -> Stretch
    requires { w.first ≤ w.end }
    ensures { result ≡ rest_of w }
{
    let n = w.end - w.first;
    let done = 4 * (n / 4);
    Stretch {
        first: w.first + done,
        end: w.end,
        word: w.word >> (done % 64),
    }
}

fn good_in_word(entries: &[Entry], k: usize, w: Scan) -> bool
    requires { WordFits k w entries.now }
    ensures { result ≡ all_as_in_word (stretch_of k w) entries.now }
{
    let v = stretch_of(k, w);
    all_fours(entries, v) && all_as_in_word(entries, rest_of(v))
}

// All words of the ids; the last may have none. The loop ends at the first that fails.
pub fn all_in_range(entries: &[Entry], w: Scan) -> bool
    requires { InEntries w.first w.end entries.now }
    ensures { result ≡ all_in_range w entries.now }
{
    let ids = w.end - w.first;
    let words = ids / 64 + 1;
    for k in 0..words {
        if !good_in_word(entries, k, w) {
            return false;
        }
    }
    true
}

// The entry of a place, or a fresh one where there is no place.
#[tactic(auto, unfolding(crate::specs::code::Loops::entry_of))]
pub fn entry_of(entries: &[Entry], place: Option<usize>) -> Entry
    requires { IfSome place (λ (i : ℕ). i < length entries.now) }
    ensures { result ≡ entry_of place entries.now }
{
    match place {
        Some(i) => entries[i],
        None => super::fresh(),
    }
}

// Changes each entry to what `change` makes of it, the n-th of them. Each change has a loop of its own, so that no loop tests which change it makes.
pub(crate) fn change_each<F: Fn(Entry, usize) -> Entry>(
    entries: &mut [Entry],
    w: Changes,
    change: F,
)
    requires places { InEntries w.first w.end entries.old }
    requires callable { F.IsAlwaysCallable change }
    requires makes { Makes (F.post change) w }
    ensures { entries.new ≡ changes w entries.old }
{
    for i in w.first..w.end {
        entries[i] = change(entries[i], i - w.first);
    }
}

// Initializes the entries.
pub fn fresh_all(entries: &mut [Entry], w: Changes)
    requires { InEntries w.first w.end entries.old × (w.change ≡ Fresh) }
    ensures { entries.new ≡ changes w entries.old }
{
    change_each(entries, w, |_, n| {
        super::with_mark(super::fresh(), mark(w.marks, n))
    });
}

// Changes the entries.
pub fn change_all(entries: &mut [Entry], w: Changes)
    requires { InEntries w.first w.end entries.old }
    ensures { entries.new ≡ changes w entries.old }
{
    match w.change {
        Change::Fresh => fresh_all(entries, w),
        Change::Aged => change_each(entries, w, |e, _| super::aged(e)),
        Change::Reported(reading) => report_all(entries, w, reading),
        Change::Put(x) => change_each(entries, w, |_, _| x),
    }
}

// An update with what a packet reports added.
pub fn plus_report(u: Update, r: Report) -> Update
    requires u_value { own_in_range u ≡ true }
    requires two { Two r.delay.0 }
    ensures { (result ≡ plus_report u r) × (delay_in_range result ≡ true) }
{
    let sum = Millis::from(u.offset) + Millis::from(r.offset);
    Update {
        delay: u.delay + r.delay,
        offset: Word::of_millis(sum),
        ..u
    }
}

// What the entry of an id is updated with: a packet's table adds its report.
fn update_at(w: Updates, id: usize, packet: &[u8]) -> Update
    requires { Updatable w id packet.now }
    ensures { (result ≡ update_at w id packet.now) × (delay_in_range result ≡ true) }
{
    if !w.table {
        return w.update;
    }
    plus_report(w.update, wire::report_at(packet, id))
}

fn updated(c: Clock, e: Entry, i: usize, w: Updates, packet: &[u8]) -> Updated
    requires { (w.base ≤ i) × Updatable w (i - w.base) packet.now × (clock_in_range c ≡ true) }
    ensures { result ≡ updated_at w packet.now i c e }
{
    let id = i - w.base;
    super::update_entry(
        id == w.clock_host as usize,
        w.hold_interval,
        w.count,
        w.date,
        update_at(w, id, packet),
        c,
        e,
    )
}

#[tactic(auto, unfolding(crate::specs::Sweep::sweep, crate::specs::Runs::updates), using(crate::proofs::Kept::clock_in_range_lem, crate::proofs::Updating::clock_turn, crate::proofs::Updating::entries_turn))]
pub fn update_all(entries: &mut [Entry], w: Updates, packet: &[u8]) -> Clock
    requires { UpdatesFit w entries.old packet.now }
    ensures { (entries.new ≡ (updates w packet.now entries.old).own_entries)
        × (result ≡ (updates w packet.now entries.old).clock) }
{
    let mut c = w.clock;
    for i in w.first..w.end {
        let t = updated(c, entries[i], i, w, packet);
        entries[i] = t.entry;
        c = t.clock;
    }
    c
}

fn put(buffer: &mut [u8], e: Entry, i: usize, w: Reports)
    requires { ReportFits w i buffer.old }
    ensures { buffer.new ≡ reported w i e buffer.old }
{
    wire::put_report(buffer, i - w.first, super::advertised(w.pid, e));
}

pub fn read_out(buffer: &mut [u8], entries: &[Entry], w: Reports)
    requires { ReportsFit w entries.now buffer.old }
    ensures { buffer.new ≡ read_out w entries.now buffer.old }
{
    for i in w.first..w.end {
        put(buffer, entries[i], i, w);
    }
}
