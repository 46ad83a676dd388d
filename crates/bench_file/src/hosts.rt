// The records of hosts: the settings of each, and whether they are valid.
ghost use Rattle.std.specs.Prelude.{◌≡◌, ◌+◌, ◌≤◌, ◌<◌, min, length};
ghost use Rattle.lists.specs.Lists.{part};
ghost use Rattle.bench_file.specs.Settings.{
  tick_of,
  link_at,
  word_of,
  marks_of,
  settings_of,
  host_record,
  settings_at,
  marks_good,
  host_good,
  hosts_good,
};
ghost use Rattle.bench_file.specs.code.Sections.{Sections};

use super::{HEADER, HOST, Header, LINK_COUNT};
use host::{LinkSetting, Settings};
use net_table::NetTable;
use octets::{eight_at, four_at, octet_at, two_at};
use quantity::{Millis, Seconds, Units};
use table::marks::Marks;
use wire::addresses::address_at;

// The places of the fields of a host's record.
const ADDRESS: usize = 0;

const ADDRESS_OFFSET: usize = 4;

const CLOCK_HOST: usize = 5;

const NHOSTS: usize = 6;

const HOLD_INTERVAL: usize = 8;

const DATE: usize = 10;

const TIME: usize = 12;

const CLOCK_TICK: usize = 16;

const LINKS: usize = 25;

const LINK: usize = 5;

const MARKS: usize = 65;

// One unit more than the longest tick.
const OVER: u64 = 4294967297;

// A tick of n units.
fn tick_of(n: u64) -> Units
    ensures { result ≡ tick_of n }
{
    Units(n.min(OVER) as i64)
}

// The link of a slot, 0 to 7.
fn link_at(octets: &[u8; HOST], slot: usize) -> LinkSetting
    requires { slot < 8 }
    ensures { result ≡ link_at octets.now slot }
{
    let at = LINKS + LINK * slot;
    LinkSetting {
        broadcast: octets[at],
        neighbor: address_at(octets, at + 1),
    }
}

// 64 marks as a word, the first its lowest bit.
fn word_at(octets: &[u8], at: usize) -> u64
    requires { at + 64 ≤ length octets.now }
    ensures { result ≡ word_of (part at 64 octets.now) }
{
    let mut word: u64 = 0;
    for i in (0..64).rev() {
        word = word * 2 + u64::from(octets[at + i].min(1));
    }
    word
}

fn marks_of(octets: &[u8; HOST]) -> Marks
    ensures { result ≡ marks_of octets.now }
{
    Marks {
        words: [
            word_at(octets, MARKS),
            word_at(octets, MARKS + 64),
            word_at(octets, MARKS + 128),
            word_at(octets, MARKS + 192),
        ],
    }
}

#[tactic(auto, unfolding(crate::specs::Settings::settings_of))]
fn links_of(octets: &[u8; HOST]) -> [LinkSetting; 8]
    ensures { result ≡ (settings_of octets.now).links }
{
    // With `array::from_fn`, the proof that the closure returns the link of its slot doesn't close.
    [
        link_at(octets, 0),
        link_at(octets, 1),
        link_at(octets, 2),
        link_at(octets, 3),
        link_at(octets, 4),
        link_at(octets, 5),
        link_at(octets, 6),
        link_at(octets, 7),
    ]
}

// What a host's record says.
#[tactic(auto, unfolding(crate::specs::Settings::settings_of))]
fn settings_of(octets: &[u8; HOST]) -> Settings
    ensures { result ≡ settings_of octets.now }
{
    Settings {
        address: address_at(octets, ADDRESS),
        layout: route::Layout {
            address_offset: octets[ADDRESS_OFFSET],
            nhosts: two_at(octets, NHOSTS) as usize,
        },
        clock_host: octets[CLOCK_HOST],
        hold_interval: Seconds(two_at(octets, HOLD_INTERVAL)),
        clock_tick: tick_of(eight_at(octets, CLOCK_TICK)),
        time: Millis::from(four_at(octets, TIME)),
        date: calendar::Date(two_at(octets, DATE)),
        link_count: octet_at(octets, LINK_COUNT),
        links: links_of(octets),
        marks: marks_of(octets),
    }
}

// The record of a host of the file.
fn record_at(file: &[u8], header: Header, host: usize) -> &[u8; HOST]
    requires { Sections header (length file.now) × (host < header.hosts) }
    ensures { result.now ≡ host_record file.now host }
{
    let at = HEADER + HOST * host;
    file[at..at + HOST].as_array().unwrap()
}

// The settings of a host of the file.
pub fn settings_at(file: &[u8], header: Header, host: usize) -> Settings
    requires { Sections header (length file.now) × (host < header.hosts) }
    ensures { result ≡ settings_at file.now host }
{
    settings_of(record_at(file, header, host))
}

fn marks_good(octets: &[u8; HOST]) -> bool
    ensures { result ≡ marks_good octets.now }
{
    octets[MARKS..MARKS + 256].iter().all(|mark| *mark <= 1)
}

// May a host of the class be set so?
fn host_good(table: NetTable, octets: &[u8; HOST]) -> bool
    ensures { result ≡ host_good table octets.now }
{
    marks_good(octets) && host::fit(table, settings_of(octets))
}

pub fn hosts_good(table: NetTable, file: &[u8], header: Header) -> bool
    requires { Sections header (length file.now) }
    ensures { result ≡ hosts_good table file.now header }
{
    (0..header.hosts).all(|i| host_good(table, record_at(file, header, i)))
}
