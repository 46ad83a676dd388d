// The links of a host, numbered from 1.
ghost use Rattle.std.specs.Prelude.{◌≡◌, not, ◌≤◌, take};
ghost use Rattle.table.specs.Forms.{every};
ghost use Rattle.host.specs.Settings.{link_count_of, switch_good, switches_good};
ghost use Rattle.host.specs.State.{is_broadcast, broadcast, fresh_link, fresh_links, link_of, with_link, link_in_range};
ghost use Rattle.host.specs.code.Held.{is_link};

use super::link_number::LinkNumber;
use super::{Link, LinkSetting, Links, Settings};
use quantity::Word;
use wire::Address;

// The most links.
pub const MAX_LINKS: usize = 8;

// A switch at broadcast.
const BROADCAST: u8 = 1;

// KEEP-ALIVE-INTERVAL
pub const KEEP_ALIVE_INTERVAL: u8 = 4;

// How many links the host has: its count, 8 at most.
pub fn count(s: Settings) -> usize
    ensures { result ≡ link_count_of s }
{
    s.link_count.min(MAX_LINKS)
}

// Is this the number of a link of a host with n links?
pub fn is_link(count: usize, i: usize) -> bool
    ensures { result ≡ is_link count i }
{
    if i == 0 {
        return false;
    }
    i <= count
}

// Is the switch at broadcast?
fn is_broadcast(x: LinkSetting) -> bool
    ensures { result ≡ is_broadcast x }
{
    x.broadcast == BROADCAST
}

// Is the link a broadcast link?
pub fn broadcast(s: &Settings, link: LinkNumber) -> bool
    ensures { result ≡ broadcast s.now link.number }
{
    is_broadcast(s.links[link.number - 1])
}

// The state of a link.
pub fn link_of(l: Links, link: LinkNumber) -> Link
    ensures { result ≡ link_of l link.number }
{
    l.all[link.number - 1]
}

// The links with another state of one.
pub fn with_link(mut l: Links, link: LinkNumber, x: Link) -> Links
    ensures { result ≡ with_link link.number x l }
{
    l.all[link.number - 1] = x;
    l
}

// A link that nothing has come by.
fn fresh_link(x: LinkSetting) -> Link
    ensures { result ≡ fresh_link x }
{
    let neighbor = if is_broadcast(x) {
        x.neighbor
    } else {
        Address::ZERO
    };
    Link {
        neighbor,
        keep_alive: 0,
        tsp: Word(0),
    }
}

// The links as initialization sets them.
pub fn fresh(s: Settings) -> Links
    ensures { result ≡ fresh_links s }
{
    Links {
        all: s.links.map(fresh_link),
    }
}

// Is a link's state within its range?
fn link_in_range(x: Link) -> bool
    ensures { result ≡ link_in_range x }
{
    x.keep_alive <= KEEP_ALIVE_INTERVAL
}

// Are the first n links within their ranges?
pub fn in_range(count: usize, l: &Links) -> bool
    requires { count ≤ 8 }
    ensures { result ≡ every link_in_range (take count l.now.all) }
{
    l.all[..count].iter().all(|x| link_in_range(*x))
}

// Is a switch 0 or 1?
fn switch_good(x: LinkSetting) -> bool
    ensures { result ≡ switch_good x }
{
    x.broadcast <= BROADCAST
}

// Are the switches of all links of the host 0 or 1?
pub fn switches_good(s: &Settings) -> bool
    ensures { result ≡ switches_good s.now }
{
    s.links[..count(*s)].iter().all(|x| switch_good(*x))
}
