// A walk: an arrival that is carried out one box at a time, the five steps of section 3.3.3 and lines (a) to (d) of each id.
#![tactic(auto)]

ghost use Rattle.std.specs.Prelude.{◌≡◌, true, ◌≤◌, length};
ghost use Rattle.host.specs.Guard.{longest};
ghost use Rattle.host.specs.Walk.{walk_in_range};
ghost use Rattle.host.specs.code.Returned.{RowsBelow};
ghost use Rattle.walk.specs.Boxes.{at_hand, step};
ghost use Rattle.walk.specs.Opening.{opened_on, opening, copied};

use answer::Answer;
use clock::Counter;
pub use held::OnLink;
use host::effects::answers;
use host::link_number::LinkNumber;
use host::replies::{plainly, returns_place};
use host::walk::Walk;
use host::{Effect, GoodHost, Reply, Settings, inspection};
use net_table::NetTable;
use quantity::{Count, Millis, Word};
use table::Entry;

pub mod boxes;
mod held;
mod lines;

// The result of opening a walk: the reply, the walk, and how many octets of the packet are copied. WALK-1 speaks of all three at a refusal too: the walk as it was, and no octets.
#[derive(Clone, Copy)]
pub struct Opening {
    pub reply: Reply,
    pub walk: Walk,
    pub octets: usize,
}

// A walk at its first box.
fn opened_on(link: LinkNumber, octets: usize) -> Walk
    requires { octets ≤ 1052 }
    ensures { result ≡ opened_on link.number octets }
{
    Walk {
        opened: 1,
        link: link.number as u8,
        step: 1,
        length: octets as u16,
        ..host::walk::none()
    }
}

// The tests of 3 to 9, and the walk at its first box.
#[tactic(auto, unfolding(crate::specs::Opening::opening))]
pub fn opened_by(s: &Settings, w: Walk, link: LinkNumber, packet: &[u8]) -> Opening
    ensures { (result ≡ opening link.number packet.now s.now w) × (result.octets ≤ longest) }
{
    match inspection::inspect(s, link, packet) {
        Err(a) => Opening {
            reply: plainly(a),
            walk: w,
            octets: 0,
        },
        Ok(p) => {
            let n = wire::length(p.nhosts);
            Opening {
                reply: returns_place(1, 0, 0),
                walk: opened_on(link, n),
                octets: n,
            }
        }
    }
}

// Copies the packet's first n octets.
#[tactic(auto, unfolding(crate::specs::Opening::copied))]
pub fn keep(copy: &mut [u8], packet: &[u8], octets: usize)
    requires { (octets ≤ length packet.now) × (octets ≤ length copy.old) }
    ensures { copy.new ≡ copied octets packet.now copy.old }
{
    wire::copy(copy, 0, &packet[..octets]);
}

// The id whose entry is at hand, at a line.
pub fn at_hand(w: Walk) -> Option<usize>
    ensures { result ≡ at_hand w }
{
    if !host::walk::is_open(w) || w.line == 0 {
        return None;
    }
    Some(w.id as usize)
}

// The box of a walk's place; 17 where no walk is open.
#[tactic(auto, unfolding(crate::specs::Boxes::step))]
#[inline(always)]
pub fn step(h: GoodHost, t: &NetTable, w: Walk, copy: &[u8], e: Entry, k: Counter) -> Effect
    requires rows { RowsBelow t.now h.host.settings }
    requires walk { walk_in_range h.host.settings w copy.now ≡ true }
    ensures { result ≡ step k t.now h.host w copy.now e }
{
    if !host::walk::is_open(w) {
        return answers(h.host.clock, h.host.links, w, plainly(Answer::NoWalk));
    }
    let n = w.length as usize;
    boxes::box_of(h, t, OnLink { walk: w }, &copy[..n], e, k)
}
