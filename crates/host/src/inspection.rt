// The inspection of an arrival: answers 3 to 7 by the octets, then 8 and 9 by the settings.
ghost use Rattle.std.specs.Prelude.{◌≡◌, Ok, IfOk};
ghost use Rattle.wire.specs.code.Ranges.{Four};
ghost use Rattle.host.specs.Inspection.{other_layout, looped, inspected, inspect, tells};

use super::link_number::LinkNumber;
use super::link_state::broadcast;
use super::replies::{plainly, returns_packet};
use super::{Reply, Settings};
use answer::Answer;
use wire::Packet;

// Is the packet's table of another layout of ids?
#[tactic(auto, unfolding(crate::specs::Inspection::other_layout))]
fn other_layout(s: &Settings, p: Packet) -> bool
    ensures { result ≡ other_layout s.now p }
{
    p.nhosts != 0
        && (p.nhosts as usize != s.layout.nhosts || p.address_offset != s.layout.address_offset)
}

// Has our own packet come back on a point-to-point link?
#[tactic(auto, unfolding(crate::specs::Inspection::looped))]
fn looped(s: &Settings, link: LinkNumber, p: Packet) -> bool
    ensures { result ≡ looped s.now link.number p }
{
    if broadcast(s, link) {
        return false;
    }
    p.source == s.address
}

// A packet that could be read, by the settings.
fn compared(s: &Settings, link: LinkNumber, p: Packet) -> Result<Packet, Answer>
    requires { Four p.time.0 }
    ensures { (result ≡ inspected s.now link.number (Ok p)) × IfOk result (λ p. Four p.time.0) }
{
    if other_layout(s, p) {
        return Err(Answer::OtherLayout);
    }
    if looped(s, link, p) {
        return Err(Answer::LoopedLine);
    }
    Ok(p)
}

#[tactic(auto, unfolding(crate::specs::Inspection::inspect))]
pub fn inspect(s: &Settings, link: LinkNumber, packet: &[u8]) -> Result<Packet, Answer>
    ensures { (result ≡ inspect s.now link.number packet.now) × IfOk result (λ p. Four p.time.0) }
{
    compared(s, link, wire::parse(packet)?)
}

// What an inspection returns.
pub fn tells(q: Result<Packet, Answer>) -> Reply
    ensures { result ≡ tells q }
{
    match q {
        Err(a) => plainly(a),
        Ok(p) => {
            let source = p.source;
            let time = p.time;
            let tsp = p.tsp;
            returns_packet(source, time, tsp.bits(), p.nhosts)
        }
    }
}
