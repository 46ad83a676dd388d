// The events of a run, one after the other.
ghost use Rattle.bench.specs.Bench.{bench};
ghost use Rattle.bench.specs.code.Turns.{NextFits, NextLeaves, TurnsFit, TurnsLeave};

use super::HostState;
use super::places::{keep_answer, note};
use super::requests::ask_at;
use super::returned::{Returned, Turns, ask_of, send_of, take_of, tell};
use super::sends::send_at;
use super::takes::take_at;
use net_table::NetTable;
use table::Entry;

// One event: it is read and carried out.
pub fn event_at(
    file: &[u8],
    net_table: &NetTable,
    hosts: &mut [HostState],
    copies: &[u8],
    entries: &mut [Entry],
    slots: &mut [u8],
    answers: &mut [u8],
    i: usize,
    w: Turns,
)
    requires { NextFits file.now w net_table.now hosts.old copies.now entries.old slots.old answers.old i }
    ensures { NextLeaves file.now net_table.now hosts.old copies.now entries.old slots.old answers.old i
        hosts.new entries.new slots.new answers.new }
{
    let p = tell(file, slots, i, w);
    match p {
        Returned::Ask(x) => {
            let a = ask_of(file, w, x);
            let r = ask_at(net_table, hosts, copies, entries, a);
            keep_answer(answers, i, r);
        }
        Returned::Send(y) => {
            let s = send_of(file, w, y);
            let r = send_at(net_table, hosts, copies, entries, slots, s);
            keep_answer(answers, i, r);
        }
        Returned::Take(z) => {
            let t = take_of(file, slots, w, z);
            let r = take_at(net_table, hosts, copies, entries, slots, t);
            keep_answer(answers, i, r);
        }
        Returned::Note => note(answers, i),
    }
}

pub fn turns(
    file: &[u8],
    net_table: &NetTable,
    hosts: &mut [HostState],
    copies: &[u8],
    entries: &mut [Entry],
    slots: &mut [u8],
    answers: &mut [u8],
    w: Turns,
)
    requires { TurnsFit file.now w net_table.now (bench hosts.old copies.now entries.old slots.old answers.old w.first) }
    ensures { TurnsLeave file.now net_table.now hosts.old copies.now entries.old slots.old answers.old w
        hosts.new entries.new slots.new answers.new }
{
    for i in w.first..w.end {
        event_at(
            file, net_table, hosts, copies, entries, slots, answers, i, w,
        );
    }
}
