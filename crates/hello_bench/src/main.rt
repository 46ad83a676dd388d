// Reads a bench file from standard input, sets a bench up from it and runs it, event by event. Prints each event with its answer, and at the end each host's clock and live entries. For a refused file it prints only the answer.
// The net table has no rows, and the NHOSTS of the file's first host. The buffer is longer than any bench file: a longer input fills it, and the answer is 18.
#![tactic(auto)]

ghost use Rattle.std.specs.Prelude.{◌≤◌, ◌<◌, length};
ghost use Rattle.bench_file.specs.code.Sections.{Sections};

use bench::{HostState, Progress};
use bench_file::Header;
use calendar::Date;
use clock::Clock;
use host::{Link, Links};
use net_table::NetTable;
use quantity::{Millis, Word};
use std::io::Result;
use table::Entry;
use wire::Address;

mod show;

// The places of the host table that a host has.
const PLACES: usize = 255;

// A bench as large as any file asks.
#[derive(Drop)]
struct Bench {
    hosts: [HostState; 16],
    copies: [u8; 16832],
    entries: [Entry; 4080],
    slots: [u8; 33792],
    answers: [u8; 2048],
    progress: Progress,
}

// NHOSTS of the file's first host, or 1 if it has none.
fn nhosts(file: &[u8]) -> usize {
    if bench_file::header_bad(file) {
        return 1;
    }
    let h = bench_file::read_header(file);
    if h.hosts == 0 {
        return 1;
    }
    bench_file::hosts::settings_at(file, h, 0).layout.nhosts
}

fn no_link() -> Link {
    Link {
        neighbor: Address {
            first: 0,
            second: 0,
            third: 0,
            fourth: 0,
        },
        keep_alive: 0,
        tsp: Word(0),
    }
}

// A host's state before set-up.
fn nobody() -> HostState {
    HostState {
        clock: Clock::fresh(Millis(0), Date(0)),
        links: Links {
            all: [no_link(); 8],
        },
        walk: host::walk::none(),
    }
}

// A bench before set-up.
fn empty() -> Bench {
    Bench {
        hosts: [nobody(); 16],
        copies: [0; 16832],
        entries: [table::fresh(); 4080],
        slots: [0; 33792],
        answers: [0; 2048],
        progress: Progress { done: 0 },
    }
}

// All events of the file, each with its line.
fn events(rt: &impl Print, file: &[u8], h: Header, t: &NetTable, b: &mut Bench) -> Result<()>
    requires { Sections h (length file.now) }
{
    for i in 0..h.events {
        bench::run(
            file,
            t,
            &mut b.hosts,
            &b.copies,
            &mut b.entries,
            &mut b.slots,
            &mut b.answers,
            &mut b.progress,
            1,
        );
        show::event(rt, i, bench_file::event_at(file, h, i))?;
        show::answer(rt, b.answers[i])?;
    }
    Ok(())
}

// The clocks of n hosts.
fn clocks(rt: &impl Print, hosts: &[HostState; 16], n: usize) -> Result<()>
    requires { n ≤ 16 }
{
    println!(rt; "seat\tCLOCK ms\tDATE")?;
    for k in 0..n {
        show::clock(rt, k, hosts[k].clock)?;
    }
    Ok(())
}

// A host's entries.
fn entries_of(rt: &impl Print, entries: &[Entry; 4080], node: usize) -> Result<()>
    requires { node < 16 }
{
    for id in 0..PLACES {
        show::entry(rt, node, id, entries[PLACES * node + id])?;
    }
    Ok(())
}

// The entries of n hosts.
fn own_entries(rt: &impl Print, entries: &[Entry; 4080], n: usize) -> Result<()>
    requires { n ≤ 16 }
{
    println!(rt; "seat\thost\tDELAY ms\tOFFSET ms\tTTL s\tPID")?;
    for k in 0..n {
        entries_of(rt, entries, k)?;
    }
    Ok(())
}

fn exercise(rt: &impl Print, file: &[u8]) -> Result<()> {
    let mut b = empty();
    let t = net_table::without_rows(nhosts(file));
    let answer = bench::set_up(
        file,
        &t,
        &mut b.hosts,
        &b.copies,
        &mut b.entries,
        &mut b.slots,
        &mut b.answers,
        &mut b.progress,
    );
    let n = u8::from(answer);
    if n != 0 {
        return show::answer(rt, n);
    }
    let h = bench_file::read_header(file);
    events(rt, file, h, &t, &mut b)?;
    clocks(rt, &b.hosts, h.hosts)?;
    own_entries(rt, &b.entries, h.hosts)
}

fn main(rt: HostRuntime) {
    let mut octets = io::large_buffer();
    let n = io::read_full(0, &mut octets);
    let _ = exercise(&rt, &octets[..n]);
}
