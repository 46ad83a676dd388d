// The line of a box: its place, and each field that it changed, with the value before and after.
use host::Link;
use host::walk::{Place, Walk};
use quantity::{Millis, Word};
use std::fmt::Display;
use std::io::Result;
use std::net::Ipv4Addr;
use table::Entry;
use wire::Address;

// The place of a walk.
pub(crate) fn place(rt: &impl Print, w: Walk) -> Result<()> {
    match host::walk::place_of(w) {
        None => print!(rt; "nowhere:"),
        Some(Place::Step1) => print!(rt; "step 1:"),
        Some(Place::Step2) => print!(rt; "step 2:"),
        Some(Place::Step3) => print!(rt; "step 3:"),
        Some(Place::Step4) => print!(rt; "step 4:"),
        Some(Place::Step5) => print!(rt; "step 5:"),
        Some(Place::LineA) => print!(rt; "host {}, line a:", w.id),
        Some(Place::LineB) => print!(rt; "host {}, line b:", w.id),
        Some(Place::LineC) => print!(rt; "host {}, line c:", w.id),
        Some(Place::LineD) => print!(rt; "host {}, line d:", w.id),
    }
}

// Prints a field of a line, if it changed. `any`: whether the line has a field yet.
fn change<T: Display + PartialEq + Copy + Drop>(
    rt: &impl Print,
    any: &mut bool,
    name: &str,
    before: T,
    after: T,
) -> Result<()> {
    if before == after {
        return Ok(());
    }
    if *any {
        print!(rt; ",")?;
    }
    *any = true;
    print!(rt; " {name} {before} -> {after}")
}

fn millis(
    rt: &impl Print,
    any: &mut bool,
    name: &str,
    before: Millis,
    after: Millis,
) -> Result<()> {
    change(rt, any, name, before.0, after.0)
}

fn word(rt: &impl Print, any: &mut bool, name: &str, before: Word, after: Word) -> Result<()> {
    change(rt, any, name, before.0, after.0)
}

fn dotted(a: Address) -> Ipv4Addr {
    Ipv4Addr::new(a.first, a.second, a.third, a.fourth)
}

// Step 1 finds our reading.
pub(crate) fn reading(rt: &impl Print, any: &mut bool, before: Walk, after: Walk) -> Result<()> {
    if before.step != 1 {
        return Ok(());
    }
    *any = true;
    print!(rt; " reading {} ms", after.reading.0)
}

pub(crate) fn link(rt: &impl Print, any: &mut bool, before: Link, after: Link) -> Result<()> {
    change(rt, any, "KEEP-ALIVE", before.keep_alive, after.keep_alive)?;
    change(
        rt,
        any,
        "NEIGHBOR-ADDRESS",
        dotted(before.neighbor),
        dotted(after.neighbor),
    )?;
    word(rt, any, "TSP", before.tsp, after.tsp)
}

// What a walk holds, unless the box ended it.
pub(crate) fn held(rt: &impl Print, any: &mut bool, before: Walk, after: Walk) -> Result<()> {
    if !host::walk::is_open(after) {
        return Ok(());
    }
    word(rt, any, "DELAY", before.delay, after.delay)?;
    word(rt, any, "OFFSET", before.offset, after.offset)
}

// The entry of a host id.
pub(crate) fn entry(rt: &impl Print, any: &mut bool, before: Entry, after: Entry) -> Result<()> {
    millis(rt, any, "DELAY", before.delay, after.delay)?;
    word(rt, any, "OFFSET", before.offset, after.offset)?;
    change(rt, any, "TTL", before.ttl.0, after.ttl.0)?;
    change(rt, any, "PID", before.pid, after.pid)?;
    millis(rt, any, "time", before.time, after.time)
}
