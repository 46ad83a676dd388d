// The lines that are printed: an event with its answer, and the tables of clocks and entries at the end.
use bench_file::Event;
use clock::Clock;
use quantity::Millis;
use std::io;
use table::Entry;

// The name of an answer, as docs/answers.txt has it, of those that a bench and its events have.
fn name(n: u8) -> &'static str {
    match n {
        0 => "Done",
        1 => "Setting",
        3 => "IpForm",
        4 => "IpChecksum",
        5 => "Protocol",
        6 => "HelloForm",
        7 => "HelloChecksum",
        8 => "OtherLayout",
        9 => "LoopedLine",
        10 => "DelayNotValid",
        11 => "NoHost",
        12 => "OutOfRange",
        16 => "InWalk",
        18 => "Header",
        19 => "Absent",
        _ => "another",
    }
}

// The number of an answer and its name, which end the line.
pub(crate) fn answer(rt: &impl Print, n: u8) -> io::Result<()> {
    println!(rt; "{n} {}", name(n))
}

// An event, as the text of a bench file has it, except for counts.
fn call(rt: &impl Print, e: Event) -> io::Result<()> {
    match e {
        Event::Tick(host, _) => print!(rt; "tick seat {host}"),
        Event::Adjust(host, _) => print!(rt; "adjust seat {host}"),
        Event::Set(host, ms, _) => print!(rt; "set seat {host} by {ms} ms"),
        Event::Second(host) => print!(rt; "second seat {host}"),
        Event::SelfReport(host, _) => print!(rt; "self-report seat {host}"),
        Event::Send(cable, side, slot, _) => print!(rt;
            "send cable {cable} end {side} tray {slot}"
        ),
        Event::Arrival(slot, _) => print!(rt; "arrival tray {slot}"),
        Event::Unknown => print!(rt; "none"),
    }
}

// The number of an event and the event, before its answer.
pub(crate) fn event(rt: &impl Print, i: usize, e: Event) -> io::Result<()> {
    print!(rt; "event {i}: ")?;
    call(rt, e)?;
    print!(rt; ": ")
}

// A host's clock, without the count of a crystal.
pub(crate) fn clock(rt: &impl Print, host: usize, c: Clock) -> io::Result<()> {
    let ms = Millis::whole(c.clock).0;
    let year = c.date.0 % 32 + 1972;
    let month = c.date.0 / 1024 % 16;
    let day = c.date.0 / 32 % 32;
    println!(rt; "{host}\t{ms}\t{year}-{month:02}-{day:02}")
}

// A host's entry of another host, if that is up.
pub(crate) fn entry(rt: &impl Print, host: usize, id: usize, e: Entry) -> io::Result<()> {
    if !table::up(e) {
        return Ok(());
    }
    let offset = Millis::from(e.offset).0;
    println!(rt;
        "{host}\t{id}\t{}\t{offset}\t{}\t{}",
        e.delay.0, e.ttl.0, e.pid
    )
}
