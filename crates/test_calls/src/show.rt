// The result of a run, on a line: a name, then values.
use answer::Answer;
use host::Link;
use std::io;
use std::net::Ipv4Addr;
use table::Entry;
use wire::Report;

pub(crate) fn answer(rt: &impl Print, a: Answer) -> io::Result<()> {
    print!(rt; " answer {}", u8::from(a))
}

pub(crate) fn link(rt: &impl Print, x: Link) -> io::Result<()> {
    let a = x.neighbor;
    let neighbor = Ipv4Addr::new(a.first, a.second, a.third, a.fourth);
    print!(rt;
        ": KEEP-ALIVE {} TSP {} neighbor {neighbor}",
        x.keep_alive, x.tsp.0
    )
}

// An entry, except its time.
pub(crate) fn entry(rt: &impl Print, e: Entry) -> io::Result<()> {
    print!(rt;
        ": DELAY {} OFFSET {} TTL {} PID {}",
        e.delay.0, e.offset.0, e.ttl.0, e.pid
    )
}

// What is advertised of an entry.
pub(crate) fn report(rt: &impl Print, r: Report) -> io::Result<()> {
    print!(rt; ": DELAY {} OFFSET {}", r.delay.0, r.offset.0)
}
