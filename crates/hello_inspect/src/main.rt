// Reads one packet from standard input, to its end, and looks at it for the host of the packet program: it prints the number of the answer and, where that is 0, the packet's source, time, TSP and host count below it.
// The buffer holds one octet more than any IP packet has: of a longer input it is full, and the answer is 3.
#![tactic(auto)]

use answer::Answer;
use host::Reply;
use std::io::Result;
use std::net::Ipv4Addr;

// What a packet that passes has in it.
fn returned(rt: &impl Print, r: Reply) -> Result<()> {
    let a = r.source;
    let source = Ipv4Addr::new(a.first, a.second, a.third, a.fourth);
    println!(rt; "source {source}")?;
    println!(rt; "time {}", r.time.0)?;
    println!(rt; "TSP {}", r.tsp)?;
    println!(rt; "hosts {}", r.nhosts)
}

fn show(rt: &impl Print, r: Reply) -> Result<()> {
    println!(rt; "{}", u8::from(r.answer))?;
    if r.answer == Answer::Done {
        return returned(rt, r);
    }
    Ok(())
}

fn main(rt: HostRuntime) {
    let mut octets = io::large_buffer();
    let n = io::read_full(0, &mut octets);
    let _ = show(&rt, owned_host::inspection(&octets[..n]));
}
