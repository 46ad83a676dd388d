// Reads one NTP header from standard input, to its end, and prints its fields by name, a line each; or the number of the answer that refuses it.
// The buffer holds one octet more than a header has: of a longer input it is full, and the answer is 23.
#![tactic(auto)]

use ntp::Header;
use std::io::Result;

fn fields(rt: &impl Print, h: Header) -> Result<()> {
    println!(rt; "leap {}", h.leap)?;
    println!(rt; "version {}", h.version)?;
    println!(rt; "mode {}", h.mode)?;
    println!(rt; "stratum {}", h.stratum)?;
    println!(rt; "poll {}", h.poll.0)?;
    println!(rt; "precision {}", h.precision.0)?;
    println!(rt; "root_delay {}", h.root_delay)?;
    println!(rt; "root_dispersion {}", h.root_dispersion)?;
    println!(rt; "reference_id {}", h.reference_id)?;
    println!(rt; "reference {}", h.reference.0)?;
    println!(rt; "origin {}", h.origin.0)?;
    println!(rt; "receive {}", h.receive.0)?;
    println!(rt; "transmit {}", h.transmit.0)
}

fn main(rt: HostRuntime) {
    let mut octets = [0u8; 49];
    let n = io::read_full(0, &mut octets);
    let _ = match ntp::wire::read(&octets[..n]) {
        Ok(h) => fields(&rt, h),
        Err(answer) => println!(rt; "{}", u8::from(answer)),
    };
}
