// The runs of clock, dates and checksum: the papers' worked sums, what may surprise, and the examples of RFC 1071. Each line has a name and what was computed; the file stdout has what the papers say, or what follows from them by hand.
#![tactic(auto)]

mod clocks;
mod rfc1071;
mod show;
mod sums;

use std::io;

fn runs(rt: &impl Print) -> io::Result<()> {
    clocks::midnight(rt)?;
    clocks::deltas(rt)?;
    clocks::below_zero(rt)?;
    clocks::far_sets(rt)?;
    clocks::slew_limits(rt)?;
    clocks::crystal_midnights(rt)?;
    clocks::crystal_overflow(rt)?;
    clocks::crystal_changes(rt)?;
    sums::checksums(rt)?;
    sums::dates(rt)?;
    sums::made_dates(rt)?;
    rfc1071::normal(rt)?;
    rfc1071::swapped_order(rt)?;
    rfc1071::reversed_order(rt)?;
    rfc1071::odd_boundary(rt)
}

// A write that fails is not seen.
fn main(rt: HostRuntime) {
    let _ = runs(&rt);
}
