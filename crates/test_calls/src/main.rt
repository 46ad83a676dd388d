// The runs of a host's rules: arrivals that standard input has, then sends, seconds and lookups. Each line has a name and what was computed; the file stdout has what the papers say, or what follows from them by hand.
#![tactic(auto)]

mod arrivals;
mod requests;
mod show;

use std::io::Result;

// The most records of standard input that are run.
const RECORDS: u32 = 100;

// Runs the records of standard input that are complete, one after the other.
fn all_records(rt: &impl Print) -> Result<()> {
    for _ in 0..RECORDS {
        let mut r = [0; arrivals::RECORD];
        if io::read_full(0, &mut r) == arrivals::RECORD {
            arrivals::run(rt, &r)?;
        }
    }
    Ok(())
}

fn runs(rt: &impl Print) -> Result<()> {
    all_records(rt)?;
    requests::tsp(rt)?;
    requests::split_horizon(rt)?;
    requests::ageing(rt)?;
    requests::lookups(rt)
}

// A write that fails is not seen.
fn main(rt: HostRuntime) {
    let _ = runs(&rt);
}
