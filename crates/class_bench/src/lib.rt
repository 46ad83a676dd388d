// The class bench for programs in C, Rust and Python: set-up and run, with the answer as its number.
#![tactic(auto)]

ghost use Rattle.std.specs.Prelude.{◌≡◌};
ghost use Rattle.bench.specs.Answer.{number};
ghost use Rattle.bench.specs.Guard.{set_up_guard};
ghost use Rattle.bench.specs.Run.{after_set_up, after_run, ran};
ghost use Rattle.bench.specs.Bench.{bench};
ghost use Rattle.class_bench.specs.Returned.{ran_returned};

use bench::{HostState, Progress, Ran};
use net_table::NetTable;
use table::Entry;

// What a run answers: the number of the answer, and how many events it carried out, 0 where it refuses.
#[repr(C)]
#[derive(Clone, Copy)]
pub struct BenchRan {
    pub answer: u8,
    pub count: usize,
}

fn ran_returned(o: Ran) -> BenchRan
    ensures { result ≡ ran_returned o }
{
    BenchRan {
        answer: o.answer.into(),
        count: o.count,
    }
}

// All hosts are initialized from the file; slots, answers and the number of events done are zero.
#[unsafe(no_mangle)]
pub extern "C" fn hello_bench_set_up(
    file: &[u8],
    net_table: &NetTable,
    hosts: &mut [HostState],
    copies: &[u8],
    entries: &mut [Entry],
    slots: &mut [u8],
    answers: &mut [u8],
    progress: &mut Progress,
) -> u8
    ensures { (result ≡ number (set_up_guard net_table.now file.now
        (bench hosts.old copies.now entries.old slots.old answers.old progress.old.done)))
        × (bench hosts.new copies.now entries.new slots.new answers.new progress.new.done
        ≡ after_set_up file.now net_table.now
        (bench hosts.old copies.now entries.old slots.old answers.old progress.old.done)) }
{
    let a = bench::set_up(
        file, net_table, hosts, copies, entries, slots, answers, progress,
    );
    a.into()
}

// The next events of the file in order, as many as are allowed.
#[unsafe(no_mangle)]
pub extern "C" fn hello_bench_run(
    file: &[u8],
    net_table: &NetTable,
    hosts: &mut [HostState],
    copies: &[u8],
    entries: &mut [Entry],
    slots: &mut [u8],
    answers: &mut [u8],
    progress: &mut Progress,
    allowance: usize,
) -> BenchRan
    ensures { (result ≡ ran_returned (ran file.now net_table.now allowance
        (bench hosts.old copies.now entries.old slots.old answers.old progress.old.done)))
        × (bench hosts.new copies.now entries.new slots.new answers.new progress.new.done
        ≡ after_run file.now net_table.now allowance
        (bench hosts.old copies.now entries.old slots.old answers.old progress.old.done)) }
{
    let a = bench::run(
        file, net_table, hosts, copies, entries, slots, answers, progress, allowance,
    );
    ran_returned(a)
}
