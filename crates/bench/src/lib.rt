// The class bench: an exercise that is set up from one file and run, event by event.
#![tactic(auto)]

ghost use Rattle.std.specs.Prelude.{◌≡◌};
ghost use Rattle.bench.specs.Answer.{number, passes};
ghost use Rattle.bench.specs.Guard.{set_up_guard};
ghost use Rattle.bench.specs.Run.{after_set_up, after_run, ran};
ghost use Rattle.bench.specs.Bench.{bench};

use bench_file::read_header;
use clock::Clock;
use events::turns;
use guard::{run_tested, set_up_tested};
use host::Links;
use host::walk::Walk;
use net_table::NetTable;
use returned::Turns;
use sets::sets;
use slots::{SLOTS_LENGTH, clear};
use table::Entry;

mod events;
mod guard;
mod places;
mod requests;
mod returned;
mod sends;
mod sets;
mod slots;
mod takes;

// A host of the bench: its clock, its links and its walk.
#[repr(C)]
#[derive(Clone, Copy)]
pub struct HostState {
    pub clock: Clock,
    pub links: Links,
    pub walk: Walk,
}

// How many events are done.
#[repr(C)]
#[derive(Clone, Copy)]
pub struct Progress {
    pub done: usize,
}

// The lengths of the borrowed slices: the host table, the hosts, the copies of their walks' packets, the slots and the answers.
#[derive(Clone, Copy)]
pub struct Lengths {
    pub entries: usize,
    pub hosts: usize,
    pub copies: usize,
    pub slots: usize,
    pub answers: usize,
}

// The answers of set-up and run, with their numbers in the published table. Done is one of them, as in `number` of specs/Answer.antt.
#[derive(Clone, Copy, PartialEq, Eq)]
pub enum Answer {
    Done = 0,
    OutOfRange = 12,
    Header = 18,
    Absent = 19,
}

// What a run answers: its answer, and how many events it carried out. `ran` of specs/Run.antt defines both, at a refusal too.
#[derive(Clone, Copy)]
pub struct Ran {
    pub answer: Answer,
    pub count: usize,
}

impl From<Answer> for u8 {
    ghost from_gives = { λ a n. n ≡ number a };

    fn from(a: Answer) -> u8 {
        a as u8
    }
}

// Is it no refusal?
fn passes(a: Answer) -> bool
    ensures { result ≡ passes a }
{
    a == Answer::Done
}

// All hosts are initialized from the file, slots and answers are cleared, and no event is done.
pub fn set_up(
    file: &[u8],
    net_table: &NetTable,
    hosts: &mut [HostState],
    copies: &[u8],
    entries: &mut [Entry],
    slots: &mut [u8],
    answers: &mut [u8],
    progress: &mut Progress,
) -> Answer
    ensures { (result ≡ set_up_guard net_table.now file.now
        (bench hosts.old copies.now entries.old slots.old answers.old progress.old.done))
        × (bench hosts.new copies.now entries.new slots.new answers.new progress.new.done
        ≡ after_set_up file.now net_table.now
        (bench hosts.old copies.now entries.old slots.old answers.old progress.old.done)) }
{
    let lengths = Lengths {
        entries: entries.len(),
        hosts: hosts.len(),
        copies: copies.len(),
        slots: slots.len(),
        answers: answers.len(),
    };
    let answer = set_up_tested(*net_table, file, lengths);
    if !passes(answer) {
        return answer;
    }
    let header = read_header(file);
    sets(file, net_table, hosts, copies, entries, header);
    clear(slots, SLOTS_LENGTH);
    clear(answers, header.events);
    progress.done = 0;
    answer
}

// BENCH-6: does the next events, each by its call, and stores their answers, until the budget or the file ends.
pub fn run(
    file: &[u8],
    net_table: &NetTable,
    hosts: &mut [HostState],
    copies: &[u8],
    entries: &mut [Entry],
    slots: &mut [u8],
    answers: &mut [u8],
    progress: &mut Progress,
    allowance: usize,
) -> Ran
    ensures { (result ≡ ran file.now net_table.now allowance
        (bench hosts.old copies.now entries.old slots.old answers.old progress.old.done))
        × (bench hosts.new copies.now entries.new slots.new answers.new progress.new.done
        ≡ after_run file.now net_table.now allowance
        (bench hosts.old copies.now entries.old slots.old answers.old progress.old.done)) }
{
    let lengths = Lengths {
        entries: entries.len(),
        hosts: hosts.len(),
        copies: copies.len(),
        slots: slots.len(),
        answers: answers.len(),
    };
    let first = progress.done;
    let answer = run_tested(*net_table, file, lengths, slots, first);
    if !passes(answer) {
        return Ran { answer, count: 0 };
    }
    let header = read_header(file);
    let count = allowance.min(header.events - first);
    let end = first + count;
    turns(
        file,
        net_table,
        hosts,
        copies,
        entries,
        slots,
        answers,
        Turns { first, end, header },
    );
    progress.done = end;
    Ran { answer, count }
}
