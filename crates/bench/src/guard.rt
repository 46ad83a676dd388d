// The tests of a bench's calls: 18, 19 and 12, in that order.
ghost use Rattle.std.specs.Prelude.{◌≡◌, true, cond, not, ◌&&◌, ◌*◌, ◌≤◌, length};
ghost use Rattle.net_table.specs.Table.{table_bad};
ghost use Rattle.bench_file.specs.Header.{header_of};
ghost use Rattle.bench_file.specs.Absent.{slots};
ghost use Rattle.bench_file.specs.code.Sections.{Sections};
ghost use Rattle.bench.specs.declared.Answer.TheVariants.{Done, OutOfRange};
ghost use Rattle.bench.specs.Slots.{slot_length};
ghost use Rattle.bench.specs.Guard.{records_good, lengths_fit, runnable, file_tested, tested};

use super::slots::{SLOTS_LENGTH, slots_good};
use super::{Answer, Lengths};
use bench_file::Header;
use host::{LONGEST, PLACES};
use net_table::NetTable;

#[tactic(auto, unfolding(crate::specs::Guard::records_good))]
fn records_good(t: NetTable, file: &[u8], h: Header) -> bool
    requires { Sections h (length file.now) }
    ensures { result ≡ records_good t file.now h }
{
    bench_file::hosts::hosts_good(t, file, h)
        && bench_file::cables_good(file, h)
        && bench_file::events_good(file, h)
}

// Are all borrowed slices as long as the file needs?
#[tactic(auto, unfolding(crate::specs::Guard::lengths_fit))]
fn lengths_fit(h: Header, n: Lengths, file: usize) -> bool
    requires { Sections h file }
    ensures { result ≡ lengths_fit h n }
{
    PLACES * h.hosts <= n.entries
        && h.hosts <= n.hosts
        && LONGEST * h.hosts <= n.copies
        && SLOTS_LENGTH <= n.slots
        && h.events <= n.answers
}

// 18 and 19, or none.
fn file_tested(t: NetTable, file: &[u8]) -> Answer
    ensures { result ≡ file_tested t file.now }
{
    if bench_file::header_bad(file) {
        return Answer::Header;
    }
    if !records_good(t, file, bench_file::read_header(file)) {
        return Answer::Absent;
    }
    Answer::Done
}

// 12, if the file passes: a borrowed slice is too short, or the net table is bad.
fn rest_tested(t: NetTable, h: Header, n: Lengths, file: usize, besides: bool) -> Answer
    requires { Sections h file }
    ensures { result ≡ cond (lengths_fit h n && (besides && not (table_bad t))) Done OutOfRange }
{
    if lengths_fit(h, n, file) && besides && !calls::queries::is_bad(t) {
        Answer::Done
    } else {
        Answer::OutOfRange
    }
}

pub fn set_up_tested(t: NetTable, file: &[u8], n: Lengths) -> Answer
    ensures { result ≡ tested true t file.now n }
{
    let a = file_tested(t, file);
    if !super::passes(a) {
        return a;
    }
    rest_tested(t, bench_file::read_header(file), n, file.len(), true)
}

// Are the slots valid, and is no more done than the file has?
fn can_run(h: Header, octets: &[u8], done: usize) -> bool
    requires { slot_length * slots ≤ length octets.now }
    ensures { result ≡ runnable h octets.now done }
{
    slots_good(h, octets) && done <= h.events
}

pub fn run_tested(t: NetTable, file: &[u8], n: Lengths, octets: &[u8], done: usize) -> Answer
    requires { n.slots ≡ length octets.now }
    ensures { result ≡ tested (runnable (header_of file.now) octets.now done) t file.now n }
{
    let a = file_tested(t, file);
    if !super::passes(a) {
        return a;
    }
    let h = bench_file::read_header(file);
    if octets.len() < SLOTS_LENGTH {
        return Answer::OutOfRange;
    }
    rest_tested(t, h, n, file.len(), can_run(h, octets, done))
}
