// The net table of a class, which all its hosts use and only the tutor changes.
#![tactic(auto)]

ghost use Rattle.std.specs.Prelude.{◌≡◌, ◌||◌, ltb, eqb, []};
ghost use Rattle.net_table.specs.Answer.{number};
ghost use Rattle.net_table.specs.Table.{nhosts_bad, table_bad, table_of};
ghost use Rattle.net_table.specs.Tutor.{initialize_table, add, remove, change};
ghost use Rattle.net_table.specs.Laws.{RowsAfter, NeverBad, Refused, EveryRow};

use route::{Net, NetRows, Row};

mod rows;

// The class's NHOSTS, and its net table.
#[repr(C)]
#[derive(Clone, Copy)]
pub struct NetTable {
    pub nhosts: usize,
    pub net: NetRows,
}

// The answers of the tutor's calls, with their numbers in the published table.
#[derive(Clone, Copy, PartialEq, Eq)]
pub enum Answer {
    Done = 0,
    Setting = 1,
    OutOfRange = 12,
    TableFull = 21,
    NoRow = 22,
}

// The number of an answer in the table.
impl From<Answer> for u8 {
    ghost from_gives = { λ a n. n ≡ number a };

    fn from(answer: Answer) -> u8 {
        answer as u8
    }
}

// What adding a row answers: the answer, and the row's number, 0 if it refuses. `Refused` says so of both, and C programs read both.
#[derive(Clone, Copy)]
pub struct Added {
    pub answer: Answer,
    pub row: usize,
}

// A refusal to add a row.
fn none_added(answer: Answer) -> Added
    ensures { result ≡ record { answer = answer; row = 0 } }
{
    Added { answer, row: 0 }
}

// Is it no NHOSTS: not 1 to 255?
fn nhosts_bad(n: usize) -> bool
    ensures { result ≡ nhosts_bad n }
{
    n < 1 || 255 < n
}

// Is it a table that every call except initializing refuses with 12?
#[tactic(auto, unfolding(crate::specs::Table::table_bad))]
pub fn is_bad(table: &NetTable) -> bool
    ensures { result ≡ table_bad table.now }
{
    rows::MOST < table.net.count
        || nhosts_bad(table.nhosts)
        || !route::ids_below(&table.net, table.nhosts)
}

// Is there no row k of n?
fn no_row(k: usize, n: usize) -> bool
    ensures { result ≡ (eqb k 0 || ltb n k) }
{
    k == 0 || n < k
}

// The table without rows.
pub fn without_rows(nhosts: usize) -> NetTable
    ensures { result ≡ table_of nhosts [] }
{
    NetTable {
        nhosts,
        net: NetRows {
            count: 0,
            rows: rows::none(),
        },
    }
}

// The tutor's calls, on the borrowed net table.

// The table is initialized, without rows.
#[tactic(auto, unfolding(crate::specs::Tutor::initialize_table))]
pub fn initialize_table(table: &mut NetTable, nhosts: usize) -> Answer
    ensures { (table.new ≡ (initialize_table nhosts table.old).table) × (result ≡ (initialize_table nhosts table.old).answer) }
{
    if nhosts_bad(nhosts) {
        return Answer::Setting;
    }
    *table = without_rows(nhosts);
    Answer::Done
}

// A row more, at the end.
#[tactic(auto, unfolding(crate::specs::Tutor::add))]
pub fn add(table: &mut NetTable, net: Net, id: usize) -> Added
    ensures { (table.new ≡ (add net id table.old).table) × (result ≡ (add net id table.old).added) }
{
    if is_bad(table) {
        return none_added(Answer::OutOfRange);
    }
    let n = table.net.in_use().len();
    if n >= rows::MOST {
        return none_added(Answer::TableFull);
    }
    if id >= table.nhosts {
        return none_added(Answer::Setting);
    }
    let row = Row {
        net,
        host: id as u8,
    };
    table.net = NetRows {
        count: n + 1,
        rows: rows::with_row(table.net.in_use(), row),
    };
    Added {
        answer: Answer::Done,
        row: n + 1,
    }
}

// One row less; the rows after it move up.
#[tactic(auto, unfolding(crate::specs::Tutor::remove))]
pub fn remove(table: &mut NetTable, row: usize) -> Answer
    ensures { (table.new ≡ (remove row table.old).table) × (result ≡ (remove row table.old).answer) }
{
    if is_bad(table) {
        return Answer::OutOfRange;
    }
    let n = table.net.in_use().len();
    if no_row(row, n) {
        return Answer::NoRow;
    }
    table.net = NetRows {
        count: n - 1,
        rows: rows::without_row(table.net.in_use(), row),
    };
    Answer::Done
}

// A row leads to another host; its net stays.
#[tactic(auto, unfolding(crate::specs::Tutor::change))]
pub fn change(table: &mut NetTable, row: usize, id: usize) -> Answer
    ensures { (table.new ≡ (change row id table.old).table) × (result ≡ (change row id table.old).answer) }
{
    if is_bad(table) {
        return Answer::OutOfRange;
    }
    let n = table.net.in_use().len();
    if no_row(row, n) {
        return Answer::NoRow;
    }
    if id >= table.nhosts {
        return Answer::Setting;
    }
    table.net = NetRows {
        count: n,
        rows: rows::with_id(table.net.in_use(), row, id as u8),
    };
    Answer::Done
}

// The rows in use after a call that answered 0: those before it, with one more at the end, without one, or with another id in one.
#[tactic(auto, using(crate::proofs::Laws::rows_after))]
pub fn rows_after()
    ensures { RowsAfter }
{}

// After a call that answers 0, no call refuses the table with 12.
#[tactic(auto, using(crate::proofs::Laws::never))]
pub fn never_bad()
    ensures { NeverBad }
{}

// After a refusal the table is unchanged.
#[tactic(auto, using(crate::proofs::Laws::refused))]
pub fn refused()
    ensures { Refused }
{}

// Answer 12 tests the id of every row in use, also after a row of net zero.
#[tactic(auto, using(crate::proofs::Laws::every_row))]
pub fn every_row()
    ensures { EveryRow }
{}
