// The net table of a class for programs in C, Rust and Python: the tutor's calls, with the answer as its number.
ghost use Rattle.std.specs.Prelude.{◌≡◌};
ghost use Rattle.net_table.specs.Answer.{number};
ghost use Rattle.net_table.specs.Tutor.{initialize_table, add, remove, change};
ghost use Rattle.hello.specs.Nets.{added_returned};

use net_table::{Added, NetTable};
use route::Net;

// What adding a row answers: the number of the answer, and the row's number, 0 where it refuses.
#[repr(C)]
#[derive(Clone, Copy)]
pub struct NetAdded {
    pub answer: u8,
    pub row: usize,
}

fn added_returned(a: Added) -> NetAdded
    ensures { result ≡ added_returned a }
{
    NetAdded {
        answer: u8::from(a.answer),
        row: a.row,
    }
}

// The table is initialized, without rows.
#[unsafe(no_mangle)]
pub extern "C" fn hello_net_afresh(table: &mut NetTable, nhosts: usize) -> u8
    ensures { (table.new ≡ (initialize_table nhosts table.old).table) × (result ≡ number (initialize_table nhosts table.old).answer) }
{
    u8::from(net_table::initialize_table(table, nhosts))
}

// A row more, at the end.
#[unsafe(no_mangle)]
pub extern "C" fn hello_net_add(table: &mut NetTable, net: Net, id: usize) -> NetAdded
    ensures { (table.new ≡ (add net id table.old).table) × (result ≡ added_returned (add net id table.old).added) }
{
    added_returned(net_table::add(table, net, id))
}

// One row less; the rows after it move up.
#[unsafe(no_mangle)]
pub extern "C" fn hello_net_remove(table: &mut NetTable, row: usize) -> u8
    ensures { (table.new ≡ (remove row table.old).table) × (result ≡ number (remove row table.old).answer) }
{
    u8::from(net_table::remove(table, row))
}

// A row leads to another host; its net stays.
#[unsafe(no_mangle)]
pub extern "C" fn hello_net_change(table: &mut NetTable, row: usize, id: usize) -> u8
    ensures { (table.new ≡ (change row id table.old).table) × (result ≡ number (change row id table.old).answer) }
{
    u8::from(net_table::change(table, row, id))
}
