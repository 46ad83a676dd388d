// A request at a host: initialize, tick, adjust, set, second or self-report.
ghost use Rattle.bench.specs.code.Asks.{AskFits, DoesAsk};

use super::HostState;
use super::places::copy_of;
use calls::Request;
use host::{Reply, Settings};
use net_table::NetTable;
use table::Entry;

// The host, its settings, and what is asked.
#[derive(Clone, Copy)]
pub struct Ask {
    pub host: usize,
    pub settings: Settings,
    pub request: Request,
}

pub fn ask_at(
    net_table: &NetTable,
    hosts: &mut [HostState],
    copies: &[u8],
    entries: &mut [Entry],
    w: Ask,
) -> Reply
    requires { AskFits w hosts.old copies.now }
    ensures { DoesAsk w net_table.now hosts.old copies.now entries.old result hosts.new entries.new }
{
    let v = &mut hosts[w.host];
    calls::call(
        &w.settings,
        net_table,
        w.host,
        &mut v.clock,
        &mut v.links,
        &mut v.walk,
        copy_of(copies, w.host),
        entries,
        w.request,
    )
}
