// Set-up at the hosts: each is initialized from its record of the file.
ghost use Rattle.std.specs.Prelude.{◌≡◌, ◌<◌, length};
ghost use Rattle.calls.specs.declared.Request.TheVariants.{Initialize};
ghost use Rattle.bench_file.specs.code.Sections.{Sections};
ghost use Rattle.bench.specs.code.Returned.{ask_of};
ghost use Rattle.bench.specs.code.Sets.{HostsFit, SetFits, SetsHost, SetsHosts};

use super::HostState;
use super::requests::{Ask, ask_at};
use bench_file::Header;
use bench_file::hosts::settings_at;
use calls::Request;
use net_table::NetTable;
use table::Entry;

// The request to initialize, with the settings of the host's record.
fn initializes(file: &[u8], host: usize, header: Header) -> Ask
    requires { Sections header (length file.now) × (host < header.hosts) }
    ensures { result ≡ ask_of file.now host Initialize }
{
    Ask {
        host,
        settings: settings_at(file, header, host),
        request: Request::Initialize,
    }
}

fn set_at(
    file: &[u8],
    net_table: &NetTable,
    hosts: &mut [HostState],
    copies: &[u8],
    entries: &mut [Entry],
    i: usize,
    header: Header,
)
    requires { SetFits file.now header hosts.old copies.now i }
    ensures { SetsHost file.now net_table.now hosts.old copies.now entries.old i hosts.new entries.new }
{
    ask_at(
        net_table,
        hosts,
        copies,
        entries,
        initializes(file, i, header),
    );
}

// All hosts of the file, in rising order.
pub fn sets(
    file: &[u8],
    net_table: &NetTable,
    hosts: &mut [HostState],
    copies: &[u8],
    entries: &mut [Entry],
    header: Header,
)
    requires { HostsFit file.now header hosts.old copies.now }
    ensures { SetsHosts file.now header net_table.now hosts.old copies.now entries.old hosts.new entries.new }
{
    for i in 0..header.hosts {
        set_at(file, net_table, hosts, copies, entries, i, header);
    }
}
