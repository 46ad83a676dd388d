// The places of a host's ids in the host table.
ghost use Rattle.std.specs.Prelude.{◌≡◌, true, ◌≤◌};
ghost use Rattle.host.specs.State.{has_place};
ghost use Rattle.calls.specs.Effects.{wanted};
ghost use Rattle.calls.specs.code.Places.{
  Placeable,
  seek_at,
  placed,
  updates_at,
  reports_at,
};

use super::Request;
use host::walk::Walk;
use host::{Settings, first_place};
use net_table::NetTable;
use table::entries::{Changes, Reports, Updates};

// The id whose entry is looked at.
fn wanted(s: &Settings, t: &NetTable, w: Walk, q: Request) -> Option<usize>
    ensures { result ≡ wanted q t.now s.now w }
{
    match q {
        Request::Initialize
        | Request::Tick(_)
        | Request::Adjust(_)
        | Request::Set(_, _)
        | Request::Read(_)
        | Request::Second
        | Request::SelfReport(_) => None,
        Request::Lookup(a) => host::found_for(t, s, a),
        Request::Step(_) => walk::at_hand(w),
    }
}

// The place of that id.
pub(crate) fn seek_at(number: usize, found: Option<usize>) -> Option<usize>
    requires { (number ≤ 15) × (has_place found ≡ true) }
    ensures { result ≡ seek_at number found }
{
    let id = found?;
    Some(first_place(number) + id)
}

// The place of the entry that is looked at.
pub(crate) fn sought(
    s: &Settings,
    t: &NetTable,
    w: Walk,
    number: usize,
    q: Request,
) -> Option<usize>
    requires { (number ≤ 15) × (has_place (wanted q t.now s.now w) ≡ true) }
    ensures { result ≡ seek_at number (wanted q t.now s.now w) }
{
    seek_at(number, wanted(s, t, w, q))
}

// The places of ids that are changed.
pub(crate) fn placed(number: usize, w: Changes) -> Changes
    requires { Placeable number w.first w.end }
    ensures { result ≡ placed number w }
{
    let base = first_place(number);
    Changes {
        first: base + w.first,
        end: base + w.end,
        ..w
    }
}

// The places of ids that are updated.
pub(crate) fn updates_at(number: usize, w: Updates) -> Updates
    requires { Placeable number w.first w.end × (w.base ≤ w.first) }
    ensures { result ≡ updates_at number w }
{
    let base = first_place(number);
    Updates {
        first: base + w.first,
        end: base + w.end,
        base: base + w.base,
        ..w
    }
}

// The places of ids that are reported.
pub(crate) fn reports_at(number: usize, w: Reports) -> Reports
    requires { Placeable number w.first w.end }
    ensures { result ≡ reports_at number w }
{
    let base = first_place(number);
    Reports {
        first: base + w.first,
        end: base + w.end,
        ..w
    }
}
