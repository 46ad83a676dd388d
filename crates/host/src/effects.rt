// The change of the entries, and an effect that does not change them.
ghost use Rattle.std.specs.Prelude.{◌≡◌, ◌≤◌};
ghost use Rattle.host.specs.Effect.{nothing, each, one, answers};

use super::walk::Walk;
use super::{Effect, Links, Reply, Settings, host_count};
use clock::Clock;
use table::entries::{Change, Changes};

pub fn nothing() -> Changes
    ensures { result ≡ nothing }
{
    Changes {
        first: 0,
        end: 0,
        change: Change::Fresh,
        marks: table::marks::none(),
    }
}

pub fn each(s: Settings, change: Change) -> Changes
    ensures { result ≡ each s change }
{
    Changes {
        first: 0,
        end: host_count(s),
        change,
        marks: s.marks,
    }
}

pub fn one(id: usize, change: Change) -> Changes
    requires { id ≤ 255 }
    ensures { result ≡ one id change }
{
    Changes {
        first: id,
        end: id + 1,
        change,
        marks: table::marks::none(),
    }
}

// The entries stay.
pub fn answers(c: Clock, l: Links, w: Walk, r: Reply) -> Effect
    ensures { result ≡ answers r c l w }
{
    Effect {
        reply: r,
        clock: c,
        links: l,
        walk: w,
        work: nothing(),
    }
}
