// Which action follows: RFC 5905, section 9.2, figure 20.
ghost use Rattle.std.specs.Prelude.{◌≡◌, ◌<◌, true};
ghost use Rattle.ntp.specs.Dispatch.{dispatch};
ghost use Rattle.ntp.specs.Header.{mode_good};

use super::Action;
use super::Action::{Broadcast, Discard, Error, Manycast, Passive, Process, Reply};

// A row for each association, none first; a column for each packet mode, from 1.
const TABLE: [[Action; 5]; 7] = [
    [Passive, Discard, Reply, Manycast, Broadcast],
    [Process, Process, Discard, Discard, Discard],
    [Process, Error, Discard, Discard, Discard],
    [Discard, Discard, Discard, Process, Discard],
    [Discard, Discard, Discard, Discard, Discard],
    [Discard, Discard, Discard, Discard, Discard],
    [Discard, Discard, Discard, Discard, Process],
];

// What an association does with a packet of a mode.
pub fn dispatch(association: u8, mode: u8) -> Action
    requires association_bound { association < 7 }
    requires mode_value { mode_good mode ≡ true }
    ensures { result ≡ dispatch association mode }
{
    TABLE[association as usize][mode as usize - 1]
}
