// A self-report: four entries at a time, and only fours with a mark are stored.
ghost use Rattle.std.specs.Prelude.{◌≡◌, [], ◌∷◌, ◌+◌, ◌*◌, ◌≤◌};
ghost use Rattle.table.specs.declared.entries.Change.TheVariants.{Reported};
ghost use Rattle.table.specs.Runs.{changes};
ghost use Rattle.table.specs.code.Loops.{InEntries};
ghost use Rattle.table.specs.code.Blocks.{any_mark, some_here, block_of, blocks_of, last_of, BlockFits};

use super::Entry;
use super::entries::{Changes, change_each};
use quantity::Millis;

// Has one of four entries a mark?
fn any_here(a: Entry, b: Entry, c: Entry, d: Entry) -> bool
    ensures { result ≡ any_mark (a ∷ b ∷ c ∷ d ∷ []) }
{
    (a.here != 0) | ((b.here != 0) | ((c.here != 0) | (d.here != 0)))
}

fn some_here(entries: &[Entry], k: usize, w: Changes) -> bool
    requires { BlockFits k w entries.now }
    ensures { result ≡ some_here k w entries.now }
{
    let i = w.first + 4 * k;
    any_here(entries[i], entries[i + 1], entries[i + 2], entries[i + 3])
}

// The change of four k alone.
fn block_of(k: usize, w: Changes) -> Changes
    requires { w.first + 4 * k + 4 ≤ w.end }
    ensures { result ≡ block_of k w }
{
    let first = w.first + 4 * k;
    let end = first + 4;
    Changes { first, end, ..w }
}

// The entries after the full fours.
fn last_of(w: Changes) -> Changes
    requires { w.first ≤ w.end }
    ensures { result ≡ last_of w }
{
    let n = w.end - w.first;
    let done = 4 * (n / 4);
    let first = w.first + done;
    Changes { first, ..w }
}

fn report_each(entries: &mut [Entry], w: Changes, reading: Millis)
    requires { InEntries w.first w.end entries.old × (w.change ≡ Reported reading) }
    ensures { entries.new ≡ changes w entries.old }
{
    change_each(entries, w, |e, _| super::reported_here(reading, e));
}

// Four entries after the self-report. If none of them has a mark, nothing is stored.
fn report_block(entries: &mut [Entry], k: usize, w: Changes, reading: Millis)
    requires { BlockFits k w entries.old × (w.change ≡ Reported reading) }
    ensures { entries.new ≡ changes (block_of k w) entries.old }
{
    if some_here(entries, k, w) {
        report_each(entries, block_of(k, w), reading);
    }
}

fn report_blocks(entries: &mut [Entry], w: Changes, reading: Millis)
    requires { InEntries w.first w.end entries.old × (w.change ≡ Reported reading) }
    ensures { entries.new ≡ changes (blocks_of w) entries.old }
{
    let n = w.end - w.first;
    for k in 0..n / 4 {
        report_block(entries, k, w, reading);
    }
}

// Reports the hosts that live here: the full fours, and the entries after them.
pub(crate) fn report_all(entries: &mut [Entry], w: Changes, reading: Millis)
    requires { InEntries w.first w.end entries.old × (w.change ≡ Reported reading) }
    ensures { entries.new ≡ changes w entries.old }
{
    report_blocks(entries, w, reading);
    report_each(entries, last_of(w), reading);
}
