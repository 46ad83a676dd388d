// The guard's pass over the entries of one word of marks, four entries at a time: TTL, PID and mark of an entry are one number, and four such numbers take one test.
ghost use Rattle.std.specs.Prelude.{◌≡◌, ◌&&◌, [], ◌∷◌, ◌+◌, ◌*◌, ◌/◌, ◌%◌, ◌<◌, ◌^◌};
ghost use Rattle.table.specs.Forms.{every_from};
ghost use Rattle.table.specs.code.Words.{StretchFits, as_in_word};
ghost use Rattle.table.specs.code.Fours.{wide_good, small_good, fields_of, fields_good, over, FourFits, four_good, all_fours};

use super::Entry;
use super::entries::Stretch;

// The number that moves a TTL over 120 to 128 or more, and a PID over 8 to 16 or more.
const MORE: u64 = 458759;

// Are DELAY and time in range?
fn wide(e: Entry) -> bool
    ensures { result ≡ wide_good e }
{
    super::up_to(super::MAX_DELAY, e.delay) && super::up_to(clock::DAY, e.time)
}

// The same of four entries.
fn four_wide(a: Entry, b: Entry, c: Entry, d: Entry) -> bool
    ensures { result ≡ (wide_good a && (wide_good b && (wide_good c && wide_good d))) }
{
    wide(a) && wide(b) && wide(c) && wide(d)
}

// TTL, PID and mark as one number.
fn fields(e: Entry) -> u64
    ensures { (result ≡ fields_of e) × ((fields_good result ≡ small_good 0 e) × (result < 2 ^ 32)) }
{
    (e.ttl.0 as u64) + (e.pid as u64) * 65536 + (e.here as u64) * 16777216
}

// The same with the mark's difference from the lowest of some bits.
fn fields_by(e: Entry, bits: u64) -> u64
    ensures { (fields_good result ≡ small_good (bits % 2) e) × (result < 2 ^ 32) }
{
    fields(e) ^ (bits % 2 * 16777216)
}

// The number's bits, with a bit above the limit of each field that exceeds it.
fn over(f: u64) -> u64
    requires { f < 2 ^ 32 }
    ensures { result ≡ over f }
{
    f | (f + MORE)
}

// Are the fields of four numbers in range, by one test of all bits?
fn four_small(a: u64, b: u64, c: u64, d: u64) -> bool
    requires { (a < 2 ^ 32) × ((b < 2 ^ 32) × ((c < 2 ^ 32) × (d < 2 ^ 32))) }
    ensures { result ≡ (fields_good a && (fields_good b && (fields_good c && fields_good d))) }
{
    let all = over(a) | over(b) | (over(c) | over(d));
    all < 1048576 && all % 65536 < 128
}

// Are TTL, PID and mark of four entries as they should be? If none of the four is marked, the numbers need no change.
fn four_marked(a: Entry, b: Entry, c: Entry, d: Entry, bits: u64) -> bool
    ensures { result ≡ (small_good (bits % 2) a && (small_good (bits / 2 % 2) b && (small_good (bits / 4 % 2) c && small_good (bits / 8 % 2) d))) }
{
    if bits % 16 == 0 {
        return four_small(fields(a), fields(b), fields(c), fields(d));
    }
    four_small(
        fields_by(a, bits),
        fields_by(b, bits / 2),
        fields_by(c, bits / 4),
        fields_by(d, bits / 8),
    )
}

// Are four entries as they should be?
fn four_good(a: Entry, b: Entry, c: Entry, d: Entry, k: usize, word: u64) -> bool
    requires { k < 16 }
    ensures { result ≡ every_from (4 * k) (as_in_word word) (a ∷ b ∷ c ∷ d ∷ []) }
{
    four_wide(a, b, c, d) && four_marked(a, b, c, d, word >> (4 * k))
}

fn four_at(entries: &[Entry], k: usize, w: Stretch) -> bool
    requires { FourFits k w entries.now }
    ensures { result ≡ four_good k w entries.now }
{
    let i = w.first + 4 * k;
    four_good(
        entries[i],
        entries[i + 1],
        entries[i + 2],
        entries[i + 3],
        k,
        w.word,
    )
}

// Are all fours of a word as they should be? The loop ends at the first that is not.
pub fn all_fours(entries: &[Entry], w: Stretch) -> bool
    requires { StretchFits w entries.now }
    ensures { result ≡ all_fours w entries.now }
{
    let n = w.end - w.first;
    for k in 0..n / 4 {
        if !four_at(entries, k, w) {
            return false;
        }
    }
    true
}
