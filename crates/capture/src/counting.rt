// The search's pass: where the hits start, how much there is to write, and whether the input's places are those of its hits.
ghost use Rattle.std.specs.Prelude.{◌≡◌, ◌+◌, ◌≤◌, length};
ghost use Rattle.capture.specs.Search.{hits, gap};
ghost use Rattle.capture.specs.Capture.{places_true_of};
ghost use Rattle.capture.specs.Recover.{longest_input};
ghost use Rattle.capture.specs.code.Survey.{most_hits, starts_of, Surveyed};

use super::search::next;
use super::{NUMBER, Survey};

// The number of stretches from one place to another: one, where there are octets.
fn stretch_count(from: usize, to: usize) -> usize
    ensures { (result ≡ length (gap from to)) × (result ≤ 1) }
{
    usize::from(from < to)
}

// What there is to write of an input; writes the start of each hit to a list.
pub fn survey(input: &[u8], starts: &mut [u16]) -> Survey
    requires { (length input.now ≤ longest_input) × (length starts.old ≡ most_hits) }
    ensures { Surveyed input.now starts.old result starts.new }
{
    let mut s = Survey {
        hits: 0,
        octets: 0,
        stretches: 0,
    };
    let mut at: usize = 0;
    while let Some(hit) = next(input, at) {
        starts[s.hits] = hit.at as u16;
        s = Survey {
            hits: s.hits + 1,
            octets: s.octets + hit.size,
            stretches: s.stretches + stretch_count(at, hit.at),
        };
        at = hit.at + hit.size;
    }
    Survey {
        stretches: s.stretches + stretch_count(at, input.len()),
        ..s
    }
}

// CAPTURE-5: are number and places in the input those of the packets found, by where these start?
#[tactic(auto, using(crate::proofs::Listed::listed_few, crate::proofs::Marks::mark_number, crate::proofs::Marks::mark_places, crate::proofs::Marks::mark_right, crate::proofs::Marks::mark_short, crate::proofs::Marks::mark_true, crate::proofs::Marks::mark_wrong))]
pub fn marked(input: &[u8], starts: &[u16]) -> bool
    requires { starts.now ≡ starts_of (hits input.now) }
    ensures { result ≡ places_true_of input.now }
{
    if input.len() < NUMBER + NUMBER * starts.len() {
        return false;
    }
    if octets::four_at(input, 0) as usize != starts.len() {
        return false;
    }
    for (k, &start) in starts.iter().enumerate() {
        if octets::four_at(input, NUMBER + NUMBER * k) != start as u32 {
            return false;
        }
    }
    true
}
