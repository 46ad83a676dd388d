// The pass over the hits: the capture of the hits, and the list of stretches.
ghost use Rattle.std.specs.Prelude.{◌≡◌, ◌+◌, ◌≤◌, length};
ghost use Rattle.lists.specs.Lists.{over};
ghost use Rattle.octets.specs.Octets.{four};
ghost use Rattle.capture.specs.Search.{gap};
ghost use Rattle.capture.specs.Capture.{span_octets, recovered_capture, stretch_list};
ghost use Rattle.capture.specs.code.Writing.{Room};

use super::NUMBER;
use super::search::TOTAL;

// Writes the last 32 bits of a number.
fn put_four(s: &mut [u8], i: usize, n: usize)
    requires { i + 4 ≤ length s.old }
    ensures { s.new ≡ over s.old i (four n) }
{
    octets::put_four(s, i, (n % 0x1_0000_0000) as u32);
}

// Writes the stretch from one octet to another to a place of the list, if it has octets; returns the place after it.
fn put_stretch(list: &mut [u8], place: usize, from: usize, to: usize) -> usize
    requires { place + length (span_octets (gap from to)) ≤ length list.old }
    ensures { (result ≡ place + length (span_octets (gap from to))) × (list.new ≡ over list.old place (span_octets (gap from to))) }
{
    if from < to {
        put_four(list, place, from);
        put_four(list, place + NUMBER, to - from);
        return place + 2 * NUMBER;
    }
    place
}

// Both outputs, of an input, from where its hits start. A hit's length is in its header.
pub fn write(input: &[u8], capture: &mut [u8], stretches: &mut [u8], starts: &[u16])
    requires { Room input.now capture.old stretches.old starts.now }
    ensures { (capture.new ≡ over capture.old 0 (recovered_capture input.now))
        × (stretches.new ≡ over stretches.old 0 (stretch_list input.now)) }
{
    put_four(capture, 0, starts.len());
    let mut at: usize = 0;
    let mut to = NUMBER + NUMBER * starts.len();
    let mut end: usize = 0;
    for (k, &first) in starts.iter().enumerate() {
        let start = first as usize;
        let size = octets::two_at(input, start + TOTAL) as usize;
        end = put_stretch(stretches, end, at, start);
        at = start + size;
        put_four(capture, NUMBER + NUMBER * k, to);
        wire::copy(capture, to, &input[start..at]);
        to += size;
    }
    put_stretch(stretches, end, at, input.len());
}
