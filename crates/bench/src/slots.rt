// The slots: the label of each, then the packets.
ghost use Rattle.std.specs.Prelude.{◌≡◌, ◌+◌, ◌*◌, ◌≤◌, ◌<◌, length, set};
ghost use Rattle.host.specs.Guard.{longest};
ghost use Rattle.bench_file.specs.Absent.{slots};
ghost use Rattle.bench.specs.Slots.{
  slot_length,
  room_place,
  label_of,
  label_good,
  with_label,
  zeros,
  slots_good,
};

use bench_file::{Header, SLOTS};
use host::LONGEST;

// The octets of a slot, and of all slots.
const SLOT: usize = 1056;

pub const SLOTS_LENGTH: usize = 33792;

const LABEL: usize = 4;

// The length of a slot's packet, 0 where it was never filled, and the cable and the end that the packet was sent from.
#[derive(Clone, Copy)]
pub struct Label {
    pub length: usize,
    pub cable: usize,
    pub end: usize,
}

// Where the room for a slot's packet begins.
pub fn room_start(slot: usize) -> usize
    requires { slot < slots }
    ensures { result ≡ room_place slot }
{
    SLOT * slot + LABEL
}

pub fn room_end(slot: usize) -> usize
    requires { slot < slots }
    ensures { result ≡ room_place slot + longest }
{
    SLOT * slot + LABEL + LONGEST
}

pub fn label_at(octets: &[u8], slot: usize) -> Label
    requires { (slot_length * slots ≤ length octets.now) × (slot < slots) }
    ensures { result ≡ label_of slot octets.now }
{
    let at = SLOT * slot;
    Label {
        length: octets::two_at(octets, at) as usize,
        cable: octets::octet_at(octets, at + 2),
        end: octets::octet_at(octets, at + 3),
    }
}

// Is a slot empty, or its packet one of a cable of the file?
fn label_good(h: Header, l: Label) -> bool
    ensures { result ≡ label_good h l }
{
    l.length == 0 || l.length <= LONGEST && l.cable < h.cables && l.end <= 1
}

pub fn slots_good(h: Header, octets: &[u8]) -> bool
    requires { slot_length * slots ≤ length octets.now }
    ensures { result ≡ slots_good h octets.now }
{
    (0..SLOTS).all(|i| label_good(h, label_at(octets, i)))
}

// A packet of n octets, sent from an end of a cable.
pub fn put_label(octets: &mut [u8], slot: usize, size: usize, cable: u8, end: u8)
    requires { (slot_length * slots ≤ length octets.old) × (slot < slots) }
    ensures { octets.new ≡ with_label slot size cable end octets.old }
{
    let at = SLOT * slot;
    let label = [(size / 256 % 256) as u8, (size % 256) as u8, cable, end];
    octets[at..at + LABEL].copy_from_slice(&label);
}

// n zero octets.
pub fn clear(octets: &mut [u8], n: usize)
    requires { n ≤ length octets.old }
    ensures { octets.new ≡ zeros n octets.old }
{
    octets[..n].fill(0);
}
