// Recovers the capture on standard input. The recovered one goes to standard output. To standard error goes a line `START LENGTH`
// for each stretch that was passed over, and then whether the input's own number and places were those of its packets.
// The input buffer holds one octet more than the mender takes: of a longer input it is full, and the answer is 27.
#![tactic(auto)]

ghost use Rattle.std.specs.Prelude.{◌≡◌, length};

use std::io::Result;

// The octets of a number, and of a stretch in the list.
const NUMBER: usize = 4;

const STRETCH: usize = 8;

fn print_stretch(rt: &impl Eprint, stretch: &[u8]) -> Result<()>
    requires { length stretch.now ≡ 8 }
{
    let start = octets::four_at(stretch, 0);
    let size = octets::four_at(stretch, NUMBER);
    eprintln!(rt; "{start} {size}")
}

// A line for each stretch of the list.
fn print_stretches(rt: &impl Eprint, list: &[u8]) -> Result<()> {
    for stretch in list.chunks_exact(STRETCH) {
        print_stretch(rt, stretch)?;
    }
    Ok(())
}

// The stretches, and whether number and places were right.
fn report(rt: &impl Eprint, list: &[u8], places_true: bool) -> Result<()> {
    print_stretches(rt, list)?;
    let not = if places_true { "" } else { "not " };
    eprintln!(rt; "number and places are {not}right")
}

fn main(rt: HostRuntime) {
    let mut input = [0u8; 65537];
    let n = io::read_full(0, &mut input);
    let mut output = [0u8; 73732];
    let mut stretches = [0u8; 16392];
    match capture::recover(&input[..n], &mut output, &mut stretches) {
        Ok(m) => {
            io::write_all(1, &output[..m.capture_length]);
            let _ = report(&rt, &stretches[..m.stretches_length], m.places_true);
        }
        Err(refusal) => {
            let _ = eprintln!(rt; "refused with {}", u8::from(refusal));
        }
    }
}
