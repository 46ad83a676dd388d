// The mender of damaged captures: it finds the packets of an input again, and writes a capture of them.
#![tactic(auto)]

ghost use Rattle.std.specs.Prelude.{◌≡◌};
ghost use Rattle.capture.specs.Answer.{number};
ghost use Rattle.capture.specs.Search.{Searches};
ghost use Rattle.capture.specs.Cover.{Covers};
ghost use Rattle.capture.specs.Damage.{Damage};
ghost use Rattle.capture.specs.Straddle.{StraddledUndamaged, StraddledDamaged};
ghost use Rattle.capture.specs.Again.{Again};
ghost use Rattle.capture.specs.Recover.{recover, Leaves, Bounded};

mod counting;
mod search;
mod writing;

// No longer input is taken.
const LONGEST: usize = 65536;

// No input has more packets: none has fewer than 32 octets.
const MOST: usize = 2048;

// The octets of a number.
const NUMBER: usize = 4;

// Why recovery refuses, with the numbers of the published table.
#[derive(Clone, Copy, PartialEq, Eq)]
pub enum Refusal {
    ShortBuffer = 2,
    CaptureLength = 27,
}

impl From<Refusal> for u8 {
    ghost from_gives = { λ r n. n ≡ number r };

    fn from(r: Refusal) -> u8 {
        r as u8
    }
}

// CAPTURE-5: what recovery returns: how many octets it wrote to each output, and whether number and places in the input are those of the packets found.
#[derive(Clone, Copy, PartialEq, Eq)]
pub struct Recovered {
    pub capture_length: usize,
    pub stretches_length: usize,
    pub places_true: bool,
}

// A packet found: where it starts, and how many octets it has.
#[derive(Clone, Copy)]
pub struct Hit {
    pub at: usize,
    pub size: usize,
}

// What the search finds: the hits, the octets of their packets, and the stretches.
#[derive(Clone, Copy)]
pub struct Survey {
    pub hits: usize,
    pub octets: usize,
    pub stretches: usize,
}

// The mender: writes a capture of the packets that it finds in the input, and a list of the stretches that it passed over.
// Octets beyond what is written stay; where it refuses, both outputs stay as they are.
pub fn recover(input: &[u8], capture: &mut [u8], stretches: &mut [u8]) -> Result<Recovered, Refusal>
    ensures { Leaves (recover input.now capture.old stretches.old) result capture.new stretches.new }
{
    if LONGEST < input.len() {
        return Err(Refusal::CaptureLength);
    }
    // The library has no heap, so the list of starts has a place for each packet that an input can have.
    let mut starts = [0u16; MOST];
    let s = counting::survey(input, &mut starts);
    let capture_length = NUMBER + NUMBER * s.hits + s.octets;
    if capture.len() < capture_length {
        return Err(Refusal::ShortBuffer);
    }
    let stretches_length = 2 * NUMBER * s.stretches;
    if stretches.len() < stretches_length {
        return Err(Refusal::ShortBuffer);
    }
    let starts = &starts[..s.hits];
    writing::write(input, capture, stretches, starts);
    Ok(Recovered {
        capture_length,
        stretches_length,
        places_true: counting::marked(input, starts),
    })
}

// The search goes step by step as the paper has it.
#[tactic(auto, using(crate::proofs::Steps::searches))]
pub fn searches()
    ensures { Searches }
{}

// How long the outputs can be.
#[tactic(auto, using(crate::proofs::Mending::bounded))]
pub fn bounded()
    ensures { Bounded }
{}

// Kept and skipped stretches cover the input exactly once; none is empty, and no two stretches touch.
#[tactic(auto, using(crate::proofs::Covering::covers))]
pub fn covers()
    ensures { Covers }
{}

// Damage before a place that no hit straddles, at which a good packet starts, does not reach beyond it.
#[tactic(auto, using(crate::proofs::Damaged::damage))]
pub fn damage()
    ensures { Damage }
{}

// Both hypotheses of that law are needed: a packet that holds a good one, and a chain of packets each ending inside the next.
#[tactic(auto, using(crate::proofs::Straddling::undamaged))]
pub fn straddled_undamaged()
    ensures { StraddledUndamaged }
{}

#[tactic(auto, using(crate::proofs::Straddling::damaged))]
pub fn straddled_damaged()
    ensures { StraddledDamaged }
{}

// Mending what the mender wrote, where it is not over 65,536 octets, gives the same capture, with the mark.
#[tactic(auto, using(crate::proofs::Remended::again))]
pub fn again()
    ensures { Again }
{}
