// The mender of damaged captures, for programs in C, Rust and Python.
ghost use Rattle.std.specs.Prelude.{◌≡◌};
ghost use Rattle.capture.specs.Recover.{recover};
ghost use Rattle.hello.specs.Recovered.{recovered_returned};

// What the mender answers: the number of the answer, the octets written to both outputs, and the mark.
// C programs read this struct (`hello_mended` of hello_capture.h), so the answer is a number beside its values.
#[repr(C)]
#[derive(Clone, Copy)]
pub struct Recovered {
    pub answer: u8,
    pub capture_length: usize,
    pub stretches_length: usize,
    pub places_true: bool,
}

// A capture of the packets that are found in the input, and a list of the stretches that were passed over.
#[unsafe(no_mangle)]
pub extern "C" fn hello_mend(input: &[u8], capture: &mut [u8], stretches: &mut [u8]) -> Recovered
    ensures { (result ≡ recovered_returned (recover input.now capture.old stretches.old))
        × (capture.new ≡ (recover input.now capture.old stretches.old).capture)
        × (stretches.new ≡ (recover input.now capture.old stretches.old).stretches) }
{
    match capture::recover(input, capture, stretches) {
        Ok(m) => Recovered {
            answer: 0,
            capture_length: m.capture_length,
            stretches_length: m.stretches_length,
            places_true: m.places_true,
        },
        Err(refusal) => Recovered {
            answer: refusal.into(),
            capture_length: 0,
            stretches_length: 0,
            places_true: false,
        },
    }
}
