// Messages on paper, for programs in other languages.
ghost use Rattle.std.specs.Prelude.{◌≡◌, length};
ghost use Rattle.lists.specs.Lists.{over};
ghost use Rattle.text.specs.Answers.{answer, octets, to_text, from_text};
ghost use Rattle.std.specs.Result.{result_unwrap_or};

use text::Refusal;

// What C programs get, laid out as they do: the number of the answer, and the length of what was written, 0 at a refusal.
#[repr(C)]
#[derive(Clone, Copy)]
pub struct Written {
    pub answer: u8,
    pub length: usize,
}

// An outcome as C programs get it.
fn answered(outcome: Result<usize, Refusal>) -> Written
    ensures answer_value { result.answer ≡ answer outcome }
    ensures length_value { result.length ≡ result_unwrap_or outcome 0 }
{
    match outcome {
        Ok(length) => Written { answer: 0, length },
        Err(refusal) => Written {
            answer: u8::from(refusal),
            length: 0,
        },
    }
}

// A message written as text.
#[unsafe(no_mangle)]
pub extern "C" fn hello_to_text(message: &[u8], out: &mut [u8]) -> Written
    ensures answer_value { result.answer ≡ answer (to_text message.now (length out.old)) }
    ensures length_value { result.length ≡ length (octets (to_text message.now (length out.old))) }
    ensures out_after { out.new ≡ over out.old 0 (octets (to_text message.now (length out.old))) }
{
    answered(text::to_text(message, out))
}

// A text read as a message.
#[unsafe(no_mangle)]
pub extern "C" fn hello_from_text(text: &[u8], out: &mut [u8]) -> Written
    ensures answer_value { result.answer ≡ answer (from_text text.now (length out.old)) }
    ensures length_value { result.length ≡ length (octets (from_text text.now (length out.old))) }
    ensures out_after { out.new ≡ over out.old 0 (octets (from_text text.now (length out.old))) }
{
    answered(text::from_text(text, out))
}
