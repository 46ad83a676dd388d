// Messages on paper: a HELLO as text, and back.
#![tactic(auto)]

ghost use Rattle.std.specs.Prelude.{◌≡◌, ◌≤◌, length, IfOk};
ghost use Rattle.wire.specs.Hello.{hello_form};
ghost use Rattle.text.specs.Answers.{number, into, to_text, from_text, Leaves};
ghost use Rattle.text.specs.Back.{MessageBack, TextBack, NeverRefused};

mod buffer;
pub mod pieces;
mod read;
mod scan;
mod write;

// Why the writer or the reader refuses, with its number in the published table.
#[derive(Clone, Copy, PartialEq, Eq)]
pub enum Refusal {
    ShortBuffer = 2,
    HelloForm = 6,
    TextForm = 14,
    FieldRange = 15,
}

impl From<Refusal> for u8 {
    ghost from_gives = { λ refusal n. n ≡ number refusal };

    fn from(refusal: Refusal) -> u8 {
        refusal as u8
    }
}

// The octets put at the start of the buffer, if there is room: the last step of both. Returns how many.
fn deliver(out: &mut [u8], octets: &[u8]) -> Result<usize, Refusal>
    ensures leaves { Leaves (into (length out.old) octets.now) result out.old out.new }
    ensures inside { IfOk result (λ n. n ≤ length out.new) }
{
    let length = octets.len();
    if out.len() < length {
        return Err(Refusal::ShortBuffer);
    }
    wire::copy(out, 0, octets);
    Ok(length)
}

// Whether a message is as long as its NHOSTS says. The test of this in `wire` is private to it.
#[tactic(auto, unfolding(wire::specs::Hello::hello_form))]
fn is_message(message: &[u8]) -> bool
    ensures { result ≡ hello_form message.now }
{
    if message.len() < 12 {
        return false;
    }
    message.len() == 12 + 4 * message[11] as usize
}

// A message written as text; returns its length.
pub fn to_text(message: &[u8], out: &mut [u8]) -> Result<usize, Refusal>
    ensures leaves { Leaves (to_text message.now (length out.old)) result out.old out.new }
    ensures inside { IfOk result (λ n. n ≤ length out.new) }
{
    if !is_message(message) {
        return Err(Refusal::HelloForm);
    }
    let mut text = [0u8; 6144];
    let n = write::put_text(&mut text, message);
    deliver(out, &text[..n])
}

// A text read as a message, with the checksum that a sender computes; returns its length.
pub fn from_text(text: &[u8], out: &mut [u8]) -> Result<usize, Refusal>
    ensures leaves { Leaves (from_text text.now (length out.old)) result out.old out.new }
    ensures inside { IfOk result (λ n. n ≤ length out.new) }
{
    let mut message = [0u8; read::MOST_LENGTH];
    let n = read::read_text(text, &mut message)?;
    deliver(out, &message[..n])
}

// A message whose checksum is the sender's comes back from its text.
#[tactic(auto, using(crate::proofs::Back::message_back))]
pub fn message_back()
    ensures { MessageBack }
{}

// A text that is read comes back from its message.
#[tactic(auto, using(crate::proofs::Back::text_back_again))]
pub fn text_back()
    ensures { TextBack }
{}

// A text that was written is never refused for its form or its numbers.
#[tactic(auto, using(crate::proofs::Back::never_refused))]
pub fn never_refused()
    ensures { NeverRefused }
{}
