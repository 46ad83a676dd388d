// Reads a text from standard input, to its end, and writes its message to standard output.
// A refusal writes its number and a newline to standard error, and nothing else.
// An input that fills the buffer is longer than any text that is accepted: it is read in pieces, and only its answer is found.
#![tactic(auto)]

use text::Refusal;
use text::pieces::{begin, long_answer, proceed};

const PIECE: usize = 65536;

// Why an input is refused of which the first piece was read. It has fewer than 2^63 octets.
fn refusal_of(first: &[u8]) -> Refusal {
    let mut known = proceed(begin(), first);
    let mut piece = io::large_buffer();
    for _ in 0..140737488355326u64 {
        let n = io::read_full(0, &mut piece);
        known = proceed(known, &piece[..n]);
        if n < PIECE {
            return long_answer(known);
        }
    }
    Refusal::TextForm
}

fn refuse(rt: &impl Eprint, refusal: Refusal) {
    let _ = eprintln!(rt; "{}", u8::from(refusal));
}

fn main(rt: HostRuntime) {
    let mut text = io::large_buffer();
    let n = io::read_full(0, &mut text);
    if n == PIECE {
        return refuse(&rt, refusal_of(&text));
    }
    let mut message = io::buffer();
    match text::from_text(&text[..n], &mut message) {
        Ok(k) => {
            io::write_all(1, &message[..k]);
        }
        Err(refusal) => refuse(&rt, refusal),
    }
}
