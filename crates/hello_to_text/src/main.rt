// Reads a message from standard input, to its end, and writes its text to standard output.
// A refusal writes its number and a newline to standard error, and nothing else.
// The buffer holds more than any message has: an input that fills it is refused with 6.
#![tactic(auto)]

fn main(rt: HostRuntime) {
    let mut octets = io::buffer();
    let n = io::read_full(0, &mut octets);
    let mut text = io::buffer();
    match text::to_text(&octets[..n], &mut text) {
        Ok(k) => {
            io::write_all(1, &text[..k]);
        }
        Err(refusal) => {
            let _ = eprintln!(rt; "{}", u8::from(refusal));
        }
    }
}
