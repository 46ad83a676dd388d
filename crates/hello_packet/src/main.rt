// Reads one packet from standard input, to its end, and prints the number of the answer and a newline.
// The buffer holds one octet more than any IP packet has: of a longer input it is full, and the answer is 3.
// A read that fails ends the input, and a write that fails ends nothing, as in the other programs.
#![tactic(auto)]

fn main(rt: HostRuntime) {
    let mut octets = io::large_buffer();
    let n = io::read_full(0, &mut octets);
    let _ = println!(rt; "{}", owned_host::answer(&octets[..n]));
}
