// RFC 1071, section 3, "Numerical Examples": one sum in several orders. Words in hex.
use super::show;
use std::io;

// "Normal" order: Sum2 ddf2. The checksum is its complement.
pub(crate) fn normal(rt: &impl Print) -> io::Result<()> {
    let octets = b"\x00\x01\xf2\x03\xf4\xf5\xf6\xf7";
    show::hex(rt, "RFC 1071 normal order", checksum::folded(octets))?;
    show::hex(rt, "RFC 1071 checksum", checksum::complement(octets))?;
    show::hex(
        rt,
        "RFC 1071 with the checksum behind",
        checksum::folded(b"\x00\x01\xf2\x03\xf4\xf5\xf6\xf7\x22\x0d"),
    )
}

// "Swapped" order, by words of 16 bits: Sum2 f2dd, "Final Swap" ddf2.
pub(crate) fn swapped_order(rt: &impl Print) -> io::Result<()> {
    let sum = checksum::folded(b"\x01\x00\x03\xf2\xf5\xf4\xf7\xf6");
    show::hex(rt, "RFC 1071 swapped order", sum)?;
    show::hex(rt, "RFC 1071 swapped order, final swap", sum.swap_bytes())
}

// By words of 32 bits, 03f20100 and f7f6f5f4: Sum3 f2dd, "Final Swap" ddf2.
pub(crate) fn reversed_order(rt: &impl Print) -> io::Result<()> {
    let sum = checksum::folded(b"\x03\xf2\x01\x00\xf7\xf6\xf5\xf4");
    show::hex(rt, "RFC 1071 reversed order", sum)?;
    show::hex(rt, "RFC 1071 reversed order, final swap", sum.swap_bytes())
}

// "Breaking the sum into two groups, with the second group starting on a odd boundary": Sum1 f201, Sum3 f0eb, "byte swapped" ebf0, Sum5 ddf2.
pub(crate) fn odd_boundary(rt: &impl Print) -> io::Result<()> {
    let first = checksum::folded(b"\x00\x01\xf2");
    let second = checksum::folded(b"\x03\xf4\xf5\xf6\xf7");
    let moved = second.swap_bytes();
    let [a, b] = first.to_be_bytes();
    let [c, d] = moved.to_be_bytes();
    show::hex(rt, "RFC 1071 first group", first)?;
    show::hex(rt, "RFC 1071 second group", second)?;
    show::hex(rt, "RFC 1071 second group, byte swapped", moved)?;
    show::hex(rt, "RFC 1071 both groups", checksum::folded(&[a, b, c, d]))
}
