// The writer: the text of a message.
ghost use Rattle.std.specs.Prelude.{◌≡◌, true, [], ◌∷◌, ◌++◌, ◌+◌, ◌*◌, ◌≤◌, ◌<◌, length, take, drop};
ghost use Rattle.lists.specs.Lists.{over};
ghost use Rattle.quantity.specs.Words.{signed16};
ghost use Rattle.wire.specs.Hello.{hello_form, fixed_length};
ghost use Rattle.text.specs.Numerals.{digits, width, numeral, signed_numeral};
ghost use Rattle.text.specs.Words.{space, newline};
ghost use Rattle.text.specs.Numbers.{rows_of, numbers_of};
ghost use Rattle.text.specs.Text.{hello, first_line, row_lines, text_of};
ghost use Rattle.text.specs.code.Put.{Put, line_room, row_room, row, times_text};

use super::buffer::put_octet;
use octets::{four_at, two_at};

// How many digits a number has: the tests of the definition, one by one. A loop over powers of ten would be no plainer.
#[tactic(auto, unfolding(crate::specs::Numerals::width))]
fn width(n: u32) -> usize
    ensures { result ≡ width n }
{
    if n < 10 {
        return 1;
    }
    if n < 100 {
        return 2;
    }
    if n < 1000 {
        return 3;
    }
    if n < 10000 {
        return 4;
    }
    if n < 100000 {
        return 5;
    }
    if n < 1000000 {
        return 6;
    }
    if n < 10000000 {
        return 7;
    }
    if n < 100000000 {
        return 8;
    }
    if n < 1000000000 {
        return 9;
    }
    10
}

// The last k digits of a number, put at a place.
fn put_digits(text: &mut [u8], at: usize, k: usize, n: u32)
    requires { at + k ≤ length text.old }
    ensures { text.new ≡ over text.old at (digits k n) }
{
    let mut rest = n;
    for j in (0..k).rev() {
        text[at + j] = b'0' + (rest % 10) as u8;
        rest /= 10;
    }
}

// Writes a number at a place; returns the place after it.
fn put_number(text: &mut [u8], at: usize, n: u32) -> usize
    requires { at + 10 ≤ length text.old }
    ensures put { Put text.old text.new at result (numeral n) }
    ensures upper_bound { result ≤ at + 10 }
{
    let k = width(n);
    put_digits(text, at, k, n);
    at + k
}

// A space, and a number.
fn put_field(text: &mut [u8], at: usize, n: u32) -> usize
    requires { at + 11 ≤ length text.old }
    ensures put { Put text.old text.new at result (space ∷ numeral n) }
    ensures upper_bound { result ≤ at + 11 }
{
    put_octet(text, at, b' ');
    put_number(text, at + 1, n)
}

// An OFFSET, from its 16 bits: a minus where it is negative, and the number.
fn put_offset(text: &mut [u8], at: usize, bits: u16) -> usize
    requires { at + 11 ≤ length text.old }
    ensures put { Put text.old text.new at result (signed_numeral (signed16 bits)) }
    ensures upper_bound { result ≤ at + 11 }
{
    if bits < 32768 {
        return put_number(text, at, bits as u32);
    }
    put_octet(text, at, b'-');
    put_number(text, at + 1, 65536 - bits as u32)
}

// The line of one host.
fn put_row(text: &mut [u8], at: usize, delay: u16, offset: u16) -> usize
    requires { at + row_room ≤ length text.old }
    ensures put { Put text.old text.new at result (row delay offset) }
    ensures upper_bound { result ≤ at + row_room }
{
    let gap = put_number(text, at, delay as u32);
    put_octet(text, gap, b' ');
    let end = put_offset(text, gap + 1, offset);
    put_octet(text, end, b'\n');
    end + 1
}

// `hello`, at the start.
fn put_hello(text: &mut [u8])
    requires { 5 ≤ length text.old }
    ensures { Put text.old text.new 0 5 hello }
{
    text[..5].copy_from_slice(b"hello");
}

// The first line's front: `hello` and the three times.
fn put_times(text: &mut [u8], message: &[u8]) -> usize
    requires line_room_in_bounds { line_room ≤ length text.old }
    requires fixed_length_in_bounds { fixed_length ≤ length message.now }
    ensures put { Put text.old text.new 0 result (times_text (numbers_of message.now)) }
    ensures upper_bound { result ≤ 38 }
{
    put_hello(text);
    let date = put_field(text, 5, two_at(message, 2) as u32);
    let time = put_field(text, date, four_at(message, 4));
    put_field(text, time, two_at(message, 8) as u32)
}

// The first line.
fn put_first(text: &mut [u8], message: &[u8]) -> usize
    requires line_room_in_bounds { line_room ≤ length text.old }
    requires fixed_length_in_bounds { fixed_length ≤ length message.now }
    ensures put { Put text.old text.new 0 result (first_line (numbers_of message.now)) }
    ensures upper_bound { result ≤ line_room }
{
    let tsp = put_times(text, message);
    let base = put_field(text, tsp, message[10] as u32);
    let count = put_field(text, base, message[11] as u32);
    put_octet(text, count, b'\n');
    count + 1
}

// The lines of all hosts, from a place on. A host is read by its place in the message, as in the definition of its row.
fn put_rows(text: &mut [u8], at: usize, message: &[u8]) -> usize
    requires { (fixed_length ≤ length message.now) × (at * 4 + row_room * length message.now ≤ length text.old * 4) }
    ensures { Put text.old text.new at result (row_lines (rows_of (drop fixed_length message.now))) }
{
    let mut end = at;
    for host in 0..(message.len() - 12) / 4 {
        let i = 12 + 4 * host;
        end = put_row(text, end, two_at(message, i), two_at(message, i + 2));
    }
    end
}

// The text of a message of good length, put at the start of a buffer that holds any.
pub fn put_text(text: &mut [u8], message: &[u8]) -> usize
    requires { (line_room * 4 + row_room * 1032 ≤ length text.old * 4) × (hello_form message.now ≡ true) }
    ensures { Put text.old text.new 0 result (text_of (numbers_of message.now)) }
{
    let at = put_first(text, message);
    put_rows(text, at, message)
}
