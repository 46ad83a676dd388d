// The reader: the message of a text.
ghost use Rattle.std.specs.Prelude.{◌≡◌, true, ◌-◌, ◌≤◌, [], length, take, drop};
ghost use Rattle.lists.specs.Lists.{over};
ghost use Rattle.quantity.specs.Words.{bits16};
ghost use Rattle.checksum.specs.Checksum.{checksum_of};
ghost use Rattle.wire.specs.Octets.{two};
ghost use Rattle.text.specs.Numbers.{row_fits, first_fits, fixed_octets};
ghost use Rattle.text.specs.code.Reading.{row_returned, first_returned, RowPut, RowsRead, FormRead, ReadSays};

use super::Refusal;
use super::scan::{First, Row, cut_once, read_first, read_row};
use octets::{put_four, put_octet, put_two};

// The octets of a message of 255 hosts.
pub const MOST_LENGTH: usize = 1032;

// The rows of a text of the form. Their number is told where one does not fit too: another number than N is no form.
#[derive(Clone, Copy)]
pub struct Rows {
    pub fit: bool,
    pub count: usize,
}

// Whether the numbers of a row fit their fields.
fn row_fits(r: Row) -> bool
    ensures { result ≡ row_fits (row_returned r) }
{
    if r.delay > 65535 {
        return false;
    }
    if r.offset.negative {
        return r.offset.size <= 32768;
    }
    r.offset.size <= 32767
}

// The 16 bits of a row's OFFSET.
fn offset_bits(r: Row) -> u16
    requires { row_fits (row_returned r) ≡ true }
    ensures { result ≡ bits16 (row_returned r).offset }
{
    if r.offset.negative {
        return ((65536 - r.offset.size) % 65536) as u16;
    }
    r.offset.size as u16
}

// Writes a row to its place if it and all rows before it fit; returns whether they do.
fn put_row(message: &mut [u8; MOST_LENGTH], fit: bool, i: usize, r: Row) -> bool
    ensures { RowPut message.old message.new fit i (row_returned r) result }
{
    if !fit {
        return false;
    }
    if i >= 255 {
        return false;
    }
    if !row_fits(r) {
        return false;
    }
    let place = 12 + 4 * i;
    put_two(message, place, r.delay as u16);
    put_two(message, place + 2, offset_bits(r));
    true
}

// The lines after the first, each written to its place while all fit.
fn read_rows(text: &[u8], message: &mut [u8; MOST_LENGTH]) -> Option<Rows>
    ensures { RowsRead text.now message.old message.new result }
{
    let mut rest = text;
    let mut count: usize = 0;
    let mut fit = true;
    while !rest.is_empty() {
        let (line, after) = cut_once(rest, b'\n')?;
        let row = read_row(line)?;
        fit = put_row(message, fit, count, row);
        count += 1;
        rest = after;
    }
    Some(Rows { fit, count })
}

// Whether the numbers of the first line fit their fields.
fn first_fits(f: First) -> bool
    ensures { result ≡ first_fits (first_returned f []) }
{
    f.date <= 65535 && f.time <= 4294967295 && f.tsp <= 65535 && f.base <= 255 && f.count <= 255
}

// The numbers of the first line put in their places.
fn put_fixed(message: &mut [u8; MOST_LENGTH], f: First)
    requires { first_fits (first_returned f []) ≡ true }
    ensures { message.new ≡ over message.old 2 (fixed_octets (first_returned f [])) }
{
    put_two(message, 2, f.date as u16);
    put_four(message, 4, f.time as u32);
    put_two(message, 8, f.tsp as u16);
    put_octet(message, 10, f.base as u8);
    put_octet(message, 11, f.count as u8);
}

// The checksum that a sender computes, of the n octets' others.
fn put_checksum(message: &mut [u8; MOST_LENGTH], n: usize)
    requires le_n { 2 ≤ n }
    requires n_in_bounds { n ≤ 1032 }
    ensures { message.new ≡ over message.old 0 (two (checksum_of (take (n - 2) (drop 2 message.old)))) }
{
    let sum = checksum::complement(&message[2..n]);
    put_two(message, 0, sum);
}

// The numbers of a text of the form: those of its first line, and its rows, written to their places while all fit.
fn read_form(text: &[u8], message: &mut [u8; MOST_LENGTH]) -> Option<(First, Rows)>
    ensures { FormRead text.now message.old message.new result }
{
    let (line, rest) = cut_once(text, b'\n')?;
    let first = read_first(line)?;
    let rows = read_rows(rest, message)?;
    if rows.count as u64 != first.count {
        return None;
    }
    Some((first, rows))
}

// Writes the message of a text to the start of a buffer that is long enough for any, and returns its length; the rest of the buffer is unspecified.
pub fn read_text(text: &[u8], message: &mut [u8; MOST_LENGTH]) -> Result<usize, Refusal>
    ensures { ReadSays text.now message.new result }
{
    let Some((first, rows)) = read_form(text, message) else {
        return Err(Refusal::TextForm);
    };
    if !first_fits(first) {
        return Err(Refusal::FieldRange);
    }
    if !rows.fit {
        return Err(Refusal::FieldRange);
    }
    let n = 12 + 4 * rows.count;
    put_fixed(message, first);
    put_checksum(message, n);
    Ok(n)
}
