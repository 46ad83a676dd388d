// The reader's eyes: pieces up to a mark, numerals, the words of a line.
// A number of any length is held as a u64: 2^63 or more represents any number as large. No field and no count of lines is.
ghost use Rattle.std.specs.Prelude.{◌≡◌, ◌==◌, ◌∷◌, [], position, MatchOption};
ghost use Rattle.text.specs.Numerals.{all_digits, is_numeral};
ghost use Rattle.text.specs.Words.{cut, words, same};
ghost use Rattle.text.specs.Text.{hello};
ghost use Rattle.text.specs.code.Scan.{CutAt, More, NumberRead, OffsetRead, NoField, Field, RowRead, FirstRead, LineRead};

// A number with a sign. It is no i64: a size of 2^63 or more represents larger ones too.
#[derive(Clone, Copy)]
pub struct Offset {
    pub negative: bool,
    pub size: u64,
}

// The numbers of a line after the first.
#[derive(Clone, Copy)]
pub struct Row {
    pub delay: u64,
    pub offset: Offset,
}

// The numbers of the first line.
#[derive(Clone, Copy)]
pub struct First {
    pub date: u64,
    pub time: u64,
    pub tsp: u64,
    pub base: u64,
    pub count: u64,
}

// The place of the first mark.
fn find(s: &[u8], mark: u8) -> Option<usize>
    ensures { result ≡ position (λ c. c == mark) s.now }
{
    s.iter().position(|&c| c == mark)
}

// What lies before the first mark, and what lies after it.
pub fn cut_once(s: &[u8], mark: u8) -> Option<(&[u8], &[u8])>
    ensures { MatchOption result (cut mark s.now ≡ s.now ∷ []) (λ p. CutAt mark s.now p.0.now p.1.now) }
{
    let end = find(s, mark)?;
    Some((&s[..end], &s[end + 1..]))
}

// A number with one more digit, given as an octet; where it gets too large it stays large.
pub fn more(value: u64, c: u8) -> u64
    ensures { More value c result }
{
    value
        .saturating_mul(10)
        .saturating_add(u64::from(c.saturating_sub(b'0')))
}

// A word of digits.
fn digits(s: &[u8]) -> Option<u64>
    ensures { NumberRead all_digits s.now result }
{
    let mut value: u64 = 0;
    for &c in s {
        if !c.is_ascii_digit() {
            return None;
        }
        value = more(value, c);
    }
    Some(value)
}

// A word read as a number.
fn read_number(s: &[u8]) -> Option<u64>
    ensures { NumberRead is_numeral s.now result }
{
    if s.is_empty() {
        return None;
    }
    if s.len() == 1 {
        return digits(s);
    }
    if s[0] == b'0' {
        return None;
    }
    digits(s)
}

// A word read as a number with a sign.
fn read_offset(s: &[u8]) -> Option<Offset>
    ensures { OffsetRead s.now result }
{
    if s.is_empty() {
        return None;
    }
    if s[0] != b'-' {
        let size = read_number(s)?;
        return Some(Offset {
            negative: false,
            size,
        });
    }
    let size = read_number(&s[1..])?;
    if size == 0 {
        return None;
    }
    Some(Offset {
        negative: true,
        size,
    })
}

// The first word, which is followed by another, read as a number; and what follows it.
#[tactic(auto, using(crate::proofs::Readings::field_none, crate::proofs::Readings::field_bad, crate::proofs::Readings::field_there))]
fn read_field(s: &[u8]) -> Option<(u64, &[u8])>
    ensures { MatchOption result (NoField s.now) (λ p. Field s.now p.0 p.1.now) }
{
    let (word, rest) = cut_once(s, b' ')?;
    let n = read_number(word)?;
    Some((n, rest))
}

// A line after the first.
pub fn read_row(line: &[u8]) -> Option<Row>
    ensures { RowRead (words line.now) result }
{
    let (delay, rest) = read_field(line)?;
    let offset = read_offset(rest)?;
    Some(Row { delay, offset })
}

// Whether a word is `hello`.
#[tactic(auto, using(crate::proofs::Values::same_pointwise))]
fn is_hello(s: &[u8]) -> bool
    ensures { result ≡ same hello s.now }
{
    s == b"hello".as_slice()
}

// The numbers of the first line, after its first word.
fn read_numbers(s: &[u8]) -> Option<First>
    ensures { FirstRead (words s.now) result }
{
    let (date, after_date) = read_field(s)?;
    let (time, after_time) = read_field(after_date)?;
    let (tsp, after_tsp) = read_field(after_time)?;
    let (base, after_base) = read_field(after_tsp)?;
    let count = read_number(after_base)?;
    Some(First {
        date,
        time,
        tsp,
        base,
        count,
    })
}

// The first line.
#[tactic(auto, using(crate::proofs::LineWords::line_alone, crate::proofs::LineWords::line_other, crate::proofs::LineWords::line_read))]
pub fn read_first(line: &[u8]) -> Option<First>
    ensures { LineRead (words line.now) result }
{
    let (word, rest) = cut_once(line, b' ')?;
    if !is_hello(word) {
        return None;
    }
    read_numbers(rest)
}
