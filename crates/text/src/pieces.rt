// The form of a text that is read in pieces: what is known of it after each piece.
ghost use Rattle.std.specs.Prelude.{◌≡◌, not, [], ◌++◌, ◌≤◌};
ghost use Rattle.text.specs.Pieces.{After, Proceeds, LongAnswer};
ghost use Rattle.text.specs.code.Pieces.{Steps, finished};
ghost use Rattle.text.specs.code.Turns.{complete, letter, number_start, signed_start, positive_start, digit, narrow};
ghost use Rattle.text.specs.code.Turns.{next_word, one_fewer, next_line, spaced, ended, word_within, rest_within, CountWithin, Inside};

use super::Refusal;
use super::scan::more;

// The words of the lines. `Line` is the start of a line after the first, or the end of the text.
#[derive(Clone, Copy, PartialEq, Eq)]
pub enum Word {
    Hello,
    Date,
    Time,
    Tsp,
    Base,
    Count,
    Line,
    Delay,
    Offset,
}

// What the rest of the present word must be. `Refused` is one of these, since the definition of what may follow goes by cases over them.
#[derive(Clone, Copy, PartialEq, Eq)]
pub enum Rest {
    Hello,
    Ello,
    Llo,
    Lo,
    O,
    Number,
    Signed,
    Positive,
    Digits,
    Empty,
    Refused,
}

// What is known after a piece: the present word, what its rest must be, and a count.
// The count is N as far as it was read, or a large number. After the first line it is how many newlines must still come.
#[derive(Clone, Copy)]
pub struct Progress {
    pub word: Word,
    pub rest: Rest,
    pub count: u64,
}

const REFUSED: Progress = Progress {
    word: Word::Hello,
    rest: Rest::Refused,
    count: 0,
};

// Whether a word may end here.
fn is_complete(rest: Rest) -> bool
    ensures { result ≡ complete rest }
{
    matches!(rest, Rest::Digits | Rest::Empty)
}

// What must follow a letter of `hello`.
fn after_letter(c: u8, expected: u8, next: Rest) -> Rest
    ensures { result ≡ letter c expected next }
{
    if c == expected {
        return next;
    }
    Rest::Refused
}

// What must follow the first octet of a number.
fn after_first_digit(c: u8) -> Rest
    ensures { result ≡ number_start c }
{
    if c == b'0' {
        return Rest::Empty;
    }
    after_digit(c)
}

// What must follow the first octet of a number with a sign.
fn after_sign(c: u8) -> Rest
    ensures { result ≡ signed_start c }
{
    if c == b'-' {
        return Rest::Positive;
    }
    after_first_digit(c)
}

// What must follow the first octet of a number that is not zero.
fn after_positive_digit(c: u8) -> Rest
    ensures { result ≡ positive_start c }
{
    if c == b'0' {
        return Rest::Refused;
    }
    after_first_digit(c)
}

// What must follow a further digit.
fn after_digit(c: u8) -> Rest
    ensures { result ≡ digit c }
{
    if c.is_ascii_digit() {
        return Rest::Digits;
    }
    Rest::Refused
}

// What the rest of a word must be after one more octet of it.
fn narrowed(rest: Rest, c: u8) -> Rest
    ensures { result ≡ narrow rest c }
{
    match rest {
        Rest::Hello => after_letter(c, b'h', Rest::Ello),
        Rest::Ello => after_letter(c, b'e', Rest::Llo),
        Rest::Llo => after_letter(c, b'l', Rest::Lo),
        Rest::Lo => after_letter(c, b'l', Rest::O),
        Rest::O => after_letter(c, b'o', Rest::Empty),
        Rest::Number => after_first_digit(c),
        Rest::Signed => after_sign(c),
        Rest::Positive => after_positive_digit(c),
        Rest::Digits => after_digit(c),
        Rest::Empty => Rest::Refused,
        Rest::Refused => Rest::Refused,
    }
}

// A word's start.
fn word_start(word: Word, rest: Rest, count: u64) -> Progress
    ensures { result ≡ record { word = word; rest = rest; count = count } }
{
    Progress { word, rest, count }
}

// The start of the word after a complete one.
fn next_word(word: Word, count: u64) -> Progress
    ensures { result ≡ next_word word count }
{
    match word {
        Word::Hello => word_start(Word::Date, Rest::Number, 0),
        Word::Date => word_start(Word::Time, Rest::Number, 0),
        Word::Time => word_start(Word::Tsp, Rest::Number, 0),
        Word::Tsp => word_start(Word::Base, Rest::Number, 0),
        Word::Base => word_start(Word::Count, Rest::Number, 0),
        Word::Delay => word_start(Word::Offset, Rest::Signed, count),
        Word::Count | Word::Line | Word::Offset => REFUSED,
    }
}

// The start of a line, with one newline fewer to come.
fn one_fewer(count: u64) -> Progress
    ensures { result ≡ one_fewer count }
{
    if count == 0 {
        return REFUSED;
    }
    word_start(Word::Line, Rest::Number, count - 1)
}

// The start of the line after a complete word.
fn next_line(word: Word, count: u64) -> Progress
    ensures { result ≡ next_line word count }
{
    match word {
        Word::Count => word_start(Word::Line, Rest::Number, count),
        Word::Offset => one_fewer(count),
        _ => REFUSED,
    }
}

// What is known after a space.
fn after_space(p: Progress) -> Progress
    ensures { result ≡ spaced p }
{
    if is_complete(p.rest) {
        return next_word(p.word, p.count);
    }
    REFUSED
}

// What is known after a newline.
fn after_newline(p: Progress) -> Progress
    ensures { result ≡ ended p }
{
    if is_complete(p.rest) {
        return next_line(p.word, p.count);
    }
    REFUSED
}

// The word that an octet belongs to.
fn word_within(word: Word) -> Word
    ensures { result ≡ word_within word }
{
    match word {
        Word::Line => Word::Delay,
        other => other,
    }
}

// What its rest must be.
fn rest_within(word: Word, rest: Rest, c: u8) -> Rest
    ensures { result ≡ rest_within word rest c }
{
    match word {
        Word::Line => after_first_digit(c),
        _ => narrowed(rest, c),
    }
}

// The count after an octet of a word.
fn count_within(word: Word, count: u64, c: u8) -> u64
    ensures { CountWithin word count c result }
{
    match word {
        Word::Count => more(count, c),
        _ => count,
    }
}

// What is known after an octet of a word.
fn after_octet(p: Progress, c: u8) -> Progress
    ensures { Inside p c result }
{
    word_start(
        word_within(p.word),
        rest_within(p.word, p.rest, c),
        count_within(p.word, p.count, c),
    )
}

// What is known after one more octet.
#[tactic(auto, using(crate::proofs::Onward::steps_as, crate::proofs::Onward::steps_space, crate::proofs::Onward::steps_newline, crate::proofs::Onward::steps_within))]
fn step(p: Progress, c: u8) -> Progress
    ensures { Steps p c result }
{
    if c == b' ' {
        return after_space(p);
    }
    if c == b'\n' {
        return after_newline(p);
    }
    after_octet(p, c)
}

// Whether a text may end here.
fn is_finished(p: Progress) -> bool
    ensures { result ≡ finished p }
{
    p.word == Word::Line && p.count == 0
}

// What is known before the first piece.
#[tactic(auto, using(crate::proofs::LongText::nothing_known))]
pub fn begin() -> Progress
    ensures { After [] result }
{
    word_start(Word::Hello, Rest::Hello, 0)
}

// What is known after one more piece.
pub fn proceed(p: Progress, piece: &[u8]) -> Progress
    ensures { Proceeds p piece.now result }
{
    let mut known = p;
    for &c in piece {
        known = step(known, c);
    }
    known
}

// Why a text that is longer than any that is read is refused, after its last piece.
#[tactic(auto, using(crate::proofs::LongText::long_refused, crate::proofs::LongText::long_range))]
pub fn long_answer(p: Progress) -> Refusal
    ensures { LongAnswer p result }
{
    if is_finished(p) {
        return Refusal::FieldRange;
    }
    Refusal::TextForm
}
