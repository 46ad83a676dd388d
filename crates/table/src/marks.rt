// The marks of host ids: which hosts live here.
ghost use Rattle.std.specs.Prelude.{◌≡◌, ◌-◌, ◌%◌};
ghost use Rattle.table.specs.Marks.{no_marks, bit, mark, none_from};
ghost use Rattle.table.specs.code.Words.{word_of, zero_from};

// The marks of the ids from 0 to 255: that of an id is bit id % 64 of word id / 64, the lowest bit first.
#[repr(C)]
#[derive(Clone, Copy)]
pub struct Marks {
    pub words: [u64; 4],
}

pub fn none() -> Marks
    ensures { result ≡ no_marks }
{
    Marks { words: [0; 4] }
}

// The word with an id's mark, or 0 where there is none. Each word is named: one that is taken by a number worked out has all words copied first. A match of ranges is a few comparisons, and one of id / 64 a table of jumps.
pub fn word_of(m: Marks, id: usize) -> u64
    ensures { result ≡ word_of m id }
{
    match id {
        0..=63 => m.words[0],
        64..=127 => m.words[1],
        128..=191 => m.words[2],
        192..=255 => m.words[3],
        _ => 0,
    }
}

// The mark of an id in its word, 1 or 0.
pub fn mark_in(word: u64, id: usize) -> u8
    ensures { result ≡ bit word (id % 64) }
{
    ((word >> (id % 64)) % 2) as u8
}

// The mark of an id, 1 or 0.
#[tactic(auto, unfolding(crate::specs::Marks::mark))]
pub fn mark(m: Marks, id: usize) -> u8
    ensures { result ≡ mark m id }
{
    mark_in(word_of(m, id), id)
}

// Are the bits of a word from the n-th on zero?
#[tactic(auto, using(crate::proofs::Bits::word_zero))]
fn zero_from(word: u64, n: usize) -> bool
    ensures { result ≡ zero_from word n }
{
    n >= 64 || word >> n == 0
}

// Is no id from n on marked, by all words?
#[tactic(auto, using(crate::proofs::Bits::four_words))]
fn none_in_words(m: Marks, n: usize) -> bool
    ensures { result ≡ none_from m n }
{
    zero_from(m.words[0], n)
        & zero_from(m.words[1], n.saturating_sub(64))
        & zero_from(m.words[2], n.saturating_sub(128))
        & zero_from(m.words[3], n.saturating_sub(192))
}

// Is no id from n on marked? Where only the first word has marks, that one is looked at.
#[tactic(auto, using(crate::proofs::Bits::first_word_alone))]
pub fn none_from(m: Marks, n: usize) -> bool
    ensures { result ≡ none_from m n }
{
    if m.words[1] == 0 && m.words[2] == 0 && m.words[3] == 0 {
        return zero_from(m.words[0], n);
    }
    none_in_words(m, n)
}
