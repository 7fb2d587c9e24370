// Words and numbers of a line.
ghost use Rattle.std.specs.Prelude.{◌≡◌, ◌≤◌, length, eqb, not};
ghost use Rattle.std.specs.List.{position_from};
ghost use Rattle.session.specs.Scan.{up_to, blanks, after_word, word_at, number_of};

use crate::number::UpTo;

// The words of a line that are still to be read.
#[derive(Clone, Copy)]
pub struct Words<'a> {
    pub rest: &'a [u8],
}

// Where a text's first byte that is no blank stands; and its first blank.
fn first_other(text: &[u8]) -> Option<usize>
    ensures { result ≡ position_from (λ b. not (eqb b 32)) 0 text.now }
{
    text.iter().position(|b| *b != b' ')
}

fn first_blank(text: &[u8]) -> Option<usize>
    ensures { result ≡ position_from (λ b. eqb b 32) 0 text.now }
{
    text.iter().position(|b| *b == b' ')
}

// How many blanks a text begins with.
fn blanks_len(text: &[u8]) -> usize
    ensures value { result ≡ blanks text.now }
    ensures within { result ≤ length text.now }
{
    first_other(text).unwrap_or(text.len())
}

// How many bytes come before a text's first blank, or the whole length.
fn word_len(text: &[u8]) -> usize
    ensures value { result ≡ length (up_to 32 text.now) }
    ensures within { result ≤ length text.now }
{
    first_blank(text).unwrap_or(text.len())
}

impl<'a> Words<'a> {
    pub fn of(line: &'a [u8]) -> Words<'a>
        ensures { result.rest.now ≡ line.now }
    {
        Words { rest: line }
    }

    // The next word: the part itself, empty where there is none.
    pub fn next_word(&mut self) -> &'a [u8]
        ensures word { result.now ≡ word_at 0 self.old.rest.now }
        ensures rest { self.new.rest.now ≡ after_word self.old.rest.now }
    {
        let text = &self.rest[blanks_len(self.rest)..];
        let (word, rest) = text.split_at(word_len(text));
        self.rest = rest;
        word
    }

    // The number that the next word spells.
    pub fn number(&mut self) -> Option<u64>
        ensures number { result ≡ number_of (word_at 0 self.old.rest.now) }
        ensures rest { self.new.rest.now ≡ after_word self.old.rest.now }
    {
        number_of(self.next_word())
    }

    pub fn number32(&mut self) -> Option<u32> {
        u32::try_from(self.number()?).ok()
    }

    pub fn number16(&mut self) -> Option<u16> {
        u16::try_from(self.number()?).ok()
    }

    pub fn number8(&mut self) -> Option<u8> {
        u8::try_from(self.number()?).ok()
    }

    pub fn up_to<const MOST: usize>(&mut self) -> Option<UpTo<MOST>> {
        UpTo::of(self.number()?)
    }

    // All words that are left; none are left here.
    pub fn take(&mut self) -> Words<'a> {
        let taken = *self;
        self.rest = &[];
        taken
    }

    // Nothing where a word is left.
    pub fn end(&mut self) -> Option<()> {
        if self.next_word().is_empty() {
            Some(())
        } else {
            None
        }
    }
}

// The number that a word spells: 1 to 20 digits, below 2^64.
pub fn number_of(word: &[u8]) -> Option<u64>
    ensures { result ≡ number_of word.now }
{
    if word.is_empty() || 20 < word.len() {
        return None;
    }
    let mut value: u64 = 0;
    for b in word {
        if !b.is_ascii_digit() {
            return None;
        }
        value = value.checked_mul(10)?.checked_add(u64::from(*b - b'0'))?;
    }
    Some(value)
}
