// Filling: what a word of the run gets, and which word is next.
ghost use Rattle.std.specs.Prelude.{◌≡◌, true, false, ℕ, ◌+◌, ◌*◌, ◌-◌, ◌≤◌, ◌<◌, get_or};
ghost use Rattle.words.specs.Edition.{one};
ghost use Rattle.words.specs.Logic.{list_from};
ghost use Rattle.words.specs.Word.{byte_of, from_bytes};
ghost use Rattle.words.specs.Memory.{memory};
ghost use Rattle.block_log.specs.Replay.{mapped_byte};
ghost use Rattle.points.specs.declared.Phase.TheVariants.{RefillFirst, RefillLast, RefillBoth};
ghost use Rattle.points.specs.Record.{run_words};
ghost use Rattle.points.specs.Fill.{new_word, copies, pending, seek, next_word};
ghost use Rattle.points.specs.Lent.{TextFits, InRun, mixed_byte};

use crate::{Head, Phase, Write};

// Eight bytes of the text as a word.
// Stays: a rule of the project, shifts place the text's bytes into words; `from_le_bytes` takes an array, which eight such lines would have to make.
pub(crate) fn text_word(text: &[u8; 1024], from: usize) -> u64
    requires { from + 8 ≤ 1024 }
    ensures { result ≡ from_bytes (list_from from 8 (λ i. get_or text.now i 0)) }
{
    u64::from(text[from])
        | u64::from(text[from + 1]) << 8
        | u64::from(text[from + 2]) << 16
        | u64::from(text[from + 3]) << 24
        | u64::from(text[from + 4]) << 32
        | u64::from(text[from + 5]) << 40
        | u64::from(text[from + 6]) << 48
        | u64::from(text[from + 7]) << 56
}

// Word i of a block, as it is now; 0 for block 0, where nothing is mapped. (Compiled into each caller: with a call for each word a list of one point takes a
// third longer.)
// Stays: 0 for none, as in the table's own numbers (`mapped`).
#[inline(always)]
pub(crate) fn mapped_word(image: &[u64], b: usize, i: usize) -> u64
    ensures { (j : ℕ) → j < 8 → byte_of result j ≡ mapped_byte (memory one image.now) b (8 * i + j) }
{
    if b == 0 {
        return 0;
    }
    words::image::word(words::image::block(image, b), i)
}

// Byte p of the run: of the text, which is its bytes from `lead` to `end`, or of the word that is copied to the bytes from `at` on.
fn mixed_byte(copied: u64, text: &[u8; 1024], lead: usize, end: usize, at: usize, p: usize) -> u64
    requires { (at ≤ p) × (end ≤ lead + 1024) }
    ensures { (result ≡ mixed_byte copied text.now lead end at p) × (result < 256) }
{
    if p < lead {
        return words::bytes::byte(copied, (p - at) as u64);
    }
    if end <= p {
        return words::bytes::byte(copied, (p - at) as u64);
    }
    u64::from(text[p - lead])
}

// The word at bytes `at` to `at + 7` of the run, put together byte by byte: for the words at the text's edges.
pub(crate) fn edge_word(copied: u64, text: &[u8; 1024], lead: usize, end: usize, at: usize) -> u64
    requires { (end ≤ lead + 1024) × (at ≤ 1536) }
    ensures { result ≡ from_bytes (list_from at 8 (mixed_byte copied text.now lead end at)) }
{
    let mut word: u64 = 0;
    for p in (at..at + 8).rev() {
        word = word << 8 | mixed_byte(copied, text, lead, end, at, p);
    }
    word
}

// The word at bytes `at` to `at + 7` of the run, not all of which are the text's, from the word that is copied there.
#[inline(always)]
pub(crate) fn mixed_word(copied: u64, text: &[u8; 1024], lead: usize, end: usize, at: usize) -> u64
    requires { (end ≤ lead + 1024) × (at ≤ 1536) }
    ensures { result ≡ from_bytes (list_from at 8 (mixed_byte copied text.now lead end at)) }
{
    if at + 8 <= lead {
        return copied;
    }
    if end <= at {
        return copied;
    }
    edge_word(copied, text, lead, end, at)
}

// Word k of the run: bytes of the write from its text, the others copied from the mapped block as it is now, or 0.
pub(crate) fn new_word<'a>(
    image: &[u64],
    head: Head,
    table: &'a [u16; 256],
    text: &'a [u8; 1024],
    k: u32,
) -> u64
    requires { TextFits head.write × (k < run_words one head.write) }
    ensures { result ≡ new_word one (memory one image.now) head table.now text.now k }
{
    let write = head.write;
    let lead = crate::record::lead(write) as usize;
    let end = lead + write.size as usize;
    let at = 8 * k as usize;
    if lead <= at {
        if at + 8 <= end {
            return text_word(text, at - lead);
        }
    }
    let v = crate::record::run_first(write) as usize + words::offset::block(at);
    let copied = mapped_word(image, usize::from(table[v]), words::offset::word(at));
    mixed_word(copied, text, lead, end, at)
}

// The first word from a place on that has a copied byte, be it of the run or past it.
fn copied_from(write: Write, from: u32) -> u32
    requires { (write.size ≤ 1024) × (from ≤ 192) }
    ensures { (from ≤ result) × (copies one write result ≡ true) × ((y : ℕ) → from ≤ y → y < result → copies one write y ≡ false) }
{
    let lead = crate::record::lead(write);
    if 8 * from < lead {
        return from;
    }
    from.max(words::offset::whole_words((lead + write.size) as usize) as u32)
}

// The next word to fill again in the run's first block, or the run's words.
fn next_in_first(write: Write, words: u32) -> u32
    requires { InRun write words }
    ensures { result ≡ seek write.position (run_words one write - write.position) (pending RefillFirst one write) }
{
    let k = copied_from(write, write.position);
    if k < 64 {
        return k;
    }
    words
}

// The next word to fill again in the run's last block, where that is not the first, or the run's words.
fn next_in_last(write: Write, words: u32) -> u32
    requires { InRun write words }
    ensures { result ≡ seek write.position (run_words one write - write.position) (pending RefillLast one write) }
{
    let k = copied_from(write, write.position.max(64));
    if k < words {
        return k;
    }
    words
}

// The next word to fill again in either, or the run's words.
fn next_in_both(write: Write, words: u32) -> u32
    requires { InRun write words }
    ensures { result ≡ seek write.position (run_words one write - write.position) (pending RefillBoth one write) }
{
    let k = copied_from(write, write.position);
    if k < 64 {
        return k;
    }
    next_in_last(write, words)
}

// The next word of the run to fill, or the run's words where none is left.
pub(crate) fn next_word(write: Write, words: u32) -> u32
    requires { InRun write words }
    ensures { result ≡ next_word one write }
{
    let phase = write.phase;
    match phase {
        Phase::Idle => words,
        Phase::Filling => write.position,
        Phase::RefillFirst => next_in_first(write, words),
        Phase::RefillLast => next_in_last(write, words),
        Phase::RefillBoth => next_in_both(write, words),
        Phase::Zeroing => words,
        Phase::Reading => words,
    }
}
