// Serving a list of points: what its batches are made of. A point is tested where its write begins; its words are filled by rows, found once for a block.
ghost use Rattle.std.specs.Prelude.{◌≡◌, true, false, List, length, get_or, ℕ, ◌+◌, ◌*◌, ◌≤◌, ◌<◌, Some};
ghost use Rattle.words.specs.Edition.{one};
ghost use Rattle.words.specs.Word.{byte_of};
ghost use Rattle.words.specs.Memory.{memory, word_at};
ghost use Rattle.block_log.specs.Parts.{Mappable};
ghost use Rattle.block_log.specs.Replay.{mapped_byte, map_run, apply};
ghost use Rattle.points.specs.declared.Phase.TheVariants.{Filling};
ghost use Rattle.points.specs.declared.Head.{Head};
ghost use Rattle.points.specs.Record.{text_max, run_words};
ghost use Rattle.points.specs.Fill.{new_word};
ghost use Rattle.points.specs.Batch.{filled_at, filled_on, row_of, Fillable, Prepared, InRow, InOneBlock};
ghost use Rattle.points.specs.Batch.{copied_word, mixed_word, row_word, row_put, row_stored, round_stored, rounds_stored, RowIn, RowHolds, RowFits, RowsFit};
ghost use Rattle.points.specs.Batch.{Filled, Alone, Aside, Passes, passing, MovesByOne, Enterable, Commits, CommitsByHead};

use crate::{Head, Phase, Write};
use block_log::Place;

// What the words of one block of a run need, found once: the run's first block, the block that is mapped there, 0 for none, and the bytes of the run that
// are the text's, from `lead` to `end`.
#[derive(Clone, Copy)]
pub struct Row {
    pub run: u32,
    pub from: u32,
    pub lead: u32,
    pub end: u32,
}

// What a row is to store next: word `next` of its run, and those after it.
#[derive(Clone, Copy)]
pub struct Due {
    pub row: Row,
    pub next: u32,
}

// The row of the block of the run in which word k lies.
pub fn row_at(head: Head, table: &[u16; 256], k: u32) -> Row
    ensures { (Fillable head k → result ≡ row_of one head table.now k) × (result.end ≤ result.lead + text_max) }
{
    let write = head.write;
    let lead = crate::record::lead(write);
    let size = write.size.min(1024);
    let v = crate::record::run_first(write) as usize + words::offset::block(8 * k as usize);
    Row {
        run: write.run,
        from: u32::from(crate::current::mapped(table, v)),
        lead,
        end: lead + size,
    }
}

// Word k of the run, by its row.
// Stays: `fill_words` promises its words in any image, where one outside reads as 0; `next_word` and `copied_word` ask for a row that was tested (RowIn).
fn row_word<'a>(image: &'a [u64], row: Row, text: &'a [u8; 1024], k: u32) -> u64
    requires { InRow row k }
    ensures { (h : Head) (table : List ℕ) → Prepared row h table k
        → result ≡ new_word one (memory one image.now) h table text.now k }
{
    let at = 8 * k as usize;
    let lead = row.lead as usize;
    let end = row.end as usize;
    if lead <= at {
        if at + 8 <= end {
            return crate::fill::text_word(text, at - lead);
        }
    }
    let copied = crate::fill::mapped_word(image, row.from as usize, words::offset::word(at));
    crate::fill::mixed_word(copied, text, lead, end, at)
}

// Word k of the run is stored: one store, behind a branch of the word's own, so that stores stay single.
fn put_row_word(image: &mut [u64], row: Row, text: &[u8; 1024], k: u32)
    requires { InRow row k }
    ensures { (h : Head) (table : List ℕ) → Prepared row h table k
        → image.new ≡ filled_at one h table text.now k image.old }
{
    let word = row_word(image, row, text, k);
    words::image::store(image, row.run, k as usize, word);
}

// m words of the run from word k on, all in one block, are stored: each is found in the image as it is then.
pub fn fill_words(
    image: &mut [u64],
    head: Head,
    table: &[u16; 256],
    text: &[u8; 1024],
    k: u32,
    m: u32,
)
    ensures { InOneBlock head k m
        → image.new ≡ filled_on one head table.now text.now k m image.old }
{
    if 192 < k as u64 + m as u64 {
        return;
    }
    let row = row_at(head, table, k);
    for i in k..k + m {
        put_row_word(image, row, text, i);
    }
}

// Word i of a block that lies inside, 0 for block 0.
// Stays: 0 for none, as in the table's own numbers (`mapped`).
fn copied_word(image: &[u64], b: u32, i: usize) -> u64
    requires { (64 * b + 64 ≤ length image.now) × (i < 64) }
    ensures { result ≡ copied_word image.now b i }
{
    if b == 0 {
        return 0;
    }
    image[64 * b as usize + i]
}

// Word k that a row stores.
fn next_word<'a>(image: &'a [u64], row: Row, text: &'a [u8; 1024], k: u32) -> u64
    requires { RowIn (length image.now) row k }
    ensures { result ≡ row_word image.now row text.now k }
{
    let at = 8 * k as usize;
    let lead = row.lead as usize;
    let end = row.end as usize;
    if lead <= at {
        if at + 8 <= end {
            return crate::fill::text_word(text, at - lead);
        }
    }
    let copied = copied_word(image, row.from, words::offset::word(at));
    crate::fill::mixed_word(copied, text, lead, end, at)
}

// It is stored: the part from the run's first block on is lent on.
fn put_next(image: &mut [u64], row: Row, text: &[u8; 1024], k: u32)
    requires { RowIn (length image.old) row k }
    ensures { image.new ≡ row_put row text.now k image.old }
{
    let word = next_word(image, row, text, k);
    let at = 64 * row.run as usize;
    words::image::put_word(&mut image[at..], k as usize, word);
}

// A point's turn in round r: one store, behind branches of the word's own, so that stores stay single.
fn fill_turn(image: &mut [u64], due: Option<Due>, text: &[u8; 1024], r: u32, m: u32)
    requires { RowFits (length image.old) m due × (r < m) }
    ensures { image.new ≡ row_stored r due text.now image.old }
{
    if let Some(due) = due {
        put_next(image, due.row, text, due.next + r);
    }
}

// Round r.
fn fill_round(image: &mut [u64], rows: &[Option<Due>], texts: &[[u8; 1024]], r: u32, m: u32)
    requires { RowsFit (length image.old) m rows.now texts.now × (r < m) }
    ensures { image.new ≡ round_stored r (length texts.now) rows.now texts.now image.old }
{
    for (due, text) in rows.iter().zip(texts) {
        fill_turn(image, *due, text, r, m);
    }
}

// Whether so many words may be stored by a row.
fn row_fits(size: usize, due: Due, m: u32) -> bool
    ensures { (result ≡ true → RowHolds size due m) × (RowHolds size due m → result ≡ true) }
{
    let row = due.row;
    if row.lead as u64 + 1024 < row.end as u64 {
        return false;
    }
    if 192 < due.next as u64 + m as u64 {
        return false;
    }
    if size < 64 * row.run as usize {
        return false;
    }
    64 * row.from as usize + 64 <= size
}

// Whether they may where the row stores.
fn fits(size: usize, due: Option<Due>, m: u32) -> bool
    ensures { (result ≡ true → RowFits size m due) × (RowFits size m due → result ≡ true) }
{
    match due {
        Some(due) => row_fits(size, due, m),
        None => true,
    }
}

// Whether they may by every row, and there is a row for each text.
fn rows_fit(size: usize, rows: &[Option<Due>], texts: &[[u8; 1024]], m: u32) -> bool
    ensures { (result ≡ true → RowsFit size m rows.now texts.now)
        × (RowsFit size m rows.now texts.now → result ≡ true) }
{
    if rows.len() < texts.len() {
        return false;
    }
    for due in &rows[..texts.len()] {
        if !fits(size, *due, m) {
            return false;
        }
    }
    true
}

// m rounds in each of which every row stores its next word, in order; a row that is None stores nothing. Each row is tested once; where one does not fit
// nothing is stored.
pub fn fill_rounds(image: &mut [u64], rows: &[Option<Due>], texts: &[[u8; 1024]], m: u32)
    ensures { RowsFit (length image.old) m rows.now texts.now
        → image.new ≡ rounds_stored m (length texts.now) rows.now texts.now image.old }
{
    if !rows_fit(image.len(), rows, texts, m) {
        return;
    }
    for r in 0..m {
        fill_round(image, rows, texts, r, m);
    }
}

// Whether a write has no word left to fill.
fn has_filled(write: Write) -> bool
    ensures { result ≡ true → Filled one write }
{
    let phase = write.phase;
    if write.position != crate::plan::run_words(write) {
        return false;
    }
    matches!(phase, Phase::Filling)
}

// The word at a slot, where it is not 0 and the next slot is empty.
fn word_alone(image: &[u64], place: Place) -> Option<u64>
    ensures { (e : ℕ) → result ≡ Some e → Alone one (memory one image.now) place e }
{
    if 62 < place.slot {
        return None;
    }
    let slot = place.slot as usize;
    let part = words::image::block(image, place.block as usize);
    let word = words::image::word(part, slot);
    if word == 0 {
        return None;
    }
    if words::image::word(part, slot + 1) != 0 {
        return None;
    }
    Some(word)
}

// Whether an entry keeps the rules, in an image of at most 1,024 blocks, and maps none of the write's.
fn passes(e: u64, blocks: u32, write: Write) -> bool
    ensures { result ≡ true → Aside one blocks write e }
{
    if 1024 < blocks {
        return false;
    }
    if !block_log::is_legal(e, blocks as u64) {
        return false;
    }
    let v = block_log::first_virtual(e);
    let first = crate::record::run_first(write) as u64;
    if first + crate::record::span(write.offset, write.size) as u64 <= v {
        return true;
    }
    v + block_log::count(e) <= first
}

// The entry at the log place that a point moves on by, where there is one and nothing more is to be looked at.
fn entry_alone(image: &[u64], blocks: u32, head: Head) -> Option<u64>
    ensures { (e : ℕ) → result ≡ Some e → Passes one (memory one image.now) blocks head e }
{
    if !has_filled(head.write) {
        return None;
    }
    let e = word_alone(image, head.place)?;
    if !passes(e, blocks, head.write) {
        return None;
    }
    Some(e)
}

// The head one slot on.
fn passing(head: Head, length: u32) -> Head
    requires { (head.write.position ≡ run_words one head.write) × (head.place.slot < 64) }
    ensures { result ≡ passing one head length }
{
    let write = head.write;
    let retries = crate::plan::retried(write);
    let later = crate::plan::turned(
        write,
        Phase::Filling,
        write.position,
        write.zeroing,
        retries,
    );
    crate::plan::head_of(
        head.number,
        length,
        crate::plan::next_slot(head.place),
        later,
    )
}

// A point that has filled its run moves on by one legal entry, where that is all that is ahead and maps none of the write's blocks: it is not looked at
// whether the record fits. Its numbers then; otherwise nothing changes.
pub fn move_by_one(image: &[u64], blocks: u32, head: Head, table: &mut [u16; 256]) -> Option<Head>
    ensures { MovesByOne image.now blocks head table.old result table.new }
{
    let e = entry_alone(image, blocks, head)?;
    let length = block_log::ahead::take_entry(e, table, head.length);
    Some(passing(head, length))
}

// Whether the slot of a log place is there, and empty.
fn is_empty(image: &[u64], place: Place) -> bool
    ensures { result ≡ true → (place.slot < 64) × (word_at (memory one image.now) place.block place.slot ≡ 0) }
{
    if 63 < place.slot {
        return false;
    }
    words::image::word(
        words::image::block(image, place.block as usize),
        place.slot as usize,
    ) == 0
}

// Whether the entry of a write may be put together and taken in.
fn is_enterable(head: Head) -> bool
    ensures { result ≡ true → Enterable head }
{
    let write = head.write;
    let size = write.size as usize;
    if crate::record::bad_text(size) {
        return false;
    }
    if crate::record::past_end(write.offset as usize, size) {
        return false;
    }
    if 31 < head.number {
        return false;
    }
    crate::record::inside(
        1024,
        write.run,
        crate::record::span(write.offset, write.size),
    )
}

// Whether the step of a write commits, and by the head alone.
fn commits(image: &[u64], head: Head) -> bool
    ensures { result ≡ true → Commits (memory one image.now) head }
{
    if !has_filled(head.write) {
        return false;
    }
    if !is_empty(image, head.place) {
        return false;
    }
    is_enterable(head)
}

// A point that has filled its run commits, where the word at its log place is empty: it is not looked at whether the record fits. Its numbers then;
// otherwise nothing changes.
pub fn commit_by_head(
    image: &mut [u64],
    taken: &mut [u64; 16],
    head: Head,
    table: &mut [u16; 256],
    text: &mut [u8; 1024],
) -> Option<Head>
    ensures { CommitsByHead image.old taken.old head table.old text.old result
        image.new taken.new table.new text.new }
{
    if !commits(image, head) {
        return None;
    }
    let entry = crate::commit::entry_for(head);
    crate::release::free_replaced(taken, table, head.write);
    let length = block_log::ahead::take_entry(entry, table, head.length);
    *text = crate::record::no_text();
    let place = head.place;
    words::image::store(image, place.block, place.slot as usize, entry);
    let idle = crate::plan::no_write();
    Some(crate::plan::head_of(head.number, length, crate::plan::next_slot(place), idle))
}
