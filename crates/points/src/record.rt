// The tests that every later call begins with, reasons 10, 11 and 14; how many blocks a write spans and where it begins: each is total.
ghost use Rattle.std.specs.Prelude.{◌≡◌, false, List, ℕ, ◌%◌, max, fold};
ghost use Rattle.words.specs.Edition.{one, block_bytes};
ghost use Rattle.words.specs.Logic.{between};
ghost use Rattle.words.specs.Word.{bit};
ghost use Rattle.block_log.specs.Opening.{number_of};
ghost use Rattle.points.specs.Record.{no_text, phase_number, phase_of, is_idle, is_zeroing, is_reading, is_writing, bad_shared, bad_text, past_end, inside};
ghost use Rattle.points.specs.Record.{span, run_first, range_words, place_fits, zeroing_fits, write_fits};
ghost use Rattle.points.specs.Record.{range_fits, work_fits, head_fits, all_below, fits, unfit};
ghost use Rattle.points.specs.Search.{shared_of, Known};

use crate::{Head, Numbers, Phase, Write};
use block_log::{Place, Refusal, Reply, Shared};

// The text of a record without a write: a filled array of zeros.
pub fn no_text() -> [u8; 1024]
    ensures { result ≡ no_text }
{
    [0u8; 1024]
}

// Whether a number is from `low` to `high`.
fn between(low: u32, x: u32, high: u32) -> bool
    ensures { result ≡ between low x high }
{
    (low <= x) & (x <= high)
}

// Whether n blocks from b on lie inside the image, b being a block from 1 on.
pub(crate) fn inside(blocks: u32, b: u32, n: u32) -> bool
    ensures { result ≡ inside blocks b n }
{
    (1 <= b) & (b as u64 + n as u64 <= blocks as u64)
}

// 10. The shared record's block count is not 4 to 1,024, 64 times it is not the image's length, its chain length is not 1 to 64, or a reported block is
// not below the block count.
pub fn bad_numbers(image: &[u64], numbers: Numbers) -> bool
    ensures { (taken reports : List ℕ) → Known numbers reports
        → result ≡ bad_shared one image.now (shared_of numbers taken reports) }
{
    !between(4, numbers.blocks, 1024)
        | (64 * numbers.blocks as usize != image.len())
        | !between(1, numbers.chain, 64)
        | !numbers.inside
}

// The same of a whole shared record.
pub fn bad_shared(image: &[u64], shared: Shared) -> bool
    ensures { result ≡ bad_shared one image.now shared }
{
    bad_numbers(image, crate::shared::numbers(shared))
}

// 14. Whether a point is joined: its bit. No point from 32 on is.
pub fn is_joined(joined: u32, number: u32) -> bool
    ensures { result ≡ bit joined number }
{
    if 31 < number {
        return false;
    }
    (joined >> number) & 1 == 1
}

// A phase as a number.
impl From<Phase> for u32 {
    ghost from_gives = { λ phase number. number ≡ phase_number phase };

    fn from(phase: Phase) -> u32 {
        match phase {
            Phase::Idle => 0,
            Phase::Filling => 1,
            Phase::RefillFirst => 2,
            Phase::RefillLast => 3,
            Phase::RefillBoth => 4,
            Phase::Zeroing => 5,
            Phase::Reading => 6,
        }
    }
}

// And back: numbers above 6 are no phase's, and stand for Idle.
impl From<u32> for Phase {
    ghost from_gives = { λ number phase. phase ≡ phase_of number };

    fn from(number: u32) -> Phase {
        match number {
            1 => Phase::Filling,
            2 => Phase::RefillFirst,
            3 => Phase::RefillLast,
            4 => Phase::RefillBoth,
            5 => Phase::Zeroing,
            6 => Phase::Reading,
            _ => Phase::Idle,
        }
    }
}

impl Phase {
    // Whether neither a write nor a read is under way.
    pub fn is_idle(self) -> bool
        ensures { result ≡ is_idle self }
    {
        matches!(self, Phase::Idle)
    }

    // Whether a log block is being zeroed.
    pub fn is_zeroing(self) -> bool
        ensures { result ≡ is_zeroing self }
    {
        matches!(self, Phase::Zeroing)
    }

    // Whether a read is under way.
    pub fn is_reading(self) -> bool
        ensures { result ≡ is_reading self }
    {
        matches!(self, Phase::Reading)
    }

    // Whether a write is under way.
    pub fn is_writing(self) -> bool
        ensures { result ≡ is_writing self }
    {
        !matches!(self, Phase::Idle | Phase::Reading)
    }
}

// The blocks that a write spans: 1 to 3 where it obeys 16 and 17.
pub fn span(offset: u32, size: u32) -> u32
    ensures { result ≡ span one offset size }
{
    if size == 0 {
        return 1;
    }
    words::offset::blocks_for(words::offset::in_block(offset as usize) + size as usize) as u32
}

// The words of eight bytes that a range touches: up to 129 where it obeys 16 and 17.
pub(crate) fn range_words(write: Write) -> u32
    ensures { result ≡ range_words write }
{
    if write.size == 0 {
        return 1;
    }
    let last = write.offset as usize + write.size as usize - 1;
    let words = words::offset::whole_words(last)
        - words::offset::whole_words(write.offset as usize);
    words as u32 + 1
}

// The virtual block in which a write begins.
pub(crate) fn run_first(write: Write) -> u32
    ensures { result ≡ run_first one write }
{
    words::offset::block(write.offset as usize) as u32
}

// How many bytes of a write's run lie before its text.
pub(crate) fn lead(write: Write) -> u32
    ensures { result ≡ write.offset % block_bytes one }
{
    words::offset::in_block(write.offset as usize) as u32
}

// Whether a log place keeps its ranges.
fn place_fits(blocks: u32, place: Place) -> bool
    ensures { result ≡ place_fits one blocks place }
{
    inside(blocks, place.block, 1) & between(2, place.slot, 64)
}

// Whether the block being zeroed lies inside, the position in it, and the log place is one to link it at.
fn zeroing_fits(blocks: u32, place: Place, write: Write) -> bool
    ensures { result ≡ zeroing_fits one blocks place write }
{
    inside(blocks, write.zeroing, 1) & (write.position <= 64) & (place.slot == 64)
}

// 16. The text, or the range to be read, has 0 or more than 1,024 bytes.
pub fn bad_text(size: usize) -> bool
    ensures { result ≡ bad_text size }
{
    !((1 <= size) & (size <= 1024))
}

// 17. The write, or the range to be read, ends past byte 131,072.
pub fn past_end(offset: usize, size: usize) -> bool
    ensures { result ≡ past_end one offset size }
{
    if 131072 < size {
        return true;
    }
    131072 - size < offset
}

// Whether the write under way fits: 16 and 17, the run, and the position.
fn write_fits(blocks: u32, place: Place, write: Write) -> bool
    ensures { result ≡ write_fits one blocks place write }
{
    let phase = write.phase;
    let n = span(write.offset, write.size);
    let size = write.size as usize;
    let run = !bad_text(size)
        & !past_end(write.offset as usize, size)
        & inside(blocks, write.run, n);
    if !run {
        return false;
    }
    if phase.is_zeroing() {
        return zeroing_fits(blocks, place, write);
    }
    write.position <= crate::plan::run_words(write)
}

// Whether the range of a read under way fits: 16 and 17, and the position.
fn range_fits(write: Write) -> bool
    ensures { result ≡ range_fits one write }
{
    let size = write.size as usize;
    !bad_text(size)
        & !past_end(write.offset as usize, size)
        & (write.position <= range_words(write))
}

// Whether what is under way fits, a write or a read.
fn work_fits(blocks: u32, place: Place, write: Write) -> bool
    ensures { result ≡ work_fits one blocks place write }
{
    let phase = write.phase;
    if phase.is_reading() {
        return range_fits(write);
    }
    write_fits(blocks, place, write)
}

// Whether the numbers of a record fit. An idle record's write is not looked at.
pub fn head_fits(blocks: u32, head: Head) -> bool
    ensures { result ≡ head_fits one blocks head }
{
    let ok = place_fits(blocks, head.place) & (head.length <= 131072);
    let write = head.write;
    let phase = write.phase;
    if phase.is_idle() {
        return ok;
    }
    ok & work_fits(blocks, head.place, write)
}

// The greatest number of a table: the whole table is below what it is below. (A loop without branches, which becomes vectors.)
fn greatest(table: &[u16]) -> u16
    ensures { result ≡ fold max 0 table.now }
{
    table.iter().fold(0, |most, b| most.max(*b))
}

// Whether each entry of a record's table lies inside the image.
pub fn table_fits(blocks: u32, table: &[u16; 256]) -> bool
    ensures { result ≡ all_below blocks table.now }
{
    (greatest(table) as u32) < blocks
}

// 11. Whether a record fits.
pub fn fits(blocks: u32, head: Head, table: &[u16; 256]) -> bool
    ensures { result ≡ fits one blocks head table.now }
{
    head_fits(blocks, head) & table_fits(blocks, table)
}

// The same of a record without a read, test by test. (A step of a write alone calls it: it becomes part of the step, whose numbers stay where they are.)
// Stays: with `fits` and `unfit_numbers` for both, compiled into their callers, the fill of a copied word has 481 instructions in place of 387.
pub(crate) fn fits_unread(blocks: u32, head: Head, table: &[u16; 256]) -> bool
    requires { is_reading head.write.phase ≡ false }
    ensures { result ≡ fits one blocks head table.now }
{
    if !(place_fits(blocks, head.place) & (head.length <= 131072)) {
        return false;
    }
    if !table_fits(blocks, table) {
        return false;
    }
    let write = head.write;
    let phase = write.phase;
    if phase.is_idle() {
        return true;
    }
    write_fits(blocks, head.place, write)
}

// The first of 10, 11 and 14 that holds.
pub fn unfit_numbers(image: &[u64], numbers: Numbers, head: Head, table: &[u16; 256]) -> Reply
    ensures { (taken reports : List ℕ) → Known numbers reports
        → number_of result ≡ unfit one image.now (shared_of numbers taken reports) head table.now }
{
    if bad_numbers(image, numbers) {
        return Err(Refusal::SharedUnfit);
    }
    if !fits(numbers.blocks, head, table) {
        return Err(Refusal::RecordUnfit);
    }
    if !is_joined(numbers.joined, head.number) {
        return Err(Refusal::NotJoined);
    }
    Ok(())
}

// The same of a record without a read.
pub(crate) fn unfit_unread(image: &[u64], numbers: Numbers, head: Head, table: &[u16; 256]) -> Reply
    requires { is_reading head.write.phase ≡ false }
    ensures { (taken reports : List ℕ) → Known numbers reports
        → number_of result ≡ unfit one image.now (shared_of numbers taken reports) head table.now }
{
    if bad_numbers(image, numbers) {
        return Err(Refusal::SharedUnfit);
    }
    if !fits_unread(numbers.blocks, head, table) {
        return Err(Refusal::RecordUnfit);
    }
    if !is_joined(numbers.joined, head.number) {
        return Err(Refusal::NotJoined);
    }
    Ok(())
}

// The same with a whole shared record.
pub fn unfit(image: &[u64], shared: Shared, head: Head, table: &[u16; 256]) -> Reply
    ensures { number_of result ≡ unfit one image.now shared head table.now }
{
    unfit_numbers(image, crate::shared::numbers(shared), head, table)
}
