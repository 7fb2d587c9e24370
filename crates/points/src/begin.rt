// Beginning a write, and beginning a read.
ghost use Rattle.std.specs.Prelude.{◌≡◌, List, ℕ, ◌≤◌, length};
ghost use Rattle.words.specs.Edition.{one};
ghost use Rattle.points.specs.Record.{point_of};
ghost use Rattle.points.specs.Calls.{new_write, new_read, text_of, beginning, beginning_read};
ghost use Rattle.points.specs.Start.{Settled, Started};
ghost use Rattle.points.specs.Search.{shared_of, Known};
ghost use Rattle.points.specs.Lent.{begun_of};

use crate::{Begun, Head, LentBegun, Numbers, Phase, Point, Write};
use block_log::{Place, Refusal, Shared};

// What is settled before a write's beginning changes anything: the log place at the tail; the run's first block.
#[derive(Clone, Copy)]
struct Start {
    place: Place,
    run: u32,
}

// The first reason that holds of those that a write and a read share, 18 being the last; where none does, the log place at the tail: the walk to it
// settles both. Nothing is changed.
fn settle(
    image: &[u64],
    numbers: Numbers,
    head: Head,
    table: &[u16; 256],
    offset: usize,
    size: usize,
) -> Result<Place, Refusal>
    ensures { Settled image.now numbers head table.now offset size result }
{
    crate::record::unfit_numbers(image, numbers, head, table)?;
    let write = head.write;
    let phase = write.phase;
    if !phase.is_idle() {
        return Err(Refusal::WrongPhase);
    }
    if crate::record::bad_text(size) {
        return Err(Refusal::TextSize);
    }
    if crate::record::past_end(offset, size) {
        return Err(Refusal::PastEnd);
    }
    let seen = block_log::ahead::look(image, numbers.blocks, head.place, 0, 0);
    if seen.broken {
        return Err(Refusal::LogBroken);
    }
    Ok(seen.place)
}

// The same for a write, with 19: the search settles it.
fn settle_write(
    image: &[u64],
    numbers: Numbers,
    taken: &[u64; 16],
    head: Head,
    table: &[u16; 256],
    offset: usize,
    size: usize,
) -> Result<Start, Refusal>
    ensures { (reports : List ℕ) → Known numbers reports → Started image.now (shared_of numbers taken.now reports) head
        table.now offset size result }
{
    let place = settle(image, numbers, head, table, offset, size)?;
    let span = crate::record::span(offset as u32, size as u32);
    let run = words::map::search(taken, numbers.blocks, span);
    if run == 0 {
        return Err(Refusal::NoRun);
    }
    Ok(Start { place, run })
}

// The record's array gets the text, and 0 after its end.
fn put_text(kept: &mut [u8; 1024], text: &[u8])
    requires { length text.now ≤ 1024 }
    ensures { kept.new ≡ text_of text.now }
{
    *kept = crate::record::no_text();
    // Stays: `copy_from_slice` here and in `hand_over` makes the library for C need `memmove` from outside, which it did not.
    for i in 0..text.len() {
        kept[i] = text[i];
    }
}

// The write as it begins.
fn new_write(offset: u32, size: u32, run: u32) -> Write
    ensures { result ≡ new_write offset size run }
{
    Write {
        offset,
        size,
        run,
        phase: Phase::Filling,
        position: 0,
        zeroing: 0,
        retries: 0,
    }
}

// The read as it begins.
pub(crate) fn new_read(offset: u32, size: u32) -> Write
    ensures { result ≡ new_read offset size }
{
    Write {
        offset,
        size,
        run: 0,
        phase: Phase::Reading,
        position: 0,
        zeroing: 0,
        retries: 0,
    }
}

// Beginning, with the map and the record's table and text lent: the point catches up and takes a run of the blocks that the write spans.
pub fn begin_lent(
    image: &[u64],
    numbers: Numbers,
    taken: &mut [u64; 16],
    head: Head,
    table: &mut [u16; 256],
    text: &mut [u8; 1024],
    offset: usize,
    bytes: &[u8],
) -> LentBegun
    ensures { (reports : List ℕ) → Known numbers reports → begun_of numbers result taken.new reports table.new text.new
        ≡ beginning one image.now (shared_of numbers taken.old reports) (point_of head table.old text.old)
        offset bytes.now }
{
    let start = match settle_write(image, numbers, taken, head, table, offset, bytes.len()) {
        Ok(start) => start,
        Err(refusal) => {
            return LentBegun {
                reply: Err(refusal),
                head,
            };
        }
    };
    let length = block_log::ahead::catch_up(image, numbers.blocks, head.place, table, head.length);
    put_text(text, bytes);
    let at = offset as u32;
    let size = bytes.len() as u32;
    let span = crate::record::span(at, size);
    words::map::set_run(taken, start.run as usize, span as usize, true);
    LentBegun {
        reply: Ok(()),
        head: crate::plan::head_of(
            head.number,
            length,
            start.place,
            new_write(at, size, start.run),
        ),
    }
}

// Beginning a read, with the record's table and text lent: the point catches up. It takes no block.
pub fn begin_read_lent(
    image: &[u64],
    numbers: Numbers,
    head: Head,
    table: &mut [u16; 256],
    text: &mut [u8; 1024],
    offset: usize,
    size: usize,
) -> LentBegun
    ensures { (taken reports : List ℕ) → Known numbers reports → begun_of numbers result taken reports table.new text.new
        ≡ beginning_read one image.now (shared_of numbers taken reports) (point_of head table.old text.old)
        offset size }
{
    let place = match settle(image, numbers, head, table, offset, size) {
        Ok(place) => place,
        Err(refusal) => {
            return LentBegun {
                reply: Err(refusal),
                head,
            };
        }
    };
    let length = block_log::ahead::catch_up(image, numbers.blocks, head.place, table, head.length);
    *text = crate::record::no_text();
    LentBegun {
        reply: Ok(()),
        head: crate::plan::head_of(
            head.number,
            length,
            place,
            new_read(offset as u32, size as u32),
        ),
    }
}

// Beginning.
pub fn begin(image: &[u64], shared: Shared, point: Point, offset: usize, text: &[u8]) -> Begun
    ensures { result ≡ beginning one image.now shared point offset text.now }
{
    let numbers = crate::shared::numbers(shared);
    let mut taken = shared.taken;
    let head = point.head;
    let mut table = point.table;
    let mut kept = point.text;
    let left = begin_lent(
        image, numbers, &mut taken, head, &mut table, &mut kept, offset, text,
    );
    let reply = left.reply;
    let head = left.head;
    Begun {
        reply,
        shared: crate::shared::begun(crate::shared::with_taken(shared, taken), reply, head),
        point: Point {
            head,
            table,
            text: kept,
        },
    }
}

// Beginning a read.
pub fn begin_read(image: &[u64], shared: Shared, point: Point, offset: usize, size: usize) -> Begun
    ensures { result ≡ beginning_read one image.now shared point offset size }
{
    let numbers = crate::shared::numbers(shared);
    let head = point.head;
    let mut table = point.table;
    let mut kept = point.text;
    let left = begin_read_lent(image, numbers, head, &mut table, &mut kept, offset, size);
    let reply = left.reply;
    let head = left.head;
    Begun {
        reply,
        shared: crate::shared::begun(shared, reply, head),
        point: Point {
            head,
            table,
            text: kept,
        },
    }
}
