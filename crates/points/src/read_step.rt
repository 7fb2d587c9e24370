// A step of a read: it copies a word of the file into the record's text, or it is the last, which catches up and answers the bytes, or begins again.
ghost use Rattle.std.specs.Prelude.{◌≡◌, true, ◌++◌, ◌≤◌, ◌<◌, length, take, drop};
ghost use Rattle.words.specs.Edition.{one};
ghost use Rattle.words.specs.Memory.{memory};
ghost use Rattle.block_log.specs.CatchUp.{ahead};
ghost use Rattle.points.specs.Record.{is_reading, range_words, file_at, point_of};
ghost use Rattle.points.specs.ReadSteps.{copied_on, with_word, lengthened, finish};
ghost use Rattle.points.specs.Stepping.{stepping};
ghost use Rattle.points.specs.Lent.{TextFits, ahead_of, ReadTells};

use crate::plan::Reports;
use crate::{Head, LentStepped, Numbers, Phase, StepAnswer, Write};
use block_log::{Place, Refusal};

// The bytes of the next word that lie in the range go to the text: from the word's block up to the record's length, and 0 after it.
fn copy_word(image: &[u64], head: Head, table: &[u16; 256], text: &mut [u8; 1024])
    requires { TextFits head.write × (head.write.position < range_words head.write) }
    ensures { text.new
        ≡ with_word one (memory one image.now) (file_at head table.now) head.write text.old }
{
    let write = head.write;
    let start = write.offset as usize;
    let at = 8 * (words::offset::whole_words(start) + write.position as usize);
    let from = start.max(at);
    let to = (start + write.size as usize).min(at + 8);
    let end = from.max(to.min(head.length as usize));
    let b = usize::from(crate::current::mapped(table, words::offset::block(at)));
    crate::read::copy_block(
        image,
        b,
        words::offset::in_block(from),
        text,
        from - start,
        end - from,
    );
    crate::read::clear(text, end - start, to - end);
}

// The read with one word more.
fn copied_on(write: Write) -> Write
    requires { write.position < range_words write }
    ensures { result ≡ copied_on write }
{
    crate::plan::turned(
        write,
        Phase::Reading,
        write.position + 1,
        write.zeroing,
        write.retries,
    )
}

// What the walk from the log place to the tail shows to a read: whether it is broken, whether an entry covers a block of the range, and where it ends.
#[derive(Clone, Copy)]
pub(crate) struct Ahead {
    pub broken: bool,
    pub covered: bool,
    pub place: Place,
}

// A range has one to three blocks: the first, the last, and the one between.
fn look(image: &[u64], blocks: u32, head: Head) -> Ahead
    requires { TextFits head.write }
    ensures { result ≡ ahead_of one blocks head (ahead one (memory one image.now) blocks head.place) }
{
    let write = head.write;
    let v = crate::record::run_first(write);
    let n = crate::record::span(write.offset, write.size);
    let edges = block_log::ahead::look(image, blocks, head.place, v, v + n - 1);
    let middle = block_log::ahead::look(image, blocks, head.place, v + (n >> 1), v);
    let place = edges.place;
    Ahead {
        broken: edges.broken,
        covered: edges.first | edges.last | middle.first,
        place,
    }
}

// Whether the file is longer now, where the range passed its end.
fn lengthened(write: Write, before: u32, now: u32) -> bool
    ensures { result ≡ lengthened write before now }
{
    (before < now) & ((before as u64) < write.offset as u64 + write.size as u64)
}

// The first n bytes of the text go to the front of the lent bytes.
fn hand_over(text: &[u8], bytes: &mut [u8], n: usize)
    requires { (n ≤ length text.now) × (n ≤ length bytes.old) }
    ensures { bytes.new ≡ take n text.now ++ drop n bytes.old }
{
    // Stays: as in `put_text`.
    for i in 0..n {
        bytes[i] = text[i];
    }
}

// The last step: the record catches up; then the copy begins again, or the bytes are answered and the point is idle.
fn finish(
    image: &[u64],
    numbers: Numbers,
    head: Head,
    table: &mut [u16; 256],
    text: &mut [u8; 1024],
    bytes: &mut [u8; 1024],
) -> LentStepped
    requires { TextFits head.write × (numbers.blocks ≤ 1024) }
    ensures { let p = point_of head table.old text.old in
        ReadTells (λ s. finish one (memory one image.now) s p) numbers bytes.old result table.new text.new
        bytes.new }
{
    let seen = look(image, numbers.blocks, head);
    if seen.broken {
        return LentStepped {
            step: StepAnswer::Refused(Refusal::LogBroken),
            head,
            word: 0,
            reports: Reports::NoReport,
        };
    }
    let write = head.write;
    let length = block_log::ahead::catch_up(image, numbers.blocks, head.place, table, head.length);
    let place = seen.place;
    if seen.covered | lengthened(write, head.length, length) {
        *text = crate::record::no_text();
        let again = crate::begin::new_read(write.offset, write.size);
        return LentStepped {
            step: StepAnswer::Moved,
            head: crate::plan::head_of(head.number, length, place, again),
            word: 0,
            reports: Reports::Standing,
        };
    }
    hand_over(text, bytes, write.size as usize);
    *text = crate::record::no_text();
    let idle = crate::plan::no_write();
    LentStepped {
        step: StepAnswer::Bytes(write.size),
        head: crate::plan::head_of(head.number, length, place, idle),
        word: 0,
        reports: Reports::Standing,
    }
}

// A step of a read: nothing is stored.
pub(crate) fn step(
    image: &[u64],
    numbers: Numbers,
    head: Head,
    table: &mut [u16; 256],
    text: &mut [u8; 1024],
    bytes: &mut [u8; 1024],
) -> LentStepped
    requires { is_reading head.write.phase ≡ true }
    ensures { let p = point_of head table.old text.old in
        ReadTells (λ s. stepping one image.now s p) numbers bytes.old result table.new text.new
        bytes.new }
{
    if let Err(refusal) = crate::record::unfit_numbers(image, numbers, head, table) {
        return LentStepped {
            step: StepAnswer::Refused(refusal),
            head,
            word: 0,
            reports: Reports::NoReport,
        };
    }
    let write = head.write;
    if write.position < crate::record::range_words(write) {
        copy_word(image, head, table, text);
        let more = copied_on(write);
        return LentStepped {
            step: StepAnswer::Copied,
            head: crate::plan::head_of(head.number, head.length, head.place, more),
            word: 0,
            reports: Reports::NoReport,
        };
    }
    finish(image, numbers, head, table, text, bytes)
}
