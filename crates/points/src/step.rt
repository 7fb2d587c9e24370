// Stepping: a step first settles, with the image lent for reading only, which word gets which value, if any, then stores it.
ghost use Rattle.std.specs.Prelude.{◌≡◌, true, false, List, ℕ, ◌<◌};
ghost use Rattle.words.specs.Edition.{one};
ghost use Rattle.words.specs.Memory.{memory};
ghost use Rattle.block_log.specs.declared.Shared.{Shared};
ghost use Rattle.points.specs.Record.{run_words, is_zeroing, is_reading, point_of};
ghost use Rattle.points.specs.Search.{shared_of, Known};
ghost use Rattle.points.specs.Plan.{read_in, text_after, stores, store_of};
ghost use Rattle.points.specs.Stepping.{fill, filling, write_on, planned, StepLeaves};
ghost use Rattle.points.specs.Lent.{Plans, Readable, StepsOn, TextFits, Lengthens, Stores, WriteTells, StepTells, stepped_of};

use crate::plan::{Kind, Plan, Reads, Reports};
use crate::{Head, LentStepped, Numbers, Point, Stepped};
use block_log::{Place, Refusal, Shared};

// Word k of the run is filled.
fn fill<'a>(image: &[u64], head: Head, table: &'a [u16; 256], text: &'a [u8; 1024], k: u32) -> Plan
    requires { TextFits head.write × (k < run_words one head.write) }
    ensures { (s : Shared) → result ≡ fill one (memory one image.now) s (point_of head table.now text.now) k }
{
    let write = head.write;
    let phase = write.phase;
    let value = crate::fill::new_word(image, head, table, text, k);
    let filled = crate::plan::turned(write, phase, k + 1, write.zeroing, write.retries);
    crate::plan::storing(
        Kind::Fill,
        write.run,
        k,
        value,
        head.place,
        filled,
        Reports::NoReport,
    )
}

// The next word of the run is filled; where none is left, the step commits.
fn filling<'a>(
    image: &[u64],
    numbers: Numbers,
    taken: &'a [u64; 16],
    head: Head,
    table: &'a [u16; 256],
    text: &'a [u8; 1024],
) -> Plan
    requires { StepsOn image.now numbers taken.now head table.now × (is_zeroing head.write.phase ≡ false) }
    ensures { Plans filling image.now numbers taken.now head table.now text.now result }
{
    let words = crate::plan::run_words(head.write);
    let k = crate::fill::next_word(head.write, words);
    if k < words {
        return fill(image, head, table, text, k);
    }
    crate::commit::committing(image, numbers, taken, head, table)
}

// What a step does that is not refused.
fn write_on<'a>(
    image: &[u64],
    numbers: Numbers,
    taken: &'a [u64; 16],
    head: Head,
    table: &'a [u16; 256],
    text: &'a [u8; 1024],
) -> Plan
    requires { StepsOn image.now numbers taken.now head table.now }
    ensures { Plans write_on image.now numbers taken.now head table.now text.now result }
{
    let write = head.write;
    let phase = write.phase;
    if phase.is_zeroing() {
        return crate::extend::extending(image, numbers.chain, head);
    }
    filling(image, numbers, taken, head, table, text)
}

// The plan of a write's step.
fn settle<'a>(
    image: &[u64],
    numbers: Numbers,
    taken: &'a [u64; 16],
    head: Head,
    table: &'a [u16; 256],
    text: &'a [u8; 1024],
) -> Plan
    requires { is_reading head.write.phase ≡ false }
    ensures { (reports : List ℕ) → Known numbers reports → result
        ≡ planned one image.now (shared_of numbers taken.now reports) (point_of head table.now text.now) }
{
    if let Err(refusal) = crate::record::unfit_unread(image, numbers, head, table) {
        return crate::plan::refused(head, refusal);
    }
    let write = head.write;
    let phase = write.phase;
    if phase.is_idle() {
        return crate::plan::refused(head, Refusal::WrongPhase);
    }
    write_on(image, numbers, taken, head, table, text)
}

// The table takes in what the plan says: nothing, the entry stored, or all entries ahead. Answers the length that the record has then.
fn read_in(
    image: &[u64],
    blocks: u32,
    at: Place,
    table: &mut [u16; 256],
    length: u32,
    reads: Reads,
    entry: u64,
) -> u32
    requires { Readable reads one (memory one image.now) blocks at entry }
    ensures { record { table = table.exit.now; size = result }
        ≡ read_in reads one (memory one image.now) blocks at entry (record { table = table.entry.now; size = length }) }
{
    match reads {
        Reads::NoEntry => length,
        Reads::OwnEntry => block_log::ahead::take_entry(entry, table, length),
        Reads::AllAhead => block_log::ahead::catch_up(image, blocks, at, table, length),
    }
}

// The text stays, or is cleared.
fn keep_text(text: &mut [u8; 1024], clears: bool)
    ensures { text.new ≡ text_after clears text.old }
{
    if clears {
        *text = crate::record::no_text();
    }
}

// Whether a store is made.
fn stores(kind: Kind) -> bool
    ensures { result ≡ stores kind }
{
    !matches!(kind, Kind::NoStore)
}

// The one store of a step, if it has one: the image is lent on as a mutable part that begins at the plan's block, for filling at the run's first word.
// Answers which word of the image it was, 0 for none.
// Stays: 0 for none, as the definition `stored_at` has it.
fn store(image: &mut [u64], kind: Kind, block: u32, word: u32, value: u64) -> usize
    ensures { Stores image.old (store_of one kind block word value) image.new result }
{
    if stores(kind) {
        words::image::store(image, block, word as usize, value);
        return block as usize * 64 + word as usize;
    }
    0
}

// A step of a write, with the shared record's map and the record's table and text lent.
fn write_lent(
    image: &mut [u64],
    numbers: Numbers,
    taken: &mut [u64; 16],
    head: Head,
    table: &mut [u16; 256],
    text: &mut [u8; 1024],
) -> LentStepped
    requires { is_reading head.write.phase ≡ false }
    ensures { ((reports : List ℕ) → Known numbers reports
        → WriteTells image.old (shared_of numbers taken.old reports) (point_of head table.old text.old)
        (stepped_of numbers result taken.new reports table.new text.new) image.new result.word)
        × Lengthens result.reports numbers.chain }
{
    let plan = settle(image, numbers, taken, head, table, text);
    let frees = plan.frees;
    crate::release::release(taken, frees, head.write, table);
    crate::shared::take_one(taken, plan.takes);
    let reads = plan.reads;
    let length = read_in(
        image,
        numbers.blocks,
        head.place,
        table,
        head.length,
        reads,
        plan.value,
    );
    keep_text(text, plan.clears);
    let kind = plan.kind;
    let word = store(image, kind, plan.block, plan.word, plan.value);
    let left = crate::plan::head_of(head.number, length, plan.place, plan.write);
    let answer = plan.step;
    let reports = plan.reports;
    LentStepped {
        step: answer,
        head: left,
        word,
        reports,
    }
}

// A step of a write or of a read, with the shared record's map, the record's table and text, and room for the bytes that a read answers lent.
pub fn step_lent(
    image: &mut [u64],
    numbers: Numbers,
    taken: &mut [u64; 16],
    head: Head,
    table: &mut [u16; 256],
    text: &mut [u8; 1024],
    bytes: &mut [u8; 1024],
) -> LentStepped
    ensures { ((reports : List ℕ) → Known numbers reports
        → StepTells image.old (shared_of numbers taken.old reports) (point_of head table.old text.old)
        bytes.old (stepped_of numbers result taken.new reports table.new text.new)
        image.new bytes.new result.word) × Lengthens result.reports numbers.chain }
{
    let write = head.write;
    let phase = write.phase;
    if phase.is_reading() {
        return crate::read_step::step(image, numbers, head, table, text, bytes);
    }
    write_lent(image, numbers, taken, head, table, text)
}

// A step of the point's write or read.
pub fn step(image: &mut [u64], shared: Shared, point: Point, bytes: &mut [u8; 1024]) -> Stepped
    ensures { StepLeaves image.old shared point bytes.old result image.new bytes.new }
{
    let numbers = crate::shared::numbers(shared);
    let mut taken = shared.taken;
    let head = point.head;
    let mut table = point.table;
    let mut text = point.text;
    let left = step_lent(
        image, numbers, &mut taken, head, &mut table, &mut text, bytes,
    );
    let answer = left.step;
    let head = left.head;
    let reports = left.reports;
    Stepped {
        step: answer,
        shared: crate::shared::reported(crate::shared::with_taken(shared, taken), reports, head),
        point: Point { head, table, text },
    }
}
