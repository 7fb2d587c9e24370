// What a step settles before it stores: a plan, a field for each thing that it does.
ghost use Rattle.std.specs.Prelude.{◌≡◌, false, ◌<◌};
ghost use Rattle.words.specs.Edition.{one};
ghost use Rattle.block_log.specs.Refusals.{number};
ghost use Rattle.points.specs.Record.{run_words, no_write, head_of};
ghost use Rattle.points.specs.Plan.{storing, resting};
ghost use Rattle.points.specs.Stepping.{refused, turned, to_commit, retried, next_slot, entering};

use crate::{Head, Phase, StepAnswer, Write};
use block_log::{Place, Refusal};

// What the record takes in: nothing, the entry that the plan stores, all entries ahead.
#[derive(Clone, Copy, PartialEq, Eq, Debug)]
pub enum Reads {
    NoEntry,
    OwnEntry,
    AllAhead,
}

// What becomes free: nothing, what the write holds, the blocks that the write replaces, the log block that was zeroed.
#[derive(Clone, Copy, PartialEq, Eq, Debug)]
pub enum Frees {
    NoBlock,
    Held,
    Replaced,
    Zeroed,
}

// What is reported: nothing, the log block where the point stands then, that and one log block more in the chain.
#[derive(Clone, Copy, PartialEq, Eq, Debug)]
pub enum Reports {
    NoReport,
    Standing,
    Linked,
}

// What is stored: nothing, a word of the run, a zero, an entry, a next index.
#[derive(Clone, Copy, PartialEq, Eq, Debug)]
pub enum Kind {
    NoStore,
    Fill,
    Zero,
    Entry,
    Link,
}

// The answer; the log place and the write that the point has then; what is read in, freed and taken, 0 for no block; whether the text is cleared; what is
// reported; and the store: word `word` from the first word of block `block` on gets `value`.
// Stays: `takes` is 0 for no block, as the definitions `resting`, `extend` and `carried_out` have it; the superblock is never free.
#[derive(Clone, Copy)]
pub struct Plan {
    pub step: StepAnswer,
    pub place: Place,
    pub write: Write,
    pub reads: Reads,
    pub frees: Frees,
    pub takes: u32,
    pub clears: bool,
    pub reports: Reports,
    pub kind: Kind,
    pub block: u32,
    pub word: u32,
    pub value: u64,
}

// A plan that stores a word, and changes no more than the point's log place and write, and what is reported.
// Stays: by struct update over one plan that changes nothing, here and in `resting`, a fill has 432 instructions in place of 366.
pub(crate) fn storing(
    kind: Kind,
    block: u32,
    word: u32,
    value: u64,
    place: Place,
    write: Write,
    reports: Reports,
) -> Plan
    ensures { result ≡ storing kind block word value place write reports }
{
    Plan {
        step: StepAnswer::Stored,
        place,
        write,
        reads: Reads::NoEntry,
        frees: Frees::NoBlock,
        takes: 0,
        clears: false,
        reports,
        kind,
        block,
        word,
        value,
    }
}

// A plan that stores nothing.
pub(crate) fn resting(
    step: StepAnswer,
    place: Place,
    write: Write,
    reads: Reads,
    frees: Frees,
    takes: u32,
    clears: bool,
    reports: Reports,
) -> Plan
    ensures { result ≡ resting step place write reads frees takes clears reports }
{
    Plan {
        step,
        place,
        write,
        reads,
        frees,
        takes,
        clears,
        reports,
        kind: Kind::NoStore,
        block: 0,
        word: 0,
        value: 0,
    }
}

// A step that is refused changes nothing.
pub(crate) fn refused(head: Head, refusal: Refusal) -> Plan
    ensures { result ≡ refused one head (number refusal) }
{
    resting(
        StepAnswer::Refused(refusal),
        head.place,
        head.write,
        Reads::NoEntry,
        Frees::NoBlock,
        0,
        false,
        Reports::NoReport,
    )
}

// The write at another phase and position.
pub(crate) fn turned(write: Write, phase: Phase, position: u32, zeroing: u32, retries: u16) -> Write
    ensures { result ≡ turned write phase position zeroing retries }
{
    Write {
        phase,
        position,
        zeroing,
        retries,
        ..write
    }
}

// The head of its numbers, its log place and its write.
pub(crate) fn head_of(number: u32, length: u32, place: Place, write: Write) -> Head
    ensures { result ≡ head_of number length place write }
{
    Head {
        number,
        length,
        place,
        write,
    }
}

// The write of an idle point.
pub(crate) fn no_write() -> Write
    ensures { result ≡ no_write }
{
    Write {
        offset: 0,
        size: 0,
        run: 0,
        phase: Phase::Idle,
        position: 0,
        zeroing: 0,
        retries: 0,
    }
}

// One more Moved, at most 65,535.
pub(crate) fn retried(write: Write) -> u16
    ensures { result ≡ retried write }
{
    write.retries.saturating_add(1)
}

// The words of the run.
pub(crate) fn run_words(write: Write) -> u32
    ensures { result ≡ run_words one write }
{
    64 * crate::record::span(write.offset, write.size)
}

// The write with no word left to fill and no log block being zeroed.
pub(crate) fn to_commit(write: Write, retries: u16) -> Write
    ensures { result ≡ to_commit one write retries }
{
    turned(write, Phase::Filling, run_words(write), 0, retries)
}

// The log place one slot on.
pub(crate) fn next_slot(at: Place) -> Place
    requires { at.slot < 64 }
    ensures { result ≡ next_slot at }
{
    Place {
        slot: at.slot + 1,
        ..at
    }
}

// The log place at slot 2 of a log block that is entered.
pub(crate) fn entering(block: u32) -> Place
    ensures { result ≡ entering block }
{
    Place { block, slot: 2 }
}
