// Committing: the entry is stored, or the log place moves on, or the chain is extended.
ghost use Rattle.std.specs.Prelude.{◌≡◌, List, ℕ, ◌+◌, ◌<◌};
ghost use Rattle.words.specs.Edition.{one};
ghost use Rattle.words.specs.Memory.{Memory, memory};
ghost use Rattle.block_log.specs.Refusals.{number};
ghost use Rattle.points.specs.Record.{first_edge, last_edge};
ghost use Rattle.points.specs.Search.{shared_of};
ghost use Rattle.points.specs.Stepping.{refill, entry_for, commit, give_up, extend, at_end, move_on, committing};
ghost use Rattle.points.specs.Lent.{StepsOn, EntryFits};

use crate::plan::{Frees, Kind, Plan, Reads, Reports};
use crate::{Head, Numbers, Phase, StepAnswer, Write};
use block_log::Refusal;

// Whether the run's first block holds copied bytes.
fn first_edge(write: Write) -> bool
    ensures { result ≡ first_edge one write }
{
    let lead = crate::record::lead(write) as u64;
    (0 < lead) | (lead + (write.size as u64) < 512)
}

// Whether the run's last block, where that is not the first, holds copied bytes.
fn last_edge(write: Write) -> bool
    ensures { result ≡ last_edge one write }
{
    let lead = crate::record::lead(write) as u64;
    let n = crate::record::span(write.offset, write.size) as u64;
    (1 < n) & (lead + (write.size as u64) < 512 * n)
}

// The write once it has moved on: which of its edge blocks are filled again.
fn refill(first: bool, last: bool, write: Write) -> Write
    ensures { result ≡ refill first last one write }
{
    let retries = crate::plan::retried(write);
    let zeroing = write.zeroing;
    if first {
        if last {
            return crate::plan::turned(write, Phase::RefillBoth, 0, zeroing, retries);
        }
        return crate::plan::turned(write, Phase::RefillFirst, 0, zeroing, retries);
    }
    if last {
        return crate::plan::turned(write, Phase::RefillLast, 0, zeroing, retries);
    }
    crate::plan::turned(
        write,
        Phase::Filling,
        crate::plan::run_words(write),
        zeroing,
        retries,
    )
}

// The record catches up, and what new entries cover is filled again. Refused where the log is broken.
fn move_on(image: &[u64], blocks: u32, head: Head) -> Plan
    ensures { result ≡ move_on one (memory one image.now) head blocks }
{
    let write = head.write;
    let v = crate::record::run_first(write);
    let last = v + crate::record::span(write.offset, write.size) - 1;
    let seen = block_log::ahead::look(image, blocks, head.place, v, last);
    if seen.broken {
        return crate::plan::refused(head, Refusal::LogBroken);
    }
    let later = refill(
        first_edge(write) & seen.first,
        last_edge(write) & seen.last,
        write,
    );
    let place = seen.place;
    crate::plan::resting(
        StepAnswer::Moved,
        place,
        later,
        Reads::AllAhead,
        Frees::NoBlock,
        0,
        false,
        Reports::Standing,
    )
}

// The entry of the write.
pub(crate) fn entry_for(head: Head) -> u64
    requires { EntryFits head }
    ensures { result ≡ entry_for one head }
{
    let write = head.write;
    let v = crate::record::run_first(write);
    let n = crate::record::span(write.offset, write.size);
    let used = write.offset + write.size - 512 * (v + n - 1);
    block_log::pack::entry(
        v as u16,
        write.run as u16,
        n as u8,
        used as u16,
        head.number as u8,
    )
}

// The entry is stored and taken in, the blocks that it replaces become free, and the point is idle.
fn commit(head: Head) -> Plan
    requires { EntryFits head × (head.place.slot < 64) }
    ensures { result ≡ commit one head }
{
    let entry = entry_for(head);
    let retries = head.write.retries;
    Plan {
        step: StepAnswer::Committed(retries),
        place: crate::plan::next_slot(head.place),
        write: crate::plan::no_write(),
        reads: Reads::OwnEntry,
        frees: Frees::Replaced,
        takes: 0,
        clears: true,
        reports: Reports::NoReport,
        kind: Kind::Entry,
        block: head.place.block,
        word: head.place.slot,
        value: entry,
    }
}

// The write ends by 20 or 21: what it holds becomes free, and the point is idle.
pub(crate) fn give_up(head: Head, refusal: Refusal) -> Plan
    ensures { result ≡ give_up one head (number refusal) }
{
    crate::plan::resting(
        StepAnswer::Refused(refusal),
        head.place,
        crate::plan::no_write(),
        Reads::NoEntry,
        Frees::Held,
        0,
        true,
        Reports::NoReport,
    )
}

// A free block is taken, to be zeroed and linked.
fn extend(head: Head, b: u32) -> Plan
    ensures { result ≡ extend one head b }
{
    let write = head.write;
    let zeroing = crate::plan::turned(write, Phase::Zeroing, 0, b, write.retries);
    crate::plan::resting(
        StepAnswer::Extending,
        head.place,
        zeroing,
        Reads::NoEntry,
        Frees::NoBlock,
        b,
        false,
        Reports::NoReport,
    )
}

// The log place is at slot 64 with no next index: the chain is extended, or the write ends by 20 or 21.
fn at_end(numbers: Numbers, taken: &[u64; 16], head: Head) -> Plan
    ensures { (m : Memory) (reports : List ℕ) → result ≡ at_end one m head (shared_of numbers taken.now reports) }
{
    if 64 <= numbers.chain {
        return give_up(head, Refusal::LogFull);
    }
    let b = words::map::search(taken, numbers.blocks, 1);
    if b == 0 {
        return give_up(head, Refusal::NoLogBlock);
    }
    extend(head, b)
}

// With no word left to fill: the entry is stored where the word at the log place is empty; at the end of the chain it is extended; otherwise the
// record catches up.
pub(crate) fn committing<'a>(
    image: &[u64],
    numbers: Numbers,
    taken: &'a [u64; 16],
    head: Head,
    table: &'a [u16; 256],
) -> Plan
    requires { StepsOn image.now numbers taken.now head table.now }
    ensures { (reports : List ℕ) → result
        ≡ committing one (memory one image.now) head (shared_of numbers taken.now reports) }
{
    let slot = head.place.slot as usize;
    let part = words::image::block(image, head.place.block as usize);
    if slot < 64 {
        if words::image::word(part, slot) == 0 {
            return commit(head);
        }
        return move_on(image, numbers.blocks, head);
    }
    if words::image::word(part, 0) == 0 {
        return at_end(numbers, taken, head);
    }
    move_on(image, numbers.blocks, head)
}
