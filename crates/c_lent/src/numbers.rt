// Enums and records in numbers, and records from their numbers.
ghost use Rattle.std.specs.Prelude.{◌≡◌, true, List, ◌++◌, ℕ, ◌≤◌, length, take, set};
ghost use Rattle.block_log.specs.Refusals.{number};
ghost use Rattle.block_log.specs.Opening.{number_of};
ghost use Rattle.points.specs.Plan.{reported};
ghost use Rattle.points.specs.Lent.{begun_shared, Lengthens};
ghost use Rattle.c_lent.specs.Numbers.{opened_numbers, answer_numbers, count_numbers, head_numbers, head_from, is_known};
ghost use Rattle.c_lent.specs.Numbers.{shared_numbers, reports_from, lead_from, shared_from, shared_in, lend_shared};
ghost use Rattle.c_lent.specs.Records.{shared_parts};
ghost use Rattle.c_lent.specs.Calls.{unknown, no_count};

use crate::{Answer, Count, Opened, SharedRecord};
use block_log::{Refusal, Reply, Shared};
use points::StepAnswer;
use points::plan::Reports;

// The refusal's number, 0 for none.
pub fn of_reply(reply: Reply) -> u32
    ensures { result ≡ number_of reply }
{
    match reply {
        Ok(()) => 0,
        Err(refusal) => refusal.into(),
    }
}

// A step's answer that stored no word.
impl From<StepAnswer> for Answer {
    ghost from_gives = { λ step answer. answer ≡ answer_numbers step 0 };

    fn from(step: StepAnswer) -> Answer {
        let [kind, value]: [u32; 2] = step.into();
        Answer {
            kind,
            value,
            word: 0,
        }
    }
}

impl From<block_log::Opened> for Opened {
    ghost from_gives = { λ opened numbers. numbers ≡ opened_numbers opened };

    fn from(opened: block_log::Opened) -> Opened {
        let reply = opened.reply;
        Opened {
            refused: of_reply(reply),
            length: opened.length,
            entries: opened.entries,
            free: opened.free,
        }
    }
}

impl From<points::Count> for Count {
    ghost from_gives = { λ count numbers. numbers ≡ count_numbers count };

    fn from(count: points::Count) -> Count {
        Count {
            refused: of_reply(count.reply),
            count: count.count,
        }
    }
}

// What a refused reading or locating answers.
pub(crate) fn no_count(refusal: Refusal) -> Count
    ensures { result ≡ no_count (number refusal) }
{
    Count {
        refused: refusal.into(),
        count: 0,
    }
}

// The numbers of a head, in the order of C's record.
// Stays: `impl From<Head> for [u32; 11]`, and `TryFrom` back, would be of two types of other crates, which Rust refuses (so `is_known`, `head`, `lead`).
pub(crate) fn of_head(head: points::Head) -> [u32; 11]
    ensures { result ≡ head_numbers head }
{
    let write = head.write;
    let phase = write.phase;
    [
        head.number,
        head.length,
        head.place.block,
        head.place.slot,
        write.offset,
        write.size,
        write.run,
        u32::from(phase),
        write.position,
        write.zeroing,
        write.retries as u32,
    ]
}

// Whether numbers are those of a head: the phase is one, and the retry count is at most 65,535.
pub(crate) fn is_known(numbers: &[u32; 11]) -> bool
    ensures { result ≡ is_known numbers.now }
{
    if 6 < numbers[7] {
        return false;
    }
    numbers[10] <= 65535
}

// The head of its numbers.
// Stays: `is_known` is asked here, in `turn` and in `batch`: the numbers are C's (`store_serve_parts`); a type for it is a copy, an Option a test a turn.
pub(crate) fn head(numbers: &[u32; 11]) -> points::Head
    requires { is_known numbers.now ≡ true }
    ensures { result ≡ head_from numbers.now }
{
    points::Head {
        number: numbers[0],
        length: numbers[1],
        place: block_log::Place {
            block: numbers[2],
            slot: numbers[3],
        },
        write: points::Write {
            offset: numbers[4],
            size: numbers[5],
            run: numbers[6],
            phase: points::Phase::from(numbers[7]),
            position: numbers[8],
            zeroing: numbers[9],
            retries: numbers[10] as u16,
        },
    }
}

// The numbers of a shared record, in the order of C's record, and its map; and back.
pub(crate) fn put(to: &mut SharedRecord, shared: Shared)
    ensures { shared_parts to.new ≡ lend_shared shared }
{
    let reports = shared.reports;
    let taken = shared.taken;
    to.numbers[0] = shared.blocks;
    to.numbers[1] = shared.joined;
    to.numbers[2] = shared.chain;
    to.numbers[3..].copy_from_slice(&reports);
    to.taken = taken;
}

// The numbers that a call looks at. (Compiled into each caller: called at each step, serving points that meet in one block takes a seventh more instructions.)
#[inline(always)]
pub(crate) fn lead(numbers: &[u32; 35]) -> points::Numbers
    ensures { result ≡ lead_from numbers.now }
{
    let all = &numbers[..];
    let blocks = numbers[0];
    points::Numbers {
        blocks,
        joined: numbers[1],
        chain: numbers[2],
        inside: points::shared::all_below(&all[3..], blocks),
    }
}

// The shared record of its numbers and its map.
impl From<&SharedRecord> for Shared {
    ghost from_gives = { λ lent shared. shared ≡ shared_in (shared_parts lent.now) };

    fn from(lent: &SharedRecord) -> Shared {
        let mut reports = [0u32; 32];
        reports.copy_from_slice(&lent.numbers[3..]);
        Shared {
            blocks: lent.numbers[0],
            taken: lent.taken,
            joined: lent.numbers[1],
            chain: lent.numbers[2],
            reports,
        }
    }
}

// Another report for a point.
fn report(numbers: &mut [u32], number: u32, block: u32)
    requires { 3 ≤ length numbers.old }
    ensures { numbers.new ≡ take 3 numbers.old ++ set (reports_from numbers.old) number block }
{
    points::shared::report(&mut numbers[3..], number, block);
}

// What a beginning with this answer reports. (The map is no part of the numbers.)
pub(crate) fn put_begun(numbers: &mut [u32], reply: Reply, head: points::Head)
    requires { 3 ≤ length numbers.old }
    ensures { (taken : List ℕ) → numbers.new ≡ shared_numbers (begun_shared reply head (shared_from numbers.old taken)) }
{
    match reply {
        Ok(()) => report(numbers, head.number, head.place.block),
        Err(_) => {}
    }
}

// What a step reports.
pub(crate) fn put_reported(numbers: &mut [u32], reports: Reports, head: points::Head)
    requires { (3 ≤ length numbers.old) × Lengthens reports (lead_from numbers.old).chain }
    ensures { (taken : List ℕ) → numbers.new ≡ shared_numbers (reported reports head (shared_from numbers.old taken)) }
{
    match reports {
        Reports::NoReport => {}
        Reports::Standing => report(numbers, head.number, head.place.block),
        Reports::Linked => {
            numbers[2] = numbers[2] + 1;
            report(numbers, head.number, head.place.block);
        }
    }
}

// Why a record is refused whose numbers are no head's: it does not fit, and 10 comes before.
pub(crate) fn unknown(image: &[u64], shared: &[u32; 35]) -> Refusal
    ensures { (taken : List ℕ) → number result ≡ unknown image.now shared.now taken }
{
    if points::record::bad_numbers(image, lead(shared)) {
        return Refusal::SharedUnfit;
    }
    Refusal::RecordUnfit
}
