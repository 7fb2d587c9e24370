// The shared record: its numbers, and its changes: points that join or leave, blocks that are taken or become free, log blocks that are reported.
ghost use Rattle.std.specs.Prelude.{◌≡◌, true, false, [], ◌∷◌, ◌<◌, set};
ghost use Rattle.words.specs.BlockMap.{with_bit, set_all};
ghost use Rattle.points.specs.Record.{all_below};
ghost use Rattle.points.specs.Search.{with_joined, with_taken, reporting, lengthening, numbers_of};
ghost use Rattle.points.specs.Plan.{reported};
ghost use Rattle.points.specs.Lent.{begun_shared, Lengthens};

use crate::plan::Reports;
use crate::{Head, Numbers};
use block_log::{Reply, Shared};

// The shared record with other joined points.
pub(crate) fn with_joined(shared: Shared, joined: u32) -> Shared
    ensures { result ≡ with_joined shared joined }
{
    Shared { joined, ..shared }
}

// The shared record with another map.
pub(crate) fn with_taken(shared: Shared, taken: [u64; 16]) -> Shared
    ensures { result ≡ with_taken shared taken }
{
    Shared { taken, ..shared }
}

// Another reported block for a point.
// Stays: `get_mut` in place of the index and its test was tried: what a slice's element is after it no proof knows.
pub fn report(reports: &mut [u32], number: u32, block: u32)
    ensures { reports.new ≡ set reports.old number block }
{
    let at = number as usize;
    if at < reports.len() {
        reports[at] = block;
    }
}

// The shared record with another reported block for a point.
pub(crate) fn reporting(shared: Shared, number: u32, block: u32) -> Shared
    ensures { result ≡ reporting shared number block }
{
    let mut reports = shared.reports;
    report(&mut reports, number, block);
    Shared { reports, ..shared }
}

// The shared record with one log block more in the chain.
fn lengthening(shared: Shared) -> Shared
    requires { shared.chain < 64 }
    ensures { result ≡ lengthening shared }
{
    Shared {
        chain: shared.chain + 1,
        ..shared
    }
}

// The shared record after a beginning.
pub(crate) fn begun(shared: Shared, reply: Reply, head: Head) -> Shared
    ensures { result ≡ begun_shared reply head shared }
{
    match reply {
        Ok(()) => reporting(shared, head.number, head.place.block),
        Err(_) => shared,
    }
}

// The shared record with what a step reports.
pub(crate) fn reported(shared: Shared, reports: Reports, head: Head) -> Shared
    requires { Lengthens reports shared.chain }
    ensures { result ≡ reported reports head shared }
{
    match reports {
        Reports::NoReport => shared,
        Reports::Standing => reporting(shared, head.number, head.place.block),
        Reports::Linked => lengthening(reporting(shared, head.number, head.place.block)),
    }
}

// The joined points with one more.
pub(crate) fn with_point(joined: u32, number: u32) -> u32
    requires { number < 32 }
    ensures { result ≡ with_bit true joined number }
{
    joined | 1u32 << number
}

// The joined points with one less.
pub(crate) fn without_point(joined: u32, number: u32) -> u32
    requires { number < 32 }
    ensures { result ≡ with_bit false joined number }
{
    joined & !(1u32 << number)
}

// Whether each of these blocks is below the block count: a fold without branches, which becomes vectors.
pub fn all_below(bs: &[u32], blocks: u32) -> bool
    ensures { result ≡ all_below blocks bs.now }
{
    bs.iter().fold(true, |ok, b| ok & (*b < blocks))
}

// The numbers of a shared record.
pub(crate) fn numbers(shared: Shared) -> Numbers
    ensures { result ≡ numbers_of shared }
{
    Numbers {
        blocks: shared.blocks,
        joined: shared.joined,
        chain: shared.chain,
        inside: all_below(&shared.reports, shared.blocks),
    }
}

// A block is taken, 0 for none.
pub(crate) fn take_one(taken: &mut [u64; 16], b: u32)
    ensures { taken.new ≡ set_all true taken.old (b ∷ []) }
{
    if b != 0 {
        words::map::set_block(taken, b as usize, true);
    }
}
