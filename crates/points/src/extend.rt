// Extending the chain: a block is zeroed word by word, then linked, or given back where another point was first, or freed where 64 are chained.
ghost use Rattle.std.specs.Prelude.{◌≡◌, ◌<◌};
ghost use Rattle.words.specs.Edition.{one};
ghost use Rattle.words.specs.Memory.{memory};
ghost use Rattle.points.specs.Stepping.{zero_out, link, linking, give_back, extending};

use crate::plan::{Frees, Kind, Plan, Reads, Reports};
use crate::{Head, Phase, StepAnswer};
use block_log::Refusal;

// A word of the log block to come becomes 0.
fn zero_out(head: Head) -> Plan
    requires { head.write.position < 64 }
    ensures { result ≡ zero_out one head }
{
    let write = head.write;
    let position = write.position;
    let zeroed = crate::plan::turned(
        write,
        Phase::Zeroing,
        position + 1,
        write.zeroing,
        write.retries,
    );
    crate::plan::storing(
        Kind::Zero,
        write.zeroing,
        position,
        0,
        head.place,
        zeroed,
        Reports::NoReport,
    )
}

// The zeroed block is the next log block from now on.
fn link(head: Head) -> Plan
    ensures { result ≡ link one head }
{
    let write = head.write;
    let zeroing = write.zeroing;
    crate::plan::storing(
        Kind::Link,
        head.place.block,
        0,
        zeroing as u64,
        crate::plan::entering(zeroing),
        crate::plan::to_commit(write, write.retries),
        Reports::Linked,
    )
}

// A next index is there by now: the zeroed block is given back.
fn give_back(head: Head) -> Plan
    ensures { result ≡ give_back one head }
{
    let write = head.write;
    let later = crate::plan::to_commit(write, crate::plan::retried(write));
    crate::plan::resting(
        StepAnswer::Moved,
        head.place,
        later,
        Reads::NoEntry,
        Frees::Zeroed,
        0,
        false,
        Reports::NoReport,
    )
}

// The zeroed block is linked, unless the chain has 64 log blocks: then the write ends.
fn linking(chain: u32, head: Head) -> Plan
    ensures { result ≡ linking one head chain }
{
    if 64 <= chain {
        return crate::commit::give_up(head, Refusal::LogFull);
    }
    link(head)
}

// 64 steps zero the block; the one after looks at the next index, then at the chain's length.
pub(crate) fn extending(image: &[u64], chain: u32, head: Head) -> Plan
    ensures { result ≡ extending one (memory one image.now) head chain }
{
    if head.write.position < 64 {
        return zero_out(head);
    }
    if block_log::links::next_index(image, head.place.block as u64) == 0 {
        return linking(chain, head);
    }
    give_back(head)
}
