// Joining.
ghost use Rattle.std.specs.Prelude.{◌≡◌};
ghost use Rattle.words.specs.Edition.{one};
ghost use Rattle.words.specs.Memory.{memory};
ghost use Rattle.block_log.specs.Opening.{number_of};
ghost use Rattle.points.specs.Record.{idle_at};
ghost use Rattle.points.specs.Calls.{bad_first, join_refusal, joining};

use crate::{Joined, Point};
use block_log::{Place, Refusal, Reply, Shared};

// 18. The first log index is 0 or lies outside the image.
fn bad_first(image: &[u64], blocks: u32) -> bool
    ensures { result ≡ bad_first blocks (memory one image.now) }
{
    let first = block_log::links::first_index(image);
    (first == 0) | (blocks as u64 <= first)
}

// The first of the reasons 10, 12, 13 and 18 that holds.
fn join_refusal(image: &[u64], shared: Shared, number: u32) -> Reply
    ensures { number_of result ≡ join_refusal one image.now shared number }
{
    if crate::record::bad_shared(image, shared) {
        return Err(Refusal::SharedUnfit);
    }
    if 31 < number {
        return Err(Refusal::NumberAbove);
    }
    if crate::record::is_joined(shared.joined, number) {
        return Err(Refusal::AlreadyJoined);
    }
    if bad_first(image, shared.blocks) {
        return Err(Refusal::LogBroken);
    }
    Ok(())
}

// An idle record at a log place: its length and its write fields are 0.
fn idle_at(number: u32, place: Place) -> Point
    ensures { result ≡ idle_at number place }
{
    let table = [0u16; 256];
    let text = [0u8; 1024];
    Point {
        head: crate::plan::head_of(number, 0, place, crate::plan::no_write()),
        table,
        text,
    }
}

// Joining.
pub fn join(image: &[u64], shared: Shared, number: u32) -> Joined
    ensures { result ≡ joining one image.now shared number }
{
    if let Err(refusal) = join_refusal(image, shared, number) {
        return Joined {
            reply: Err(refusal),
            shared,
            point: idle_at(0, Place { block: 0, slot: 0 }),
        };
    }
    let first = block_log::links::first_index(image) as u32;
    let joined = crate::shared::with_joined(
        shared,
        crate::shared::with_point(shared.joined, number),
    );
    Joined {
        reply: Ok(()),
        shared: crate::shared::reporting(joined, number, first),
        point: idle_at(
            number,
            Place {
                block: first,
                slot: 2,
            },
        ),
    }
}
