// The file as a point sees it: what reading, locating and viewing share.
ghost use Rattle.std.specs.Prelude.{◌≡◌, Err, List, ℕ, get_or};
ghost use Rattle.words.specs.Edition.{one};
ghost use Rattle.words.specs.Memory.{memory};
ghost use Rattle.block_log.specs.Refusals.{Done};
ghost use Rattle.points.specs.Search.{shared_of, Known};
ghost use Rattle.points.specs.Lent.{at_tail, Settles, part_of};

use crate::{Count, Head, Numbers};
use block_log::{Place, Refusal};

// Whether the word at a log place is empty.
fn at_tail(image: &[u64], place: Place) -> bool
    ensures { result ≡ at_tail one (memory one image.now) place }
{
    let slot = place.slot as usize;
    let part = words::image::block(image, place.block as usize);
    (slot < 64) & (words::image::word(part, slot) == 0)
}

// The first of 10, 11, 14, 17 where the block asked for lies past the file, and 18; where none holds, whether the file is known to be as the record has
// it. Where the word at the log place is empty there is no walk.
pub(crate) fn settle(
    image: &[u64],
    numbers: Numbers,
    head: Head,
    table: &[u16; 256],
    past: bool,
) -> Result<bool, Refusal>
    ensures { (taken reports : List ℕ) → Known numbers reports
        → Settles image.now (shared_of numbers taken reports) head table.now past result }
{
    crate::record::unfit_numbers(image, numbers, head, table)?;
    if past {
        return Err(Refusal::PastEnd);
    }
    let place = head.place;
    if at_tail(image, place) {
        return Ok(true);
    }
    let ahead = block_log::ahead::look(image, numbers.blocks, place, 0, 0);
    if ahead.broken {
        return Err(Refusal::LogBroken);
    }
    Ok(false)
}

// The logical block of a virtual one; 0 where nothing is mapped, and past the table.
// Stays: 0 for none, since the log's entries and C's table have 0 there (include/store.h); no block of a file is block 0.
pub(crate) fn mapped(table: &[u16], v: usize) -> u16
    ensures { result ≡ get_or table.now v 0 }
{
    table.get(v).copied().unwrap_or(0)
}

// The part of the image that a logical index names: the block itself, not a copy; empty for 0.
pub(crate) fn part(image: &[u64], b: usize) -> &[u64]
    ensures { result.now ≡ part_of (memory one image.now) b }
{
    if b == 0 {
        return &image[0..0];
    }
    words::image::block(image, b)
}

// "a refused read or locating answers 0".
pub(crate) fn refused(refusal: Refusal) -> Count
    ensures { result ≡ record { reply = Err refusal; count = 0 } }
{
    Count {
        reply: Err(refusal),
        count: 0,
    }
}

// A count that is answered.
pub(crate) fn counted(count: u32) -> Count
    ensures { result ≡ record { reply = Done; count = count } }
{
    Count {
        reply: Ok(()),
        count,
    }
}
