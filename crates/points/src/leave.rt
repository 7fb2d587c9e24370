// Leaving.
ghost use Rattle.std.specs.Prelude.{◌≡◌, List, ℕ};
ghost use Rattle.words.specs.Edition.{one};
ghost use Rattle.points.specs.Calls.{leaving};
ghost use Rattle.points.specs.Record.{point_of};

use crate::{Head, Left, Point};
use block_log::Shared;

// Leaving, with the record's table lent: what the point holds becomes free, and the point is joined no more and reports no log block.
pub fn leave_lent(image: &[u64], shared: Shared, head: Head, table: &[u16; 256]) -> Left
    ensures { (text : List ℕ) → result ≡ leaving one image.now shared (point_of head table.now text) }
{
    if let Err(refusal) = crate::record::unfit(image, shared, head, table) {
        return Left {
            reply: Err(refusal),
            shared,
        };
    }
    let mut map = shared.taken;
    crate::release::free_held(&mut map, head.write);
    let freed = crate::shared::with_taken(shared, map);
    let unjoined = crate::shared::with_joined(
        freed,
        crate::shared::without_point(shared.joined, head.number),
    );
    Left {
        reply: Ok(()),
        shared: crate::shared::reporting(unjoined, head.number, 0),
    }
}

// Leaving.
pub fn leave(image: &[u64], shared: Shared, point: Point) -> Left
    ensures { result ≡ leaving one image.now shared point }
{
    let head = point.head;
    leave_lent(image, shared, head, &point.table)
}
