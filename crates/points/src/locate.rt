// Locating a virtual block, and viewing it.
ghost use Rattle.std.specs.Prelude.{◌≡◌, List, ℕ, ◌<◌, get_or};
ghost use Rattle.words.specs.Edition.{one};
ghost use Rattle.points.specs.Reading.{locating, viewed};
ghost use Rattle.points.specs.Search.{shared_of, Known};
ghost use Rattle.points.specs.Lent.{found_at};

use crate::{Count, Head, Numbers, Point};
use block_log::{Refusal, Shared};

// The logical index of virtual block v, by the file's table.
fn find(table: &[u16; 256], v: usize) -> Count
    requires { v < 256 }
    ensures { result ≡ found_at (get_or table.now v 0) }
{
    let b = u32::from(table[v]);
    if b == 0 {
        return crate::current::refused(Refusal::NotMapped);
    }
    crate::current::counted(b)
}

// Locating, with the record's table lent, and the numbers alone of the shared record: the logical index of virtual block v.
pub fn locate_lent(
    image: &[u64],
    numbers: Numbers,
    head: Head,
    table: &[u16; 256],
    v: usize,
) -> Count
    ensures { (taken reports : List ℕ) → Known numbers reports
        → result ≡ locating one image.now (shared_of numbers taken reports) head table.now v }
{
    let unchanged = match crate::current::settle(image, numbers, head, table, 256 <= v) {
        Ok(unchanged) => unchanged,
        Err(refusal) => return crate::current::refused(refusal),
    };
    if unchanged {
        return find(table, v);
    }
    let place = head.place;
    let mut own = *table;
    let size = block_log::ahead::catch_up(image, numbers.blocks, place, &mut own, head.length);
    find(&own, v)
}

// Locating.
pub fn locate(image: &[u64], shared: Shared, point: Point, v: usize) -> Count
    ensures { result ≡ locating one image.now shared point.head point.table v }
{
    let head = point.head;
    locate_lent(image, crate::shared::numbers(shared), head, &point.table, v)
}

// Viewing: the part of the image that begins at virtual block v, the block itself; empty exactly when locating refuses.
pub fn view(image: &[u64], shared: Shared, point: Point, v: usize) -> &[u64]
    ensures { result.now ≡ viewed one image.now shared point.head point.table v }
{
    let head = point.head;
    let found = locate_lent(image, crate::shared::numbers(shared), head, &point.table, v);
    crate::current::part(image, found.count as usize)
}
