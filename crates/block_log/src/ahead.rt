// Catching up: the walk from a log place to the tail, and taking its entries in.
ghost use Rattle.std.specs.Prelude.{◌≡◌, true, false, ◌||◌, [], ◌∷◌, ℕ, ◌+◌, ◌≤◌, max};
ghost use Rattle.words.specs.Edition.{one};
ghost use Rattle.words.specs.Logic.{some_of};
ghost use Rattle.words.specs.Memory.{memory};
ghost use Rattle.block_log.specs.Chain.{entries_from};
ghost use Rattle.block_log.specs.Entry.{entry_end, legal, covers};
ghost use Rattle.block_log.specs.Opening.{bad_entry};
ghost use Rattle.block_log.specs.Replay.{map_run, apply};
ghost use Rattle.block_log.specs.CatchUp.{ahead, broken, TakenIn};
ghost use Rattle.block_log.specs.Look.{lookahead_of};
ghost use Rattle.block_log.specs.Parts.{Mappable};

use crate::{Lookahead, Place};

// Whether an entry of this part, from a slot to the first empty one, breaks the entry's rules.
pub fn wrong_in(part: &[u64], from: usize, blocks: u32) -> bool
    ensures { result ≡ bad_entry one blocks (entries_from from part.now) }
{
    crate::words_from(part, from)
        .iter()
        .take_while(|e| **e != 0)
        .any(|e| !crate::is_legal(*e, blocks as u64))
}

// Whether an entry covers a virtual block.
pub fn covers(e: u64, x: u32) -> bool
    ensures { result ≡ covers x e }
{
    let v = crate::first_virtual(e);
    let n = crate::count(e);
    let at = x as u64;
    if at < v {
        return false;
    }
    at - v < n
}

// Whether an entry of this part, from a slot to the first empty one, covers a virtual block.
pub fn covered_in(part: &[u64], from: usize, x: u32) -> bool
    ensures { result ≡ some_of (covers x) (entries_from from part.now) }
{
    crate::words_from(part, from)
        .iter()
        .take_while(|e| **e != 0)
        .any(|e| covers(*e, x))
}

// Stays: a literal of `Lookahead` at each of the four ways out of `look` is no plainer.
fn lookahead(
    block: u32,
    slot: u32,
    entered: u32,
    broken: bool,
    first: bool,
    last: bool,
) -> Lookahead
    ensures { result
        ≡ record { place = record { block = block; slot = slot }; entered = entered; broken = broken; first = first; last = last } }
{
    Lookahead {
        place: Place { block, slot },
        entered,
        broken,
        first,
        last,
    }
}

// What the walk from a log place to the tail shows, of two virtual blocks.
pub fn look(image: &[u64], blocks: u32, from: Place, x: u32, y: u32) -> Lookahead
    ensures { result ≡ lookahead_of one blocks x y (ahead one (memory one image.now) blocks from) }
{
    let mut b = from.block;
    let mut slot = from.slot;
    let mut entered: u32 = 0;
    let mut wrong = false;
    let mut first = false;
    let mut last = false;
    loop {
        let part = words::image::block(image, b as usize);
        wrong |= wrong_in(part, slot as usize, blocks);
        first |= covered_in(part, slot as usize, x);
        last |= covered_in(part, slot as usize, y);
        slot = crate::tail(part, slot as usize) as u32;
        if slot < 64 {
            return lookahead(b, slot, entered, wrong, first, last);
        }
        let next = words::image::word(part, 0);
        if next == 0 {
            return lookahead(b, slot, entered, wrong, first, last);
        }
        if blocks <= entered {
            return lookahead(b, slot, entered, true, first, last);
        }
        if blocks as u64 <= next {
            return lookahead(b, slot, entered, true, first, last);
        }
        b = next as u32;
        slot = 2;
        entered += 1;
    }
}

// The blocks of an entry are mapped.
fn map_run(table: &mut [u16; 256], v: usize, b: u16, n: usize)
    requires { (v + n ≤ 256) × (b + n ≤ 1024) }
    ensures { table.new ≡ map_run table.old v b n }
{
    // Stays: `for (i, row) in table[v..v + n].iter_mut().enumerate()` is no plainer, since blocks and rows both go up with i.
    for i in 0..n {
        table[v + i] = b + i as u16;
    }
}

// The greater of a length and an entry's end.
fn longer(size: u32, e: u64) -> u32
    requires { Mappable e }
    ensures { result ≡ max size (entry_end one e) }
{
    let v = crate::first_virtual(e);
    let n = crate::count(e);
    let u = crate::used(e);
    size.max((512 * (v + n - 1) + u) as u32)
}

// One entry is taken in: the table, and the length that is handed back.
fn take_in(e: u64, table: &mut [u16; 256], size: u32) -> u32
    requires { Mappable e }
    ensures alone { TakenIn (e ∷ []) table.old size table.new result }
    ensures applied { record { table = table.new; size = result } ≡ apply one (record { table = table.old; size = size }) e }
{
    let v = crate::first_virtual(e) as usize;
    let b = crate::first_block(e) as u16;
    let n = crate::count(e) as usize;
    map_run(table, v, b, n);
    longer(size, e)
}

// The entries of a part, from a slot to the first empty one, are taken in; an entry that breaks the rules ends it.
fn take_part(part: &[u64], from: usize, blocks: u32, table: &mut [u16; 256], size: u32) -> u32
    requires { blocks ≤ 1024 }
    ensures { let entries = entries_from from part.now in
        bad_entry one blocks entries ≡ false → TakenIn entries table.old size table.new result }
{
    let mut end = size;
    for e in crate::words_from(part, from) {
        if *e == 0 || !crate::is_legal(*e, blocks as u64) {
            return end;
        }
        end = take_in(*e, table, end);
    }
    end
}

// All entries from a log place to the tail are taken in, where the walk from there is not broken and the image has at most 1,024 blocks.
pub fn catch_up(image: &[u64], blocks: u32, from: Place, table: &mut [u16; 256], size: u32) -> u32
    ensures { let walk = ahead one (memory one image.now) blocks from in
        blocks ≤ 1024 → broken one blocks walk ≡ false → TakenIn walk.entries table.old size table.new result }
{
    if 1024 < blocks {
        return size;
    }
    let mut b = from.block;
    let mut slot = from.slot as usize;
    let mut entered: u32 = 0;
    let mut end = size;
    loop {
        let part = words::image::block(image, b as usize);
        end = take_part(part, slot, blocks, table, end);
        if crate::tail(part, slot) < 64 {
            return end;
        }
        let next = words::image::word(part, 0);
        if next == 0 {
            return end;
        }
        if blocks <= entered {
            return end;
        }
        if blocks as u64 <= next {
            return end;
        }
        b = next as u32;
        slot = 2;
        entered += 1;
    }
}

// One entry is taken in, where its runs lie inside a table and an image of 1,024 blocks, as those of an entry that keeps the rules do. Otherwise nothing
// changes.
pub fn take_entry(e: u64, table: &mut [u16; 256], size: u32) -> u32
    ensures legal { (blocks : ℕ) → blocks ≤ 1024 → legal one blocks e ≡ true
        → TakenIn (e ∷ []) table.old size table.new result }
    ensures mappable { Mappable e
        → record { table = table.new; size = result } ≡ apply one (record { table = table.old; size = size }) e }
{
    let n = crate::count(e);
    if n == 0 || 256 < n {
        return size;
    }
    if 256 < crate::first_virtual(e) + n || 1024 < crate::first_block(e) + n {
        return size;
    }
    if 512 < crate::used(e) {
        return size;
    }
    take_in(e, table, size)
}
