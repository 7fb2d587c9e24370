// What can be read of an image: its log blocks, its entries, the file that these give, and what each block is used for.
ghost use Rattle.std.specs.Prelude.{◌≡◌, true, [], ◌∷◌, ◌+◌, ◌≤◌, ◌<◌, length};
ghost use Rattle.words.specs.Edition.{one};
ghost use Rattle.words.specs.Logic.{list_from};
ghost use Rattle.words.specs.Memory.{memory};
ghost use Rattle.words.specs.BlockMap.{taken, map_word, set_all};
ghost use Rattle.block_log.specs.CatchUp.{TakenIn};
ghost use Rattle.inspection.specs.Told.{use_number, use_numbers};
ghost use Rattle.inspection.specs.Reading.{overruled_all, longest_free};
ghost use Rattle.inspection.specs.Parts.{Front, stops_in, ReadsChain, Inside, PartRead, LogRead, AllLegal, use_in};

use crate::Use;

// The log blocks read: how many, and the map of them.
#[derive(Clone, Copy)]
pub struct Chained {
    pub count: usize,
    pub map: [u64; 16],
}

// Whether the chain is read no further at an index: it is 0, outside the image, or read already.
fn stops_at(map: &[u64; 16], blocks: u64, index: u64) -> bool
    ensures { result ≡ stops_in blocks map.now index }
{
    if index == 0 {
        return true;
    }
    if blocks <= index {
        return true;
    }
    words::map::is_taken(map, index as usize)
}

// The log blocks that can be read.
pub(crate) fn read_chain(image: &[u64], blocks: u64, chain: &mut [u16; 64]) -> Chained
    requires { blocks ≤ 1024 }
    ensures { ReadsChain image.now blocks chain.old chain.new result.count result.map }
{
    let mut map = [0u64; 16];
    let mut b = block_log::links::first_index(image);
    for (count, next) in chain.iter_mut().enumerate() {
        if stops_at(&map, blocks, b) {
            return Chained { count, map };
        }
        *next = b as u16;
        words::map::set_block(&mut map, b as usize, true);
        b = block_log::links::next_index(image, b);
    }
    Chained { count: 64, map }
}

// The slots of a log block are laid behind the first n entries, up to the first that is no legal entry; how many entries there are then.
fn read_part(part: &[u64], blocks: u64, entries: &mut [u64; 3968], n: usize) -> usize
    requires { (2 ≤ length part.now) × (n + length part.now ≤ 3970) }
    ensures { PartRead part.now blocks n entries.old entries.new result }
{
    for (i, e) in part[2..].iter().enumerate() {
        if !block_log::is_legal(*e, blocks) {
            return n + i;
        }
        entries[n + i] = *e;
    }
    n + part.len() - 2
}

// The entries that can be read in these log blocks; how many.
pub(crate) fn read_log(
    image: &[u64],
    blocks: u64,
    chain: &[u16],
    entries: &mut [u64; 3968],
) -> usize
    requires { Inside image.now blocks chain.now }
    ensures { LogRead image.now blocks chain.now entries.old entries.new result }
{
    let mut n: usize = 0;
    for b in chain {
        let part = words::image::block(image, usize::from(*b));
        let to = read_part(part, blocks, entries, n);
        if to < n + 62 {
            return to;
        }
        n = to;
    }
    n
}

// Entries are taken in, one after the other; the length of the file.
pub(crate) fn replay(entries: &[u64], table: &mut [u16; 256]) -> u32
    requires { AllLegal entries.now }
    ensures { TakenIn entries.now table.old 0 table.new result }
{
    let mut size: u32 = 0;
    for e in entries {
        size = block_log::ahead::take_entry(*e, table, size);
    }
    size
}

// The word whose bits say which of n numbers from v on are in a map.
fn bits_of(map: &[u64; 16], v: usize, n: usize) -> u64
    requires { (n ≤ 64) × (v ≤ 65536) }
    ensures { result ≡ map_word (taken map.now) v n }
{
    let mut w: u64 = 0;
    for i in (0..n).rev() {
        w = 2 * w + u64::from(words::map::is_taken(map, v + i));
    }
    w
}

// Of each of these entries, which of its blocks are overruled.
pub(crate) fn mark_overruled(entries: &[u64], marks: &mut [u64; 3968])
    requires { (length entries.now ≤ 3968) × AllLegal entries.now }
    ensures { Front (overruled_all entries.now) marks.old marks.new }
{
    let mut later = [0u64; 16];
    for j in (0..entries.len()).rev() {
        let e = entries[j];
        let v = block_log::first_virtual(e) as usize;
        let count = block_log::count(e) as usize;
        marks[j] = bits_of(&later, v, count);
        words::map::set_run(&mut later, v, count, true);
    }
}

// A block becomes taken, 0 being none.
pub(crate) fn take_one(map: &mut [u64; 16], b: usize)
    ensures { map.new ≡ set_all true map.old (b ∷ []) }
{
    if b == 0 {
        return;
    }
    words::map::set_block(map, b, true);
}

// The blocks of a table become taken.
pub(crate) fn take_rows(table: &[u16; 256], map: &mut [u64; 16])
    ensures { map.new ≡ set_all true map.old table.now }
{
    for b in table {
        take_one(map, usize::from(*b));
    }
}

// A block's use, by the maps of log blocks and of taken blocks.
fn use_in(logs: &[u64; 16], map: &[u64; 16], b: usize) -> Use
    ensures { use_number result ≡ use_in logs.now map.now b }
{
    if b == 0 {
        Use::Superblock
    } else if words::map::is_taken(logs, b) {
        Use::Log
    } else if words::map::is_taken(map, b) {
        Use::Live
    } else {
        Use::Free
    }
}

// The use of every block.
pub(crate) fn uses(logs: &[u64; 16], map: &[u64; 16]) -> [Use; 1024]
    ensures { use_numbers result ≡ list_from 0 1024 (use_in logs.now map.now) }
{
    let mut uses = [Use::Free; 1024];
    for (b, of) in uses.iter_mut().enumerate() {
        *of = use_in(logs, map, b);
    }
    uses
}

// The most free blocks in a row.
pub(crate) fn longest_free(map: &[u64; 16], blocks: usize) -> usize
    requires { blocks ≤ 1024 }
    ensures { (result ≡ longest_free map.now blocks) × (result ≤ blocks) }
{
    let mut best: usize = 0;
    let mut row: usize = 0;
    for b in 1..blocks {
        row = if words::map::is_taken(map, b) {
            0
        } else {
            row + 1
        };
        best = best.max(row);
    }
    best
}
