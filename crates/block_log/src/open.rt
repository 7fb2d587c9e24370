// Opening.
ghost use Rattle.std.specs.Prelude.{◌≡◌, List, ℕ, Ok, Err, true, false, not, [], ◌∷◌, ◌+◌, ◌*◌, ◌-◌, ◌≤◌, length};
ghost use Rattle.words.specs.Edition.{one};
ghost use Rattle.words.specs.Logic.{first, some_of, is_zero, up_from};
ghost use Rattle.words.specs.Memory.{memory, wrong_size, byte_in};
ghost use Rattle.words.specs.BlockMap.{set_all};
ghost use Rattle.block_log.specs.Chain.{chain};
ghost use Rattle.block_log.specs.Replay.{shares_block, dirty_end};
ghost use Rattle.block_log.specs.declared.Refusal.{Refusal};
ghost use Rattle.block_log.specs.declared.Refusal.TheVariants.{BlockShared};
ghost use Rattle.block_log.specs.Refusals.{Done};
ghost use Rattle.block_log.specs.Opening.{Opens, nobody_joined, no_shared, reply_of, marked, cleared};
ghost use Rattle.block_log.specs.Parts.{chain_reasons, early, TakesBlocks, TakesAll, Takable};
ghost use Rattle.block_log.specs.Parts.{live_mark, chain_mark, HasMarks, LongEnough, TableFits, ChainFits, Markable};

use crate::{Opened, Place, Refusal, Reply, Shared};

// 1. The image is no multiple of 64 words or not 4 to 1,024 blocks.
pub fn wrong_size(image: &[u64]) -> bool
    ensures { result ≡ wrong_size one image.now }
{
    let blocks = words::offset::whole_blocks(image.len());
    if 64 * blocks != image.len() {
        return true;
    }
    if blocks < 4 {
        return true;
    }
    1024 < blocks
}

// The first of the reasons 4 to 6 that holds.
fn chain_reason(image: &[u64], blocks: usize) -> Reply
    ensures { result ≡ reply_of (first (chain_reasons blocks (memory one image.now))) }
{
    if crate::links::bad_index(image, blocks as u64) {
        return Err(Refusal::LogIndexOutside);
    }
    if crate::links::is_endless(image) {
        return Err(Refusal::ChainEndless);
    }
    if crate::links::bad_log(image) {
        return Err(Refusal::LogBlockWrong);
    }
    Ok(())
}

// The first of the reasons 1 to 6 that holds.
fn early_reason(image: &[u64], room: usize) -> Reply
    ensures { result ≡ reply_of (first (early image.now room)) }
{
    if wrong_size(image) {
        return Err(Refusal::ImageSize);
    }
    if room < 1024 {
        return Err(Refusal::ScratchShort);
    }
    if crate::links::bad_superblock(image) {
        return Err(Refusal::SuperblockWrong);
    }
    chain_reason(image, words::offset::whole_blocks(image.len()))
}

// The log blocks become taken.
fn take_chain(image: &[u64], map: &mut [u64])
    ensures { map.new ≡ set_all true map.old (chain (memory one image.now)) }
{
    for b in crate::links::chain(image, 64) {
        words::map::set_block(map, b as usize, true);
    }
}

// A block becomes taken, 0 being none; whether it was taken already.
fn take_one(map: &mut [u64], b: usize) -> bool
    ensures { TakesBlocks (b ∷ []) map.old map.new result }
{
    if b == 0 {
        return false;
    }
    let met = words::map::is_taken(map, b);
    words::map::set_block(map, b, true);
    met
}

// The live blocks become taken; whether one was taken already.
fn take_live(table: &[u16; 256], map: &mut [u64]) -> bool
    requires { length table.now ≡ 256 }
    ensures { TakesBlocks table.now map.old map.new result }
{
    let mut met = false;
    for b in table {
        met |= take_one(map, usize::from(*b));
    }
    met
}

// The map of taken blocks: block 0, the log blocks and the live blocks. 8 where a live block is met twice or is a log block.
fn take_all(image: &[u64], table: &[u16; 256]) -> Result<[u64; 16], Refusal>
    requires { Takable image.now table.now }
    ensures taken { (map : List ℕ) → result ≡ Ok map → TakesAll image.now table.now map false }
    ensures met { (e : Refusal) → result ≡ Err e → (e ≡ BlockShared) × (shares_block table.now (chain (memory one image.now)) ≡ true) }
{
    let mut map = [0u64; 16];
    words::map::set_block(&mut map, 0, true);
    take_chain(image, &mut map);
    if take_live(table, &mut map) {
        return Err(Refusal::BlockShared);
    }
    Ok(map)
}

// Whether a byte of a block from a place on is not 0.
fn dirty_from(part: &[u64], from: usize) -> bool
    requires { from ≤ 512 }
    ensures { result ≡ some_of (λ k. not (is_zero (byte_in part.now k))) (up_from from (512 - from)) }
{
    (from..512).any(|k| byte_in(part, k) != 0)
}

// Byte k of a block.
fn byte_in(part: &[u64], k: usize) -> u64
    ensures { result ≡ byte_in part.now k }
{
    let w = words::image::word(part, words::offset::whole_words(k));
    words::bytes::byte(w, words::offset::byte(k) as u64)
}

// 9. A byte at or past the file's end in its last live block is not 0.
fn dirty_end(image: &[u64], table: &[u16; 256], size: u32) -> bool
    requires { size ≤ 131072 }
    ensures { result ≡ dirty_end one (memory one image.now) (record { table = table.entry.now; size = size }) }
{
    if size == 0 {
        return false;
    }
    let last = (size - 1) as usize;
    let b = usize::from(table[words::offset::block(last)]);
    dirty_from(
        words::image::block(image, b),
        words::offset::in_block(last) + 1,
    )
}

// The first 1,024 places become 0.
fn clear(scratch: &mut [u16])
    requires { LongEnough scratch.old }
    ensures { scratch.new ≡ cleared scratch.old }
{
    scratch[..1024].fill(0);
}

// Each block of the table gets one more than its virtual block, the lowest where it has several.
fn mark_live(table: &[u16; 256], scratch: &mut [u16])
    requires { TableFits table.now × LongEnough scratch.old }
    ensures { HasMarks (live_mark table.now 0 scratch.old) scratch.new }
{
    // Stays: `for (v, b) in table.iter().enumerate().rev()` is no plainer, since v is what is stored, and from the last one down.
    for v in (0..256usize).rev() {
        let b = table[v] as usize;
        scratch[b] = (v + 1) as u16;
    }
}

// The log blocks get 65,535.
fn mark_chain(image: &[u64], scratch: &mut [u16])
    requires { ChainFits image.now × LongEnough scratch.old }
    ensures { HasMarks (chain_mark (chain (memory one image.now)) scratch.old) scratch.new }
{
    for b in crate::links::chain(image, 64) {
        scratch[b as usize] = 65535;
    }
}

// The marks of opening, over a scratch whose first 1,024 places are 0.
fn mark_scratch(image: &[u64], table: &[u16; 256], scratch: &mut [u16])
    requires { Markable image.now table.now scratch.old }
    ensures { scratch.new ≡ marked table.now (chain (memory one image.now)) scratch.old }
{
    mark_live(table, scratch);
    scratch[0] = 65535;
    mark_chain(image, scratch);
}

// How many entries a walk from the log's start has passed that ended at this slot and entered so many log blocks.
fn entries(slot: u32, entered: u32) -> u32
    requires { (2 ≤ slot + 62 * entered) × (slot ≤ 64) × (entered ≤ 63) }
    ensures { result + 2 ≡ slot + 62 * entered }
{
    62 * entered + slot - 2
}

// The shared record as opening makes it: nobody is joined, and nobody reports a log block.
fn nobody_joined(blocks: u32, taken: [u64; 16], chain: u32) -> Shared
    ensures { result ≡ nobody_joined blocks taken chain }
{
    let reports = [0u32; 32];
    Shared {
        blocks,
        taken,
        joined: 0,
        chain,
        reports,
    }
}

// "A refused opening .. answers a record and counts of zeros".
fn refused(refusal: Refusal) -> Opened
    ensures { result ≡ record { reply = Err refusal; length = 0; entries = 0; free = 0; shared = no_shared } }
{
    let taken = [0u64; 16];
    Opened {
        reply: Err(refusal),
        length: 0,
        entries: 0,
        free: 0,
        shared: nobody_joined(0, taken, 0),
    }
}

fn done(length: u32, entries: u32, free: u32, shared: Shared) -> Opened
    ensures { result ≡ record { reply = Done; length = length; entries = entries; free = free; shared = shared } }
{
    Opened {
        reply: Ok(()),
        length,
        entries,
        free,
        shared,
    }
}

// Opening.
pub fn open(image: &[u64], scratch: &mut [u16]) -> Opened
    ensures { Opens image.now scratch.old scratch.new result }
{
    if let Err(refusal) = early_reason(image, scratch.len()) {
        return refused(refusal);
    }
    let blocks = words::offset::whole_blocks(image.len()) as u32;
    let from = crate::links::start(image);
    let lookahead = crate::ahead::look(image, blocks, from, 0, 0);
    if lookahead.broken {
        return refused(Refusal::EntryWrong);
    }
    let mut table = [0u16; 256];
    let size = crate::ahead::catch_up(image, blocks, from, &mut table, 0);
    clear(scratch);
    let map = match take_all(image, &table) {
        Ok(map) => map,
        Err(refusal) => return refused(refusal),
    };
    if dirty_end(image, &table, size) {
        return refused(Refusal::EndNotZero);
    }
    mark_scratch(image, &table, scratch);
    let n = entries(lookahead.place.slot, lookahead.entered);
    let free = words::map::free_count(&map, blocks as usize) as u32;
    done(
        size,
        n,
        free,
        nobody_joined(blocks, map, lookahead.entered + 1),
    )
}
