// The first fault of an image that opening refuses: which rule is broken, and where.
ghost use Rattle.std.specs.Prelude.{◌≡◌, ◌==◌, ℕ, ◌+◌, ◌-◌, ◌≤◌, ◌<◌, drop, length, replicate};
ghost use Rattle.std.specs.List.{take_while};
ghost use Rattle.words.specs.Edition.{one};
ghost use Rattle.words.specs.Memory.{memory};
ghost use Rattle.block_log.specs.Entry.{rules};
ghost use Rattle.block_log.specs.Opening.{number_of, open_refusal};
ghost use Rattle.inspection.specs.Told.{rule_number, rule_place, told, fault_told};
ghost use Rattle.inspection.specs.Reading.{block_of, slot_of};
ghost use Rattle.inspection.specs.Parts.{Readings, MapOfChain, clashes_at, first_clash, shared_by};
ghost use Rattle.inspection.specs.Faults.{first_fault, fault_at, size_fault, scratch_fault, zeros_ahead, super_fault, last_of, link_word};
ghost use Rattle.inspection.specs.Faults.{index_fault, endless_fault, first_bad, block_fault, first_broken, entry_fault, last_covering, first_byte, end_fault};

use crate::{Fault, Rule};
use block_log::{Refusal, Reply};

// What was read of an image: its log blocks and the map of them, its entries, and the table and the length of the file that these give.
#[derive(Clone, Copy)]
pub(crate) struct Reading<'a> {
    pub chain: &'a [u16],
    pub logs: [u64; 16],
    pub entries: &'a [u64],
    pub table: &'a [u16; 256],
    pub length: u32,
}

// A rule is broken by a word of the image.
fn fault_at(image: &[u64], rule: Rule, block: u64, word: u64, detail: u64) -> Fault
    ensures { told result ≡ fault_at (memory one image.now) (rule_number rule) (rule_place rule) block word detail }
{
    let value = words::image::word(words::image::block(image, block as usize), word as usize);
    Fault {
        rule,
        block,
        word,
        value,
        detail,
    }
}

// 1. The image is no multiple of 64 words or not 4 to 1,024 blocks.
fn wrong_size(rule: Rule, block: usize, word: usize, size: usize) -> Fault
    ensures { told result ≡ record { number = rule_number rule; rule = rule_place rule; block = block; word = word; value = size; detail = 0 } }
{
    Fault {
        rule,
        block: block as u64,
        word: word as u64,
        value: size as u64,
        detail: 0,
    }
}

pub(crate) fn size_fault(size: usize) -> Fault
    ensures { told result ≡ size_fault one size }
{
    let blocks = words::offset::whole_blocks(size);
    if 64 * blocks != size {
        return wrong_size(Rule::WholeBlocks, blocks, size - 64 * blocks, size);
    }
    if blocks < 4 {
        return wrong_size(Rule::FewestBlocks, blocks, 0, size);
    }
    wrong_size(Rule::MostBlocks, 1024, 0, size)
}

// 2. The scratch is shorter than 1,024 numbers.
fn scratch_fault(size: usize) -> Fault
    ensures { told result ≡ scratch_fault size }
{
    Fault {
        rule: Rule::ScratchLong,
        block: 0,
        word: 0,
        value: size as u64,
        detail: 0,
    }
}

// How many words from a place of a part on are 0.
fn zeros_ahead(part: &[u64], from: usize) -> usize
    ensures { result ≡ length (take_while (λ w. w == 0) (drop from part.now)) }
{
    part.iter().skip(from).take_while(|w| **w == 0).count()
}

// The first word of a part from a place on that is not 0; past its end where there is none.
fn first_nonzero(part: &[u64], from: usize) -> usize
    ensures { result ≡ from + zeros_ahead (drop from part.now) }
{
    from + zeros_ahead(part, from)
}

// 3. The superblock has a wrong mark or a word after word 1 that is not 0.
fn super_fault(image: &[u64]) -> Fault
    ensures { told result ≡ super_fault one (memory one image.now) }
{
    let part = words::image::block(image, 0);
    if words::image::word(part, 0) != 0x4D494C4B31 {
        return fault_at(image, Rule::Mark, 0, 0, 0);
    }
    let word = first_nonzero(part, 2);
    fault_at(image, Rule::SuperblockZeros, 0, word as u64, 0)
}

// The log block behind which the chain is read no further: the last of these, 0 for none.
// Stays: here, in `first_bad` and in `block_of` 0 for none, as the definitions of these names have it.
fn last_of(chain: &[u16]) -> u64
    ensures { result ≡ last_of chain.now }
{
    match chain.last() {
        Some(b) => u64::from(*b),
        None => 0,
    }
}

// The word of the link behind these log blocks: 0 of the last, 1 of the superblock.
fn link_word(chain: &[u16]) -> u64
    ensures { result ≡ link_word chain.now }
{
    u64::from(chain.is_empty())
}

// 4. The first log index is 0, or an index is not below the block count.
fn index_fault(image: &[u64], chain: &[u16]) -> Fault
    ensures { told result ≡ index_fault (memory one image.now) chain.now }
{
    let b = last_of(chain);
    let i = link_word(chain);
    let found = fault_at(image, Rule::FirstLogIndex, b, i, 0);
    if found.value == 0 {
        return found;
    }
    fault_at(image, Rule::LogIndexInside, b, i, 0)
}

// 5. The chain has not ended after 64 log blocks. The map has the log blocks read.
fn endless_fault(image: &[u64], chain: &[u16], logs: &[u64; 16]) -> Fault
    requires { MapOfChain logs.now chain.now }
    ensures { told result ≡ endless_fault (memory one image.now) chain.now }
{
    let b = last_of(chain);
    let i = link_word(chain);
    let found = fault_at(image, Rule::ChainedOnce, b, i, 0);
    if words::map::is_taken(logs, found.value as usize) {
        return found;
    }
    fault_at(image, Rule::ChainEnds, b, i, 0)
}

// The first of these log blocks that has a word 1 other than 0, an entry after an empty one, or a next index though not full; 0 for none.
fn first_bad(image: &[u64], chain: &[u16]) -> u64
    ensures { result ≡ first_bad (memory one image.now) chain.now }
{
    for b in chain {
        if block_log::links::bad_log_block(words::image::block(image, usize::from(*b))) {
            return u64::from(*b);
        }
    }
    0
}

// 6. What is wrong with a log block.
fn block_fault(image: &[u64], b: u64) -> Fault
    ensures { told result ≡ block_fault (memory one image.now) b }
{
    let part = words::image::block(image, b as usize);
    if words::image::word(part, 1) != 0 {
        return fault_at(image, Rule::LogBlockZero, b, 1, 0);
    }
    let tail = block_log::tail(part, 2);
    if block_log::links::zeros_from(part, tail) {
        return fault_at(image, Rule::LinkOfFull, b, 0, 0);
    }
    let word = first_nonzero(part, tail);
    fault_at(image, Rule::NoEntryAfterEmpty, b, word as u64, 0)
}

// 6. A log block is so.
fn log_fault(image: &[u64], chain: &[u16]) -> Fault
    ensures { told result ≡ (let m = memory one image.now in block_fault m (first_bad m chain.now)) }
{
    block_fault(image, first_bad(image, chain))
}

// The first of the entry's rules that a word breaks: the eighth, which asks for the block count, where it keeps the seven before it.
fn first_broken(e: u64) -> Rule
    ensures number { rule_number result ≡ 7 }
    ensures place { (blocks : ℕ) → rule_place result ≡ first_broken (rules one blocks e) }
{
    let v = block_log::first_virtual(e);
    let b = block_log::first_block(e);
    let n = block_log::count(e);
    let u = block_log::used(e);
    if n < 1 {
        return Rule::FewestMapped;
    }
    if 64 < n {
        return Rule::MostMapped;
    }
    if u < 1 {
        return Rule::FewestUsed;
    }
    if 512 < u {
        return Rule::MostUsed;
    }
    if block_log::rest(e) != 0 {
        return Rule::EntryZeros;
    }
    if 256 < v + n {
        return Rule::VirtualBlocks;
    }
    if b < 1 {
        return Rule::NotBlockZero;
    }
    Rule::BlocksInside
}

// The log block in which entry j stands; 0 for none.
fn block_of(chain: &[u16], j: usize) -> u64
    ensures { result ≡ block_of one chain.now j }
{
    match chain.get(j / 62) {
        Some(b) => u64::from(*b),
        None => 0,
    }
}

// The word of its log block that is entry j.
fn slot_of(j: usize) -> u64
    ensures { result ≡ slot_of one j }
{
    (2 + j % 62) as u64
}

// 7. An entry breaks the entry's rules: the word behind the first j.
fn entry_fault(image: &[u64], chain: &[u16], j: usize) -> Fault
    ensures { (blocks : ℕ) → told result ≡ entry_fault one blocks (memory one image.now) chain.now j }
{
    let b = block_of(chain, j);
    let i = slot_of(j);
    let e = words::image::word(words::image::block(image, b as usize), i as usize);
    fault_at(image, first_broken(e), b, i, 0)
}

// Whether a block is taken, 0 being none.
fn clashes(map: &[u64; 16], b: usize) -> bool
    ensures { result ≡ clashes_at map.now b }
{
    b != 0 && words::map::is_taken(map, b)
}

// The first virtual block whose block is a log block, or that of a virtual block before it; 256 for none. The map has the log blocks.
fn first_shared(logs: [u64; 16], table: &[u16; 256]) -> usize
    ensures { (result ≡ first_clash logs table.now) × (result ≤ 256) }
{
    let mut map = logs;
    for (v, b) in table.iter().enumerate() {
        let b = usize::from(*b);
        if clashes(&map, b) {
            return v;
        }
        crate::read::take_one(&mut map, b);
    }
    256
}

// The place of the last entry that covers a virtual block, 0 for none.
fn last_covering(entries: &[u64], v: u32) -> usize
    ensures { result ≡ last_covering v entries.now }
{
    // Stays: `entries.iter().rposition(..).unwrap_or(0)` left open that its answer is `last_covering`: no word for lists says what `rposition` finds.
    for j in (0..entries.len()).rev() {
        if block_log::ahead::covers(entries[j], v) {
            return j;
        }
    }
    0
}

// 8. Two virtual blocks share a live block, or a live block is a log block. The map has the log blocks.
fn shared_fault(image: &[u64], read: Reading) -> Fault
    requires { first_clash read.logs read.table.now < 256 }
    ensures { told result ≡ shared_by one (memory one image.now) read.entry.chain.now read.entry.logs read.entry.entries.now read.entry.table.now }
{
    let v = first_shared(read.logs, read.table);
    let j = last_covering(read.entries, v as u32);
    let b = block_of(read.chain, j);
    let i = slot_of(j);
    if words::map::is_taken(&read.logs, usize::from(read.table[v])) {
        return fault_at(image, Rule::NoLogBlock, b, i, v as u64);
    }
    fault_at(image, Rule::NotShared, b, i, v as u64)
}

// The first byte of a block from a place on that is not 0; 512 for none.
fn first_byte(part: &[u64], from: usize) -> usize
    requires { from ≤ 512 }
    ensures { (result ≡ first_byte part.now from (512 - from)) × (result ≤ 512) }
{
    for k in from..512 {
        let w = words::image::word(part, words::offset::whole_words(k));
        if words::bytes::byte(w, words::offset::byte(k) as u64) != 0 {
            return k;
        }
    }
    512
}

// 9. A byte at or past the file's end in its last live block is not 0.
fn end_fault(image: &[u64], table: &[u16; 256], size: u32) -> Fault
    requires { (1 ≤ size) × (size ≤ 131072) }
    ensures { told result ≡ end_fault one (memory one image.now) (record { table = table.now; size = size }) }
{
    let last = (size - 1) as usize;
    let v = words::offset::block(last);
    let b = u64::from(table[v]);
    let k = first_byte(
        words::image::block(image, b as usize),
        words::offset::in_block(last) + 1,
    );
    fault_at(
        image,
        Rule::EndZeros,
        b,
        words::offset::whole_words(k) as u64,
        k as u64,
    )
}

// The first fault of an image of a right size, by opening's reply and by what was read. `room` is the scratch's length.
pub(crate) fn first_fault(image: &[u64], room: usize, reply: Reply, read: Reading) -> Option<Fault>
    requires readings { Readings image.now read.chain.now read.logs read.entries.now read.table.now read.length }
    requires opened { number_of reply ≡ open_refusal one image.now (replicate room 0) }
    ensures { fault_told result ≡ first_fault one image.now (replicate room 0) }
{
    let Err(refusal) = reply else {
        return None;
    };
    match refusal {
        Refusal::ScratchShort => Some(scratch_fault(room)),
        Refusal::SuperblockWrong => Some(super_fault(image)),
        Refusal::LogIndexOutside => Some(index_fault(image, read.chain)),
        Refusal::ChainEndless => Some(endless_fault(image, read.chain, &read.logs)),
        Refusal::LogBlockWrong => Some(log_fault(image, read.chain)),
        Refusal::EntryWrong => Some(entry_fault(image, read.chain, read.entries.len())),
        Refusal::BlockShared => Some(shared_fault(image, read)),
        _ => Some(end_fault(image, read.table, read.length)),
    }
}
