// The superblock and the chain of log blocks: reasons 3 to 6.
ghost use Rattle.std.specs.Prelude.{◌≡◌, ◌%◌, ◌^◌, drop};
ghost use Rattle.words.specs.Edition.{one};
ghost use Rattle.words.specs.Logic.{all_of, some_of, is_zero};
ghost use Rattle.words.specs.Memory.{memory};
ghost use Rattle.block_log.specs.Links.{links_left};
ghost use Rattle.block_log.specs.Chain.{first_index, next_index, chain_from, chain, outside, bad_superblock, bad_index, endless, bad_log_block, bad_log};

use crate::Place;

// Whether all words of a part from a place on are 0.
pub fn zeros_from(part: &[u64], from: usize) -> bool
    ensures { result ≡ all_of is_zero (drop from part.now) }
{
    crate::words_from(part, from).iter().all(|w| *w == 0)
}

// The index of the first log block.
pub fn first_index(image: &[u64]) -> u64
    ensures { result ≡ first_index (memory one image.now) }
{
    words::image::word(words::image::block(image, 0), 1)
}

// The index of the log block after block b.
pub fn next_index(image: &[u64], b: u64) -> u64
    ensures { result ≡ next_index (memory one image.now) b }
{
    words::image::word(words::image::block(image, b as usize), 0)
}

// The log blocks of the chain, from an index on, as many as are left to go.
#[derive(Clone, Copy)]
pub struct Links<'a> {
    image: &'a [u64],
    index: u64,
    left: usize,
}

impl<'a> Iterator for Links<'a> {
    ghost use Rattle.std.specs.Iterator.{YieldsFirst, item_count};
    ghost use Rattle.block_log.specs.Links.{links_left};

    type Item = u64;

    ghost next_gives = { YieldsFirst links_left };

    ghost remaining = { item_count links_left };

    fn next(&mut self) -> Option<u64> {
        let b = self.index;
        if b == 0 || self.left == 0 {
            return None;
        }
        self.index = next_index(self.image, b);
        self.left -= 1;
        Some(b)
    }
}

// The log blocks of the chain, at most so many of them.
pub fn chain(image: &[u64], most: usize) -> Links<'_>
    ensures { links_left result ≡ chain_from (memory one image.now) most (first_index (memory one image.now)) }
{
    Links {
        image,
        index: first_index(image),
        left: most,
    }
}

// The log place at the log's start: slot 2 of the first log block. Of the index 32 bits are kept.
// Stays: `u32::try_from` has no number for an index of more bits, of which the clause keeps 32 where the image is any words.
pub fn start(image: &[u64]) -> Place
    ensures { result ≡ record { block = first_index (memory one image.now) % 2 ^ 32; slot = 2 } }
{
    let block = (first_index(image) & 4294967295) as u32;
    Place { block, slot: 2 }
}

// 3. The superblock has a wrong mark or a word after word 1 that is not 0.
pub fn bad_superblock(image: &[u64]) -> bool
    ensures { result ≡ bad_superblock one (memory one image.now) }
{
    let part = words::image::block(image, 0);
    if words::image::word(part, 0) != 0x4D494C4B31 {
        return true;
    }
    !zeros_from(part, 2)
}

// Whether one of the first 64 indexes of the chain is outside.
fn some_outside(image: &[u64], blocks: u64) -> bool
    ensures { result ≡ some_of (outside blocks) (chain (memory one image.now)) }
{
    chain(image, 64).any(|b| blocks <= b)
}

// 4. The first log index is 0, or one of the first 64 indexes of the chain is not below the block count.
pub fn bad_index(image: &[u64], blocks: u64) -> bool
    ensures { result ≡ bad_index blocks (memory one image.now) }
{
    if first_index(image) == 0 {
        return true;
    }
    some_outside(image, blocks)
}

// 5. The chain has not ended after 64 log blocks.
pub fn is_endless(image: &[u64]) -> bool
    ensures { result ≡ endless (memory one image.now) }
{
    64 < chain(image, 65).count()
}

// A log block has a word 1 other than 0, an entry after an empty one, or a next index though not full.
pub fn bad_log_block(part: &[u64]) -> bool
    ensures { result ≡ bad_log_block part.now }
{
    if words::image::word(part, 1) != 0 {
        return true;
    }
    let end = crate::tail(part, 2);
    if !zeros_from(part, end) {
        return true;
    }
    if words::image::word(part, 0) == 0 {
        return false;
    }
    end < part.len()
}

// 6. A log block is so.
pub fn bad_log(image: &[u64]) -> bool
    ensures { result ≡ bad_log (memory one image.now) }
{
    chain(image, 64).any(|b| bad_log_block(words::image::block(image, b as usize)))
}
