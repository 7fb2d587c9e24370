// Where an offset lies, and what a length takes: shifts and masks, each equal to a quotient or remainder for every number of 64 bits.
ghost use Rattle.std.specs.Prelude.{◌≡◌, ◌+◌, ◌-◌, ◌/◌, ◌%◌};
ghost use Rattle.words.specs.Edition.{one, block_bytes};

// A block is 1 << BLOCK_SHIFT bytes.
const BLOCK_SHIFT: usize = 9;

// A word is 1 << WORD_SHIFT bytes.
const WORD_SHIFT: usize = 3;

// The block in which an offset lies.
pub fn block(offset: usize) -> usize
    ensures { result ≡ offset / block_bytes one }
{
    offset >> BLOCK_SHIFT
}

// Its byte in that block.
pub fn in_block(offset: usize) -> usize
    ensures { result ≡ offset % block_bytes one }
{
    offset & ((1 << BLOCK_SHIFT) - 1)
}

// Its word in that block.
pub fn word(offset: usize) -> usize
    ensures { result ≡ offset / 8 % one.block_words }
{
    (offset >> WORD_SHIFT) & ((1 << (BLOCK_SHIFT - WORD_SHIFT)) - 1)
}

// Its byte in that word.
pub fn byte(offset: usize) -> usize
    ensures { result ≡ offset % 8 }
{
    offset & ((1 << WORD_SHIFT) - 1)
}

// The whole words of a length of bytes; of an offset, the words before its own.
pub fn whole_words(bytes: usize) -> usize
    ensures { result ≡ bytes / 8 }
{
    bytes >> WORD_SHIFT
}

// The whole blocks of a length of words.
pub fn whole_blocks(words: usize) -> usize
    ensures { result ≡ words / one.block_words }
{
    words >> (BLOCK_SHIFT - WORD_SHIFT)
}

// The blocks that a length of bytes takes, the last of them full or not. (The contract's sum may not fit; the code does without it.)
pub fn blocks_for(bytes: usize) -> usize
    ensures { result ≡ (bytes + (block_bytes one - 1)) / block_bytes one }
{
    if bytes == 0 {
        return 0;
    }
    ((bytes - 1) >> BLOCK_SHIFT) + 1
}
