// The sentences of refusals and rules.
use block_log::Refusal;
use inspection::Rule;

// The sentence that stands behind a refusal of opening.
pub fn reason(refusal: Refusal) -> &'static str {
    match refusal {
        Refusal::ImageSize => {
            "the image is no multiple of 64 words, or not 4 to 1,024 blocks long"
        }
        Refusal::ScratchShort => "the scratch is shorter than 1,024 numbers",
        Refusal::SuperblockWrong => {
            "the superblock has a wrong mark, or a word after word 1 that is not 0"
        }
        Refusal::LogIndexOutside => {
            "the first log index is 0, or an index of the log chain lies outside the image"
        }
        Refusal::ChainEndless => "the log chain has not ended after 64 log blocks",
        Refusal::LogBlockWrong => {
            "a log block has a word 1 that is not 0, an entry after an empty one, or a next index though it is not full"
        }
        Refusal::EntryWrong => "an entry of the log breaks the rules of entries",
        Refusal::BlockShared => {
            "two blocks of the file share a block of the image, or one is a log block"
        }
        _ => "a byte at or past the file's end in its last block is not 0",
    }
}

// A rule's text.
pub fn rule(rule: Rule) -> &'static str {
    match rule {
        Rule::WholeBlocks => "an image is whole blocks of 64 words",
        Rule::FewestBlocks => "an image has at least 4 blocks",
        Rule::MostBlocks => "an image has at most 1,024 blocks",
        Rule::ScratchLong => "a scratch has 1,024 numbers",
        Rule::Mark => "word 0 of the superblock is the mark 0x0000004D494C4B31",
        Rule::SuperblockZeros => "words 2 to 63 of the superblock are 0",
        Rule::FirstLogIndex => "the first log index is not 0",
        Rule::LogIndexInside => "a log index is below the block count",
        Rule::ChainedOnce => "no log block is chained twice",
        Rule::ChainEnds => "at most 64 log blocks are chained",
        Rule::LogBlockZero => "word 1 of a log block is 0",
        Rule::NoEntryAfterEmpty => "no entry stands after an empty one",
        Rule::LinkOfFull => "only a full log block has a next index",
        Rule::FewestMapped => "an entry maps at least 1 block",
        Rule::MostMapped => "an entry maps at most 64 blocks",
        Rule::FewestUsed => "an entry's last block has at least 1 used byte",
        Rule::MostUsed => "an entry's last block has at most 512 used bytes",
        Rule::EntryZeros => "bits 55 to 63 of an entry are 0",
        Rule::VirtualBlocks => "an entry's virtual blocks are below 256",
        Rule::NotBlockZero => "an entry does not map to block 0",
        Rule::BlocksInside => "an entry's blocks are in the image",
        Rule::NoLogBlock => "no live block is a log block",
        Rule::NotShared => "no two virtual blocks share a live block",
        Rule::EndZeros => "the last live block is 0 at and past the file's end",
    }
}
