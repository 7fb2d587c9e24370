// The log: laying out, opening, and the entries. The definitions are in specs/.
#![tactic(auto)]

ghost use Rattle.std.specs.Prelude.{◌≡◌, ◌+◌, ◌<◌, length, drop};
ghost use Rattle.words.specs.Edition.{one};
ghost use Rattle.block_log.specs.Chain.{entries_from};
ghost use Rattle.block_log.specs.Refusals.{number};
ghost use Rattle.block_log.specs.Entry.{entry_v, entry_b, entry_n, entry_u, entry_rest, legal};

// Why a call is turned down: the reasons of document 01, of this crate and of those above it.
#[derive(Clone, Copy, Debug, PartialEq, Eq)]
pub enum Refusal {
    // 1. The image is no multiple of 64 words or not 4 to 1,024 blocks.
    ImageSize,
    // 2. The scratch is shorter than 1,024 numbers.
    ScratchShort,
    // 3. The superblock has a wrong mark or a word after word 1 that is not 0.
    SuperblockWrong,
    // 4. The first log index is 0, or one of the first 64 indexes of the chain lies outside the image.
    LogIndexOutside,
    // 5. The chain has not ended after 64 log blocks.
    ChainEndless,
    // 6. A log block has a word 1 other than 0, an entry after an empty one, or a next index though not full.
    LogBlockWrong,
    // 7. An entry breaks the entry's rules.
    EntryWrong,
    // 8. Two virtual blocks share a live block, or a live block is a log block.
    BlockShared,
    // 9. A byte at or past the file's end in its last live block is not 0.
    EndNotZero,
    // 10. The shared record's block count does not fit the image, its chain length is not 1 to 64, or a reported block is not below the block count.
    SharedUnfit,
    // 11. The point's record does not fit.
    RecordUnfit,
    // 12. Joining: the point number is above 31.
    NumberAbove,
    // 13. Joining: that point is joined already.
    AlreadyJoined,
    // 14. The point of the record is not joined.
    NotJoined,
    // 15. Beginning with a write or a read under way, or stepping with none.
    WrongPhase,
    // 16. Beginning: the text, or the range to be read, has 0 or more than 1,024 bytes.
    TextSize,
    // 17. Beginning: the write or the range to be read ends past byte 131,072; locating: the block is above 255.
    PastEnd,
    // 18. The first log index, an entry or a next index met while catching up is wrong, or more log blocks would be entered than the image has blocks.
    LogBroken,
    // 19. Beginning: no run of that many free blocks from block 1 on exists.
    NoRun,
    // 20. Committing: 64 log blocks are full.
    LogFull,
    // 21. Committing: a log block is needed and none from 1 on is free.
    NoLogBlock,
    // 22. Locating: nothing is mapped there.
    NotMapped,
    // 26. Serving: no points, more than 32, or not one write for each.
    NotOneEach,
    // 27. Serving: a point is listed twice.
    ListedTwice,
}

// Its number in document 01.
impl From<Refusal> for u32 {
    ghost from_gives = { λ refusal n. n ≡ number refusal };

    fn from(refusal: Refusal) -> u32 {
        match refusal {
            Refusal::ImageSize => 1,
            Refusal::ScratchShort => 2,
            Refusal::SuperblockWrong => 3,
            Refusal::LogIndexOutside => 4,
            Refusal::ChainEndless => 5,
            Refusal::LogBlockWrong => 6,
            Refusal::EntryWrong => 7,
            Refusal::BlockShared => 8,
            Refusal::EndNotZero => 9,
            Refusal::SharedUnfit => 10,
            Refusal::RecordUnfit => 11,
            Refusal::NumberAbove => 12,
            Refusal::AlreadyJoined => 13,
            Refusal::NotJoined => 14,
            Refusal::WrongPhase => 15,
            Refusal::TextSize => 16,
            Refusal::PastEnd => 17,
            Refusal::LogBroken => 18,
            Refusal::NoRun => 19,
            Refusal::LogFull => 20,
            Refusal::NoLogBlock => 21,
            Refusal::NotMapped => 22,
            Refusal::NotOneEach => 26,
            Refusal::ListedTwice => 27,
        }
    }
}

// The shared record: what opening hands back, and each later call takes and returns. `chain` is how many log blocks are chained, `reports` has for each
// point the log block of its log place, 0 when it is not joined.
#[derive(Clone, Copy)]
pub struct Shared {
    pub blocks: u32,
    pub taken: [u64; 16],
    pub joined: u32,
    pub chain: u32,
    pub reports: [u32; 32],
}

// A call that is done, or the reason why it is turned down.
pub type Reply = Result<(), Refusal>;

// What opening answers.
// Stays: the reply stands beside the rest, since the record and the counts of a refused opening are promised too (`refused_with`).
#[derive(Clone, Copy)]
pub struct Opened {
    pub reply: Reply,
    pub length: u32,
    pub entries: u32,
    pub free: u32,
    pub shared: Shared,
}

// Where a point stands in the log: the log block and the slot (2 to 64).
#[derive(Clone, Copy)]
pub struct Place {
    pub block: u32,
    pub slot: u32,
}

// What a walk from a log place to the tail saw: where it ended, how many log blocks it entered, whether it is broken (18), and whether an entry passed
// covers each of two virtual blocks.
// Stays: `broken` is a flag beside the rest, since `lookahead_of` says of a broken walk too where it ended.
#[derive(Clone, Copy)]
pub struct Lookahead {
    pub place: Place,
    pub entered: u32,
    pub broken: bool,
    pub first: bool,
    pub last: bool,
}

pub mod ahead;
pub mod layout;
pub mod links;
pub mod list;
pub mod open;
pub mod pack;

// The fields of an entry.
pub fn first_virtual(e: u64) -> u64
    ensures { (result ≡ entry_v e) × (result < 65536) }
{
    e & 65535
}

pub fn first_block(e: u64) -> u64
    ensures { (result ≡ entry_b e) × (result < 65536) }
{
    (e >> 16) & 65535
}

pub fn count(e: u64) -> u64
    ensures { result ≡ entry_n e }
{
    (e >> 32) & 255
}

pub fn used(e: u64) -> u64
    ensures { result ≡ entry_u one e }
{
    (e >> 40) & 1023
}

// Bits 55 to 63.
pub fn rest(e: u64) -> u64
    ensures { result ≡ entry_rest one e }
{
    (e >> 55) & 511
}

// Whether an entry keeps the entry's rules in an image of this many blocks.
pub fn is_legal(e: u64, blocks: u64) -> bool
    ensures { result ≡ legal one blocks e }
{
    let b = first_block(e);
    let n = count(e);
    let u = used(e);
    let sized = (1 <= n) & (n <= 64) & (1 <= u) & (u <= 512);
    let inside = (first_virtual(e) + n <= 256) & (1 <= b) & (b + n <= blocks);
    sized & (rest(e) == 0) & inside
}

// The words of a part from a place on.
pub fn words_from(part: &[u64], from: usize) -> &[u64]
    ensures { result.now ≡ drop from part.now }
{
    part.get(from..).unwrap_or(&[])
}

// The first slot from `from` on that is empty, or the block's end.
pub fn tail(block: &[u64], from: usize) -> usize
    ensures { result ≡ from + length (entries_from from block.now) }
{
    from + words_from(block, from)
        .iter()
        .take_while(|w| **w != 0)
        .count()
}
