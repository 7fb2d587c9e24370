// Inspecting an image: what can be read of it, and, where opening refuses it, which rule is broken and where. The definitions are in specs/.
#![tactic(auto)]

ghost use Rattle.std.specs.Prelude.{◌≡◌, ◌≤◌, false, replicate, take};
ghost use Rattle.words.specs.Edition.{one};
ghost use Rattle.words.specs.Memory.{memory, block_count, wrong_size};
ghost use Rattle.block_log.specs.Refusals.{number};
ghost use Rattle.block_log.specs.Opening.{number_of, open_refusal};
ghost use Rattle.inspection.specs.Told.{seen, rule_number, rule_place, told};
ghost use Rattle.inspection.specs.Faults.{first_fault};
ghost use Rattle.inspection.specs.Inspecting.{inspected_with, unread, Inspects};

use block_log::{Refusal, Reply};
use faults::Reading;

// What an image has to keep (docs/INSPECT.md): the rules of opening's refusals, one refusal after the other.
#[derive(Clone, Copy, Debug, PartialEq, Eq)]
pub enum Rule {
    WholeBlocks,
    FewestBlocks,
    MostBlocks,
    ScratchLong,
    Mark,
    SuperblockZeros,
    FirstLogIndex,
    LogIndexInside,
    ChainedOnce,
    ChainEnds,
    LogBlockZero,
    NoEntryAfterEmpty,
    LinkOfFull,
    FewestMapped,
    MostMapped,
    FewestUsed,
    MostUsed,
    EntryZeros,
    VirtualBlocks,
    NotBlockZero,
    BlocksInside,
    NoLogBlock,
    NotShared,
    EndZeros,
}

impl Rule {
    // The refusal to which it belongs.
    pub fn refusal(self) -> Refusal
        ensures { number result ≡ rule_number self }
    {
        match self {
            Rule::WholeBlocks | Rule::FewestBlocks | Rule::MostBlocks => Refusal::ImageSize,
            Rule::ScratchLong => Refusal::ScratchShort,
            Rule::Mark | Rule::SuperblockZeros => Refusal::SuperblockWrong,
            Rule::FirstLogIndex | Rule::LogIndexInside => Refusal::LogIndexOutside,
            Rule::ChainedOnce | Rule::ChainEnds => Refusal::ChainEndless,
            Rule::LogBlockZero | Rule::NoEntryAfterEmpty | Rule::LinkOfFull => {
                Refusal::LogBlockWrong
            }
            Rule::NoLogBlock | Rule::NotShared => Refusal::BlockShared,
            Rule::EndZeros => Refusal::EndNotZero,
            _ => Refusal::EntryWrong,
        }
    }

    // Which of that refusal's rules it is, from 1 on.
    pub fn place(self) -> u32
        ensures { result ≡ rule_place self }
    {
        match self {
            Rule::FewestBlocks
            | Rule::SuperblockZeros
            | Rule::LogIndexInside
            | Rule::ChainEnds
            | Rule::NoEntryAfterEmpty
            | Rule::MostMapped
            | Rule::NotShared => 2,
            Rule::MostBlocks | Rule::LinkOfFull | Rule::FewestUsed => 3,
            Rule::MostUsed => 4,
            Rule::EntryZeros => 5,
            Rule::VirtualBlocks => 6,
            Rule::NotBlockZero => 7,
            Rule::BlocksInside => 8,
            _ => 1,
        }
    }
}

// A rule that an image breaks; the place, a block and a word in it, and what it holds; and for `NoLogBlock` and `NotShared` the virtual block, for
// `EndZeros` the byte in the block.
#[derive(Clone, Copy, Debug, PartialEq, Eq)]
pub struct Fault {
    pub rule: Rule,
    pub block: u64,
    pub word: u64,
    pub value: u64,
    pub detail: u64,
}

// What was read, in numbers: log blocks, entries, the length of the file that the entries give, free blocks, and the longest free stretch.
#[derive(Clone, Copy, Debug, PartialEq, Eq)]
pub struct Found {
    pub chained: u32,
    pub entries: u32,
    pub length: u32,
    pub free: u32,
    pub longest: u32,
}

// What a block is used for.
#[derive(Clone, Copy, Debug, PartialEq, Eq)]
pub enum Use {
    Superblock,
    Log,
    Live,
    Free,
}

// The first fault, if there is one, and what can be read. Zeros stand behind the last log block and entry.
#[derive(Clone, Copy)]
pub struct Inspected {
    fault: Option<Fault>,
    found: Found,
    chain: [u16; 64],
    entries: [u64; 3968],
    overruled: [u64; 3968],
    table: [u16; 256],
    uses: [Use; 1024],
    ghost within: { (found.chained ≤ 64) × (found.entries ≤ 3968) },
}

impl Inspected {
    // The first fault of the image; none where it opens.
    pub fn fault(&self) -> Option<Fault>
        ensures { result ≡ self.now.fault }
    {
        self.fault
    }

    pub fn found(&self) -> Found
        ensures { result ≡ self.now.found }
    {
        self.found
    }

    // The log blocks, in chain order.
    pub fn chain(&self) -> &[u16]
        ensures { result.now ≡ take self.now.found.chained self.now.chain }
    {
        &self.chain[..self.found.chained as usize]
    }

    // The entries, in log order.
    pub fn entries(&self) -> &[u64]
        ensures { result.now ≡ take self.now.found.entries self.now.entries }
    {
        &self.entries[..self.found.entries as usize]
    }

    // Of each entry, which of its blocks are overruled: bit i stands for its block i.
    pub fn overruled(&self) -> &[u64]
        ensures { result.now ≡ take self.now.found.entries self.now.overruled }
    {
        &self.overruled[..self.found.entries as usize]
    }

    // The block of each virtual block, 0 for none.
    pub fn table(&self) -> &[u16; 256]
        ensures { result.now ≡ self.now.table }
    {
        &self.table
    }

    // The use of each block.
    pub fn uses(&self) -> &[Use; 1024]
        ensures { result.now ≡ self.now.uses }
    {
        &self.uses
    }
}

mod faults;
mod read;

// An image of a wrong size: nothing is read.
fn unread(fault: Fault) -> Inspected
    ensures { seen result.fault result.found result.chain result.entries result.overruled result.table result.uses ≡ unread (told fault) }
{
    Inspected {
        fault: Some(fault),
        found: Found {
            chained: 0,
            entries: 0,
            length: 0,
            free: 0,
            longest: 0,
        },
        chain: [0; 64],
        entries: [0; 3968],
        overruled: [0; 3968],
        table: [0; 256],
        uses: [Use::Superblock; 1024],
    }
}

// What is read of an image of a right size, and its first fault. `room` is the scratch's length, `reply` what opening answered.
fn inspect_blocks(image: &[u64], room: usize, reply: Reply) -> Inspected
    requires { (wrong_size one image.now ≡ false) × (number_of reply ≡ open_refusal one image.now (replicate room 0)) }
    ensures { let words = image.now in
        seen result.fault result.found result.chain result.entries result.overruled result.table result.uses
        ≡ inspected_with one (block_count one words) (memory one words) (first_fault one words (replicate room 0)) }
{
    let blocks = words::offset::whole_blocks(image.len());
    let mut chain = [0u16; 64];
    let chained = read::read_chain(image, blocks as u64, &mut chain);
    let log_blocks = &chain[..chained.count];
    let logs = chained.map;
    let mut entries = [0u64; 3968];
    let n = read::read_log(image, blocks as u64, log_blocks, &mut entries);
    let log = &entries[..n];
    let mut overruled = [0u64; 3968];
    read::mark_overruled(log, &mut overruled);
    let mut table = [0u16; 256];
    let length = read::replay(log, &mut table);
    let mut taken = logs;
    words::map::set_block(&mut taken, 0, true);
    read::take_rows(&table, &mut taken);
    let uses = read::uses(&logs, &taken);
    let read = Reading {
        chain: log_blocks,
        logs,
        entries: log,
        table: &table,
        length,
    };
    let fault = faults::first_fault(image, room, reply, read);
    let found = Found {
        chained: chained.count as u32,
        entries: n as u32,
        length,
        free: words::map::free_count(&taken, blocks) as u32,
        longest: read::longest_free(&taken, blocks) as u32,
    };
    Inspected {
        fault,
        found,
        chain,
        entries,
        overruled,
        table,
        uses,
    }
}

// Inspects an image: whether it opens, the first fault where it does not, and what can be read of it. The scratch is left as opening leaves it.
pub fn inspect(image: &[u64], scratch: &mut [u16]) -> Inspected
    ensures { Inspects image.now scratch.old scratch.new
        (seen result.fault result.found result.chain result.entries result.overruled result.table result.uses) }
{
    let opened = block_log::open::open(image, scratch);
    let reply = opened.reply;
    if block_log::open::wrong_size(image) {
        return unread(faults::size_fault(image.len()));
    }
    inspect_blocks(image, scratch.len(), reply)
}
