// What a listing shows: the answer of opening, and where each block of the file lies.
ghost use Rattle.block_log.specs.Listing.{Lists};

use crate::Opened;

// Opening; and row v becomes the logical block of virtual block v, 0 for none and where opening is refused.
pub fn listed(image: &[u64], scratch: &mut [u16], rows: &mut [u16; 256]) -> Opened
    ensures { Lists image.now scratch.old scratch.new rows.new result }
{
    let opened = crate::open::open(image, scratch);
    *rows = [0u16; 256];
    let blocks = opened.shared.blocks;
    if blocks == 0 {
        return opened;
    }
    crate::ahead::catch_up(image, blocks, crate::links::start(image), rows, 0);
    opened
}
