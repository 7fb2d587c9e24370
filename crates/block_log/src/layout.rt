// Laying out.
ghost use Rattle.std.specs.Prelude.{◌≡◌, ◌++◌, ◌≤◌, length, drop, replicate};
ghost use Rattle.words.specs.Edition.{one};
ghost use Rattle.block_log.specs.Opening.{reply_of, layout_refusal, layout};

use crate::{Refusal, Reply};

// The first n words become 0.
fn zero_front(image: &mut [u64], n: usize)
    requires { n ≤ length image.old }
    ensures { image.new ≡ replicate n 0 ++ drop n image.old }
{
    // Stays: `image[..n].fill(0)` would assign to an image in a second place beside `put_word` (PROOF, "There is one assignment").
    for i in 0..n {
        words::image::put_word(image, i, 0);
    }
}

// The superblock, with first log block 1, and an empty block 1; other blocks are not touched.
pub fn lay_out(image: &mut [u64]) -> Reply
    ensures { (result ≡ reply_of (layout_refusal one image.old)) × (image.new ≡ layout one image.old) }
{
    if crate::open::wrong_size(image) {
        return Err(Refusal::ImageSize);
    }
    zero_front(image, 128);
    words::image::put_word(image, 0, 0x4D494C4B31);
    words::image::put_word(image, 1, 1);
    Ok(())
}
