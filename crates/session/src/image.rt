// Commands on the image alone.
use crate::bench::{Bench, ImageSize};
use crate::{bench, digest, noise, print};
use std::io;
use std::io::Write;

impl Bench {
    // An image of so many zero words; all records become zero.
    pub fn renew(&mut self, out: &mut impl Write, size: ImageSize) -> io::Result<()> {
        self.room = [0; 65600];
        self.size = size;
        self.shared = bench::NO_SHARED;
        self.clear_points();
        writeln!(out, "image {}", size.n)
    }

    // The words from a place on, so many, become the noise of a seed.
    pub fn make_noise(
        &mut self,
        out: &mut impl Write,
        from: u64,
        size: u64,
        seed: u64,
    ) -> io::Result<()> {
        let image = self.image_mut();
        let from = from as usize;
        let size = size as usize;
        if image.len() < from || image.len() - from < size {
            return print::error(out);
        }
        noise::fill(&mut image[from..from + size], seed);
        writeln!(out, "noise")
    }

    pub fn set(&mut self, out: &mut impl Write, at: u64, word: u64) -> io::Result<()> {
        let image = self.image_mut();
        let at = at as usize;
        if image.len() <= at {
            return print::error(out);
        }
        words::image::put_word(image, at, word);
        writeln!(out, "set")
    }

    pub fn word(&self, out: &mut impl Write, at: u64) -> io::Result<()> {
        match self.image().get(at as usize) {
            Some(word) => writeln!(out, "word {word}"),
            None => print::error(out),
        }
    }

    pub fn lay_out(&mut self, out: &mut impl Write) -> io::Result<()> {
        let laid_out = print::outcome(block_log::layout::lay_out(self.image_mut()));
        print::reply(out, laid_out, "laid out")
    }

    pub fn print_digest(&self, out: &mut impl Write) -> io::Result<()> {
        writeln!(out, "digest {}", digest::of(self.image()))
    }
}
