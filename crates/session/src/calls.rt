// Calls of the store.
ghost use Rattle.std.specs.Prelude.{◌≡◌, length};
ghost use Rattle.session.specs.Made.{text_of};

use crate::bench::{Bench, PlaceNumber};
use crate::number::UpTo;
use crate::order::Asked;
use crate::{bench, digest, print};
use std::io;
use std::io::Write;

// The text of a write: each byte is 7 more than the one before it.
pub(crate) fn fill_text(text: &mut [u8], seed: u8)
    ensures { text.new ≡ text_of seed (length text.old) }
{
    let mut next = seed;
    for byte in text {
        *byte = next;
        next = next.wrapping_add(7);
    }
}

impl Bench {
    // Opens with a scratch of so many numbers, each 7 before; all places become zero.
    pub fn open(&mut self, out: &mut impl Write, size: UpTo<2048>) -> io::Result<()> {
        let mut room = [7u16; 2048];
        let scratch = &mut room[..size.n];
        let opened = block_log::open::open(self.image(), scratch);
        self.shared = opened.shared;
        self.clear_points();
        match print::outcome(opened.reply) {
            Ok(()) => write!(
                out,
                "opened length {} entries {} free {}",
                opened.length, opened.entries, opened.free
            )?,
            Err(refused) => write!(out, "{refused}")?,
        }
        writeln!(out, " scratch {}", digest::of(scratch))
    }

    // Power loss: nothing but the image stays.
    pub fn cut(&mut self, out: &mut impl Write) -> io::Result<()> {
        self.shared = bench::NO_SHARED;
        self.clear_points();
        writeln!(out, "cut")
    }

    // The point of this number joins; its place gets the answered record unless the call is refused.
    pub fn join(&mut self, out: &mut impl Write, number: u32) -> io::Result<()> {
        let joined = points::join::join(self.image(), self.shared, number);
        self.shared = joined.shared;
        let outcome = print::outcome(joined.reply);
        if outcome.is_ok() && number < 32 {
            self.points[number as usize] = joined.point;
        }
        print::reply(out, outcome, "joined")
    }

    // `begin P O L S`
    pub fn begin(&mut self, out: &mut impl Write, p: PlaceNumber, write: Asked) -> io::Result<()> {
        let mut room = [0u8; 1100];
        let text = &mut room[..write.size.n];
        fill_text(text, write.seed);
        let offset = write.offset as usize;
        let begun = points::begin::begin(self.image(), self.shared, self.point(p), offset, text);
        self.shared = begun.shared;
        match print::outcome(begun.reply) {
            Ok(()) => {
                self.points[p.n] = begun.point;
                writeln!(out, "begun run {}", begun.point.head.write.run)
            }
            Err(refused) => writeln!(out, "{refused}"),
        }
    }

    // `beginread P O L`
    pub fn begin_read(
        &mut self,
        out: &mut impl Write,
        p: PlaceNumber,
        offset: u32,
        size: UpTo<1100>,
    ) -> io::Result<()> {
        let offset = offset as usize;
        let begun = points::begin::begin_read(
            self.image(),
            self.shared,
            self.point(p),
            offset,
            size.n,
        );
        self.shared = begun.shared;
        let outcome = print::outcome(begun.reply);
        if outcome.is_ok() {
            self.points[p.n] = begun.point;
        }
        print::reply(out, outcome, "begun")
    }

    // Place p's point leaves; its place becomes zero unless the call is refused.
    pub fn leave(&mut self, out: &mut impl Write, p: PlaceNumber) -> io::Result<()> {
        let left = points::leave::leave(self.image(), self.shared, self.point(p));
        self.shared = left.shared;
        let outcome = print::outcome(left.reply);
        if outcome.is_ok() {
            self.points[p.n] = bench::NO_POINT;
        }
        print::reply(out, outcome, "left")
    }
}
