// Looks: what a point reads, and the records.
use crate::bench::{Bench, PlaceNumber};
use crate::number::UpTo;
use crate::{digest, print};
use std::io;
use std::io::Write;

// A blank and two digits for each byte; nothing for none.
fn print_bytes(out: &mut impl Write, bytes: &[u8]) -> io::Result<()> {
    if bytes.is_empty() {
        return Ok(());
    }
    write!(out, " ")?;
    for byte in bytes {
        write!(out, "{byte:02x}")?;
    }
    Ok(())
}

impl Bench {
    // Reads into a buffer of so many bytes, each 170 before.
    pub fn read(
        &self,
        out: &mut impl Write,
        p: PlaceNumber,
        offset: u32,
        size: UpTo<4096>,
    ) -> io::Result<()> {
        let mut room = [170u8; 4096];
        let buffer = &mut room[..size.n];
        let offset = offset as usize;
        let count = points::read::read(self.image(), self.shared, self.point(p), offset, buffer);
        match print::counted(count) {
            Ok(n) => write!(out, "read {n}")?,
            Err(refused) => write!(out, "{refused}")?,
        }
        writeln!(out, " digest {}", digest::of(buffer))
    }

    // Reads likewise, and writes the bytes read.
    pub fn show(
        &self,
        out: &mut impl Write,
        p: PlaceNumber,
        offset: u32,
        size: UpTo<64>,
    ) -> io::Result<()> {
        let mut room = [170u8; 64];
        let buffer = &mut room[..size.n];
        let offset = offset as usize;
        let count = points::read::read(self.image(), self.shared, self.point(p), offset, buffer);
        match print::counted(count) {
            Ok(n) => {
                write!(out, "show")?;
                print_bytes(out, &buffer[..buffer.len().min(n as usize)])?;
                writeln!(out)
            }
            Err(refused) => writeln!(out, "{refused}"),
        }
    }

    pub fn locate(&self, out: &mut impl Write, p: PlaceNumber, block: u32) -> io::Result<()> {
        let count = points::locate::locate(
            self.image(),
            self.shared,
            self.point(p),
            block as usize,
        );
        match print::counted(count) {
            Ok(located) => writeln!(out, "located {located}"),
            Err(refused) => writeln!(out, "{refused}"),
        }
    }

    // The part's first word stands at 64 times the block that locating answers.
    pub fn view(&self, out: &mut impl Write, p: PlaceNumber, block: u32) -> io::Result<()> {
        let part = points::locate::view(self.image(), self.shared, self.point(p), block as usize);
        if part.is_empty() {
            return writeln!(out, "view empty");
        }
        let count = points::locate::locate(
            self.image(),
            self.shared,
            self.point(p),
            block as usize,
        );
        let at = 64 * u64::from(count.count);
        writeln!(out, "view {at} digest {}", digest::of(part))
    }

    // The numbers of place p's record, and the digests of its table and its text.
    pub fn print_record(&self, out: &mut impl Write, p: PlaceNumber) -> io::Result<()> {
        let point = self.point(p);
        let head = point.head;
        let write = head.write;
        write!(
            out,
            "record {} {} {} {}",
            head.number, head.length, head.place.block, head.place.slot
        )?;
        let phase = u32::from(write.phase);
        write!(
            out,
            " {phase} {} {} {}",
            write.offset, write.size, write.run
        )?;
        write!(
            out,
            " {} {} {}",
            write.position, write.zeroing, write.retries
        )?;
        writeln!(
            out,
            " {} {}",
            digest::of(&point.table),
            digest::of(&point.text)
        )
    }

    pub fn print_shared(&self, out: &mut impl Write) -> io::Result<()> {
        let shared = self.shared;
        writeln!(
            out,
            "shared {} {} {} {} {}",
            shared.blocks,
            shared.joined,
            digest::of(&shared.taken),
            shared.chain,
            digest::of(&shared.reports)
        )
    }

    // The free blocks below the block count, or below 1,024.
    pub fn print_free(&self, out: &mut impl Write) -> io::Result<()> {
        let blocks = self.shared.blocks.min(1024) as usize;
        let free = words::map::free_count(&self.shared.taken, blocks);
        writeln!(out, "free {free}")
    }
}
