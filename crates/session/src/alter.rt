// Alterations of records.
use crate::bench::{Bench, PlaceNumber};
use crate::number::UpTo;
use crate::order::{PointField, SharedField};
use std::io;
use std::io::Write;

fn altered(out: &mut impl Write) -> io::Result<()> {
    writeln!(out, "altered")
}

impl Bench {
    pub fn alter(
        &mut self,
        out: &mut impl Write,
        p: PlaceNumber,
        field: PointField,
    ) -> io::Result<()> {
        let mut head = self.point(p).head;
        match field {
            PointField::Number(n) => head.number = n,
            PointField::Length(n) => head.length = n,
            PointField::Block(n) => head.place.block = n,
            PointField::Slot(n) => head.place.slot = n,
            PointField::Phase(phase) => head.write.phase = phase,
            PointField::Offset(n) => head.write.offset = n,
            PointField::TextLength(n) => head.write.size = n,
            PointField::Run(n) => head.write.run = n,
            PointField::Position(n) => head.write.position = n,
            PointField::Zeroing(n) => head.write.zeroing = n,
            PointField::Retries(n) => head.write.retries = n,
        }
        self.points[p.n].head = head;
        altered(out)
    }

    pub fn alter_table(
        &mut self,
        out: &mut impl Write,
        p: PlaceNumber,
        i: u8,
        entry: u16,
    ) -> io::Result<()> {
        self.points[p.n].table[usize::from(i)] = entry;
        altered(out)
    }

    pub fn alter_text(
        &mut self,
        out: &mut impl Write,
        p: PlaceNumber,
        i: UpTo<1023>,
        byte: u8,
    ) -> io::Result<()> {
        self.points[p.n].text[i.n] = byte;
        altered(out)
    }

    pub fn copy(
        &mut self,
        out: &mut impl Write,
        from: PlaceNumber,
        to: PlaceNumber,
    ) -> io::Result<()> {
        self.points[to.n] = self.point(from);
        writeln!(out, "copied")
    }

    pub fn alter_shared(&mut self, out: &mut impl Write, field: SharedField) -> io::Result<()> {
        match field {
            SharedField::Blocks(n) => self.shared.blocks = n,
            SharedField::Joined(n) => self.shared.joined = n,
            SharedField::Chain(n) => self.shared.chain = n,
        }
        altered(out)
    }

    pub fn alter_map(&mut self, out: &mut impl Write, i: UpTo<15>, word: u64) -> io::Result<()> {
        self.shared.taken[i.n] = word;
        altered(out)
    }

    pub fn report(&mut self, out: &mut impl Write, p: PlaceNumber, block: u32) -> io::Result<()> {
        self.shared.reports[p.n] = block;
        altered(out)
    }
}
