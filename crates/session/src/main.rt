// A bench for the store: does the commands of a script from standard input, and writes what each leaves.
#![tactic(auto)]

mod alter;
mod bench;
mod calls;
mod digest;
mod image;
mod looks;
mod noise;
mod number;
mod order;
mod print;
mod scan;
mod serve;
mod steps;

use bench::Bench;
use order::Order;
use std::io;
use std::io::{BufWriter, Read, Write};

impl Bench {
    // Does a command and writes its lines.
    fn obey(&mut self, out: &mut impl Write, order: Order) -> io::Result<()> {
        match order {
            Order::Image(size) => self.renew(out, size),
            Order::Noise { from, size, seed } => self.make_noise(out, from, size, seed),
            Order::Set { at, word } => self.set(out, at, word),
            Order::Word { at } => self.word(out, at),
            Order::Layout => self.lay_out(out),
            Order::Digest => self.print_digest(out),
            Order::Open { scratch } => self.open(out, scratch),
            Order::Cut => self.cut(out),
            Order::Join { number } => self.join(out, number),
            Order::Begin { p, write } => self.begin(out, p, write),
            Order::BeginRead { p, offset, size } => self.begin_read(out, p, offset, size),
            Order::Step { p, most } => self.step(out, p, most),
            Order::Leave { p } => self.leave(out, p),
            Order::Serve(words) => self.serve(out, words),
            Order::Read { p, offset, size } => self.read(out, p, offset, size),
            Order::Show { p, offset, size } => self.show(out, p, offset, size),
            Order::Locate { p, block } => self.locate(out, p, block),
            Order::View { p, block } => self.view(out, p, block),
            Order::Record { p } => self.print_record(out, p),
            Order::Shared => self.print_shared(out),
            Order::Free => self.print_free(out),
            Order::Alter { p, field } => self.alter(out, p, field),
            Order::Table { p, i, entry } => self.alter_table(out, p, i, entry),
            Order::Text { p, i, byte } => self.alter_text(out, p, i, byte),
            Order::Copy { from, to } => self.copy(out, from, to),
            Order::AlterShared(field) => self.alter_shared(out, field),
            Order::Map { i, word } => self.alter_map(out, i, word),
            Order::Report { p, block } => self.report(out, p, block),
        }
    }

    // Does what a line orders and writes its lines.
    fn do_line(&mut self, out: &mut impl Write, line: &[u8]) -> io::Result<()> {
        match order::order_of(line) {
            Ok(Some(order)) => self.obey(out, order),
            Ok(None) => Ok(()),
            Err(_) => print::error(out),
        }
    }

    // Does the lines of a script in turn.
    fn run(&mut self, out: &mut impl Write, script: &[u8]) -> io::Result<()> {
        for line in script.split(|b| *b == b'\n') {
            self.do_line(out, line)?;
        }
        Ok(())
    }
}

// Does the script that is read, of at most 262,144 bytes.
fn play(input: &mut impl Read, out: &mut impl Write) -> io::Result<()> {
    let mut script = [0u8; 262145];
    let n = streams::read_full(input, &mut script)?;
    if 262144 < n {
        return writeln!(out, "error long");
    }
    let mut bench = Bench::new();
    bench.run(out, &script[..n])
}

// Writes in large pieces where there is memory for a buffer, and else each piece as it comes.
fn main(rt: HostRuntime) -> io::Result<()> {
    let Ok(mut out) = BufWriter::new(rt.alloc(), io::writer(&rt)) else {
        return play(&mut rt.stdin(), &mut io::writer(&rt));
    };
    play(&mut rt.stdin(), &mut out)?;
    out.flush()
}
