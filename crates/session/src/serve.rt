// `serve N M P1 .. PN O1 L1 S1 .. OM LM SM`: the one call that serves a list of points.
ghost use Rattle.std.specs.Prelude.{◌≤◌, length};

use crate::bench::{Bench, PlaceNumber};
use crate::number::UpTo;
use crate::order::Asked;
use crate::print::Refused;
use crate::scan::Words;
use crate::steps::Told;
use crate::{calls, order, print};
use block_log::{Place, Shared};
use points::{Head, Phase, Write as PointWrite};
use std::io;
use std::io::Write;

// A head's numbers, in the order in which they are lent.
fn lent_head(head: Head) -> [u32; 11] {
    let write = head.write;
    [
        head.number,
        head.length,
        head.place.block,
        head.place.slot,
        write.offset,
        write.size,
        write.run,
        u32::from(write.phase),
        write.position,
        write.zeroing,
        u32::from(write.retries),
    ]
}

// The head of such numbers.
fn head_of(lent: [u32; 11]) -> Head {
    let [
        number,
        length,
        block,
        slot,
        offset,
        size,
        run,
        phase,
        position,
        zeroing,
        retries,
    ] = lent;
    Head {
        number,
        length,
        place: Place { block, slot },
        write: PointWrite {
            offset,
            size,
            run,
            phase: Phase::from(phase),
            position,
            zeroing,
            retries: (retries & 0xffff) as u16,
        },
    }
}

// The shared record's numbers as they are lent, beside its map.
fn lent_shared(shared: Shared) -> [u32; 35] {
    let mut numbers = [0u32; 35];
    numbers[0] = shared.blocks;
    numbers[1] = shared.joined;
    numbers[2] = shared.chain;
    numbers[3..].copy_from_slice(&shared.reports);
    numbers
}

// The shared record of such numbers and its map.
fn shared_of(numbers: [u32; 35], taken: [u64; 16]) -> Shared {
    let mut reports = [0u32; 32];
    reports.copy_from_slice(&numbers[3..]);
    Shared {
        blocks: numbers[0],
        taken,
        joined: numbers[1],
        chain: numbers[2],
        reports,
    }
}

// The places and the writes of a line; nothing where a word is malformed, missing or too many.
fn read_lists(words: &mut Words, list: &mut [PlaceNumber], asked: &mut [Asked]) -> Option<()> {
    for p in list {
        *p = words.up_to()?;
    }
    for write in asked {
        *write = order::write_asked(words)?;
    }
    words.end()
}

// The texts of the writes, one after the other; how many bytes these have.
fn fill_texts(asked: &[Asked], bytes: &mut [u8; 44000]) -> usize
    requires { length asked.now ≤ 40 }
    ensures { result ≤ 44000 }
{
    let mut start = 0;
    for write in asked {
        let end = start + write.size.n;
        calls::fill_text(&mut bytes[start..end], write.seed);
        start = end;
    }
    start
}

// A line for each point: what its last beginning or step answered.
fn print_answers(
    out: &mut impl Write,
    list: &[PlaceNumber],
    answers: &[[u32; 2]],
) -> io::Result<()> {
    for (p, answer) in list.iter().zip(answers) {
        writeln!(out, "served {} {}", p.n, Told::lent(*answer))?;
    }
    Ok(())
}

// The offset and the size of each write.
fn lend_writes(asked: &[Asked], writes: &mut [[usize; 2]]) {
    for (write, asked) in writes.iter_mut().zip(asked) {
        *write = [asked.offset as usize, asked.size.n];
    }
}

impl Bench {
    // The records of these places, in this order.
    fn lend(
        &self,
        list: &[PlaceNumber],
        heads: &mut [[u32; 11]],
        tables: &mut [[u16; 256]],
        texts: &mut [[u8; 1024]],
    ) {
        for (head, p) in heads.iter_mut().zip(list) {
            *head = lent_head(self.points[p.n].head);
        }
        for (table, p) in tables.iter_mut().zip(list) {
            *table = self.points[p.n].table;
        }
        for (text, p) in texts.iter_mut().zip(list) {
            *text = self.points[p.n].text;
        }
    }

    // Each of these places gets its record of the list.
    fn put_back(
        &mut self,
        list: &[PlaceNumber],
        heads: &[[u32; 11]],
        tables: &[[u16; 256]],
        texts: &[[u8; 1024]],
    ) {
        for (p, head) in list.iter().zip(heads) {
            self.points[p.n].head = head_of(*head);
        }
        for (p, table) in list.iter().zip(tables) {
            self.points[p.n].table = *table;
        }
        for (p, text) in list.iter().zip(texts) {
            self.points[p.n].text = *text;
        }
    }

    // Serves the points of these places with these writes and writes the lines. The records are taken into lists that are lent, and put back.
    fn serve_list(
        &mut self,
        out: &mut impl Write,
        list: &[PlaceNumber],
        asked: &[Asked],
    ) -> io::Result<()>
        requires points { length list.now ≤ 40 }
        requires writes { length asked.now ≤ 40 }
    {
        let n = list.len();
        let mut heads = [[0u32; 11]; 40];
        let mut tables = [[0u16; 256]; 40];
        let mut texts = [[0u8; 1024]; 40];
        let mut answers = [[0u32; 2]; 40];
        let mut writes = [[0usize; 2]; 40];
        let mut bytes = [0u8; 44000];
        self.lend(list, &mut heads[..n], &mut tables[..n], &mut texts[..n]);
        lend_writes(asked, &mut writes);
        let size = fill_texts(asked, &mut bytes);
        let mut numbers = lent_shared(self.shared);
        let mut taken = self.shared.taken;
        let refused = c_lent::serve::serve(
            self.image_mut(),
            &mut numbers,
            &mut taken,
            &mut heads[..n],
            &mut tables[..n],
            &mut texts[..n],
            &mut answers[..n],
            &writes[..asked.len()],
            &bytes[..size],
        );
        self.shared = shared_of(numbers, taken);
        self.put_back(list, &heads, &tables, &texts);
        if refused != 0 {
            return writeln!(out, "{}", Refused(refused));
        }
        print_answers(out, list, &answers)
    }

    // Serves as the words say.
    pub fn serve(&mut self, out: &mut impl Write, line: Words) -> io::Result<()> {
        let mut words = line;
        let n: Option<UpTo<40>> = words.up_to();
        let m: Option<UpTo<40>> = words.up_to();
        let (Some(n), Some(m)) = (n, m) else {
            return print::error(out);
        };
        let mut places = [UpTo::zero(); 40];
        let none = Asked {
            offset: 0,
            size: UpTo::zero(),
            seed: 0,
        };
        let mut writes = [none; 40];
        let list = &mut places[..n.n];
        let asked = &mut writes[..m.n];
        if read_lists(&mut words, list, asked).is_none() {
            return print::error(out);
        }
        self.serve_list(out, list, asked)
    }
}
