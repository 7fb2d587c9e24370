// Reading: the file's bytes into a lent buffer, block by block, whole words where they are aligned.
ghost use Rattle.std.specs.Prelude.{◌≡◌, List, ℕ, ◌+◌, ◌*◌, ◌-◌, ◌≤◌, ◌<◌, ◌^◌, min, length};
ghost use Rattle.std.proofs.lemmas.List.Edits.{sets};
ghost use Rattle.words.specs.Edition.{one};
ghost use Rattle.words.specs.Logic.{list_from};
ghost use Rattle.words.specs.Word.{byte_of};
ghost use Rattle.words.specs.Memory.{memory, byte_in};
ghost use Rattle.block_log.specs.Replay.{mapped_byte, file_byte};
ghost use Rattle.points.specs.Reading.{ReadLeaves};
ghost use Rattle.points.specs.Search.{shared_of, Known};
ghost use Rattle.points.specs.Lent.{unsized, FillsFrom};

use crate::{Count, Head, Numbers, Point};
use block_log::Shared;

// Byte j of a word.
fn byte(w: u64, j: u64) -> u8
    ensures { result ≡ byte_of w j }
{
    words::bytes::byte(w, j) as u8
}

// The eight bytes of a word go to the buffer from a place on.
fn put_word(w: u64, buffer: &mut [u8], at: usize)
    requires { at + 8 ≤ length buffer.old }
    ensures { buffer.new ≡ sets buffer.old at (list_from 0 8 (byte_of w)) }
{
    buffer[at..at + 8].copy_from_slice(&w.to_le_bytes());
}

// The bytes of a part's words go to the buffer's front. (One index for both, so that the loop becomes vectors.)
fn copy_words(part: &[u64], buffer: &mut [u8])
    requires { 8 * length part.now ≤ length buffer.old }
    ensures { buffer.new
        ≡ sets buffer.old 0 (list_from 0 (8 * length part.now) (byte_in part.now)) }
{
    for (k, w) in part.iter().enumerate() {
        put_word(*w, buffer, 8 * k);
    }
}

// n bytes of a part go to the buffer from a place on, one by one.
// Stays: over `buffer[at..at + n].iter_mut()` it was tried: what its elements are after it no proof knows, and k would still be counted for the part.
fn copy_bytes(part: &[u64], from: usize, buffer: &mut [u8], at: usize, n: usize)
    requires { (from + n ≤ 8 * length part.now) × (at + n ≤ length buffer.old) }
    ensures { buffer.new ≡ sets buffer.old at (list_from from n (byte_in part.now)) }
{
    for k in 0..n {
        let p = from + k;
        buffer[at + k] = byte(
            part[words::offset::whole_words(p)],
            words::offset::byte(p) as u64,
        );
    }
}

// n bytes of the buffer from a place on become 0.
pub(crate) fn clear(buffer: &mut [u8], at: usize, n: usize)
    requires { at + n ≤ length buffer.old }
    ensures { buffer.new ≡ sets buffer.old at (list_from 0 n (λ _. 0)) }
{
    buffer[at..at + n].fill(0);
}

// n bytes of a part go to the buffer from a place on: single bytes up to a word's start, whole words, and the bytes left.
fn copy(part: &[u64], from: usize, buffer: &mut [u8], at: usize, n: usize)
    requires { (from + n ≤ 8 * length part.now) × (at + n ≤ length buffer.old) }
    ensures { buffer.new ≡ sets buffer.old at (list_from from n (byte_in part.now)) }
{
    let head = words::offset::byte(8 - words::offset::byte(from)).min(n);
    let whole = words::offset::whole_words(n - head);
    let middle = 8 * whole;
    let first = words::offset::whole_words(from + head);
    let last = first + whole;
    let start = at + head;
    copy_bytes(part, from, buffer, at, head);
    copy_words(&part[first..last], &mut buffer[start..]);
    copy_bytes(
        part,
        from + head + middle,
        buffer,
        start + middle,
        n - head - middle,
    );
}

// n bytes of a logical block go to the buffer from a place on; zeros where the index is 0 or names no block.
pub(crate) fn copy_block(
    image: &[u64],
    b: usize,
    from: usize,
    buffer: &mut [u8],
    at: usize,
    n: usize,
)
    requires { (from + n ≤ 512) × (at + n ≤ length buffer.old) }
    ensures { buffer.new ≡ sets buffer.old at (list_from from n (mapped_byte (memory one image.now) b)) }
{
    let part = crate::current::part(image, b);
    if part.len() == 0 {
        clear(buffer, at, n);
        return;
    }
    copy(part, from, buffer, at, n);
}

// n bytes of the file from an offset on go to the buffer's front, block by block.
// Stays: each turn goes on by a length of its own; `for v in first..=last` would find the same three numbers in each turn, and n = 0 apart.
fn fill(image: &[u64], table: &[u16; 256], offset: usize, buffer: &mut [u8], n: usize)
    requires { (n ≤ length buffer.old) × (offset + n < 2 ^ 64) }
    ensures { buffer.new
        ≡ sets buffer.old 0 (list_from offset n (file_byte one (memory one image.now) (unsized table.now))) }
{
    let mut done = 0;
    while done < n {
        let p = offset + done;
        let b = usize::from(crate::current::mapped(table, words::offset::block(p)));
        let from = words::offset::in_block(p);
        let count = (n - done).min(512 - from);
        copy_block(image, b, from, buffer, done, count);
        done += count;
    }
}

// The lesser of a buffer's room and the bytes left in a file from an offset on.
fn left(size: u32, offset: usize, room: usize) -> usize
    ensures { result ≡ min room (size - offset) }
{
    room.min((size as usize).saturating_sub(offset))
}

// What is left of a file of this table and length from an offset on goes to the buffer's front; the count is answered.
fn fill_from(
    image: &[u64],
    table: &[u16; 256],
    size: u32,
    offset: usize,
    buffer: &mut [u8],
) -> Count
    ensures { FillsFrom image.now table.now size offset buffer.old result buffer.new }
{
    let n = left(size, offset, buffer.len());
    fill(image, table, offset, buffer, n);
    crate::current::counted(n as u32)
}

// Reading, with the record's table lent, and the numbers alone of the shared record: the file's bytes from an offset on fill the buffer, as far as
// both go; the count is answered, and no further byte is touched. Where nothing is ahead the lent table is the file's; otherwise a copy is caught up.
pub fn read_lent(
    image: &[u64],
    numbers: Numbers,
    head: Head,
    table: &[u16; 256],
    offset: usize,
    buffer: &mut [u8],
) -> Count
    ensures { (taken reports : List ℕ) → Known numbers reports
        → ReadLeaves image.now (shared_of numbers taken reports) head table.now offset buffer.old
        result buffer.new }
{
    let unchanged = match crate::current::settle(image, numbers, head, table, false) {
        Ok(unchanged) => unchanged,
        Err(refusal) => return crate::current::refused(refusal),
    };
    if unchanged {
        return fill_from(image, table, head.length, offset, buffer);
    }
    let place = head.place;
    let mut own = *table;
    let size = block_log::ahead::catch_up(image, numbers.blocks, place, &mut own, head.length);
    fill_from(image, &own, size, offset, buffer)
}

// Reading.
pub fn read(image: &[u64], shared: Shared, point: Point, offset: usize, buffer: &mut [u8]) -> Count
    ensures { ReadLeaves image.now shared point.head point.table offset buffer.old result buffer.new }
{
    let head = point.head;
    read_lent(
        image,
        crate::shared::numbers(shared),
        head,
        &point.table,
        offset,
        buffer,
    )
}
