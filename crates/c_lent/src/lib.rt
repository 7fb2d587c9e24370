// The calls with both records lent whole, as C has them: crate `c_api` exports them. The serving call is lent them in parts, in lists of parts for its points
// (`serve`), as C's header hands them on.
#![tactic(auto)]

ghost use Rattle.std.specs.Prelude.{◌≡◌};
ghost use Rattle.c_lent.specs.Records.{shared_parts, point_parts, textless_parts};
ghost use Rattle.c_lent.specs.Calls.{OpensFor, left, step_left, shared_left, read_left};
ghost use Rattle.c_lent.specs.Calls.{shared_for, join_for, begin_for, begin_read_for, step_for, leave_for, read_for, locate_for};

use block_log::Shared;

// The shared record: blocks, joined points, chain length and the 32 reports, and the map. In C the numbers have names.
#[repr(C)]
#[derive(Clone, Copy)]
pub struct SharedRecord {
    pub numbers: [u32; 35],
    pub taken: [u64; 16],
}

// A point's record: its eleven numbers, its table and its text.
#[repr(C)]
#[derive(Clone, Copy)]
pub struct PointRecord {
    pub head: [u32; 11],
    pub table: [u16; 256],
    pub text: [u8; 1024],
}

// What opening answers: the refusal's number, 0 for none, length and counts.
#[repr(C)]
#[derive(Clone, Copy)]
pub struct Opened {
    pub refused: u32,
    pub length: u32,
    pub entries: u32,
    pub free: u32,
}

// Which answer of a step it is, its value, and which word of the image was stored, 0 for none.
#[repr(C)]
#[derive(Clone, Copy)]
pub struct Answer {
    pub kind: u32,
    pub value: u32,
    pub word: usize,
}

// What reading and locating answer.
#[repr(C)]
#[derive(Clone, Copy)]
pub struct Count {
    pub refused: u32,
    pub count: u32,
}

mod batch;
pub mod numbers;
mod parts;
pub mod serve;
mod turn;

pub fn open(image: &[u64], scratch: &mut [u16], shared: &mut SharedRecord) -> Opened
    ensures { OpensFor image.now scratch.old result scratch.new
        × (shared_parts shared.new ≡ shared_for image.now scratch.old) }
{
    let opened = block_log::open::open(image, scratch);
    let kept = opened.shared;
    numbers::put(shared, kept);
    opened.into()
}

pub fn join(image: &[u64], shared: &mut SharedRecord, number: u32, point: &mut PointRecord) -> u32
    ensures { left result (shared_parts shared.new) (point_parts point.new)
        ≡ join_for image.now (shared_parts shared.old) number }
{
    let joined = points::join::join(image, Shared::from(&*shared), number);
    let kept = joined.shared;
    let left = joined.point;
    let head = numbers::of_head(left.head);
    let table = left.table;
    let text = left.text;
    numbers::put(shared, kept);
    *point = PointRecord { head, table, text };
    numbers::of_reply(joined.reply)
}

pub fn begin(
    image: &[u64],
    shared: &mut SharedRecord,
    point: &mut PointRecord,
    offset: usize,
    bytes: &[u8],
) -> u32
    ensures { left result (shared_parts shared.new) (point_parts point.new)
        ≡ begin_for image.now (shared_parts shared.old) (point_parts point.old) offset bytes.now }
{
    parts::begin(
        image,
        &mut shared.numbers,
        &mut shared.taken,
        &mut point.head,
        &mut point.table,
        &mut point.text,
        offset,
        bytes,
    )
}

// Beginning a read: the map is not looked at.
pub fn begin_read(
    image: &[u64],
    shared: &mut SharedRecord,
    point: &mut PointRecord,
    offset: usize,
    size: usize,
) -> u32
    ensures { left result (shared_parts shared.new) (point_parts point.new)
        ≡ begin_read_for image.now (shared_parts shared.old) (point_parts point.old) offset size }
{
    if !numbers::is_known(&point.head) {
        return numbers::unknown(image, &shared.numbers).into();
    }
    let begun = points::begin::begin_read_lent(
        image,
        numbers::lead(&shared.numbers),
        numbers::head(&point.head),
        &mut point.table,
        &mut point.text,
        offset,
        size,
    );
    numbers::put_begun(&mut shared.numbers, begun.reply, begun.head);
    point.head = numbers::of_head(begun.head);
    numbers::of_reply(begun.reply)
}

// A step of a write or of a read. The bytes that the last step of a read answers come to the front of `bytes`; no other step touches it.
pub fn step(
    image: &mut [u64],
    shared: &mut SharedRecord,
    point: &mut PointRecord,
    bytes: &mut [u8; 1024],
) -> Answer
    ensures { step_left result image.new (shared_parts shared.new) (point_parts point.new) bytes.new
        ≡ step_for image.old (shared_parts shared.old) (point_parts point.old) bytes.old }
{
    parts::step(
        image,
        &mut shared.numbers,
        &mut shared.taken,
        &mut point.head,
        &mut point.table,
        &mut point.text,
        bytes,
    )
}

pub fn leave(image: &[u64], shared: &mut SharedRecord, point: &PointRecord) -> u32
    ensures { shared_left result (shared_parts shared.new)
        ≡ leave_for image.now (shared_parts shared.old) (textless_parts point.now) }
{
    if !numbers::is_known(&point.head) {
        return numbers::unknown(image, &shared.numbers).into();
    }
    let left = points::leave::leave_lent(
        image,
        Shared::from(&*shared),
        numbers::head(&point.head),
        &point.table,
    );
    let kept = left.shared;
    numbers::put(shared, kept);
    numbers::of_reply(left.reply)
}

pub fn read(
    image: &[u64],
    shared: &SharedRecord,
    point: &PointRecord,
    offset: usize,
    buffer: &mut [u8],
) -> Count
    ensures { read_left result buffer.new
        ≡ read_for image.now (shared_parts shared.now) (textless_parts point.now) offset buffer.old }
{
    if !numbers::is_known(&point.head) {
        return numbers::no_count(numbers::unknown(image, &shared.numbers));
    }
    Count::from(points::read::read_lent(
        image,
        numbers::lead(&shared.numbers),
        numbers::head(&point.head),
        &point.table,
        offset,
        buffer,
    ))
}

pub fn locate(image: &[u64], shared: &SharedRecord, point: &PointRecord, block: usize) -> Count
    ensures { result ≡ locate_for image.now (shared_parts shared.now) (textless_parts point.now) block }
{
    if !numbers::is_known(&point.head) {
        return numbers::no_count(numbers::unknown(image, &shared.numbers));
    }
    Count::from(points::locate::locate_lent(
        image,
        numbers::lead(&shared.numbers),
        numbers::head(&point.head),
        &point.table,
        block,
    ))
}
