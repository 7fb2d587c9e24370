// The calls for C, each with what it leaves in a list of calls as its contract: the claims of `recovery` hold of what C calls. Opening, reading and locating
// are beside them, as in recovery/src/code.rt; serving a list of points is a row of them. Nothing here runs.
#![tactic(auto)]

ghost use Rattle.c_lent.specs.Numbers.{shared_lent};
ghost use Rattle.c_lent.specs.Records.{shared_parts, point_parts, textless_parts};
ghost use Rattle.c_lent.specs.Calls.{left, step_left, shared_left, read_left};
ghost use Rattle.c_lent.specs.Serving.{common_lent, serve_left};
ghost use Rattle.c_served.specs.Served.{OpenServedFor, JoinServedFor, BeginServedFor, BeginReadServedFor, StepServedFor};
ghost use Rattle.c_served.specs.Served.{LeaveServedFor, ReadServedFor, LocateServedFor, ServeServedFor};

use c_lent::{Answer, Count, Opened, PointRecord, SharedRecord};

pub fn open(image: &[u64], scratch: &mut [u16], shared: &mut SharedRecord) -> Opened
    ensures { OpenServedFor image.now scratch.old result.refused (shared_parts shared.new) }
{
    c_lent::open(image, scratch, shared)
}

pub fn join(image: &[u64], shared: &mut SharedRecord, number: u32, point: &mut PointRecord) -> u32
    ensures { JoinServedFor image.now (shared_parts shared.old) number
        (left result (shared_parts shared.new) (point_parts point.new)) }
{
    c_lent::join(image, shared, number, point)
}

pub fn begin(
    image: &[u64],
    shared: &mut SharedRecord,
    point: &mut PointRecord,
    offset: usize,
    bytes: &[u8],
) -> u32
    ensures { BeginServedFor image.now (shared_parts shared.old) (point_parts point.old)
        offset bytes.now (left result (shared_parts shared.new) (point_parts point.new)) }
{
    c_lent::begin(image, shared, point, offset, bytes)
}

pub fn begin_read(
    image: &[u64],
    shared: &mut SharedRecord,
    point: &mut PointRecord,
    offset: usize,
    size: usize,
) -> u32
    ensures { BeginReadServedFor image.now (shared_parts shared.old)
        (point_parts point.old) offset size
        (left result (shared_parts shared.new) (point_parts point.new)) }
{
    c_lent::begin_read(image, shared, point, offset, size)
}

pub fn step(
    image: &mut [u64],
    shared: &mut SharedRecord,
    point: &mut PointRecord,
    bytes: &mut [u8; 1024],
) -> Answer
    ensures { StepServedFor image.old (shared_parts shared.old) (point_parts point.old)
        bytes.old (step_left result image.new (shared_parts shared.new) (point_parts point.new)
        bytes.new) }
{
    c_lent::step(image, shared, point, bytes)
}

pub fn leave(image: &[u64], shared: &mut SharedRecord, point: &PointRecord) -> u32
    ensures { LeaveServedFor image.now (shared_parts shared.old) (textless_parts point.now)
        (shared_left result (shared_parts shared.new)) }
{
    c_lent::leave(image, shared, point)
}

pub fn read(
    image: &[u64],
    shared: &SharedRecord,
    point: &PointRecord,
    offset: usize,
    buffer: &mut [u8],
) -> Count
    ensures { ReadServedFor image.now (shared_parts shared.now) (textless_parts point.now)
        offset buffer.old (read_left result buffer.new) }
{
    c_lent::read(image, shared, point, offset, buffer)
}

pub fn locate(image: &[u64], shared: &SharedRecord, point: &PointRecord, block: usize) -> Count
    ensures { LocateServedFor image.now (shared_parts shared.now) (textless_parts point.now) block result }
{
    c_lent::locate(image, shared, point, block)
}

pub fn serve(
    image: &mut [u64],
    shared: &mut [u32; 35],
    taken: &mut [u64; 16],
    heads: &mut [[u32; 11]],
    tables: &mut [[u16; 256]],
    texts: &mut [[u8; 1024]],
    answers: &mut [[u32; 2]],
    writes: &[[usize; 2]],
    bytes: &[u8],
) -> u32
    ensures { ServeServedFor (common_lent image.old (shared_lent shared.old taken.old))
        heads.old tables.old texts.old answers.old writes.now bytes.now
        (serve_left result (common_lent image.new (shared_lent shared.new taken.new))
        heads.new tables.new texts.new answers.new) }
{
    c_lent::serve::serve(
        image, shared, taken, heads, tables, texts, answers, writes, bytes,
    )
}
