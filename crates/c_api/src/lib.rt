// The calls for C, as include/store.h declares them: those of `c_lent`, and two of `block_log`.
#![tactic(auto)]

ghost use Rattle.std.specs.Prelude.{◌≡◌};
ghost use Rattle.words.specs.Edition.{one};
ghost use Rattle.block_log.specs.Opening.{layout_refusal, layout};
ghost use Rattle.block_log.specs.Listing.{rows_of};
ghost use Rattle.c_lent.specs.Calls.{OpensFor, left, step_left, shared_left, read_left};
ghost use Rattle.c_lent.specs.Calls.{shared_for, join_for, begin_for, begin_read_for, step_for, leave_for, read_for, locate_for};
ghost use Rattle.c_lent.specs.Records.{shared_parts, point_parts, textless_parts};
ghost use Rattle.c_api.specs.Records.{version};

use c_lent::{Answer, Count, Opened, PointRecord, SharedRecord};

// The version of the library: that of the header it is for.
#[unsafe(no_mangle)]
pub extern "C" fn store_version() -> u32
    ensures { result ≡ version }
{
    5
}

#[unsafe(no_mangle)]
pub extern "C" fn store_lay_out(image: &mut [u64]) -> u32
    ensures { (result ≡ layout_refusal one image.old) × (image.new ≡ layout one image.old) }
{
    c_lent::numbers::of_reply(block_log::layout::lay_out(image))
}

#[unsafe(no_mangle)]
pub extern "C" fn store_list(image: &[u64], scratch: &mut [u16], rows: &mut [u16; 256]) -> Opened
    ensures { OpensFor image.now scratch.old result scratch.new
        × (rows.new ≡ rows_of one image.now scratch.old) }
{
    block_log::list::listed(image, scratch, rows).into()
}

#[unsafe(no_mangle)]
pub extern "C" fn store_step(
    image: &mut [u64],
    shared: &mut SharedRecord,
    point: &mut PointRecord,
    bytes: &mut [u8; 1024],
) -> Answer
    ensures { step_left result image.new (shared_parts shared.new) (point_parts point.new) bytes.new
        ≡ step_for image.old (shared_parts shared.old) (point_parts point.old) bytes.old }
{
    c_lent::step(image, shared, point, bytes)
}

#[unsafe(no_mangle)]
pub extern "C" fn store_leave(image: &[u64], shared: &mut SharedRecord, point: &PointRecord) -> u32
    ensures { shared_left result (shared_parts shared.new)
        ≡ leave_for image.now (shared_parts shared.old) (textless_parts point.now) }
{
    c_lent::leave(image, shared, point)
}

#[unsafe(no_mangle)]
pub extern "C" fn store_locate(
    image: &[u64],
    shared: &SharedRecord,
    point: &PointRecord,
    block: usize,
) -> Count
    ensures { result ≡ locate_for image.now (shared_parts shared.now) (textless_parts point.now) block }
{
    c_lent::locate(image, shared, point, block)
}

#[unsafe(no_mangle)]
pub extern "C" fn store_read(
    image: &[u64],
    shared: &SharedRecord,
    point: &PointRecord,
    offset: usize,
    buffer: &mut [u8],
) -> Count
    ensures { read_left result buffer.new
        ≡ read_for image.now (shared_parts shared.now) (textless_parts point.now) offset buffer.old }
{
    c_lent::read(image, shared, point, offset, buffer)
}

#[unsafe(no_mangle)]
pub extern "C" fn store_begin(
    image: &[u64],
    shared: &mut SharedRecord,
    point: &mut PointRecord,
    offset: usize,
    bytes: &[u8],
) -> u32
    ensures { left result (shared_parts shared.new) (point_parts point.new)
        ≡ begin_for image.now (shared_parts shared.old) (point_parts point.old) offset bytes.now }
{
    c_lent::begin(image, shared, point, offset, bytes)
}

#[unsafe(no_mangle)]
pub extern "C" fn store_begin_read(
    image: &[u64],
    shared: &mut SharedRecord,
    point: &mut PointRecord,
    offset: usize,
    size: usize,
) -> u32
    ensures { left result (shared_parts shared.new) (point_parts point.new)
        ≡ begin_read_for image.now (shared_parts shared.old) (point_parts point.old) offset size }
{
    c_lent::begin_read(image, shared, point, offset, size)
}

#[unsafe(no_mangle)]
pub extern "C" fn store_join(
    image: &[u64],
    shared: &mut SharedRecord,
    number: u32,
    point: &mut PointRecord,
) -> u32
    ensures { left result (shared_parts shared.new) (point_parts point.new)
        ≡ join_for image.now (shared_parts shared.old) number }
{
    c_lent::join(image, shared, number, point)
}

#[unsafe(no_mangle)]
pub extern "C" fn store_open(
    image: &[u64],
    scratch: &mut [u16],
    shared: &mut SharedRecord,
) -> Opened
    ensures { OpensFor image.now scratch.old result scratch.new
        × (shared_parts shared.new ≡ shared_for image.now scratch.old) }
{
    c_lent::open(image, scratch, shared)
}
