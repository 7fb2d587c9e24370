// The five calls of `points` that lists are made of, each with what it leaves in a list of calls as its contract: the calls of the claims are the code's.
// And opening, which makes
// the world that a list begins with; reading and locating, with what they show of the book.
ghost use Rattle.words.specs.Edition.{one};
ghost use Rattle.recovery.specs.Served.{OpenServed, JoinServed, BeginServed, BeginReadServed, StepServed, LeaveServed, ReadServed};
ghost use Rattle.recovery.specs.Served.{LocateServed};

use block_log::{Opened, Shared};
use points::{Begun, Count, Joined, Left, Point, Stepped};

pub fn open(image: &[u64], scratch: &mut [u16]) -> Opened
    ensures { OpenServed one image.now scratch.old result }
{
    block_log::open::open(image, scratch)
}

pub fn join(image: &[u64], shared: Shared, number: u32) -> Joined
    ensures { JoinServed one image.now shared number result }
{
    points::join::join(image, shared, number)
}

pub fn begin(image: &[u64], shared: Shared, point: Point, offset: usize, text: &[u8]) -> Begun
    ensures { BeginServed one image.now shared point offset text.now result }
{
    points::begin::begin(image, shared, point, offset, text)
}

pub fn begin_read(image: &[u64], shared: Shared, point: Point, offset: usize, size: usize) -> Begun
    ensures { BeginReadServed one image.now shared point offset size result }
{
    points::begin::begin_read(image, shared, point, offset, size)
}

pub fn step(image: &mut [u64], shared: Shared, point: Point, bytes: &mut [u8; 1024]) -> Stepped
    ensures { StepServed one image.old shared point bytes.old result image.new bytes.new }
{
    points::step::step(image, shared, point, bytes)
}

pub fn leave(image: &[u64], shared: Shared, point: Point) -> Left
    ensures { LeaveServed one image.now shared point result }
{
    points::leave::leave(image, shared, point)
}

pub fn read(image: &[u64], shared: Shared, point: Point, offset: usize, buffer: &mut [u8]) -> Count
    ensures { ReadServed one image.now shared point.head point.table offset buffer.old result buffer.new }
{
    points::read::read(image, shared, point, offset, buffer)
}

pub fn locate(image: &[u64], shared: Shared, point: Point, block: usize) -> Count
    ensures { LocateServed one image.now shared point.head point.table block result }
{
    points::locate::locate(image, shared, point, block)
}
