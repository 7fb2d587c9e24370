// What lasts from line to line: the image, the shared record, and 32 places of points' records.
use crate::number::UpTo;
use block_log::{Place, Shared};
use points::{Head, Phase, Point, Write};

// Which of the record places.
pub type PlaceNumber = UpTo<31>;

// How many words the image has; it stands at the front of the room.
pub type ImageSize = UpTo<65600>;

const NO_WRITE: Write = Write {
    offset: 0,
    size: 0,
    run: 0,
    phase: Phase::Idle,
    position: 0,
    zeroing: 0,
    retries: 0,
};

const NO_HEAD: Head = Head {
    number: 0,
    length: 0,
    place: Place { block: 0, slot: 0 },
    write: NO_WRITE,
};

// A record of zeros.
pub(crate) const NO_POINT: Point = Point {
    head: NO_HEAD,
    table: [0; 256],
    text: [0; 1024],
};

// A shared record of zeros.
pub(crate) const NO_SHARED: Shared = Shared {
    blocks: 0,
    taken: [0; 16],
    joined: 0,
    chain: 0,
    reports: [0; 32],
};

// Stays: the image is the front of a room of fixed size, since the bench has no heap.
#[derive(Drop)]
pub struct Bench {
    pub room: [u64; 65600],
    pub size: ImageSize,
    pub shared: Shared,
    pub points: [Point; 32],
}

impl Bench {
    // No image, all records zero.
    pub fn new() -> Bench {
        Bench {
            room: [0; 65600],
            size: UpTo::zero(),
            shared: NO_SHARED,
            points: [NO_POINT; 32],
        }
    }

    pub fn image(&self) -> &[u64] {
        &self.room[..self.size.n]
    }

    pub fn image_mut(&mut self) -> &mut [u64] {
        &mut self.room[..self.size.n]
    }

    // Place p's record.
    pub fn point(&self, p: PlaceNumber) -> Point {
        self.points[p.n]
    }

    // All places become zero.
    pub fn clear_points(&mut self) {
        self.points = [NO_POINT; 32];
    }
}
