// What a line orders: a command and its numbers, each within its limits.
use crate::bench::{ImageSize, PlaceNumber};
use crate::number::UpTo;
use crate::scan::Words;
use points::Phase;

// No command, or not with these words.
#[derive(Clone, Copy, Debug, PartialEq, Eq)]
pub struct Malformed;

// A write that is to begin: byte i of its text is (seed + 7 i) mod 256.
#[derive(Clone, Copy)]
pub struct Asked {
    pub offset: u32,
    pub size: UpTo<1100>,
    pub seed: u8,
}

// A field of a point's record, and what it becomes.
#[derive(Clone, Copy)]
pub enum PointField {
    Number(u32),
    Length(u32),
    Block(u32),
    Slot(u32),
    Phase(Phase),
    Offset(u32),
    TextLength(u32),
    Run(u32),
    Position(u32),
    Zeroing(u32),
    Retries(u16),
}

// A field of the shared record, and what it becomes.
#[derive(Clone, Copy)]
pub enum SharedField {
    Blocks(u32),
    Joined(u32),
    Chain(u32),
}

#[derive(Clone, Copy)]
pub enum Order<'a> {
    // Commands on the image alone.
    Image(ImageSize),
    Noise {
        from: u64,
        size: u64,
        seed: u64,
    },
    Set {
        at: u64,
        word: u64,
    },
    Word {
        at: u64,
    },
    Layout,
    Digest,

    // Calls of the store.
    Open {
        scratch: UpTo<2048>,
    },
    Cut,
    Join {
        number: u32,
    },
    Begin {
        p: PlaceNumber,
        write: Asked,
    },
    BeginRead {
        p: PlaceNumber,
        offset: u32,
        size: UpTo<1100>,
    },
    Step {
        p: PlaceNumber,
        most: UpTo<100000>,
    },
    Leave {
        p: PlaceNumber,
    },
    Serve(Words<'a>),

    // Looks.
    Read {
        p: PlaceNumber,
        offset: u32,
        size: UpTo<4096>,
    },
    Show {
        p: PlaceNumber,
        offset: u32,
        size: UpTo<64>,
    },
    Locate {
        p: PlaceNumber,
        block: u32,
    },
    View {
        p: PlaceNumber,
        block: u32,
    },
    Record {
        p: PlaceNumber,
    },
    Shared,
    Free,

    // Alterations of records.
    Alter {
        p: PlaceNumber,
        field: PointField,
    },
    Table {
        p: PlaceNumber,
        i: u8,
        entry: u16,
    },
    Text {
        p: PlaceNumber,
        i: UpTo<1023>,
        byte: u8,
    },
    Copy {
        from: PlaceNumber,
        to: PlaceNumber,
    },
    AlterShared(SharedField),
    Map {
        i: UpTo<15>,
        word: u64,
    },
    Report {
        p: PlaceNumber,
        block: u32,
    },
}

// `O L S`
pub fn write_asked(words: &mut Words) -> Option<Asked> {
    Some(Asked {
        offset: words.number32()?,
        size: words.up_to()?,
        seed: words.number8()?,
    })
}

fn phase_asked(words: &mut Words) -> Option<Phase> {
    let number: UpTo<6> = words.up_to()?;
    Some(Phase::from(number.n as u32))
}

// `P`, a number to be joined with.
fn place_to_join(words: &mut Words) -> Option<u32> {
    let p: PlaceNumber = words.up_to()?;
    Some(p.n as u32)
}

// Steps: one at least.
fn steps(words: &mut Words) -> Option<UpTo<100000>> {
    let most: UpTo<100000> = words.up_to()?;
    if most.n == 0 { None } else { Some(most) }
}

fn point_field(words: &mut Words) -> Option<PointField> {
    Some(match words.next_word() {
        b"number" => PointField::Number(words.number32()?),
        b"length" => PointField::Length(words.number32()?),
        b"block" => PointField::Block(words.number32()?),
        b"slot" => PointField::Slot(words.number32()?),
        b"phase" => PointField::Phase(phase_asked(words)?),
        b"offset" => PointField::Offset(words.number32()?),
        b"textlength" => PointField::TextLength(words.number32()?),
        b"run" => PointField::Run(words.number32()?),
        b"position" => PointField::Position(words.number32()?),
        b"zeroing" => PointField::Zeroing(words.number32()?),
        b"retries" => PointField::Retries(words.number16()?),
        _ => return None,
    })
}

fn shared_field(words: &mut Words) -> Option<SharedField> {
    Some(match words.next_word() {
        b"blocks" => SharedField::Blocks(words.number32()?),
        b"joined" => SharedField::Joined(words.number32()?),
        b"chain" => SharedField::Chain(words.number32()?),
        _ => return None,
    })
}

// A command on the image, by its name and the words after it.
fn image_order<'a>(name: &[u8], words: &mut Words<'a>) -> Option<Order<'a>> {
    Some(match name {
        b"image" => Order::Image(words.up_to()?),
        b"noise" => Order::Noise {
            from: words.number()?,
            size: words.number()?,
            seed: words.number()?,
        },
        b"set" => Order::Set {
            at: words.number()?,
            word: words.number()?,
        },
        b"word" => Order::Word {
            at: words.number()?,
        },
        b"layout" => Order::Layout,
        b"digest" => Order::Digest,
        _ => return None,
    })
}

// A call, or a command on the image.
fn call_order<'a>(name: &[u8], words: &mut Words<'a>) -> Option<Order<'a>> {
    Some(match name {
        b"open" => Order::Open {
            scratch: words.up_to()?,
        },
        b"cut" => Order::Cut,
        b"join" => Order::Join {
            number: place_to_join(words)?,
        },
        b"joinas" => Order::Join {
            number: words.number32()?,
        },
        b"begin" => Order::Begin {
            p: words.up_to()?,
            write: write_asked(words)?,
        },
        b"beginread" => Order::BeginRead {
            p: words.up_to()?,
            offset: words.number32()?,
            size: words.up_to()?,
        },
        b"step" => Order::Step {
            p: words.up_to()?,
            most: steps(words)?,
        },
        b"leave" => Order::Leave { p: words.up_to()? },
        b"serve" => Order::Serve(words.take()),
        _ => return image_order(name, words),
    })
}

// A look, a call, or a command on the image.
fn look_order<'a>(name: &[u8], words: &mut Words<'a>) -> Option<Order<'a>> {
    Some(match name {
        b"read" => Order::Read {
            p: words.up_to()?,
            offset: words.number32()?,
            size: words.up_to()?,
        },
        b"show" => Order::Show {
            p: words.up_to()?,
            offset: words.number32()?,
            size: words.up_to()?,
        },
        b"locate" => Order::Locate {
            p: words.up_to()?,
            block: words.number32()?,
        },
        b"view" => Order::View {
            p: words.up_to()?,
            block: words.number32()?,
        },
        b"record" => Order::Record { p: words.up_to()? },
        b"shared" => Order::Shared,
        b"free" => Order::Free,
        _ => return call_order(name, words),
    })
}

// Any command.
fn any_order<'a>(name: &[u8], words: &mut Words<'a>) -> Option<Order<'a>> {
    Some(match name {
        b"alter" => Order::Alter {
            p: words.up_to()?,
            field: point_field(words)?,
        },
        b"table" => Order::Table {
            p: words.up_to()?,
            i: words.number8()?,
            entry: words.number16()?,
        },
        b"text" => Order::Text {
            p: words.up_to()?,
            i: words.up_to()?,
            byte: words.number8()?,
        },
        b"copy" => Order::Copy {
            from: words.up_to()?,
            to: words.up_to()?,
        },
        b"altershared" => Order::AlterShared(shared_field(words)?),
        b"map" => Order::Map {
            i: words.up_to()?,
            word: words.number()?,
        },
        b"report" => Order::Report {
            p: words.up_to()?,
            block: words.number32()?,
        },
        _ => return look_order(name, words),
    })
}

// A command with no word more than it takes.
fn whole_order<'a>(name: &[u8], words: &mut Words<'a>) -> Option<Order<'a>> {
    let order = any_order(name, words)?;
    words.end()?;
    Some(order)
}

// What a line orders: nothing where it is empty, or its first word begins with '#'.
pub fn order_of<'a>(line: &'a [u8]) -> Result<Option<Order<'a>>, Malformed> {
    let mut words = Words::of(line);
    let name = words.next_word();
    if name.is_empty() || name[0] == b'#' {
        return Ok(None);
    }
    let order = whole_order(name, &mut words).ok_or(Malformed)?;
    Ok(Some(order))
}
