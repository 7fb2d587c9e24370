// Writes what a call answered.
use block_log::Reply;
use points::Count;
use std::io::Write;
use std::{fmt, io};

// The store turned a call down, for the reason of this number, as serving answers it.
#[derive(Clone, Copy, Debug, PartialEq, Eq)]
pub struct Refused(pub u32);

impl fmt::Display for Refused {
    fn fmt<W: fmt::Write>(&self, f: &mut fmt::Formatter<W>) -> fmt::Result {
        write!(f, "refused {}", self.0)
    }
}

// What a call answered.
pub fn outcome(reply: Reply) -> Result<(), Refused> {
    match reply {
        Ok(()) => Ok(()),
        Err(refusal) => Err(Refused(refusal.into())),
    }
}

// What a call that counts answered.
pub fn counted(count: Count) -> Result<u32, Refused> {
    outcome(count.reply)?;
    Ok(count.count)
}

// The line of a call that is done, or why it was turned down.
pub fn reply(out: &mut impl Write, outcome: Result<(), Refused>, done: &str) -> io::Result<()> {
    match outcome {
        Ok(()) => writeln!(out, "{done}"),
        Err(refused) => writeln!(out, "{refused}"),
    }
}

pub fn error(out: &mut impl Write) -> io::Result<()> {
    writeln!(out, "error")
}
