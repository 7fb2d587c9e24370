// A point's steps, told by stretches of equal answers.
use crate::bench::{Bench, PlaceNumber};
use crate::digest;
use crate::number::UpTo;
use crate::print::Refused;
use points::StepAnswer;
use std::io::Write;
use std::{fmt, io};

// What a step answered: of a read, how many bytes, and their digest.
#[derive(Clone, Copy, Debug, PartialEq, Eq)]
pub enum Told {
    Stored,
    Moved,
    Extending,
    Committed(u32),
    Refused(Refused),
    Copied,
    Read { count: u32, digest: u64 },
}

impl fmt::Display for Told {
    fn fmt<W: fmt::Write>(&self, f: &mut fmt::Formatter<W>) -> fmt::Result {
        match self {
            Told::Stored => f.write_str("stored"),
            Told::Moved => f.write_str("moved"),
            Told::Extending => f.write_str("extending"),
            Told::Committed(retries) => write!(f, "committed {retries}"),
            Told::Refused(refused) => write!(f, "{refused}"),
            Told::Copied => f.write_str("copied"),
            Told::Read { count, digest } => write!(f, "read {count} digest {digest}"),
        }
    }
}

impl Told {
    // An answer, with the bytes that were lent to the step.
    fn of(answer: StepAnswer, bytes: &[u8; 1024]) -> Told {
        match answer {
            StepAnswer::Stored => Told::Stored,
            StepAnswer::Moved => Told::Moved,
            StepAnswer::Extending => Told::Extending,
            StepAnswer::Committed(retries) => Told::Committed(u32::from(retries)),
            StepAnswer::Refused(refusal) => Told::Refused(Refused(refusal.into())),
            StepAnswer::Copied => Told::Copied,
            StepAnswer::Bytes(count) => Told::Read {
                count,
                digest: digest::of_front(bytes, count as usize),
            },
        }
    }

    // An answer of serving, by the numbers that are lent: its kind, and its value.
    pub fn lent(answer: [u32; 2]) -> Told {
        let [kind, value] = answer;
        match kind {
            1 => Told::Stored,
            2 => Told::Moved,
            3 => Told::Extending,
            4 => Told::Committed(value),
            6 => Told::Copied,
            7 => Told::Read {
                count: value,
                digest: 1,
            },
            _ => Told::Refused(Refused(value)),
        }
    }

    // Whether steps end with it.
    fn ends(&self) -> bool {
        matches!(
            self,
            Told::Committed(_) | Told::Refused(_) | Told::Read { .. }
        )
    }
}

// The line of a stretch of equal answers; none for an empty stretch.
fn print_stretch(out: &mut impl Write, told: Told, times: u64) -> io::Result<()> {
    match times {
        0 => Ok(()),
        1 => writeln!(out, "{told}"),
        _ => writeln!(out, "{told} x {times}"),
    }
}

impl Bench {
    // Place p's point makes a step.
    fn one_step(&mut self, p: PlaceNumber, bytes: &mut [u8; 1024]) -> Told {
        let shared = self.shared;
        let point = self.point(p);
        let stepped = points::step::step(self.image_mut(), shared, point, bytes);
        self.shared = stepped.shared;
        self.points[p.n] = stepped.point;
        Told::of(stepped.step, bytes)
    }

    // `step P K`: up to `most` steps, ending after Committed, a read's bytes or a refusal, and their lines.
    pub fn step(
        &mut self,
        out: &mut impl Write,
        p: PlaceNumber,
        most: UpTo<100000>,
    ) -> io::Result<()> {
        let mut bytes = [0u8; 1024];
        let mut last = Told::Stored;
        let mut times: u64 = 0;
        for i in 0..most.n {
            let told = self.one_step(p, &mut bytes);
            if told != last {
                print_stretch(out, last, times)?;
                last = told;
                times = 0;
            }
            times += 1;
            if told.ends() {
                break;
            }
        }
        print_stretch(out, last, times)
    }
}
