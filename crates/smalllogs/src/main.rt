// Prints every legal small log, one a line: each entry as 16 hexadecimal digits, a blank between two; the empty log is an empty line.
// Which logs these are, and an entry's digits, the contracts of `small::every_log` and `small::digits_of` say; here they are only printed.

#![tactic(auto)]

use std::io;
use std::io::Write;

// Stays: `{:016X}` would print the same, but the digits are to be those of the contract of `small::digits_of` (PROOF, RULES, K9).
fn print_entry(out: &mut impl Write, e: u64) -> io::Result<()> {
    out.write_all(&small::digits_of(e))
}

// A log of two words, 0 for an entry that it does not have.
fn print_log(out: &mut impl Write, first: u64, second: u64) -> io::Result<()> {
    if first != 0 {
        print_entry(out, first)?;
    }
    if second != 0 {
        out.write_all(b" ")?;
        print_entry(out, second)?;
    }
    out.write_all(b"\n")
}

// Prints the logs, 33 of two words each.
fn print_logs(out: &mut impl Write) -> io::Result<()> {
    let mut logs = [0u64; 66];
    let n = small::every_log(&mut logs);
    for log in logs.chunks_exact(2).take(n) {
        print_log(out, log[0], log[1])?;
    }
    Ok(())
}

fn main(rt: HostRuntime) -> io::Result<()> {
    print_logs(&mut io::writer(&rt))
}
