// The parts of what is printed.
ghost use Rattle.std.specs.Prelude.{◌<◌, ◌^◌};

use crate::say;
use block_log::Refusal;
use inspection::{Fault, Found, Inspected, Rule, Use};
use std::io;
use std::io::Write;

fn refused(out: &mut impl Write, refusal: Refusal) -> io::Result<()> {
    let number = u32::from(refusal);
    let reason = say::reason(refusal);
    writeln!(out, "refused {number}: {reason}")
}

fn broken(out: &mut impl Write, rule: Rule) -> io::Result<()> {
    let number = u32::from(rule.refusal());
    let place = rule.place();
    let text = say::rule(rule);
    writeln!(out, "rule {number}.{place}: {text}")
}

// More bytes than an image can have.
pub fn too_long(out: &mut impl Write) -> io::Result<()> {
    refused(out, Refusal::ImageSize)?;
    writeln!(out, "fault at block 1024 word 0, more than 65536 words")?;
    broken(out, Rule::MostBlocks)
}

// The bytes end inside a word.
pub fn broken_word(out: &mut impl Write, n: usize) -> io::Result<()> {
    let number = u32::from(Refusal::ImageSize);
    let block = n / 512;
    let word = n % 512 / 8;
    refused(out, Refusal::ImageSize)?;
    writeln!(out, "fault at block {block} word {word}, bytes {n}")?;
    writeln!(out, "rule {number}.0: an image is whole words of 8 bytes")
}

// A fault: where it is, what is there, and the rule that it breaks.
fn fault(out: &mut impl Write, found: Fault) -> io::Result<()> {
    let Fault {
        rule,
        block,
        word,
        value,
        detail,
    } = found;
    refused(out, rule.refusal())?;
    write!(out, "fault at block {block} word {word}")?;
    match rule {
        Rule::WholeBlocks | Rule::FewestBlocks | Rule::MostBlocks => {
            writeln!(out, ", words {value}")?
        }
        Rule::NoLogBlock | Rule::NotShared => {
            writeln!(out, ", value 0x{value:016X}, virtual block {detail}")?
        }
        Rule::EndZeros => writeln!(out, ", value 0x{value:016X}, byte {detail}")?,
        _ => writeln!(out, ", value 0x{value:016X}")?,
    }
    broken(out, rule)
}

fn header(out: &mut impl Write, found: Found) -> io::Result<()> {
    let Found {
        length,
        entries,
        free,
        longest,
        ..
    } = found;
    writeln!(
        out,
        "length {length}, entries {entries}, free blocks {free}, longest free stretch {longest}"
    )
}

fn use_of(of: Use) -> &'static str {
    match of {
        Use::Superblock => "S",
        Use::Log => "L",
        Use::Live => "#",
        Use::Free => ".",
    }
}

// The map of an image's blocks, 64 to a line, each line with the number of its first.
fn blocks(out: &mut impl Write, count: usize, uses: &[Use; 1024]) -> io::Result<()> {
    writeln!(out, "\nblocks {count}: S superblock, L log, # live, . free")?;
    for (b, of) in uses.iter().take(count).enumerate() {
        if b % 64 == 0 {
            write!(out, "{b:4} ")?;
        }
        let of = use_of(*of);
        write!(out, "{of}")?;
        if b % 64 == 63 || b + 1 == count {
            writeln!(out)?;
        }
    }
    Ok(())
}

// The log blocks, in chain order.
fn chain(out: &mut impl Write, blocks: &[u16]) -> io::Result<()> {
    write!(out, "\nlog blocks")?;
    if blocks.is_empty() {
        write!(out, " none")?;
    }
    for b in blocks {
        write!(out, " {b}")?;
    }
    writeln!(out)
}

// Numbers from a first one on, so many: one, or first and last. An entry's fields are far from where adding would saturate.
fn span(out: &mut impl Write, name: &str, first: u64, count: u64) -> io::Result<()> {
    if count <= 1 {
        return write!(out, "{name} {first}");
    }
    let last = first.saturating_add(count - 1);
    write!(out, "{name}s {first} to {last}")
}

// Which of the n virtual blocks from v on are overruled.
fn overruled(out: &mut impl Write, v: u64, n: u64, marks: u64) -> io::Result<()>
    requires { v < 65536 }
{
    write!(out, ", overruled")?;
    if marks == 0 {
        return writeln!(out, " none");
    }
    if words::map::free_count(&[marks], n as usize) == 0 {
        return writeln!(out, " all");
    }
    for i in 0..64 {
        if (marks >> i) & 1 == 1 {
            let overruled = v + i;
            write!(out, " {overruled}")?;
        }
    }
    writeln!(out)
}

// Entry j, where it stands, its fields, and what later ones overrule of it.
fn entry(out: &mut impl Write, j: usize, b: u16, e: u64, marks: u64) -> io::Result<()>
    requires { j < 2 ^ 63 }
{
    let v = block_log::first_virtual(e);
    let n = block_log::count(e);
    let number = j + 1;
    let word = 2 + j % 62;
    let point = block_log::pack::point(e);
    let used = block_log::used(e);
    write!(
        out,
        "entry {number}, block {b} word {word}: point {point}, "
    )?;
    span(out, "virtual block", v, n)?;
    span(out, " in block", block_log::first_block(e), n)?;
    write!(out, ", {used} bytes used of the last")?;
    overruled(out, v, n, marks)
}

// The entries, in log order.
fn log(out: &mut impl Write, seen: &Inspected) -> io::Result<()> {
    let chain = seen.chain();
    let entries = seen.entries();
    if entries.is_empty() {
        writeln!(out, "no entries")?;
    }
    for (j, (e, marks)) in entries.iter().zip(seen.overruled()).enumerate() {
        let b = chain.get(j / 62).copied().unwrap_or(0);
        entry(out, j, b, *e, *marks)?;
    }
    Ok(())
}

// The table: each virtual block that is mapped.
fn table(out: &mut impl Write, rows: &[u16; 256]) -> io::Result<()> {
    if rows.iter().all(|b| *b == 0) {
        return writeln!(out, "\ntable: empty");
    }
    writeln!(out, "\ntable: virtual block, block")?;
    for (v, b) in rows.iter().enumerate() {
        if *b != 0 {
            writeln!(out, "{v} {b}")?;
        }
    }
    Ok(())
}

// What was seen of an image of so many blocks: of one of a wrong size the fault alone.
pub fn inspected(out: &mut impl Write, count: usize, seen: &Inspected) -> io::Result<()> {
    match seen.fault() {
        None => writeln!(out, "opens")?,
        Some(f) => {
            fault(out, f)?;
            if f.rule.refusal() == Refusal::ImageSize {
                return Ok(());
            }
            writeln!(out, "as far as it can be read:")?;
        }
    }
    header(out, seen.found())?;
    blocks(out, count, seen.uses())?;
    chain(out, seen.chain())?;
    log(out, seen)?;
    table(out, seen.table())
}
