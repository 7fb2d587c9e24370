// Prints what is in an image from standard input: header, map of the blocks, log, table; and where opening refuses it, the first fault.
// What is printed comes from `words::bytes::words_of` and `inspection::inspect`, whose contracts say what it is; here it is only printed.
#![tactic(auto)]

ghost use Rattle.std.specs.Prelude.{IfOk, ◌≤◌};

mod say;
mod show;

use std::io;
use std::io::{BufWriter, Read, Write};

// Prints what is in the image of these bytes and of those after them.
fn show_image(out: &mut impl Write, bytes: &[u8], more: &[u8]) -> io::Result<()> {
    let mut image = [0u64; 65536];
    let j = words::bytes::words_of(bytes, &mut image);
    let k = j + words::bytes::words_of(more, &mut image[j..]);
    let mut scratch = [0u16; 1024];
    let seen = inspection::inspect(&image[..k], &mut scratch);
    show::inspected(out, k / 64, &seen)
}

// What is read behind as many bytes as there is room for in the first half; nothing where the input ended there.
fn read_rest(input: &mut impl Read, first: usize, rest: &mut [u8; 262145]) -> io::Result<usize>
    ensures { IfOk result (λ n. n ≤ 262145) }
{
    if first < 262144 {
        return Ok(0);
    }
    streams::read_full(input, rest)
}

// Prints what is in the image that is read. The buffers have room for one byte more than an image can have.
fn inspect(input: &mut impl Read, out: &mut impl Write) -> io::Result<()> {
    let mut bytes = [0u8; 262144];
    let mut more = [0u8; 262145];
    let first = streams::read_full(input, &mut bytes)?;
    let rest = read_rest(input, first, &mut more)?;
    let n = first + rest;
    if 524288 < n {
        return show::too_long(out);
    }
    if n % 8 != 0 {
        return show::broken_word(out, n);
    }
    show_image(out, &bytes[..first], &more[..rest])
}

// Writes in large pieces where there is memory for a buffer, and else each piece as it comes.
fn main(rt: HostRuntime) -> io::Result<()> {
    let Ok(mut out) = BufWriter::new(rt.alloc(), io::writer(&rt)) else {
        return inspect(&mut rt.stdin(), &mut io::writer(&rt));
    };
    inspect(&mut rt.stdin(), &mut out)?;
    out.flush()
}
