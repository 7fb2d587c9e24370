// An entry put together by shifts.
ghost use Rattle.std.specs.Prelude.{◌≡◌, ◌%◌};
ghost use Rattle.words.specs.Edition.{one};
ghost use Rattle.block_log.specs.Entry.{entry_of, entry_point};

// The entry with these fields; of the used bytes 10 bits are kept, of the point number 5.
pub fn entry(v: u16, b: u16, n: u8, u: u16, point: u8) -> u64
    ensures { result ≡ entry_of one v b n (u % 1024) (point % 32) }
{
    let used = (u as u64) & 1023;
    let number = (point as u64) & 31;
    (v as u64) | (b as u64) << 16 | (n as u64) << 32 | used << 40 | number << 50
}

// The point number of an entry.
pub fn point(e: u64) -> u64
    ensures { result ≡ entry_point one e }
{
    (e >> 50) & 31
}
