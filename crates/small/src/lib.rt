// Every small log (document 02, K9): all logs of at most two entries of one kind that opening accepts; and an entry's digits. The definitions are in specs/.
#![tactic(auto)]

ghost use Rattle.std.specs.Prelude.{◌≡◌, List, [], ◌∷◌, ◌++◌, ℕ, ◌<◌};
ghost use Rattle.small.specs.SmallLogs.{image_with, AllLegal, Fills, hex_digit, digits_of};
ghost use Rattle.small.specs.Tried.{entry_count, legal_entry, one_more, pairs, accepts, legal_logs};
ghost use Rattle.small.specs.Parts.{log_of, Room, Keeps};

// How many entries of that kind are legal in 4 blocks: of one block, and in all.
const OF_ONE_BLOCK: u64 = 6;

const ENTRY_COUNT: u64 = 8;

// The claim: each of `legal_logs` is a small log; a small log is among them exactly when opening accepts the image with its entries; they ascend, and
// are 33.
pub fn all_legal()
    ensures { AllLegal legal_logs }
{}

// No other list has that: what `every_log` fills in is known without its definition.
pub fn only_legal()
    ensures { (logs : List (List ℕ)) → AllLegal logs → logs ≡ legal_logs }
{}

// Legal entry k of that kind, ascending: those of one block, then those of two.
fn legal_entry(k: u64) -> u64
    requires { k < entry_count }
    ensures { result ≡ legal_entry k }
{
    if k < OF_ONE_BLOCK {
        return block_log::pack::entry((k % 2) as u16, (k / 2 + 1) as u16, 1, 512, 0);
    }
    block_log::pack::entry(0, (k + 1 - OF_ONE_BLOCK) as u16, 2, 512, 0)
}

// The laid-out image of 4 blocks with these two words in its log's first slots.
fn image_with(first: u64, second: u64) -> [u64; 256]
    ensures { result ≡ image_with (first ∷ second ∷ []) }
{
    let mut image = [0u64; 256];
    let _ = block_log::layout::lay_out(&mut image);
    words::image::store(&mut image, 1, 2, first);
    words::image::store(&mut image, 1, 3, second);
    image
}

// Whether opening accepts that image.
fn accepts(first: u64, second: u64) -> bool
    ensures { result ≡ accepts (first ∷ second ∷ []) }
{
    let image = image_with(first, second);
    let mut scratch = [0u16; 1024];
    let opened = block_log::open::open(&image, &mut scratch);
    let reply = opened.reply;
    reply.is_ok()
}

// The logs that are kept: the slice that they go into, two words each, and how many it holds.
#[derive(Drop)]
struct Logs<'a> {
    out: &'a mut [u64],
    count: usize,
    ghost room: { Room out.now count },
}

impl<'a> Logs<'a> {
    // A log goes in behind the others, if there is room and opening accepts it.
    fn keep(&mut self, first: u64, second: u64)
        ensures kept { Keeps ((first ∷ second ∷ []) ∷ []) self.old.out.now self.old.count self.new.out.now self.new.count }
        ensures same_slice { self.new.out.ghost_name ≡ self.old.out.ghost_name }
    {
        let at = 2 * self.count;
        if self.out.len() - at < 2 {
            return;
        }
        if !accepts(first, second) {
            return;
        }
        self.out[at] = first;
        self.out[at + 1] = second;
        self.count += 1;
    }

    // The same of the log that has one entry more than the log of `first` alone, 0 for the empty log.
    fn keep_longer(&mut self, first: u64, e: u64)
        ensures kept { Keeps ((log_of first ++ e ∷ []) ∷ []) self.old.out.now self.old.count self.new.out.now self.new.count }
        ensures same_slice { self.new.out.ghost_name ≡ self.old.out.ghost_name }
    {
        if first == 0 {
            self.keep(e, 0);
            return;
        }
        self.keep(first, e);
    }

    // The same of all logs that have one legal entry more than that.
    fn keep_each(&mut self, first: u64)
        ensures kept { Keeps (one_more (log_of first)) self.old.out.now self.old.count self.new.out.now self.new.count }
        ensures same_slice { self.new.out.ghost_name ≡ self.old.out.ghost_name }
    {
        for k in 0..ENTRY_COUNT {
            self.keep_longer(first, legal_entry(k));
        }
    }

    // The same of all logs of two legal entries.
    fn keep_pairs(&mut self)
        ensures kept { Keeps pairs self.old.out.now self.old.count self.new.out.now self.new.count }
        ensures same_slice { self.new.out.ghost_name ≡ self.old.out.ghost_name }
    {
        for k in 0..ENTRY_COUNT {
            self.keep_each(legal_entry(k));
        }
    }
}

// All legal small logs go into the slice, as many as there is room for, two words each, 0 for an entry that a log does not have: 66 words hold all. The first
// is the empty log, two words 0. How many there are then.
pub fn every_log(out: &mut [u64]) -> usize
    ensures { Fills legal_logs out.old out.new result }
{
    let mut logs = Logs { out, count: 0 };
    logs.keep(0, 0);
    logs.keep_each(0);
    logs.keep_pairs();
    logs.count
}

// A hexadecimal digit, in capitals.
fn hex_digit(d: u64) -> u8
    requires { d < 16 }
    ensures { result ≡ hex_digit d }
{
    if d < 10 {
        return (48 + d) as u8;
    }
    (55 + d) as u8
}

// An entry as 16 hexadecimal digits, the highest first.
pub fn digits_of(e: u64) -> [u8; 16]
    ensures { result ≡ digits_of e }
{
    let mut text = [0u8; 16];
    for (i, digit) in text.iter_mut().enumerate() {
        *digit = hex_digit((e >> (60 - 4 * i)) % 16);
    }
    text
}
