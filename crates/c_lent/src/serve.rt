// Serving a list of points: all writes are begun in list order, then each unfinished one gets a step a round.
ghost use Rattle.std.specs.Prelude.{◌≡◌, true, false, suc, ◌+◌, ◌-◌, ◌≤◌, ◌<◌, length, eqb};
ghost use Rattle.words.specs.Edition.{one};
ghost use Rattle.words.specs.Logic.{member, list_from};
ghost use Rattle.block_log.specs.Opening.{number_of};
ghost use Rattle.points.specs.Serving.{rounds, serve_rounds, twice};
ghost use Rattle.c_lent.specs.Numbers.{shared_lent};
ghost use Rattle.c_lent.specs.Serving.{step_turn_for, listed, common_lent, turn_left};
ghost use Rattle.c_lent.specs.Batch.{Ready, lists_lent};
ghost use Rattle.c_lent.specs.Serving.{one_for_each, any_goes_on, start_at, number_at, serve_reason, serve_left, serve_for};

use block_log::{Refusal, Reply};

// Whether somebody's write goes on.
fn anybody(answers: &[[u32; 2]]) -> bool
    ensures { result ≡ any_goes_on answers.now }
{
    answers.iter().any(|answer| crate::turn::goes_on(answer[0]))
}

// So many rounds, as long as there is somebody whose write goes on.
fn all_rounds(
    image: &mut [u64],
    shared: &mut [u32; 35],
    taken: &mut [u64; 16],
    heads: &mut [[u32; 11]],
    tables: &mut [[u16; 256]],
    texts: &mut [[u8; 1024]],
    answers: &mut [[u32; 2]],
    most: u32,
)
    requires { Ready (lists_lent image.old (shared_lent shared.old taken.old) heads.old tables.old texts.old answers.old) × (length heads.old ≤ 32) }
    ensures { turn_left (common_lent image.new (shared_lent shared.new taken.new))
        (listed heads.new tables.new texts.new answers.new)
        ≡ rounds most step_turn_for (common_lent image.old (shared_lent shared.old taken.old))
        (listed heads.old tables.old texts.old answers.old) }
{
    let mut bytes = [0u8; 1024];
    let mut left = most;
    // Stays: a batch makes as many rounds at once as it can, so it is a count that goes down, by what was made, and no list or range.
    while 0 < left && anybody(answers) {
        let made = crate::batch::batch(
            image, shared, taken, heads, tables, texts, answers, &mut bytes, left,
        );
        left -= made;
    }
}

// Whether one of these points has the number.
fn has_number(heads: &[[u32; 11]], number: u32) -> bool
    ensures { result ≡ member number (list_from 0 (length heads.now) (number_at heads.now)) }
{
    heads.iter().any(|head| number == head[0])
}

// Whether a point is listed twice.
fn listed_twice(heads: &[[u32; 11]]) -> bool
    ensures { result ≡ twice (list_from 0 (length heads.now) (number_at heads.now)) }
{
    for (i, head) in heads.iter().enumerate() {
        if has_number(&heads[i + 1..], head[0]) {
            return true;
        }
    }
    false
}

// Whether the texts are so long together.
fn adds_up(writes: &[[usize; 2]], bytes: usize) -> bool
    ensures { result ≡ eqb (start_at writes.now (length writes.now)) bytes }
{
    let mut left = bytes;
    for write in writes {
        let size = write[1];
        if left < size {
            return false;
        }
        left -= size;
    }
    left == 0
}

// Whether there are 1 to 32 points, and as many of each of the others.
fn one_for_each(n: usize, tables: usize, texts: usize, writes: usize, answers: usize) -> bool
    ensures { result ≡ one_for_each n tables texts writes answers }
{
    (1 <= n) & (n <= 32) & (tables == n) & (texts == n) & (writes == n) & (answers == n)
}

// 26: no point, more than 32, or not one write, with its room, for each; 27: a point is listed twice.
fn reason(
    heads: &[[u32; 11]],
    tables: usize,
    texts: usize,
    writes: &[[usize; 2]],
    answers: usize,
    bytes: usize,
) -> Reply
    ensures { number_of result ≡ serve_reason heads.now tables texts writes.now answers bytes }
{
    if !one_for_each(heads.len(), tables, texts, writes.len(), answers) {
        return Err(Refusal::NotOneEach);
    }
    if !adds_up(writes, bytes) {
        return Err(Refusal::NotOneEach);
    }
    if listed_twice(heads) {
        return Err(Refusal::ListedTwice);
    }
    Ok(())
}

// Serves a list of points, each with one write: `heads`, `tables` and `texts` are their records, `writes` the offsets and sizes, `bytes` the texts one after
// the other; `answers` gets what each point's last beginning or step answered, kind and value. Answers 26 or 27, or 0.
pub fn serve(
    image: &mut [u64],
    shared: &mut [u32; 35],
    taken: &mut [u64; 16],
    heads: &mut [[u32; 11]],
    tables: &mut [[u16; 256]],
    texts: &mut [[u8; 1024]],
    answers: &mut [[u32; 2]],
    writes: &[[usize; 2]],
    bytes: &[u8],
) -> u32
    ensures { serve_left result (common_lent image.new (shared_lent shared.new taken.new))
        heads.new tables.new texts.new answers.new
        ≡ serve_for (common_lent image.old (shared_lent shared.old taken.old))
        heads.old tables.old texts.old answers.old writes.now bytes.now }
{
    let refused = reason(
        heads,
        tables.len(),
        texts.len(),
        writes,
        answers.len(),
        bytes.len(),
    );
    if let Err(refusal) = refused {
        return refusal.into();
    }
    crate::turn::begin_all(
        image, shared, taken, heads, tables, texts, answers, writes, bytes,
    );
    let most = points::answers::most_rounds(heads.len());
    all_rounds(image, shared, taken, heads, tables, texts, answers, most);
    0
}
