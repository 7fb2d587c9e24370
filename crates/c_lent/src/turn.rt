// The turns of the serving call: a point's beginning and its step, each for all of a list in list order.
ghost use Rattle.std.specs.Prelude.{◌≡◌, true, false, List, ℕ, ◌+◌, ◌-◌, ◌<◌, length, get_or};
ghost use Rattle.words.specs.Edition.{one};
ghost use Rattle.points.specs.Serving.{in_turn};
ghost use Rattle.c_lent.specs.Numbers.{shared_lent, point_lent, is_known};
ghost use Rattle.c_lent.specs.Serving.{kind_goes_on, begin_turn_for, step_turn_for, listed, asking, listed_at, common_lent, turn_left, listed_lent};
ghost use Rattle.c_lent.specs.Batch.{AllReady, Ready, lists_lent, Steps, MovesOn, CommitsOn};
ghost use Rattle.c_lent.specs.Serving.{Lent, asking_lent, begun_answer};

// Stays: kinds are numbers here, since `answers` is C's list of pairs (`store_serve_parts`) and is read back in each round.
pub(crate) use points::answers::goes_on;

// What a beginning answers, kind and value, by the refusal's number.
fn begun_answer(refused: u32) -> [u32; 2]
    ensures { result ≡ begun_answer refused }
{
    if refused == 0 {
        return [0, 0];
    }
    [5, refused]
}

// One point's beginning.
fn begin_turn(
    image: &[u64],
    shared: &mut [u32; 35],
    taken: &mut [u64; 16],
    head: &mut [u32; 11],
    table: &mut [u16; 256],
    text: &mut [u8; 1024],
    answer: &mut [u32; 2],
    offset: usize,
    bytes: &[u8],
)
    ensures { turn_left (common_lent image.now (shared_lent shared.new taken.new))
        (listed_lent (point_lent head.new table.new text.new) answer.new)
        ≡ begin_turn_for (common_lent image.now (shared_lent shared.old taken.old))
        (asking_lent (point_lent head.old table.old text.old) offset bytes.now) }
{
    let refused = crate::parts::begin(image, shared, taken, head, table, text, offset, bytes);
    *answer = begun_answer(refused);
}

// All writes are begun, in list order; their texts stand one after the other.
pub(crate) fn begin_all(
    image: &[u64],
    shared: &mut [u32; 35],
    taken: &mut [u64; 16],
    heads: &mut [[u32; 11]],
    tables: &mut [[u16; 256]],
    texts: &mut [[u8; 1024]],
    answers: &mut [[u32; 2]],
    writes: &[[usize; 2]],
    bytes: &[u8],
)
    requires { Lent heads.old tables.old texts.old answers.old writes.now bytes.now }
    ensures { let c = common_lent image.now (shared_lent shared.new taken.new) in
        (turn_left c (listed heads.new tables.new texts.new answers.new)
        ≡ in_turn begin_turn_for (common_lent image.now (shared_lent shared.old taken.old))
        (asking heads.old tables.old texts.old writes.now bytes.now))
        × AllReady c (length heads.old) (listed_at heads.new tables.new texts.new answers.new) }
{
    let mut start: usize = 0;
    // Stays: `for ((((head, table), text), answer), write) in heads.iter_mut().zip(tables).zip(..)` is no plainer; in `round` likewise.
    for i in 0..heads.len() {
        let end = start + writes[i][1];
        begin_turn(
            image,
            shared,
            taken,
            &mut heads[i],
            &mut tables[i],
            &mut texts[i],
            &mut answers[i],
            writes[i][0],
            &bytes[start..end],
        );
        start = end;
    }
}

// A point that has filled its run moves on by one entry that maps none of its blocks, where that is all that is ahead of it. Whether it did.
fn moves_on(
    image: &[u64],
    shared: &mut [u32; 35],
    head: &mut [u32; 11],
    table: &mut [u16; 256],
) -> bool
    requires { is_known head.old ≡ true }
    ensures { MovesOn image.now shared.old head.old table.old result
        shared.new head.new table.new }
{
    let moved = points::serve::move_by_one(image, shared[0], crate::numbers::head(head), table);
    let Some(left) = moved else {
        return false;
    };
    crate::numbers::put_reported(shared, points::plan::Reports::Standing, left);
    *head = crate::numbers::of_head(left);
    true
}

// A point that has filled its run commits, where the word at its log place is empty. Whether it did.
fn commits(
    image: &mut [u64],
    taken: &mut [u64; 16],
    head: &mut [u32; 11],
    table: &mut [u16; 256],
    text: &mut [u8; 1024],
) -> bool
    requires { is_known head.old ≡ true }
    ensures { CommitsOn image.old taken.old head.old table.old text.old result
        image.new taken.new head.new table.new text.new }
{
    let committed = points::serve::commit_by_head(
        image,
        taken,
        crate::numbers::head(head),
        table,
        text,
    );
    let Some(left) = committed else {
        return false;
    };
    *head = crate::numbers::of_head(left);
    true
}

// The step of a point that is known to fit, and its answer: without its tests where it moves on by one entry or commits.
fn ready_step(
    image: &mut [u64],
    shared: &mut [u32; 35],
    taken: &mut [u64; 16],
    head: &mut [u32; 11],
    table: &mut [u16; 256],
    text: &mut [u8; 1024],
    bytes: &mut [u8; 1024],
) -> [u32; 2]
    requires { Steps image.old (shared_lent shared.old taken.old) (point_lent head.old table.old text.old) }
    ensures { (a : List ℕ) → kind_goes_on (get_or a 0 0) ≡ true
        → turn_left (common_lent image.new (shared_lent shared.new taken.new))
        (listed_lent (point_lent head.new table.new text.new) result)
        ≡ step_turn_for (common_lent image.old (shared_lent shared.old taken.old))
        (listed_lent (point_lent head.old table.old text.old) a) }
{
    if moves_on(image, shared, head, table) {
        return [2, 0];
    }
    let retries = head[10];
    if commits(image, taken, head, table, text) {
        return [4, retries];
    }
    let stepped = crate::parts::step(image, shared, taken, head, table, text, bytes);
    [stepped.kind, stepped.value]
}

// One point's turn in a round: a step if its write goes on.
fn turn(
    image: &mut [u64],
    shared: &mut [u32; 35],
    taken: &mut [u64; 16],
    head: &mut [u32; 11],
    table: &mut [u16; 256],
    text: &mut [u8; 1024],
    answer: &mut [u32; 2],
    bytes: &mut [u8; 1024],
)
    requires { kind_goes_on (get_or answer.old 0 0) ≡ true → Steps image.old (shared_lent shared.old taken.old) (point_lent head.old table.old text.old) }
    ensures { turn_left (common_lent image.new (shared_lent shared.new taken.new))
        (listed_lent (point_lent head.new table.new text.new) answer.new)
        ≡ step_turn_for (common_lent image.old (shared_lent shared.old taken.old))
        (listed_lent (point_lent head.old table.old text.old) answer.old) }
{
    if goes_on(answer[0]) {
        *answer = ready_step(image, shared, taken, head, table, text, bytes);
    }
}

// A round: each point has its turn, in list order.
pub(crate) fn round(
    image: &mut [u64],
    shared: &mut [u32; 35],
    taken: &mut [u64; 16],
    heads: &mut [[u32; 11]],
    tables: &mut [[u16; 256]],
    texts: &mut [[u8; 1024]],
    answers: &mut [[u32; 2]],
    bytes: &mut [u8; 1024],
)
    requires { Ready (lists_lent image.old (shared_lent shared.old taken.old) heads.old tables.old texts.old answers.old) }
    ensures { let c = common_lent image.new (shared_lent shared.new taken.new) in
        (turn_left c (listed heads.new tables.new texts.new answers.new)
        ≡ in_turn step_turn_for (common_lent image.old (shared_lent shared.old taken.old))
        (listed heads.old tables.old texts.old answers.old))
        × AllReady c (length heads.old) (listed_at heads.new tables.new texts.new answers.new) }
{
    for i in 0..heads.len() {
        turn(
            image,
            shared,
            taken,
            &mut heads[i],
            &mut tables[i],
            &mut texts[i],
            &mut answers[i],
            bytes,
        );
    }
}
