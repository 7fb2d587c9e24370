// Rounds of the serving call in which each point whose write goes on only stores its next word: so many at once, without tests.
ghost use Rattle.std.specs.Prelude.{◌≡◌, true, false, List, [], ◌∷◌, ℕ, ◌+◌, ◌-◌, ◌≤◌, ◌<◌, length, get_or, set, None};
ghost use Rattle.words.specs.Edition.{one};
ghost use Rattle.points.specs.Batch.{filled_on, InOneBlock};
ghost use Rattle.c_lent.specs.Numbers.{shared_lent, head_from, is_known};
ghost use Rattle.c_lent.specs.Serving.{kind_goes_on, listed_at, listed_lent, point_as};
ghost use Rattle.c_lent.specs.Batch.{FillsAlone, PlainAt, AllPlain, RowIs, Ready, RoundsMade, lists_lent, words_on};

use points::serve::{Due, Row};

// How many words a point has left to store, one by one, in one block: of its run, or of its log block. 0 where its next step is another.
// Stays: a count, of which `plain_words` takes the least; with `Option<u32>` in its place each `left < least` would be a `match`.
fn words_left(offset: u32, size: u32, phase: u32, k: u32) -> u32
    ensures { (h : List ℕ) → get_or h 4 0 ≡ offset → get_or h 5 0 ≡ size → get_or h 7 0 ≡ phase → get_or h 8 0 ≡ k → 0 < result → PlainAt result h }
{
    if phase == 5 {
        if k < 64 {
            return 64 - k;
        }
        return 0;
    }
    if phase != 1 {
        return 0;
    }
    let words = 64 * points::record::span(offset, size) as u64;
    if words <= k as u64 {
        return 0;
    }
    64 - words::offset::word(8 * k as usize) as u32
}

// The lesser of that and of the others', where its write goes on.
fn least_left(least: u32, kind: u32, head: &[u32; 11]) -> u32
    ensures { (result ≤ least) × (kind_goes_on kind ≡ true → 0 < result → PlainAt result head.now) }
{
    if !crate::turn::goes_on(kind) {
        return least;
    }
    let left = words_left(head[4], head[5], head[7], head[8]);
    if left < least {
        return left;
    }
    least
}

// How many words every point whose write goes on has left so; 64 where there is none.
fn plain_words(heads: &[[u32; 11]], answers: &[[u32; 2]]) -> u32
    requires { length answers.now ≡ length heads.now }
    ensures { 0 < result → AllPlain result heads.now answers.now }
{
    let mut least: u32 = 64;
    for (head, answer) in heads.iter().zip(answers) {
        least = least_left(least, answer[0], head);
        if least == 0 {
            return 0;
        }
    }
    least
}

// The row of a point's next words, of its run or of its log block; none where its write does not go on.
fn row_for(kind: u32, head: &[u32; 11], table: &[u16; 256]) -> Option<Due>
    requires { kind_goes_on kind ≡ true → is_known head.now ≡ true }
    ensures { RowIs kind result head.now table.now }
{
    if !crate::turn::goes_on(kind) {
        return None;
    }
    let next = head[8];
    if head[7] == 5 {
        let row = Row {
            run: head[9],
            from: 0,
            lead: 4096,
            end: 4096,
        };
        return Some(Due { row, next });
    }
    let known = crate::numbers::head(head);
    let row = points::serve::row_at(known, table, next);
    Some(Due { row, next })
}

// The rows of all.
fn rows_for(
    heads: &[[u32; 11]],
    tables: &[[u16; 256]],
    answers: &[[u32; 2]],
    rows: &mut [Option<Due>],
)
    requires { (length tables.now ≡ length heads.now) × (length answers.now ≡ length heads.now) × (length heads.now ≤ length rows.old)
        × ((i : ℕ) → i < length heads.now → kind_goes_on (get_or (get_or answers.now i []) 0 0) ≡ true → is_known (get_or heads.now i []) ≡ true) }
    ensures { (i : ℕ) → i < length heads.now → RowIs (get_or (get_or answers.now i []) 0 0)
        (get_or rows.new i None) (get_or heads.now i []) (get_or tables.now i []) }
{
    for (i, head) in heads.iter().enumerate() {
        rows[i] = row_for(answers[i][0], head, &tables[i]);
    }
}

// A point whose write goes on is m words on, and it is said.
fn go_on(head: &mut [u32; 11], answer: &mut [u32; 2], m: u32)
    requires { kind_goes_on (get_or answer.old 0 0) ≡ true → get_or head.old 8 0 + m ≤ 192 }
    ensures { (table text : List ℕ) → listed_lent (point_as head.new table text) answer.new
        ≡ words_on m (listed_lent (point_as head.old table text) answer.old) }
{
    if crate::turn::goes_on(answer[0]) {
        let k = head[8];
        head[8] = k + m;
        *answer = [1, 0];
    }
}

// So are all.
fn all_go_on(heads: &mut [[u32; 11]], answers: &mut [[u32; 2]], m: u32)
    requires { (length answers.old ≡ length heads.old) × ((i : ℕ) → i < length heads.old
        → kind_goes_on (get_or (get_or answers.old i []) 0 0) ≡ true → get_or (get_or heads.old i []) 8 0 + m ≤ 192) }
    ensures { (tables texts : List (List ℕ)) (i : ℕ) → i < length heads.old
        → listed_at heads.new tables texts answers.new i
        ≡ words_on m (listed_at heads.old tables texts answers.old i) }
{
    // Stays: answers by i: over `heads.iter_mut().zip(answers)` it was tried, and what heads and answers hold after the loop no proof knows.
    for (i, head) in heads.iter_mut().enumerate() {
        go_on(head, &mut answers[i], m);
    }
}

// So many rounds of points that all have so many words left to store one by one, by rows that are found once.
fn by_rows(
    image: &mut [u64],
    shared: &[u32; 35],
    taken: &[u64; 16],
    heads: &mut [[u32; 11]],
    tables: &[[u16; 256]],
    texts: &[[u8; 1024]],
    answers: &mut [[u32; 2]],
    m: u32,
)
    requires { Ready (lists_lent image.old (shared_lent shared.now taken.now) heads.old tables.now texts.now answers.old)
        × (length heads.old ≤ 32) × (0 < m) × AllPlain m heads.old answers.old }
    ensures { let s = shared_lent shared.now taken.now in
        RoundsMade m (lists_lent image.old s heads.old tables.now texts.now answers.old) (lists_lent image.new s heads.new tables.now texts.now answers.new) }
{
    let mut rows: [Option<Due>; 32] = [None; 32];
    rows_for(heads, tables, answers, &mut rows);
    points::serve::fill_rounds(image, &rows, texts, m);
    all_go_on(heads, answers, m);
}

// Whether it is one point alone, and its write is being filled.
fn fills_alone(heads: &[[u32; 11]], answers: &[[u32; 2]]) -> bool
    requires { length answers.now ≡ length heads.now }
    ensures { result ≡ true → FillsAlone heads.now answers.now }
{
    if heads.len() != 1 {
        return false;
    }
    if !crate::turn::goes_on(answers[0][0]) {
        return false;
    }
    heads[0][7] == 1
}

// So many words of a run are stored, and it is said.
fn fill_alone(
    image: &mut [u64],
    head: &mut [u32; 11],
    table: &[u16; 256],
    text: &[u8; 1024],
    answer: &mut [u32; 2],
    m: u32,
)
    requires { (is_known head.old ≡ true) × InOneBlock (head_from head.old) (get_or head.old 8 0) m }
    ensures { let h = head.old in
        (image.new ≡ filled_on one (head_from h) table.now text.now (get_or h 8 0) m image.old)
        × (head.new ≡ set h 8 (get_or h 8 0 + m)) × (answer.new ≡ 1 ∷ 0 ∷ []) }
{
    let k = head[8];
    points::serve::fill_words(image, crate::numbers::head(head), table, text, k, m);
    head[8] = k + m;
    *answer = [1, 0];
}

// So many rounds of points that all have so many words left to store one by one.
fn plain_batch(
    image: &mut [u64],
    shared: &[u32; 35],
    taken: &[u64; 16],
    heads: &mut [[u32; 11]],
    tables: &[[u16; 256]],
    texts: &[[u8; 1024]],
    answers: &mut [[u32; 2]],
    m: u32,
)
    requires { Ready (lists_lent image.old (shared_lent shared.now taken.now) heads.old tables.now texts.now answers.old)
        × (length heads.old ≤ 32) × (0 < m) × AllPlain m heads.old answers.old }
    ensures { let s = shared_lent shared.now taken.now in
        RoundsMade m (lists_lent image.old s heads.old tables.now texts.now answers.old) (lists_lent image.new s heads.new tables.now texts.now answers.new) }
{
    if fills_alone(heads, answers) {
        fill_alone(
            image,
            &mut heads[0],
            &tables[0],
            &texts[0],
            &mut answers[0],
            m,
        );
    } else {
        by_rows(image, shared, taken, heads, tables, texts, answers, m);
    }
}

// Some rounds, one at least and so many at most: as many as all points have words left to store one by one. How many there were.
pub(crate) fn batch(
    image: &mut [u64],
    shared: &mut [u32; 35],
    taken: &mut [u64; 16],
    heads: &mut [[u32; 11]],
    tables: &mut [[u16; 256]],
    texts: &mut [[u8; 1024]],
    answers: &mut [[u32; 2]],
    bytes: &mut [u8; 1024],
    most: u32,
) -> u32
    requires { Ready (lists_lent image.old (shared_lent shared.old taken.old) heads.old tables.old texts.old answers.old)
        × (length heads.old ≤ 32) × (0 < most) }
    ensures { (0 < result) × (result ≤ most)
        × RoundsMade result (lists_lent image.old (shared_lent shared.old taken.old) heads.old tables.old texts.old answers.old)
        (lists_lent image.new (shared_lent shared.new taken.new) heads.new tables.new texts.new answers.new) }
{
    let words = plain_words(heads, answers);
    let m = words.min(most);
    if m == 0 {
        crate::turn::round(image, shared, taken, heads, tables, texts, answers, bytes);
        return 1;
    }
    plain_batch(image, shared, taken, heads, tables, texts, answers, m);
    m
}
