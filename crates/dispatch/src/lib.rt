// Serving a list of points whose records are lent as one list: their numbers are looked at, all writes are begun in list order, then each unfinished one gets
// a step a round. The definitions are in specs/.
#![tactic(auto)]

ghost use Rattle.std.specs.Prelude.{◌≡◌, List, ◌≤◌, length, get_or, eqb};
ghost use Rattle.std.specs.List.{list_any};
ghost use Rattle.words.specs.Edition.{one};
ghost use Rattle.points.specs.Serving.{begun, twice, point_numbers, Listed, asking, in_turn, rounds, begin_turn, step_turn};
ghost use Rattle.dispatch.specs.Dispatch.{sizes_of, requests_of, last_numbers, lent_for_each, dispatch_left, dispatched};
ghost use Rattle.dispatch.specs.Turns.{kind_goes_on, common, asking_for, Lent, Shows, TurnLeaves, Leaves};

use block_log::{Refusal, Reply, Shared};
use points::Point;
use points::answers::{goes_on, most_rounds};

// What serving answers, and the shared record that it leaves.
#[derive(Clone, Copy)]
pub struct Served {
    pub reply: Reply,
    pub shared: Shared,
}

// A beginning's answer in numbers, as a step's: kind 0 where it is done, else that of a refused step.
fn begun_numbers(reply: Reply) -> [u32; 2]
    ensures { result ≡ last_numbers (begun reply) }
{
    match reply {
        Ok(()) => [0, 0],
        Err(refusal) => [5, refusal.into()],
    }
}

// Whether the texts are so long together.
// Stays: c_lent has this loop too, against `start_at`; one for both would take a third definition of the sum and a law from it to each, longer than the loop.
fn adds_up(writes: &[[usize; 2]], bytes: usize) -> bool
    ensures { result ≡ eqb (sizes_of writes.now) bytes }
{
    let mut left = bytes;
    for write in writes {
        let size = write[1];
        if left < size {
            return false;
        }
        left -= size;
    }
    left == 0
}

// Whether there are as many writes and answers as points, and all bytes are some write's.
fn lent_for_each(n: usize, answers: usize, writes: &[[usize; 2]], bytes: usize) -> bool
    ensures { result ≡ lent_for_each n answers writes.now bytes }
{
    if answers != n || writes.len() != n {
        return false;
    }
    adds_up(writes, bytes)
}

// Whether a point of this number is listed.
fn is_listed(number: u32, points: &[Point]) -> bool
    ensures { result ≡ list_any (λ p. eqb p.head.number number) points.now }
{
    points.iter().any(|p| p.head.number == number)
}

// Whether a point is listed twice.
fn listed_twice(points: &[Point]) -> bool
    ensures { result ≡ twice (point_numbers points.now) }
{
    for (i, point) in points.iter().enumerate() {
        if is_listed(point.head.number, &points[i + 1..]) {
            return true;
        }
    }
    false
}

// One point's beginning.
fn begin_turn(
    image: &[u64],
    shared: Shared,
    point: &mut Point,
    answer: &mut [u32; 2],
    offset: usize,
    text: &[u8],
) -> Shared
    ensures { TurnLeaves (begin_turn one (common image.now shared) (asking_for point.old offset text.now)) image.now result point.new answer.new }
{
    let begun = points::begin::begin(image, shared, *point, offset, text);
    *point = begun.point;
    *answer = begun_numbers(begun.reply);
    begun.shared
}

// All writes are begun, in list order; their texts stand one after the other.
// Stays: image, shared record, points and answers go as `serve` is lent them; a struct of them would be made in `serve` and taken apart in three functions.
fn begin_all(
    image: &[u64],
    shared: Shared,
    points: &mut [Point],
    answers: &mut [[u32; 2]],
    writes: &[[usize; 2]],
    bytes: &[u8],
) -> Shared
    requires { Lent points.old answers.old writes.now bytes.now }
    ensures { Leaves (in_turn (begin_turn one) (common image.now shared) (asking points.old (requests_of writes.now bytes.now)))
        image.now result points.new answers.new }
{
    let mut left = shared;
    let mut start = 0;
    // Stays: where two lists are zipped by `iter_mut` the prover knows their lengths afterwards and no element, so the answers and writes go by the index.
    for (i, point) in points.iter_mut().enumerate() {
        let end = start + writes[i][1];
        left = begin_turn(
            image,
            left,
            point,
            &mut answers[i],
            writes[i][0],
            &bytes[start..end],
        );
        start = end;
    }
    left
}

// One point's turn in a round: a step if its write goes on.
// Stays: the kind is read back as a number, since what a point answered last stands in the list of numbers that `serve` is lent, and nowhere else.
fn step_turn(image: &mut [u64], shared: Shared, point: &mut Point, answer: &mut [u32; 2]) -> Shared
    ensures { (x : Listed) → x.point ≡ point.old → last_numbers x.last ≡ answer.old
        → TurnLeaves (step_turn one (common image.old shared) x) image.new result point.new answer.new }
{
    if !goes_on(answer[0]) {
        return shared;
    }
    let mut bytes = [0u8; 1024];
    let stepped = points::step::step(image, shared, *point, &mut bytes);
    *point = stepped.point;
    *answer = stepped.step.into();
    stepped.shared
}

// A round: each point has its turn, in list order.
fn round(
    image: &mut [u64],
    shared: Shared,
    points: &mut [Point],
    answers: &mut [[u32; 2]],
) -> Shared
    requires { length answers.old ≡ length points.old }
    ensures { (xs : List Listed) → Shows xs points.old answers.old
        → Leaves (in_turn (step_turn one) (common image.old shared) xs) image.new result points.new answers.new }
{
    let mut left = shared;
    // Stays: as in `begin_all`.
    for (i, point) in points.iter_mut().enumerate() {
        left = step_turn(image, left, point, &mut answers[i]);
    }
    left
}

// Whether somebody's write goes on.
fn anybody(answers: &[[u32; 2]]) -> bool
    ensures { result ≡ list_any (λ a. kind_goes_on (get_or a 0 0)) answers.now }
{
    answers.iter().any(|answer| goes_on(answer[0]))
}

// So many rounds, as long as there is somebody whose write goes on.
fn all_rounds(
    image: &mut [u64],
    shared: Shared,
    points: &mut [Point],
    answers: &mut [[u32; 2]],
    most: u32,
) -> Shared
    requires { length answers.old ≡ length points.old }
    ensures { (xs : List Listed) → Shows xs points.old answers.old
        → Leaves (rounds most (step_turn one) (common image.old shared) xs) image.new result points.new answers.new }
{
    let mut left = shared;
    for _ in 0..most {
        if !anybody(answers) {
            break;
        }
        left = round(image, left, points, answers);
    }
    left
}

// Serves a list of points, each with one write: `writes` are the offsets and sizes, `bytes` the texts one after the other; `answers` gets what each point's
// last beginning or step answered, kind and value.
pub fn serve(
    image: &mut [u64],
    shared: Shared,
    points: &mut [Point],
    answers: &mut [[u32; 2]],
    writes: &[[usize; 2]],
    bytes: &[u8],
) -> Served
    ensures { dispatch_left result.reply image.new result.shared points.new answers.new
        ≡ dispatched image.old shared points.old answers.old writes.now bytes.now }
{
    let n = points.len();
    if n < 1 || 32 < n || !lent_for_each(n, answers.len(), writes, bytes.len()) {
        return Served {
            reply: Err(Refusal::NotOneEach),
            shared,
        };
    }
    if listed_twice(points) {
        return Served {
            reply: Err(Refusal::ListedTwice),
            shared,
        };
    }
    let begun = begin_all(image, shared, points, answers, writes, bytes);
    Served {
        reply: Ok(()),
        shared: all_rounds(image, begun, points, answers, most_rounds(n)),
    }
}
