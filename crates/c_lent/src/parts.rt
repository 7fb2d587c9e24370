// Beginning a write and stepping, with each record lent in parts: `shared` is blocks, joined points, chain length and the 32 reports, `taken` the map; `head`
// the eleven numbers of a point's record, beside `table` and `text`.
// Stays: `store_serve_parts` hands the serving call lists of these parts (include/store.h), so no `&mut PointRecord` is to be had there without a copy.
ghost use Rattle.std.specs.Prelude.{◌≡◌};
ghost use Rattle.c_lent.specs.Numbers.{shared_lent, point_lent};
ghost use Rattle.c_lent.specs.Calls.{left, step_left, begin_for, step_for};

use crate::{Answer, numbers};
use points::StepAnswer;

pub(crate) fn begin(
    image: &[u64],
    shared: &mut [u32; 35],
    taken: &mut [u64; 16],
    head: &mut [u32; 11],
    table: &mut [u16; 256],
    text: &mut [u8; 1024],
    offset: usize,
    bytes: &[u8],
) -> u32
    ensures { left result (shared_lent shared.new taken.new) (point_lent head.new table.new text.new) ≡ begin_for image.now
        (shared_lent shared.old taken.old) (point_lent head.old table.old text.old) offset bytes.now }
{
    if !numbers::is_known(head) {
        return numbers::unknown(image, shared).into();
    }
    let begun = points::begin::begin_lent(
        image,
        numbers::lead(shared),
        taken,
        numbers::head(head),
        table,
        text,
        offset,
        bytes,
    );
    let reply = begun.reply;
    let left = begun.head;
    numbers::put_begun(shared, reply, left);
    *head = numbers::of_head(left);
    numbers::of_reply(reply)
}

pub(crate) fn step(
    image: &mut [u64],
    shared: &mut [u32; 35],
    taken: &mut [u64; 16],
    head: &mut [u32; 11],
    table: &mut [u16; 256],
    text: &mut [u8; 1024],
    bytes: &mut [u8; 1024],
) -> Answer
    ensures { step_left result image.new (shared_lent shared.new taken.new) (point_lent head.new table.new text.new)
        bytes.new ≡ step_for image.old (shared_lent shared.old taken.old) (point_lent head.old table.old text.old)
        bytes.old }
{
    if !numbers::is_known(head) {
        return Answer::from(StepAnswer::Refused(numbers::unknown(image, shared)));
    }
    let lead = numbers::lead(shared);
    let stepped = points::step::step_lent(
        image,
        lead,
        taken,
        numbers::head(head),
        table,
        text,
        bytes,
    );
    let step = stepped.step;
    let left = stepped.head;
    let reports = stepped.reports;
    numbers::put_reported(shared, reports, left);
    *head = numbers::of_head(left);
    let mut answer = Answer::from(step);
    answer.word = stepped.word;
    answer
}
