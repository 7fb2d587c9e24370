// The serving call for C, behind `store_serve` of include/store.h. It is a library of its own, so that beside it the other calls are compiled as without it.
// Both parts of the shared record are lent by themselves, as the header hands them on: so the borrow checker covers it.
#![tactic(auto)]

ghost use Rattle.std.specs.Prelude.{◌≡◌};
ghost use Rattle.c_lent.specs.Numbers.{shared_lent};
ghost use Rattle.c_lent.specs.Serving.{common_lent, serve_left, serve_for};

#[unsafe(no_mangle)]
pub extern "C" fn store_serve_parts(
    image: &mut [u64],
    shared: &mut [u32; 35],
    taken: &mut [u64; 16],
    heads: &mut [[u32; 11]],
    tables: &mut [[u16; 256]],
    texts: &mut [[u8; 1024]],
    answers: &mut [[u32; 2]],
    writes: &[[usize; 2]],
    bytes: &[u8],
) -> u32
    ensures { serve_left result (common_lent image.new (shared_lent shared.new taken.new))
        heads.new tables.new texts.new answers.new
        ≡ serve_for (common_lent image.old (shared_lent shared.old taken.old))
        heads.old tables.old texts.old answers.old writes.now bytes.now }
{
    c_lent::serve::serve(
        image, shared, taken, heads, tables, texts, answers, writes, bytes,
    )
}
