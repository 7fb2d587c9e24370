// Blocks that become free: what a write holds, the blocks that it replaces, a log block that was zeroed.
ghost use Rattle.std.specs.Prelude.{◌≡◌, false, [], ◌∷◌, ◌+◌, ◌≤◌, take, drop};
ghost use Rattle.words.specs.Edition.{one};
ghost use Rattle.words.specs.BlockMap.{set_all};
ghost use Rattle.points.specs.declared.plan.Frees.TheVariants.{Replaced};
ghost use Rattle.points.specs.Plan.{without_run, without_held, replaced, freed};
ghost use Rattle.points.specs.Lent.{InTable};

use crate::Write;
use crate::plan::Frees;

// A block that was mapped becomes free; 0 stands for none.
fn free_mapped(map: &mut [u64], b: u16)
    ensures { map.new ≡ set_all false map.old (b ∷ []) }
{
    if b != 0 {
        words::map::set_block(map, b as usize, false);
    }
}

// The blocks mapped at n virtual blocks from v on become free.
fn free_mapped_from(map: &mut [u64], table: &[u16; 256], v: usize, n: usize)
    requires { v + n ≤ 256 }
    ensures { map.new ≡ set_all false map.old (take n (drop v table.now)) }
{
    for b in &table[v..v + n] {
        free_mapped(map, *b);
    }
}

// The blocks that the write replaces become free.
pub(crate) fn free_replaced(map: &mut [u64], table: &[u16; 256], write: Write)
    requires { InTable Replaced one write }
    ensures { map.new ≡ set_all false map.old (replaced one write table.now) }
{
    let n = crate::record::span(write.offset, write.size);
    let v = crate::record::run_first(write);
    free_mapped_from(map, table, v as usize, n as usize);
}

// The run of the write becomes free.
fn free_run(map: &mut [u64], write: Write)
    ensures { map.new ≡ without_run one map.old write }
{
    words::map::set_run(
        map,
        write.run as usize,
        crate::record::span(write.offset, write.size) as usize,
        false,
    );
}

// What a write holds becomes free: its run, and the log block being zeroed. A read holds nothing.
pub(crate) fn free_held(map: &mut [u64], write: Write)
    ensures { map.new ≡ without_held one map.old write }
{
    let phase = write.phase;
    if !phase.is_writing() {
        return;
    }
    free_run(map, write);
    if phase.is_zeroing() {
        words::map::set_block(map, write.zeroing as usize, false);
    }
}

// The map is left as the plan says: what it frees becomes free.
pub(crate) fn release(taken: &mut [u64; 16], frees: Frees, write: Write, table: &[u16; 256])
    requires { InTable frees one write }
    ensures { taken.new ≡ freed frees one taken.old write table.now }
{
    match frees {
        Frees::NoBlock => {}
        Frees::Held => free_held(taken, write),
        Frees::Replaced => free_replaced(taken, table, write),
        Frees::Zeroed => words::map::set_block(taken, write.zeroing as usize, false),
    }
}
