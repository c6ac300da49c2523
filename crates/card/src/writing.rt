// The blocks of a table, in the order of their tasks.
ghost use Rattle.std.specs.Prelude.{◌≡◌, ◌++◌, ◌*◌, ◌≤◌, length, drop};
ghost use Rattle.table.specs.Limits.{max_tasks};
ghost use Rattle.block.specs.Block.{block_size};
ghost use Rattle.card.specs.Archive.{archive_of};

use block::{Head, SIZE};
use table::Table;

// Each block at its place. There is room for all of them: `write` has looked.
pub(crate) fn put_blocks(out: &mut [u8], t: &Table)
    requires { (t.now.n ≤ max_tasks) × (block_size * t.now.n ≤ length out.old) }
    ensures { out.new ≡ archive_of t.now ++ drop (block_size * t.now.n) out.old }
{
    // by an index: of parts that `chunks_exact_mut` lends, a proof learns nothing of the whole
    for i in 0..t.n {
        let h = Head {
            cpus: t.cpus,
            n: t.n as u32,
            number: i as u32 + 1,
        };
        block::put_block(&mut out[SIZE * i..], h, t.tasks[i]);
    }
}
