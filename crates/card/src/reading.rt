// The rules of an archive, in their order, and the table that it says.
ghost use Rattle.std.specs.Prelude.{◌≡◌, ◌≤◌, IsTrue, length};
ghost use Rattle.table.specs.Limits.{max_tasks};
ghost use Rattle.block.specs.Block.{block_size};
ghost use Rattle.card.specs.Archive.{is_length, agrees, block_fault, blocks_fault, table_in};

use block::{Head, SIZE};
use table::{Fault, Refusal, Table};

// 12: from one block to as many as a table has tasks, and nothing besides.
#[tactic(auto, unfolding(crate::specs::Archive::is_length))]
pub(crate) fn is_length(length: usize) -> bool
    ensures { result ≡ is_length length }
{
    let n = length / SIZE;
    length % SIZE == 0 && 1 <= n && n <= Table::MAX_TASKS
}

// 14, of a block by what it says, among n blocks of which the first says this.
#[tactic(auto, unfolding(crate::specs::Archive::agrees))]
fn agrees(first: Head, n: u32, position: u32, h: Head) -> bool
    ensures { result ≡ agrees first n position h }
{
    h.cpus == first.cpus && h.n == first.n && h.n == n && h.number == position
}

// 13, then 14, of the block at a position, counted from 1.
#[tactic(auto, unfolding(crate::specs::Archive::block_fault))]
fn check_block(first: Head, n: u32, position: u32, s: &[u8]) -> Result<(), Refusal>
    ensures { result ≡ block_fault first n position s.now }
{
    if !block::is_good(s) {
        return Err(Refusal {
            fault: Fault::BadBlock,
            place: position,
        });
    }
    if !agrees(first, n, position, block::head_of(s)) {
        return Err(Refusal {
            fault: Fault::Mismatch,
            place: position,
        });
    }
    Ok(())
}

// Block by block.
pub(crate) fn check_blocks(a: &[u8]) -> Result<(), Refusal>
    requires { IsTrue (is_length (length a.now)) }
    ensures { result ≡ blocks_fault a.now }
{
    let first = block::head_of(&a[..SIZE]);
    let n = (a.len() / SIZE) as u32;
    for (i, s) in a.chunks_exact(SIZE).enumerate() {
        check_block(first, n, i as u32 + 1, s)?;
    }
    Ok(())
}

// The processors that block 1 says, and the task of each block.
pub(crate) fn table_of(a: &[u8]) -> Table
    requires { IsTrue (is_length (length a.now)) }
    ensures { result ≡ table_in a.now }
{
    let first = block::head_of(&a[..SIZE]);
    let mut t = Table {
        cpus: first.cpus,
        n: a.len() / SIZE,
        ..Table::empty()
    };
    // by an index: of tasks that `iter_mut().zip(..)` lends, a proof learns nothing of the whole
    for (i, s) in a.chunks_exact(SIZE).enumerate() {
        t.tasks[i] = block::task_of(s);
    }
    t
}
