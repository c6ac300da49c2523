// One block of an archive: 512 bytes that hold one task of a table, with a check of their own. A block is written and read here; which blocks make an archive is for `card`.
#![tactic(auto)]

ghost use Rattle.std.specs.Prelude.{◌≡◌, length, leb};
ghost use Rattle.basics.specs.Text.{put_into};
ghost use Rattle.block.specs.Block.{block_size, block_of, head_in, task_in, good_block};

use table::Task;

mod reading;
mod writing;

// The bytes of a block.
pub const SIZE: usize = 512;

// What a block says besides its task.
#[derive(Clone, Copy)]
pub struct Head {
    pub cpus: u32, // m
    pub n: u32,
    pub number: u32, // the task's
}

// The constant that the definitions read is this one.
fn size()
    ensures { SIZE ≡ block_size }
{}

// The block of a task, at the start of out; or, where there is no room, that there is none. Of a number that does not fit its bytes the last ones are written: `card` hands
// numbers of an accepted table over, which fit.
pub fn put_block(out: &mut [u8], h: Head, x: Task) -> bool
    ensures { (result ≡ leb block_size (length out.old)) × (out.new ≡ put_into (block_of h x) out.old) }
{
    if out.len() < SIZE {
        return false;
    }
    writing::put_all(out, h, &x);
    true
}

// Whether nothing is wrong with a block by itself: its length, check, mark, version and zeros.
#[tactic(auto, unfolding(crate::specs::Block::good_block))]
pub fn is_good(s: &[u8]) -> bool
    ensures { result ≡ good_block s.now }
{
    s.len() == SIZE
        && reading::two(s, 510) == checksum::check_of(&s[..510])
        && reading::is_marked(s)
}

// What a block says besides its task; bytes past its end are read as zeros.
#[tactic(auto, unfolding(crate::specs::Block::head_in))]
pub fn head_of(s: &[u8]) -> Head
    ensures { result ≡ head_in s.now }
{
    Head {
        cpus: u32::from(reading::byte(s, 3)),
        n: u32::from(reading::byte(s, 4)),
        number: u32::from(reading::byte(s, 5)),
    }
}

// The task that a block says; bytes past its end are read as zeros.
pub fn task_of(s: &[u8]) -> Task
    ensures { result ≡ task_in s.now }
{
    reading::task(s)
}
