// Numbers, zeros and pairs at places of a block.
ghost use Rattle.std.specs.Prelude.{◌≡◌, ℕ, ◌+◌, ◌≤◌, ◌<◌, length, slice_index};
ghost use Rattle.table.specs.Limits.{max_resources};
ghost use Rattle.block.specs.Numbers.{byte_at, number_at};
ghost use Rattle.block.specs.Block.{block_size, zeros_at, marked_block, pair_in, task_in};

use std::array;
use table::{Pair, Task};

// The byte at a place; 0 past the end.
pub(crate) fn byte(s: &[u8], i: usize) -> u8
    ensures { result ≡ byte_at s.now i }
{
    s.get(i).copied().unwrap_or(0)
}

// The N bytes from a place on. That the sums of such a place fit is all that the clause is for, here and in the two below: a type for it would be no plainer.
fn bytes<const N: usize>(s: &[u8], at: usize) -> [u8; N]
    requires { (at ≤ 510) × (N ≤ 4) }
    ensures { (i : ℕ) → i < N → slice_index result i ≡ byte_at s.now (at + i) }
{
    array::from_fn(|i| byte(s, at + i))
}

// The number in two bytes from a place on.
#[tactic(auto, unfolding(crate::specs::Numbers::number_at))]
pub(crate) fn two(s: &[u8], at: usize) -> u32
    requires { at ≤ 510 }
    ensures { result ≡ number_at s.now at 2 }
{
    u32::from(u16::from_be_bytes(bytes(s, at)))
}

// The number in four bytes from a place on.
#[tactic(auto, unfolding(crate::specs::Numbers::number_at))]
fn four(s: &[u8], at: usize) -> u32
    requires { at ≤ 510 }
    ensures { result ≡ number_at s.now at 4 }
{
    u32::from_be_bytes(bytes(s, at))
}

// The k bytes from a place on are zeros.
fn zeros(s: &[u8], at: usize, k: usize) -> bool
    requires { (at + k ≤ length s.now) × (k ≤ block_size) }
    ensures { result ≡ zeros_at s.now at k }
{
    s[at..at + k].iter().fold(0, |all, b| all | b) == 0
}

// The mark, the version and the zeros.
#[tactic(auto, unfolding(crate::specs::Block::marked_block))]
pub(crate) fn is_marked(s: &[u8]) -> bool
    requires { length s.now ≡ block_size }
    ensures { result ≡ marked_block s.now }
{
    byte(s, 0) == b'T'
        && byte(s, 1) == b'B'
        && byte(s, 2) == 1
        && zeros(s, 6, 2)
        && zeros(s, 180, 330)
}

// The entry of resource k + 1.
#[tactic(auto, unfolding(crate::specs::Block::pair_in))]
fn pair(s: &[u8], k: usize) -> Pair
    requires { k < max_resources }
    ensures { result ≡ pair_in s.now k }
{
    let at = 20 + 10 * k;
    Pair {
        requests: two(s, at),
        longest: four(s, at + 2),
        total: four(s, at + 6),
    }
}

// The times, and the sixteen entries. A block has no alpha.
pub(crate) fn task(s: &[u8]) -> Task
    ensures { result ≡ task_in s.now }
{
    let pairs = array::from_fn(|k| pair(s, k));
    Task {
        period: four(s, 8),
        run: four(s, 12),
        deadline: four(s, 16),
        alpha: 0,
        pairs,
    }
}
