// What becomes of each block, as the list has it.
ghost use Rattle.std.specs.Prelude.{◌≡◌, ◌+◌, ◌*◌, ◌≤◌, ◌<◌, true, length};
ghost use Rattle.basics.specs.Over.{row_to};
ghost use Rattle.block.specs.Block.{block_size};
ghost use Rattle.card.specs.Archive.{block_at};
ghost use Rattle.salvaging.specs.Fates.{good_at, same_bytes, is_doubled, fate_at, code_at};
ghost use Rattle.salvaging.specs.Salvage.{max_blocks};

use crate::Fate;
use block::SIZE;

// Block i + 1. That it lies in the input stays a clause of the three functions here: `Card`, whose invariant says it of every block, is made of the codes that these make.
pub(crate) fn block_at(input: &[u8], i: usize) -> &[u8]
    requires { (i < max_blocks) × (block_size * i + block_size ≤ length input.now) }
    ensures { result.now ≡ block_at input.now i }
{
    &input[SIZE * i..SIZE * i + SIZE]
}

// Equal byte for byte.
fn same(a: &[u8], b: &[u8]) -> bool
    ensures { result ≡ same_bytes a.now b.now }
{
    a == b
}

// Whether a block has the bytes of one before it. Of a good block that one is good too, so nothing else is asked of it.
fn is_doubled(input: &[u8], i: usize) -> bool
    requires { (i < max_blocks) × (block_size * i + block_size ≤ length input.now) }
    ensures { good_at input.now i ≡ true → result ≡ is_doubled input.now i }
{
    (0..i).any(|j| same(block_at(input, j), block_at(input, i)))
}

// What becomes of block i + 1, at a position counted from 1.
#[tactic(auto, unfolding(crate::specs::Fates::fate_at))]
fn fate_of(input: &[u8], i: usize, position: u32) -> Fate
    requires { (i < max_blocks) × (block_size * i + block_size ≤ length input.now) × (position ≡ i + 1) }
    ensures { result ≡ fate_at input.now i }
{
    let block = block_at(input, i);
    if !block::is_good(block) {
        Fate::Bad
    } else if is_doubled(input, i) {
        Fate::Doubled
    } else if block::head_of(block).number == position {
        Fate::Kept
    } else {
        Fate::Moved
    }
}

// The code of each block: the list that a caller lends is bytes, and `listed` of the definitions says which.
pub(crate) fn put_codes(codes: &mut [u8], input: &[u8])
    requires { (length codes.old ≤ max_blocks) × (block_size * length codes.old ≤ length input.now) }
    ensures { codes.new ≡ row_to (length codes.old) (code_at input.now) }
{
    for (i, code) in codes.iter_mut().enumerate() {
        *code = fate_of(input, i, i as u32 + 1).code();
    }
}
