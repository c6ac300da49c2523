// The blocks left, by the codes of all, and whether they are all that an archive needs.
ghost use Rattle.std.specs.Prelude.{◌≡◌, ◌*◌, ◌≤◌, ◌<◌, length, leb, MatchOption};
ghost use Rattle.block.specs.Block.{block_size, head_in};
ghost use Rattle.card.specs.Archive.{block_at};
ghost use Rattle.salvaging.specs.declared.Fate.TheVariants.{Kept};
ghost use Rattle.salvaging.specs.Fates.{code_of};
ghost use Rattle.salvaging.specs.Salvage.{max_blocks, joins};

use crate::{Fate, fates};
use block::Head;
use table::{Fault, Refusal};

// The blocks of an input, and the code of each.
#[derive(Clone, Copy)]
pub(crate) struct Card<'a> {
    pub(crate) input: &'a [u8],
    pub(crate) codes: &'a [u8],
    ghost whole: { (length codes.now ≤ max_blocks) × (block_size * length codes.now ≤ length input.now) },
}

// A block is left where its code is that of one kept or moved.
fn is_left(code: u8) -> bool
    ensures { result ≡ leb (code_of Kept) code }
{
    Fate::Kept.code() <= code
}

// Whether a block agrees with the first one left, and has a number from 1 to n.
#[tactic(auto, unfolding(crate::specs::Salvage::joins))]
fn joins(first: Head, h: Head) -> bool
    ensures { result ≡ joins first h }
{
    h.cpus == first.cpus && h.n == first.n && 1 <= h.number && h.number <= first.n
}

impl Card<'_> {
    ghost use Rattle.table.specs.declared.Fault.TheVariants.{Mismatch};
    ghost use Rattle.table.specs.Faults.{unless};
    ghost use Rattle.salvaging.specs.Salvage.{left_in, first_left, may_join, all_join, left_with, how_many, each_once, is_complete};

    // Block i + 1, one of those that the card has: of an index that is a clause, as for a slice.
    pub(crate) fn block(&self, i: usize) -> &[u8]
        requires { i < length self.now.codes.now }
        ensures { result.now ≡ block_at self.now.input.now i }
    {
        fates::block_at(self.input, i)
    }

    // What it says besides its task.
    fn head_at(&self, i: usize) -> Head
        requires { i < length self.now.codes.now }
        ensures { result ≡ head_in (block_at self.now.input.now i) }
    {
        block::head_of(self.block(i))
    }

    // How many blocks are left.
    pub(crate) fn left(&self) -> usize
        ensures { result ≡ left_in self.now.codes.now }
    {
        self.codes.iter().filter(|x| is_left(**x)).count()
    }

    // The first block left.
    fn first_left(&self) -> Option<usize>
        ensures { MatchOption result (left_in self.now.codes.now ≡ 0) (λ i. (0 < left_in self.now.codes.now) × (i < length self.now.codes.now) × (i ≡ first_left self.now.codes.now)) }
    {
        self.codes.iter().position(|x| is_left(*x))
    }

    // Whether block i + 1 joins the first one, if it is left.
    fn may_join(&self, first: Head, i: usize) -> bool
        requires { i < length self.now.codes.now }
        ensures { result ≡ may_join self.now.input.now self.now.codes.now first i }
    {
        !is_left(self.codes[i]) || joins(first, self.head_at(i))
    }

    // Whether each block left does.
    fn all_join(&self, first: Head) -> bool
        ensures { result ≡ all_join self.now.input.now self.now.codes.now first }
    {
        (0..self.codes.len()).all(|i| self.may_join(first, i))
    }

    // Whether block i + 1 is left and has a number.
    pub(crate) fn has_number(&self, number: u32, i: usize) -> bool
        requires { i < length self.now.codes.now }
        ensures { result ≡ left_with self.now.input.now self.now.codes.now number i }
    {
        is_left(self.codes[i]) && self.head_at(i).number == number
    }

    // How many blocks left have a number.
    fn how_many(&self, number: u32) -> usize
        ensures { result ≡ how_many self.now.input.now self.now.codes.now number }
    {
        (0..self.codes.len())
            .filter(|i| self.has_number(number, *i))
            .count()
    }

    // Whether each number from 1 to n is there once.
    fn each_once(&self, n: u32) -> bool
        ensures { result ≡ each_once self.now.input.now self.now.codes.now n }
    {
        (0..n).all(|p| self.how_many(p + 1) == 1)
    }

    // Whether the blocks left make a complete archive.
    #[tactic(auto, unfolding(crate::specs::Salvage::is_complete))]
    fn is_complete(&self) -> bool
        ensures { result ≡ is_complete self.now.input.now self.now.codes.now }
    {
        let Some(i) = self.first_left() else {
            return false;
        };
        let first = self.head_at(i);
        self.all_join(first) && self.each_once(first.n)
    }

    // 14.
    pub(crate) fn check_complete(&self) -> Result<(), Refusal>
        ensures { result ≡ unless (is_complete self.now.input.now self.now.codes.now) Mismatch 0 }
    {
        if self.is_complete() {
            return Ok(());
        }
        Err(Refusal {
            fault: Fault::Mismatch,
            place: 0,
        })
    }
}
