// A card that comes back with blocks spoiled, doubled or in the wrong order: what becomes of each block, and the archive that the good ones make.
#![tactic(auto)]

ghost use Rattle.std.specs.Prelude.{◌≡◌, length};
ghost use Rattle.salvaging.specs.Fates.{code_of};
ghost use Rattle.salvaging.specs.Salvage.{max_blocks, blocks_of, room_fault, salvage_answer, listed, salvaged};

use block::SIZE;
use left::Card;
use table::{Fault, Refusal};

mod fates;
mod left;
mod mending;

// The most blocks that are read.
pub const MAX_BLOCKS: usize = 64;

// What becomes of a block of the input.
#[derive(Clone, Copy)]
pub enum Fate {
    Bad = 0,
    Doubled = 1,
    Kept = 2,
    Moved = 3,
}

impl Fate {
    // The number that the list has for it.
    pub fn code(self) -> u8
        ensures { result ≡ code_of self }
    {
        self as u8
    }
}

// The constant that the definitions read is this one.
fn most()
    ensures { MAX_BLOCKS ≡ max_blocks }
{}

// The blocks of an input of so many bytes; 0 if it is no card, that is, not 1 to 64 whole blocks. A number, as `blocks_of` of the definitions, which callers and `promises` name.
#[tactic(auto, unfolding(crate::specs::Salvage::blocks_of, crate::specs::Salvage::is_card))]
pub fn blocks_of(length: usize) -> usize
    ensures { result ≡ blocks_of length }
{
    let k = length / SIZE;
    if length % SIZE == 0 && k <= MAX_BLOCKS {
        k
    } else {
        0
    }
}

// 15 and 11, of an input of so many bytes, a list of so many entries and an output of so many bytes. The output is to have room for the whole input, though the archive may be smaller.
#[tactic(auto, unfolding(crate::specs::Salvage::is_card, crate::specs::Salvage::blocks_of, crate::specs::Salvage::room_fault, crate::specs::Salvage::has_room))]
fn check_room(length: usize, entries: usize, room: usize) -> Result<(), Refusal>
    ensures { result ≡ room_fault length entries room }
{
    let k = blocks_of(length);
    if k == 0 {
        return Err(Refusal {
            fault: Fault::BadCard,
            place: 0,
        });
    }
    if entries < k || room < length {
        return Err(Refusal {
            fault: Fault::TooShort,
            place: 0,
        });
    }
    Ok(())
}

// The archive that the blocks of an input make, at the start of out, and what became of each block, in list. All is found out before anything that is lent is written: the list is
// written unless 15 or 11 is given, the output only where nothing is refused.
#[tactic(auto, unfolding(crate::specs::Salvage::salvage_fault, crate::specs::Salvage::salvage_answer, crate::specs::Salvage::listed, crate::specs::Salvage::salvaged))]
pub fn salvage(input: &[u8], list: &mut [u8], out: &mut [u8]) -> Result<usize, Refusal>
    ensures { (result ≡ salvage_answer input.now (length list.old) (length out.old)) × (list.new ≡ listed input.now list.old (length out.old)) × (out.new ≡ salvaged input.now (length list.old) out.old) }
{
    check_room(input.len(), list.len(), out.len())?;
    let k = blocks_of(input.len());
    let mut codes = [0u8; MAX_BLOCKS];
    fates::put_codes(&mut codes[..k], input);
    let card = Card {
        input,
        codes: &codes[..k],
    };
    let found = card.find();
    list[..k].copy_from_slice(card.codes);
    let n = found?;
    card.put_in_order(out, n);
    Ok(SIZE * n)
}
