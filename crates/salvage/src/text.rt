// A card's bytes to an archive's, and to what is told of them.
ghost use Rattle.std.specs.Prelude.{◌≡◌, ◌++◌, ◌≤◌, length, drop};
ghost use Rattle.basics.specs.Over.{join_to};
ghost use Rattle.basics.specs.Text.{bytes};
ghost use Rattle.salvaging.specs.Salvage.{max_blocks, salvage_answer, salvaged};
ghost use Rattle.salvage.specs.Telling.{max_card, max_told, code_word, word_line, code_line, told_text, refused_by, wrote_length};

use block::SIZE;
use refusal::Source;
use salvaging::MAX_BLOCKS;
use table::Refusal;

// The longest card.
pub(crate) const CARD: usize = MAX_BLOCKS * SIZE;

// No more is told: for each block a line of at most 19 bytes, and a refusal's line of at most 56.
pub(crate) const TOLD: usize = MAX_BLOCKS * 19 + 56;

// How many bytes of an archive, and of what is told, were written.
#[derive(Clone, Copy)]
pub(crate) struct Made {
    pub(crate) archive: usize,
    pub(crate) told: usize,
}

// What stands behind the position in a block's line, by the code that the list has for it. The list is bytes, as `salvaging` fills it; no fate stands in it to be read back.
fn word(code: u8) -> &'static [u8]
    ensures { result.now ≡ bytes " " ++ (code_word code ++ bytes "\n") }
{
    match code {
        0 => b" bad\n",
        1 => b" doubled\n",
        2 => b" kept\n",
        _ => b" moved\n",
    }
}

// The line of the block at a position.
fn put_line(out: &mut [u8], position: u32, code: u8) -> usize
    requires { 19 ≤ length out.old }
    ensures { (result ≡ length (word_line position (code_word code))) × (out.new ≡ word_line position (code_word code) ++ drop result out.old) }
{
    let at = put::put_count(out, u64::from(position)).unwrap_or(0);
    at + put::put_text(&mut out[at..], word(code)).unwrap_or(0)
}

// A line for each entry of the list.
fn put_lines(out: &mut [u8], list: &[u8]) -> usize
    requires { (max_told ≤ length out.old) × (length list.now ≤ max_blocks) }
    ensures { (result ≡ length (join_to (length list.now) (code_line list.now))) × (out.new ≡ join_to (length list.now) (code_line list.now) ++ drop result out.old) }
{
    let mut at: usize = 0;
    for (i, &code) in list.iter().enumerate() {
        at += put_line(&mut out[at..], i as u32 + 1, code);
    }
    at
}

// The line of the refusal, if there is one.
fn put_refused(out: &mut [u8], w: Result<usize, Refusal>) -> usize
    requires { 56 ≤ length out.old }
    ensures { (result ≡ length (refused_by w)) × (out.new ≡ refused_by w ++ drop result out.old) }
{
    match w {
        Ok(_) => 0,
        Err(r) => refusal::put_refusal(out, Source::Card, r).unwrap_or(0),
    }
}

// The archive that a card's blocks make, at the start of out, and what is told of it, at the start of told.
pub(crate) fn salvage(card: &[u8], out: &mut [u8], told: &mut [u8]) -> Made
    requires { (length out.old ≡ max_card) × (max_told ≤ length told.old) }
    ensures { (result.archive ≡ wrote_length (salvage_answer card.now max_blocks max_card)) × (out.new ≡ salvaged card.now max_blocks out.old) × (result.told ≡ length (told_text card.now)) × (told.new ≡ told_text card.now ++ drop result.told told.old) }
{
    let k = salvaging::blocks_of(card.len());
    let mut list = [0u8; MAX_BLOCKS];
    let answer = salvaging::salvage(card, &mut list, out);
    let at = put_lines(told, &list[..k]);
    Made {
        archive: answer.unwrap_or(0),
        told: at + put_refused(&mut told[at..], answer),
    }
}
