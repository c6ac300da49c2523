// The fields of a block, each at the start of an output that has the room.
ghost use Rattle.std.specs.Prelude.{◌≡◌, ◌++◌, ◌≤◌, ◌%◌, length, drop, replicate};
ghost use Rattle.block.specs.Numbers.{in_bytes};
ghost use Rattle.block.specs.Block.{block_size, head_bytes, times_bytes, entry_bytes, entries_bytes, body_of, block_of};

use crate::Head;
use table::{Pair, Table, Task};

// A number in two bytes, the higher first; what does not fit is left out.
#[tactic(auto, unfolding(crate::specs::Numbers::in_bytes))]
fn put_two(out: &mut [u8], x: u32)
    requires { 2 ≤ length out.old }
    ensures { out.new ≡ in_bytes 2 x ++ drop 2 out.old }
{
    let fits = (x % 0x1_0000) as u16;
    out[..2].copy_from_slice(&fits.to_be_bytes());
}

// A number in four bytes, the highest first.
#[tactic(auto, unfolding(crate::specs::Numbers::in_bytes))]
fn put_four(out: &mut [u8], x: u32)
    requires { 4 ≤ length out.old }
    ensures { out.new ≡ in_bytes 4 x ++ drop 4 out.old }
{
    out[..4].copy_from_slice(&x.to_be_bytes());
}

// k zeros.
fn put_zeros(out: &mut [u8], k: usize)
    requires { k ≤ length out.old }
    ensures { out.new ≡ replicate k 0 ++ drop k out.old }
{
    out[..k].fill(0);
}

// The lowest byte of a number.
fn low(x: u32) -> u8
    ensures { result ≡ x % 256 }
{
    (x % 256) as u8
}

// The mark, the version, what the block says besides its task, and two zeros.
#[tactic(auto, unfolding(crate::specs::Numbers::in_bytes, crate::specs::Block::head_bytes))]
fn put_head(out: &mut [u8], h: Head)
    requires { 8 ≤ length out.old }
    ensures { out.new ≡ head_bytes h ++ drop 8 out.old }
{
    let bytes = [b'T', b'B', 1, low(h.cpus), low(h.n), low(h.number), 0, 0];
    out[..8].copy_from_slice(&bytes);
}

// T, C and D.
fn put_times(out: &mut [u8], x: &Task)
    requires { 12 ≤ length out.old }
    ensures { out.new ≡ times_bytes x.now ++ drop 12 out.old }
{
    put_four(out, x.period);
    put_four(&mut out[4..], x.run);
    put_four(&mut out[8..], x.deadline);
}

// N, c and CT of a pair.
fn put_entry(out: &mut [u8], p: Pair)
    requires { 10 ≤ length out.old }
    ensures { out.new ≡ entry_bytes p ++ drop 10 out.old }
{
    put_two(out, p.requests);
    put_four(&mut out[2..], p.longest);
    put_four(&mut out[6..], p.total);
}

// The entries of the sixteen resources.
fn put_entries(out: &mut [u8], x: &Task)
    requires { 160 ≤ length out.old }
    ensures { out.new ≡ entries_bytes x.now ++ drop 160 out.old }
{
    // by an index: of parts that `chunks_exact_mut` lends, a proof learns nothing of the whole
    for k in 0..Table::MAX_RESOURCES {
        put_entry(&mut out[10 * k..], x.pairs[k]);
    }
}

// All that the check is over.
fn put_body(out: &mut [u8], h: Head, x: &Task)
    requires { 510 ≤ length out.old }
    ensures { out.new ≡ body_of h x.now ++ drop 510 out.old }
{
    put_head(out, h);
    put_times(&mut out[8..], x);
    put_entries(&mut out[20..], x);
    put_zeros(&mut out[180..], 330);
}

// The body, and its check.
pub(crate) fn put_all(out: &mut [u8], h: Head, x: &Task)
    requires { block_size ≤ length out.old }
    ensures { out.new ≡ block_of h x.now ++ drop block_size out.old }
{
    put_body(out, h, x);
    let check = checksum::check_of(&out[..510]);
    put_two(&mut out[510..], check);
}
