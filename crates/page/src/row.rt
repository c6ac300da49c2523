// A row, field by field. Each writer here has the room for what it writes.
ghost use Rattle.std.specs.Prelude.{◌≡◌, ◌∷◌, ◌++◌, ◌+◌, ◌≤◌, ◌<◌, length, take, drop};
ghost use Rattle.page.specs.Report.{bound_text, max_row};
ghost use Rattle.page.specs.Pages.{word_text, spaced_last, row_of};

use crate::{Cells, Last, Word};
use analysis::Record;

// A space and a field, at a place of out. This and the next three answer the place behind what they put.
fn spaced(out: &mut [u8], at: usize, s: &[u8]) -> usize
    requires { at + length s.now < length out.old }
    ensures { (result ≡ at + length (32 ∷ s.now)) × (out.new ≡ take at out.old ++ ((32 ∷ s.now) ++ drop result out.old)) }
{
    out[at] = 32;
    let rest = at + 1;
    rest + put::put_text(&mut out[rest..], s).unwrap_or(0)
}

// A space and a word.
fn spaced_word(out: &mut [u8], at: usize, word: Word) -> usize
    requires { at + length (word_text word) < length out.old }
    ensures { (result ≡ at + length (32 ∷ word_text word)) × (out.new ≡ take at out.old ++ ((32 ∷ word_text word) ++ drop result out.old)) }
{
    match word {
        Word::Meets => spaced(out, at, b"meets"),
        Word::Misses => spaced(out, at, b"misses"),
        Word::Open => spaced(out, at, b"open"),
    }
}

// A space and a bound, of at most ten digits.
fn spaced_bound(out: &mut [u8], at: usize, bound: Option<u32>) -> usize
    requires { at + 11 ≤ length out.old }
    ensures value { (result ≡ at + length (32 ∷ bound_text bound)) × (out.new ≡ take at out.old ++ ((32 ∷ bound_text bound) ++ drop result out.old)) }
    ensures upper_bound { result ≤ at + 11 }
{
    match bound {
        Some(t) => at + put::spaced_count(out, at, t as u64).unwrap_or(0),
        None => spaced(out, at, b"-"),
    }
}

// A space and a wait of at most twenty digits, or nothing where there is no such column.
fn spaced_last(out: &mut [u8], at: usize, last: Last) -> usize
    requires { at + 21 ≤ length out.old }
    ensures value { (result ≡ at + length (spaced_last last)) × (out.new ≡ take at out.old ++ (spaced_last last ++ drop result out.old)) }
    ensures upper_bound { result ≤ at + 21 }
{
    match last {
        Last::Nothing => at,
        Last::Dash => spaced(out, at, b"-"),
        Last::Of(wait) => at + put::spaced_count(out, at, wait).unwrap_or(0),
    }
}

// The row of a record, with its cells and what stands behind its rounds.
pub(crate) fn put_row(out: &mut [u8], x: Record, cells: Cells, last: Last) -> usize
    requires { max_row ≤ length out.old }
    ensures value { (result ≡ length (row_of x cells last)) × (out.new ≡ row_of x cells last ++ drop result out.old) }
    ensures upper_bound { result ≤ max_row }
{
    let a = put::put_count(out, x.task.0 as u64).unwrap_or(0);
    let b = spaced_word(out, a, cells.0);
    let c = spaced_bound(out, b, cells.1);
    let d = c + put::spaced_count(out, c, x.rounds as u64).unwrap_or(0);
    let e = spaced_last(out, d, last);
    out[e] = 10;
    e + 1
}
