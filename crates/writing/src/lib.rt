// A table to a listing.
#![tactic(auto)]

ghost use Rattle.std.specs.Prelude.{◌≡◌, length};
ghost use Rattle.writing.specs.Write.{write_answer, written};
ghost use Rattle.writing.specs.Longest.{max_text};

use table::{Fault, Refusal, Table};

mod text;

// The `group` lines: 11 bytes each, and a byte more for each of the 7 K of two digits.
const MAX_GROUPS_TEXT: usize = Table::MAX_RESOURCES * 11 + 7;

// The `use` lines of a task: 27 bytes each, a byte more for each of the 7 K of two digits, and two bytes more for each CT above 1,000 ms, of which there are at most 9.
const MAX_USES_TEXT: usize = Table::MAX_RESOURCES * 27 + 7 + 2 * 9;

// The longest text of an accepted table: a line of 8 bytes, the `group` lines, and for each task a line of 32, one of 9 for its alpha, and its `use` lines.
pub const MAX_TEXT: usize = 8 + MAX_GROUPS_TEXT + Table::MAX_TASKS * (32 + 9 + MAX_USES_TEXT);

// The length that is proved to be the longest, specs/Longest.antt, is this constant.
fn longest_text()
    ensures { MAX_TEXT ≡ max_text }
{}

// The text of a table, at the start of out.
pub fn write(t: Table, out: &mut [u8]) -> Result<usize, Refusal>
    ensures { (result ≡ write_answer t (length out.old)) × (out.new ≡ written t out.old) }
{
    checking::check(t)?;
    if out.len() < text::table_len(t) {
        return Err(Refusal {
            fault: Fault::TooShort,
            place: 0,
        });
    }
    Ok(text::put_table(out, t))
}
