// A table to an archive, and an archive to a table: blocks 1 to n, one a task. A block itself is written and read in `block`.
#![tactic(auto)]

ghost use Rattle.std.specs.Prelude.{◌≡◌, length};
ghost use Rattle.card.specs.Archive.{archiving_answer, archiving, read_archive};

use block::SIZE;
use table::{Fault, Refusal, Table};

mod reading;
mod writing;

// The archive of a table, at the start of out, and how many bytes it has.
#[tactic(auto, unfolding(crate::specs::Archive::archiving_fault, crate::specs::Archive::archiving_answer, crate::specs::Archive::archiving))]
pub fn write(t: Table, out: &mut [u8]) -> Result<usize, Refusal>
    ensures { (result ≡ archiving_answer t (length out.old)) × (out.new ≡ archiving t out.old) }
{
    checking::check(t)?;
    if rules::has_group(t.groups) {
        return Err(Refusal {
            fault: Fault::HasGroup,
            place: 0,
        });
    }
    let needed = SIZE * t.n;
    if out.len() < needed {
        return Err(Refusal {
            fault: Fault::TooShort,
            place: 0,
        });
    }
    writing::put_blocks(out, &t);
    Ok(needed)
}

// The table that an archive says, or its first refusal.
#[tactic(auto, unfolding(crate::specs::Archive::archive_fault, crate::specs::Archive::read_archive))]
pub fn read(archive: &[u8]) -> Result<Table, Refusal>
    ensures { result ≡ read_archive archive.now }
{
    if !reading::is_length(archive.len()) {
        return Err(Refusal {
            fault: Fault::BadLength,
            place: 0,
        });
    }
    reading::check_blocks(archive)?;
    let table = reading::table_of(archive);
    checking::check(table)?;
    Ok(table)
}
