// An archive's bytes to a listing's.
ghost use Rattle.std.specs.Prelude.{◌≡◌, ◌≤◌, length};
ghost use Rattle.writing.specs.Longest.{max_text};
ghost use Rattle.unarchive.specs.Unarchiving.{from_card, with_listing};

use table::Refusal;

// The listing of an archive's table, at the start of out.
pub(crate) fn unarchive(archive: &[u8], out: &mut [u8]) -> Result<usize, Refusal>
    requires { max_text ≤ length out.old }
    ensures { (result ≡ from_card archive.now) × (out.new ≡ with_listing archive.now out.old) }
{
    let t = card::read(archive)?;
    writing::write(t, out)
}
