// A listing's bytes to an archive's.
ghost use Rattle.std.specs.Prelude.{◌≡◌, ◌≤◌, length};
ghost use Rattle.archive.specs.Archiving.{max_archive, from_listing, with_archive};

use table::Refusal;

// The archive of a listing's table, at the start of out.
pub(crate) fn archive(listing: &[u8], out: &mut [u8]) -> Result<usize, Refusal>
    requires { max_archive ≤ length out.old }
    ensures { (result ≡ from_listing listing.now) × (out.new ≡ with_archive listing.now out.old) }
{
    let t = listing::read(listing)?;
    card::write(t, out)
}
