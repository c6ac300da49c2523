// Reads a listing from standard input and writes the archive of its table; refused, nothing but the refusal, to standard error, so that no half archive can be mistaken for one.
#![tactic(auto)]

use block::SIZE;
use refusal::Source;
use table::Table;

mod bytes;

// The longest archive.
const MAX_ARCHIVE: usize = Table::MAX_TASKS * SIZE;

fn main(rt: HostRuntime) {
    // one byte past the limit, to know that a listing is too long
    let mut space = [0u8; Table::MAX_LISTING + 1];
    let Ok(n) = console::read_input(&mut rt.stdin(), &mut space) else {
        let _ = rt
            .stderr()
            .write_all(b"archive: the input could not be read\n");
        return;
    };
    let mut out = [0u8; MAX_ARCHIVE];
    match bytes::archive(&space[..n], &mut out) {
        Ok(length) => {
            if rt.stdout().write_all(&out[..length]).is_err() {
                let _ = rt
                    .stderr()
                    .write_all(b"archive: the archive could not be written\n");
            }
        }
        Err(r) => console::say_refusal(&rt.stderr(), Source::Listing, r),
    }
}
