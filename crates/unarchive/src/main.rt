// Reads an archive from standard input and writes the listing of its table; refused, nothing but the refusal, to standard error, so that no half listing can be mistaken for one.
#![tactic(auto)]

use block::SIZE;
use refusal::Source;
use table::Table;

mod bytes;

// The longest archive.
const MAX_ARCHIVE: usize = Table::MAX_TASKS * SIZE;

fn main(rt: HostRuntime) {
    // one byte past it, to know that an archive is too long
    let mut space = [0u8; MAX_ARCHIVE + 1];
    let Ok(n) = console::read_input(&mut rt.stdin(), &mut space) else {
        let _ = rt
            .stderr()
            .write_all(b"unarchive: the input could not be read\n");
        return;
    };
    let mut out = [0u8; writing::MAX_TEXT];
    match bytes::unarchive(&space[..n], &mut out) {
        Ok(length) => {
            if rt.stdout().write_all(&out[..length]).is_err() {
                let _ = rt
                    .stderr()
                    .write_all(b"unarchive: the listing could not be written\n");
            }
        }
        Err(r) => console::say_refusal(&rt.stderr(), Source::Card, r),
    }
}
