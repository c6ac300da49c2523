// Reads a listing from standard input and prints the bound of each task that is found in five rounds, or the refusal.
#![tactic(auto)]

use table::Table;

mod text;

fn main(rt: HostRuntime) {
    // one byte past the limit, to know that a listing is too long
    let mut space = [0u8; Table::MAX_LISTING + 1];
    let Ok(n) = console::read_input(&mut rt.stdin(), &mut space) else {
        let _ = rt
            .stderr()
            .write_all(b"bench: the input could not be read\n");
        return;
    };
    let mut out = [0u8; page::MAX_PAGE];
    let length = text::report(&space[..n], &mut out);
    if rt.stdout().write_all(&out[..length]).is_err() {
        let _ = rt
            .stderr()
            .write_all(b"bench: the report could not be written\n");
    }
}
