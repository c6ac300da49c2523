// Reads a card from standard input and writes the archive that its blocks make; what became of each block, and a refusal, go to standard error.
#![tactic(auto)]

mod text;

fn main(rt: HostRuntime) {
    // one byte past the limit, to know that a card is too long
    let mut space = [0u8; text::CARD + 1];
    let Ok(n) = console::read_input(&mut rt.stdin(), &mut space) else {
        let _ = rt
            .stderr()
            .write_all(b"salvage: the input could not be read\n");
        return;
    };
    let mut out = [0u8; text::CARD];
    let mut told = [0u8; text::TOLD];
    let made = text::salvage(&space[..n], &mut out, &mut told);
    let _ = rt.stderr().write_all(&told[..made.told]);
    if rt.stdout().write_all(&out[..made.archive]).is_err() {
        let _ = rt
            .stderr()
            .write_all(b"salvage: the archive could not be written\n");
    }
}
