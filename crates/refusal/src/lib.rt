// The line that tells a refusal, as the programs for people have it.
#![tactic(auto)]

ghost use Rattle.std.specs.Prelude.{◌≡◌, ◌++◌, ◌≤◌, length, drop};
ghost use Rattle.basics.specs.Text.{put_into};
ghost use Rattle.put.specs.Text.{put_answer};
ghost use Rattle.refusal.specs.Refusal.{refusal_with, refusal_text};

use table::Refusal;

// What was refused: of a listing the place is a line.
#[derive(Clone, Copy)]
pub enum Source {
    Listing,
    Card,
}

// The line at the start of a scratch area, which has room for it.
fn build(line: &mut [u8], word: &[u8], r: Refusal) -> usize
    requires { (64 ≤ length line.old) × (length word.now ≤ 7) }
    ensures { (result ≡ length (refusal_with word.now r)) × (line.new ≡ refusal_with word.now r ++ drop result line.old) }
{
    let fault = r.fault;
    let a = put::put_text(line, b"refused ").unwrap_or(0);
    let b = a + put::put_count(&mut line[a..], fault.number() as u64).unwrap_or(0);
    let c = b + put::put_text(&mut line[b..], word).unwrap_or(0);
    let d = c + put::put_count(&mut line[c..], r.place as u64).unwrap_or(0);
    d + put::put_text(&mut line[d..], b"\n").unwrap_or(0)
}

fn put_with(out: &mut [u8], word: &[u8], r: Refusal) -> Option<usize>
    requires { length word.now ≤ 7 }
    ensures { (result ≡ put_answer (refusal_with word.now r) out.old) × (out.new ≡ put_into (refusal_with word.now r) out.old) }
{
    let mut line = [0u8; 64];
    let n = build(&mut line, word, r);
    put::put_text(out, &line[..n])
}

// The line of a refusal, at the start of out.
pub fn put_refusal(out: &mut [u8], source: Source, r: Refusal) -> Option<usize>
    ensures { (result ≡ put_answer (refusal_text source r) out.old) × (out.new ≡ put_into (refusal_text source r) out.old) }
{
    match source {
        Source::Listing => put_with(out, b" line ", r),
        Source::Card => put_with(out, b" place ", r),
    }
}
