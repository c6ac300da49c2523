// What the programs for people do at their standard streams. Each has a main of its own: its buffers, its words and what it does with a refusal are its own, and one main for all would take
// them all as arguments.
#![tactic(auto)]

ghost use Rattle.std.specs.Prelude.{◌≤◌, length, IfOk};

use refusal::Source;
use std::io;
use std::io::Read;
use table::Refusal;

// Reads until the input ends or buf is full, and says how many bytes that was. A read that fails is not the end of the input. What a call of the system reads no contract can
// say: only that it is within buf.
pub fn read_input<R: Read>(input: &mut R, buf: &mut [u8]) -> io::Result<usize>
    ensures { IfOk result (λ n. n ≤ length buf.new) }
{
    let mut done: usize = 0;
    // no range or iterator: each turn goes on by what one call read
    while done < buf.len() {
        let more = input.read(&mut buf[done..])?;
        if more == 0 {
            return Ok(done);
        }
        done += more;
    }
    Ok(done)
}

// The line of a refusal, to standard error.
pub fn say_refusal<P: Print>(out: &P, source: Source, r: Refusal) {
    let mut line = [0u8; 64];
    let n = refusal::put_refusal(&mut line, source, r).unwrap_or(0);
    let _ = out.write_all(&line[..n]);
}
