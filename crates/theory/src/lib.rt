// No functions: the analysis as mathematics stands in specs/, and its laws in proofs/.
#![tactic(auto)]

// The verdict on a task: its bound in microseconds; that no bound up to its deadline was found; or that the rounds allowed ran out before either was known.
#[derive(Clone, Copy)]
pub enum Verdict {
    Meets(u32),
    Misses,
    Open,
}

// A verdict, and how many rounds it took.
#[derive(Clone, Copy)]
pub struct Counted {
    pub verdict: Verdict,
    pub rounds: u32,
}
