// The waits of all tasks, from the lowest up. The longest requests of the tasks gone through so far are kept, the longest first: as many as a sum can have, and one for
// each of those tasks, which may be of the resource that the sum leaves out.
ghost use Rattle.std.specs.Prelude.{◌≡◌, ◌∷◌, [], ◌*◌, ◌/◌, ◌%◌, ◌^◌, ◌≤◌, ◌<◌, eqb, take};
ghost use Rattle.table.specs.Limits.{max_resources, max_time};
ghost use Rattle.theory.specs.Groups.{max_requests, InBounds};
ghost use Rattle.waits.specs.Kept.{max_kept, key_slots, key_of, keys_of, InLimits, KeptRow, row_prop, KeptWith, sum_others, max_others, wait_for, wait_with, waits_by};

use table::{Table, Task};

// The numbers kept: 64 that are summed, and one for each of 31 lower tasks.
const KEPT: usize = Table::MAX_ALPHA as usize + Table::MAX_TASKS - 1;

// How many resources a number tells apart.
const SLOTS: u32 = Table::MAX_RESOURCES as u32;

// The constants that the definitions read are these.
fn sizes()
    ensures kept { KEPT ≡ max_kept }
    ensures slots { SLOTS ≡ key_slots }
{}

// A request is kept as one number, its c times 16 and its resource's slot, resource k at k - 1. With a struct of the two and its derived order the pass takes 1.4 times the
// instructions at least.
fn key_of(longest: u32, slot: usize) -> u32
    requires { (longest ≤ max_time) × (slot < max_resources) }
    ensures { result ≡ key_of longest slot }
{
    longest * SLOTS + slot as u32
}

// What is kept: the first n of the row, the longest first. The memory is fixed.
#[derive(Drop)]
struct Kept {
    of: [u32; KEPT],
    n: usize,
    ghost row: { KeptRow of n } by { row_prop of n },
}

impl Kept {
    fn new() -> Self
        ensures { result.n ≡ 0 }
    {
        Kept {
            of: [0; KEPT],
            n: 0,
        }
    }

    // A number put in its place; where all places are taken the smallest goes.
    fn keep(&mut self, x: u32)
        ensures { KeptWith (x ∷ []) self.old.of self.old.n self.new.n self.new.of }
    {
        if self.n == KEPT && x <= self.of[KEPT - 1] {
            return;
        }
        let mut y = x;
        for i in 0..self.n {
            let z = self.of[i];
            self.of[i] = y.max(z);
            y = y.min(z);
        }
        if self.n < KEPT {
            self.of[self.n] = y;
            self.n += 1;
        }
    }

    // The requests of a task for the resources that it uses.
    fn keep_task(&mut self, x: &Task)
        requires { InLimits x.now }
        ensures { KeptWith (keys_of x.now) self.old.of self.old.n self.new.n self.new.of }
    {
        for k in (0..Table::MAX_RESOURCES).rev() {
            let p = x.pairs[k];
            if 0 < p.requests {
                self.keep(key_of(p.longest, k));
            }
        }
    }

    // The sum of the first so many that are of another resource than the one at slot k: for each that is of it, one more is looked at.
    // With a chain of `filter`, `take` and `sum` the whole pass takes 1.3 times the instructions, and with a `for` over a range that is left by `break` 1.13 times.
    fn sum_others(&self, alpha: u32, k: usize) -> u64
        ensures { (result ≡ sum_others (take self.now.n self.now.of) alpha k) × (result ≤ max_others) }
    {
        let mut sum: u64 = 0;
        let mut end = self.n.min(alpha as usize);
        let mut i = 0;
        while i < end {
            let z = self.of[i];
            i += 1;
            if (z % SLOTS) as usize != k {
                sum += u64::from(z / SLOTS);
            } else if end < self.n {
                end += 1;
            }
        }
        sum
    }

    // What a task waits for the resource at slot k, of which it has so many requests.
    fn wait_for(&self, alpha: u32, requests: u32, k: usize) -> u64
        requires { requests ≤ max_requests }
        ensures { (result ≡ wait_for (take self.now.n self.now.of) alpha requests k) × (result ≤ max_requests * max_others) }
    {
        if requests == 0 {
            0
        } else {
            u64::from(requests) * self.sum_others(alpha, k)
        }
    }

    // What a task waits for all that it uses.
    #[tactic(auto, using(basics::proofs::SumLaws::sum_none, basics::proofs::SumLaws::sum_more))]
    fn wait_of(&self, x: &Task) -> u64
        requires { InLimits x.now }
        ensures { result ≡ wait_with (take self.now.n self.now.of) x.now.alpha x.now }
    {
        let mut sum: u64 = 0;
        for (k, p) in x.pairs.iter().enumerate() {
            sum += self.wait_for(x.alpha, p.requests, k);
        }
        sum
    }
}

// The waits of the tasks by the merged pairs of an accepted table, each with its alpha, and 0 past them.
pub(crate) fn waits_of(m: Table) -> [u64; Table::MAX_TASKS]
    requires { InBounds m }
    ensures { result ≡ waits_by m }
{
    let mut waits = [0u64; Table::MAX_TASKS];
    let mut kept = Kept::new();
    for i in (0..m.n).rev() {
        let x = &m.tasks[i];
        waits[i] = kept.wait_of(x);
        kept.keep_task(x);
    }
    waits
}
