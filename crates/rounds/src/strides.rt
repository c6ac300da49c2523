// Strides: rounds that climb alike, taken at once. A workload goes straight on at least until a job begins or ends, or it is no longer held at t. Where the demand rises by one
// with each microsecond, each round climbs as far as the one before it.
ghost use Rattle.std.specs.Prelude.{◌≡◌, ◌+◌, ◌*◌, ◌≤◌, min};
ghost use Rattle.table.specs.Limits.{max_time, max_tasks, max_cpus};
ghost use Rattle.rounds.specs.Parts.{part_load, loads};
ghost use Rattle.rounds.specs.Strides.{Straight, CourseIs, GoneIs, StrideIs, rows_demand};

use crate::{Divided, Part, Parts, Wholes};
use table::Table;

// How a workload, or a sum of them, goes on from a length: with each microsecond it rises by so much, this far at least.
#[derive(Clone, Copy)]
struct Course {
    rises: u64,
    reach: u32,
}

impl Course {
    // A sum and one workload more.
    fn and(self, one: Course) -> Course
        requires { (self.rises ≤ 2 * max_tasks) × (one.rises ≤ 1) }
        ensures { (result.rises ≡ self.rises + one.rises) × (result.reach ≡ min self.reach one.reach) }
    {
        Course {
            rises: self.rises + one.rises,
            reach: self.reach.min(one.reach),
        }
    }
}

impl Part {
    // How long ago the period began in which t + off lies.
    fn gone(&self, t: u32) -> u32
        requires { t ≤ max_time }
        ensures { GoneIs self.now t result }
    {
        let a = t + self.off;
        a - self.quot(a) * self.period
    }

    // The workload of a part rises while a job runs, and while the cap holds it at t; else it stays as it is until the next job begins. Where the units fill the period a job
    // always runs.
    fn course(&self, t: u32) -> Course
        requires { t ≤ max_time }
        ensures { CourseIs (part_load self.now) 1 t result }
    {
        if self.units == self.period {
            return Course {
                rises: 1,
                reach: Table::MAX_TIME,
            };
        }
        let since = self.gone(t);
        if since < self.units {
            return Course {
                rises: 1,
                reach: self.units - since,
            };
        }
        let load = self.uncapped(t);
        if t < load {
            return Course {
                rises: 1,
                reach: load - t,
            };
        }
        Course {
            rises: 0,
            reach: self.period - since,
        }
    }
}

impl<const N: usize> Parts<N> {
    // How the sum of the workloads goes on.
    fn course(&self, t: u32) -> Course
        requires { t ≤ max_time }
        ensures { CourseIs (loads self.now.of self.now.n) N t result }
    {
        let mut sum = Course {
            rises: 0,
            reach: Table::MAX_TIME,
        };
        for part in &self.of[..self.n] {
            sum = sum.and(part.course(t));
        }
        sum
    }
}

// How far from t on the demand surely rises by one with each microsecond: it does while one workload that counts whole rises and none that is divided, or as many of the
// divided as there are processors and none that counts whole. Where it does not, 0. A look takes as long as some rounds, so this is not for every round.
pub(crate) fn even_reach(wholes: &Wholes, divided: &Divided, cpus: u64, t: u32) -> u32
    requires { (1 ≤ cpus) × (cpus ≤ max_cpus) × (t ≤ max_time) }
    ensures { Straight (rows_demand wholes.now divided.now cpus) t 1 result }
{
    let whole = wholes.course(t);
    let part = divided.course(t);
    if whole.rises * cpus + part.rises != cpus {
        return 0;
    }
    whole.reach.min(part.reach)
}

// How many rounds surely climb alike, from the one that was worked out on: the last begins no further on than `reach`, and together they climb no
// further than `headway`, which is up to the deadline. `left` is how many are allowed after the one that was worked out, so that one is left after the stride.
pub(crate) fn stride(reach: u32, climb: u32, headway: u32, left: u32) -> u32
    requires { (1 ≤ climb) × (climb ≤ headway) × (1 ≤ left) }
    ensures { StrideIs reach climb headway left result }
{
    let far = reach.min(headway - climb);
    (far / climb).min(left - 1) + 1
}

// When strides are looked for is a matter of speed alone, and takes part in no fact. A look takes as long as up to four rounds, so that a task of few rounds, and all of
// `bench`, does without: at first so many rounds go by without one.
pub(crate) const BEFORE_FIRST: u32 = 16;

// After a look that found k rounds so many go by without one, where `pause` went by before it. None after a look that paid. Else more and more, and never the same number for
// long: the jobs of some table would keep in step with it, and each look would fall just before one begins. From 4,000 on it starts again.
pub(crate) fn pause_after(k: u32, pause: u32) -> u32 {
    if k > 4 || pause >= 4_000 {
        0
    } else {
        pause + pause / 8 + 8
    }
}
