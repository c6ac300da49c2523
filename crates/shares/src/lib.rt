// Cutting a table down to what the analysis of one task reads, in a pass over the tasks above it and one over those below. No function that a loop
// calls takes the table. The resources of a task are gone through by slot, resource k at k - 1.
#![tactic(auto)]

ghost use Rattle.std.specs.Prelude.{◌≡◌, ◌+◌, ◌≤◌, ◌<◌, min};
ghost use Rattle.basics.specs.Over.{sum_to};
ghost use Rattle.table.specs.Limits.{max_tasks, max_resources};
ghost use Rattle.theory.specs.View.{is_above};
ghost use Rattle.rounds.specs.Outcome.{max_wait};
ghost use Rattle.shares.specs.Cutting.{no_shares, shares_of};
ghost use Rattle.shares.specs.Pass.{UsedBy, ceiling_with, CeilingsWith, HighIn, RaisedBy, TotalsAre, wait_at, WaitIs, UpperIs, LowerIs, SharesAbove, SharesBelow};

use rounds::{Share, Shares};
use table::{Level, Table, Task};

// Some of the resources.
type Marks = [bool; Table::MAX_RESOURCES];

// The ceiling of each resource, as far as it is known.
type Ceilings = [Level; Table::MAX_RESOURCES];

// The longest single request for each resource.
type Peaks = [u32; Table::MAX_RESOURCES];

// A share for each task.
type Row = [Share; Table::MAX_TASKS];

// The CT of a task for the resources marked, and for all.
#[derive(Clone, Copy)]
struct Totals {
    marked: u64,
    all: u64,
}

// Whether a priority is strictly higher than another: its number is less. A function, since a `<` at its two places would not say which of them is higher.
fn is_above(a: Level, b: Level) -> bool
    ensures { result ≡ is_above a b }
{
    a.0 < b.0
}

// The resources that a task uses.
fn used_by(a: &Task) -> Marks
    ensures { UsedBy a.now result }
{
    a.pairs.map(|pair| pair.requests > 0)
}

// The ceiling of one resource, once a task is known that asks for it so often.
fn ceiling_with(known: Level, requests: u32, task: Level) -> Level
    ensures { result ≡ ceiling_with known requests task }
{
    if requests > 0 && is_above(task, known) {
        task
    } else {
        known
    }
}

// The ceilings once another task is known.
fn raise_ceilings(known: &mut Ceilings, b: &Task, task: Level)
    ensures { CeilingsWith known.old b.now task known.new }
{
    for k in 0..Table::MAX_RESOURCES {
        known[k] = ceiling_with(known[k], b.pairs[k].requests, task);
    }
}

// The resources whose ceiling is strictly above a priority. A loop, since what is proved of `map` says nothing of the priority that its closure would capture.
fn high(known: &Ceilings, i: Level) -> Marks
    ensures { HighIn known.now i result }
{
    let mut on = [false; Table::MAX_RESOURCES];
    for k in 0..Table::MAX_RESOURCES {
        on[k] = is_above(known[k], i);
    }
    on
}

// The longest requests with a task's among them.
fn raise_peaks(peaks: &mut Peaks, b: &Task)
    ensures { RaisedBy peaks.old b.now peaks.new }
{
    for k in 0..Table::MAX_RESOURCES {
        peaks[k] = peaks[k].max(b.pairs[k].longest);
    }
}

// A task's CT of the resources marked, and of all.
fn split(m: &Marks, b: &Task) -> Totals
    ensures { TotalsAre m.now b.now result }
{
    let mut marked = 0;
    let mut all = 0;
    for k in 0..Table::MAX_RESOURCES {
        let total = u64::from(b.pairs[k].total);
        all += total;
        if m[k] {
            marked += total;
        }
    }
    Totals { marked, all }
}

// The most that DB can be of an accepted table.
const MAX_WAIT: u64 = Table::MAX_RESOURCES as u64
    * (Table::MAX_COUNT as u64 * Table::MAX_TIME as u64);

// DB (6): N times the longest request below, over the resources; or the most that it can be, so that the sum fits whatever the table holds.
fn waiting(peaks: &Peaks, a: &Task) -> u64
    ensures { WaitIs peaks.now a.now result }
{
    let mut sum: u64 = 0;
    for k in 0..Table::MAX_RESOURCES {
        let wait = u64::from(a.pairs[k].requests) * u64::from(peaks[k]);
        sum = sum.saturating_add(wait).min(MAX_WAIT);
    }
    sum
}

// C + DB.
fn base(peaks: &Peaks, a: &Task) -> u64
    ensures { result ≡ a.now.run + min max_wait (sum_to max_resources (wait_at peaks.now a.now)) }
{
    u64::from(a.run) + waiting(peaks, a)
}

// The share of a task above, by the resources that i uses: S, O, F. The short form divides nothing.
fn upper(mine: &Marks, b: &Task, short: bool) -> Share
    ensures { UpperIs mine.now b.now short result }
{
    let u = split(mine, b);
    let (one, two) = if short {
        (0, 0)
    } else {
        (u.all - u.marked, u64::from(b.run).saturating_sub(u.all))
    };
    Share {
        period: b.period,
        deadline: b.deadline,
        whole: u.marked,
        one,
        two,
    }
}

// The share of a task below, by the resources with a ceiling above i: L. The short form divides nothing.
fn lower(above: &Marks, b: &Task, short: bool) -> Share
    ensures { LowerIs above.now b.now short result }
{
    let one = if short { 0 } else { split(above, b).marked };
    Share {
        period: b.period,
        deadline: b.deadline,
        one,
        ..Share::default()
    }
}

// The pass over the tasks above i: their shares into the row, and the ceilings that they bring.
fn shares_above(t: &Table, i: usize, mine: &Marks, short: bool, row: &mut Row) -> Ceilings
    requires { i < max_tasks }
    ensures { SharesAbove t.now i mine.now short row.old row.new result }
{
    let unknown = Level(Table::MAX_TASKS as u32 + 1);
    let mut ceilings = [unknown; Table::MAX_RESOURCES];
    for l in 0..i {
        let b = &t.tasks[l];
        row[l] = upper(mine, b, short);
        raise_ceilings(&mut ceilings, b, Level((l + 1) as u32));
    }
    ceilings
}

// The pass over the tasks below i: their shares into the row, and the longest requests of theirs.
fn shares_below(t: &Table, i: usize, above: &Marks, short: bool, row: &mut Row) -> Peaks
    requires { (i < t.now.n) × (t.now.n ≤ max_tasks) }
    ensures { SharesBelow t.now i above.now short row.old row.new result }
{
    let mut peaks = [0; Table::MAX_RESOURCES];
    for j in i + 1..t.n {
        let b = &t.tasks[j];
        row[j] = lower(above, b, short);
        raise_peaks(&mut peaks, b);
    }
    peaks
}

// What the analysis of the task at slot i reads. Whether a ceiling is above i is known once the tasks down to i are. Of the task itself nothing counts,
// as of one below it in the short form.
pub fn shares_of(t: Table, i: usize) -> Shares
    ensures { result ≡ shares_of t i }
{
    let mut of = [Share::default(); Table::MAX_TASKS];
    if t.n <= i || Table::MAX_TASKS < t.n {
        return Shares {
            start: 0,
            base: 0,
            cpus: 0,
            n: 0,
            of,
        };
    }
    let a = t.tasks[i];
    let me = Level((i + 1) as u32);
    let short = me.0 <= t.cpus;
    let mine = used_by(&a);
    let mut ceilings = shares_above(&t, i, &mine, short, &mut of);
    raise_ceilings(&mut ceilings, &a, me);
    let above = high(&ceilings, me);
    of[i] = lower(&above, &a, true);
    let peaks = shares_below(&t, i, &above, short, &mut of);
    Shares {
        start: a.run,
        base: base(&peaks, &a),
        cpus: u64::from(t.cpus),
        n: t.n,
        of,
    }
}
