// The check of a table that is handed over directly.
#![tactic(auto)]

ghost use Rattle.std.specs.Prelude.{◌≡◌, ◌≤◌, ltb};
ghost use Rattle.basics.specs.Choice.{only};
ghost use Rattle.table.specs.Limits.{max_tasks};
ghost use Rattle.table.specs.Rules.{pairs_fault, task_fault, alphas_to, next_alpha, tasks_fault, table_fault};

use table::{Fault, Refusal, Table, Task};

// Resources 1 to 16 of a task, each by itself and with the CT so far.
fn check_pairs(place: u32, x: Task) -> Result<(), Refusal>
    ensures { result ≡ pairs_fault place x }
{
    let mut sum: u64 = 0;
    for &p in &x.pairs {
        sum += p.total as u64;
        rules::pair(place, p, sum, x.run)?;
    }
    Ok(())
}

// A task, after the alpha of the last one before it that has one.
#[tactic(auto, unfolding(table::specs::Rules::task_fault))]
fn check_task(place: u32, last: u32, x: Task) -> Result<(), Refusal>
    ensures { result ≡ task_fault place last x }
{
    if !rules::times_in_range(x.period, x.run, x.deadline) {
        return Err(Refusal {
            fault: Fault::OutOfRange,
            place,
        });
    }
    rules::alpha(place, last, x.alpha)?;
    if !rules::times_in_order(x.period, x.run, x.deadline) {
        return Err(Refusal {
            fault: Fault::BadTimes,
            place,
        });
    }
    check_pairs(place, x)
}

// The alpha of the last task with one, once another task is passed.
fn later(last: u32, alpha: u32) -> u32
    ensures { result ≡ next_alpha last alpha }
{
    if 0 < alpha { alpha } else { last }
}

// Tasks 1 to n. A task's number is its place.
fn check_tasks(t: Table) -> Result<(), Refusal>
    requires { t.n ≤ max_tasks }
    ensures { result ≡ tasks_fault t }
{
    let mut last: u32 = 0;
    for i in 0..t.n {
        let x = t.tasks[i];
        check_task(i as u32 + 1, last, x)?;
        last = later(last, x.alpha);
    }
    Ok(())
}

// How many of the n tasks have an alpha.
fn alphas_in(t: Table) -> usize
    requires { t.n ≤ max_tasks }
    ensures { result ≡ alphas_to t t.n }
{
    t.tasks[..t.n].iter().filter(|x| 0 < x.alpha).count()
}

// The first fault of a table that is handed over directly.
#[tactic(auto, unfolding(table::specs::Rules::table_fault))]
pub fn check(t: Table) -> Result<(), Refusal>
    ensures { result ≡ table_fault t }
{
    if t.n < 1 {
        return Err(Refusal {
            fault: Fault::NoTask,
            place: 0,
        });
    }
    if Table::MAX_TASKS < t.n {
        return Err(Refusal {
            fault: Fault::TooManyTasks,
            place: 0,
        });
    }
    if !rules::in_range(t.cpus, Table::MAX_CPUS) {
        return Err(Refusal {
            fault: Fault::OutOfRange,
            place: 0,
        });
    }
    if !rules::groups_in_range(t.groups) {
        return Err(Refusal {
            fault: Fault::OutOfRange,
            place: 0,
        });
    }
    if !rules::all_or_none(alphas_in(t), t.n) {
        return Err(Refusal {
            fault: Fault::AlphaMissing,
            place: 0,
        });
    }
    check_tasks(t)
}
