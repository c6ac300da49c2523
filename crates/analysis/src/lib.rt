// The analysis of a table: the bound of one task, and the row of verdicts, each with its rounds.
#![tactic(auto)]

ghost use Rattle.std.specs.Prelude.{◌≡◌, ◌<◌};
ghost use Rattle.table.specs.Faults.{at};
ghost use Rattle.table.specs.Limits.{max_tasks};
ghost use Rattle.theory.specs.View.{level};
ghost use Rattle.theory.specs.Groups.{InBounds};
ghost use Rattle.theory.specs.Tables.{view_of, counted_by};
ghost use Rattle.analysis.specs.Answers.{allowance_fault, row_fault, bound_of, analysis_fault, record_by, analysed, FillsRow};

use table::{Fault, Level, Refusal, Table};
use theory::{Counted, Verdict};

// A task's number, its verdict, and how many rounds that took.
#[derive(Clone, Copy)]
pub struct Record {
    pub task: Level,
    pub verdict: Verdict,
    pub rounds: u32,
}

// What `analyse_all` answers: the refusal, if there is one, and the row. No Result of the row: its contract gives the caller's row back where it refuses too.
#[derive(Clone, Copy)]
pub struct Analysis {
    pub answer: Result<(), Refusal>,
    pub rows: [Record; Table::MAX_TASKS],
}

// The verdict on the task at slot i, by the merged pairs of a table that nothing is said against, and its rounds, so many of them allowed.
fn counted_at(m: Table, allowance: u32, i: usize) -> Counted
    requires { InBounds m × (i < m.n) }
    ensures { result ≡ counted_by (view_of m) allowance (level i) }
{
    let s = shares::shares_of(m, i);
    rounds::outcome_of(s, m.tasks[i].deadline, allowance).unwrap()
}

// The same, as a record of the row.
fn record_at(m: Table, allowance: u32, i: usize) -> Record
    requires { InBounds m × (i < m.n) }
    ensures { result ≡ record_by (view_of m) allowance i }
{
    let x = counted_at(m, allowance, i);
    Record {
        task: Level(i as u32 + 1),
        verdict: x.verdict,
        rounds: x.rounds,
    }
}

// 16.
fn check_allowance(allowance: u32) -> Result<(), Refusal>
    ensures { result ≡ allowance_fault allowance }
{
    if allowance < 1 {
        return Err(Refusal {
            fault: Fault::NoRounds,
            place: 0,
        });
    }
    Ok(())
}

// 11, of a row of so many records for n tasks.
fn check_row(n: usize, room: usize) -> Result<(), Refusal>
    ensures { result ≡ row_fault n room }
{
    if room < n {
        return Err(Refusal {
            fault: Fault::TooShort,
            place: 0,
        });
    }
    Ok(())
}

// The verdict on one task, and its rounds, so many of them allowed.
pub fn bound(t: Table, task: Level, allowance: u32) -> Result<Counted, Refusal>
    ensures { result ≡ bound_of t task allowance }
{
    let m = merging::merge(t)?;
    rules::first_of(rules::asked(t.n, task), check_allowance(allowance))?;
    Ok(counted_at(m, allowance, task.0 as usize - 1))
}

// The verdicts on all tasks and their rounds, so many of them allowed for each, into the caller's row: decided above, stored here one by one.
pub fn analyse(t: Table, allowance: u32, row: &mut [Record]) -> Result<(), Refusal>
    ensures { FillsRow t allowance row.old result row.new }
{
    let m = merging::merge(t)?;
    rules::first_of(check_allowance(allowance), check_row(t.n, row.len()))?;
    for i in 0..t.n {
        row[i] = record_at(m, allowance, i);
    }
    Ok(())
}

// The same for a caller that cannot lend a row: all by value. What is refused gives the caller's records back, as `analyse` leaves them.
pub fn analyse_all(t: Table, allowance: u32, rows: [Record; Table::MAX_TASKS]) -> Analysis
    ensures { (result.answer ≡ analysis_fault t allowance max_tasks) × (result.rows ≡ analysed t allowance rows) }
{
    let mut rows = rows;
    let answer = analyse(t, allowance, &mut rows);
    Analysis { answer, rows }
}
