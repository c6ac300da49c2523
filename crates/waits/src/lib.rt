// How long a task may wait under P-PCP for what lower tasks hold: request 8/12, the report's equations 13 and 14.
#![tactic(auto)]

ghost use Rattle.std.specs.Prelude.{◌≡◌, Some, None, Ok};
ghost use Rattle.basics.specs.Choice.{pick};
ghost use Rattle.table.specs.Rules.{has_alpha, table_fault};
ghost use Rattle.theory.specs.Merge.{merged};
ghost use Rattle.waits.specs.Answers.{waits_of, wait_answer, all_waits};

use table::{Level, Refusal, Table};

mod longest;

// The waits of all tasks of a table that nothing is said against, by its merged pairs, and 0 past them; none where it has no alpha.
#[tactic(auto, using(crate::proofs::AnswerLaws::waits_merged))]
fn given(t: &Table, m: Table) -> Option<[u64; Table::MAX_TASKS]>
    requires { (table_fault t.now ≡ Ok tt) × (m ≡ merged t.now) }
    ensures { result ≡ pick (has_alpha t.now 0) (Some (waits_of t.now)) None }
{
    if t.tasks[0].alpha == 0 {
        return None;
    }
    Some(longest::waits_of(m))
}

// The wait of one task, in microseconds; none where the table has no alpha. That the table has the task is looked at before any wait is worked out.
#[tactic(auto, using(crate::proofs::AnswerLaws::asked_fine, crate::proofs::AnswerLaws::wait_at), unfolding(crate::specs::Answers::wait_answer, crate::specs::Answers::wait_fault))]
pub fn wait(t: Table, task: Level) -> Result<Option<u64>, Refusal>
    ensures { result ≡ wait_answer t task }
{
    let m = merging::merge(t)?;
    rules::asked(t.n, task)?;
    // no `map`: its closure would have to say again what it asks of the index
    match given(&t, m) {
        Some(of) => Ok(Some(of[task.0 as usize - 1])),
        None => Ok(None),
    }
}

// The waits of all tasks, from one pass over them, and 0 past them; none where the table has no alpha.
#[tactic(auto, unfolding(crate::specs::Answers::all_waits))]
pub fn wait_all(t: Table) -> Result<Option<[u64; Table::MAX_TASKS]>, Refusal>
    ensures { result ≡ all_waits t }
{
    Ok(given(&t, merging::merge(t)?))
}
