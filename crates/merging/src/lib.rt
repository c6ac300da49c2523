// A table as the analysis reads it, with each group as one resource: request 9/12. The resources are gone through by slot, resource k at k - 1.
#![tactic(auto)]

ghost use Rattle.std.specs.Prelude.{◌≡◌, ◌+◌, ◌*◌, ◌≤◌, ◌<◌, max};
ghost use Rattle.table.specs.Limits.{max_resources, max_time, max_count};
ghost use Rattle.table.specs.At.{a_pair};
ghost use Rattle.table.specs.Rules.{table_fault};
ghost use Rattle.table.specs.Accepted.{GoodTask};
ghost use Rattle.table.specs.Answers.{or_table};
ghost use Rattle.theory.specs.Merge.{slot_of, merged_task, grouped_tasks, merged};

use table::{Pair, Refusal, Table, Task};

// The slot at which the figures of the resource at slot j stand: that of the first resource of its group; its own, if it has none.
fn slot_of(groups: [u32; Table::MAX_RESOURCES], j: usize) -> usize
    requires { j < max_resources }
    ensures { (result ≡ slot_of groups j) × (result < max_resources) }
{
    let own = groups[j];
    if own == 0 {
        return j;
    }
    for k in 0..j {
        if groups[k] == own {
            return k;
        }
    }
    j
}

// Two pairs as one: N and CT are summed, c is the larger.
fn joined(p: Pair, q: Pair) -> Pair
    requires { (p.requests + q.requests ≤ max_resources * max_count) × (p.total + q.total ≤ max_resources * max_time) }
    ensures { result ≡ a_pair (p.requests + q.requests) (max p.longest q.longest) (p.total + q.total) }
{
    Pair {
        requests: p.requests + q.requests,
        longest: p.longest.max(q.longest),
        total: p.total + q.total,
    }
}

// A task with its merged pairs.
fn merge_task(groups: [u32; Table::MAX_RESOURCES], x: Task) -> Task
    requires { GoodTask x }
    ensures { result ≡ merged_task groups x }
{
    let mut pairs = [Pair::default(); Table::MAX_RESOURCES];
    for j in 0..Table::MAX_RESOURCES {
        let k = slot_of(groups, j);
        pairs[k] = joined(pairs[k], x.pairs[j]);
    }
    Task { pairs, ..x }
}

// The tasks of an accepted table, with their merged pairs.
fn merge_tasks(t: Table) -> [Task; Table::MAX_TASKS]
    requires { table_fault t ≡ Ok tt }
    ensures { result ≡ grouped_tasks t }
{
    let mut tasks = Table::empty().tasks;
    for i in 0..t.n {
        tasks[i] = merge_task(t.groups, t.tasks[i]);
    }
    tasks
}

// What is said against a table; or the table that the analysis reads of it, which has no groups left.
#[tactic(auto, unfolding(theory::specs::Merge::merged_tasks))]
pub fn merge(t: Table) -> Result<Table, Refusal>
    ensures { result ≡ or_table (table_fault t) (merged t) }
{
    checking::check(t)?;
    let tasks = if rules::has_group(t.groups) {
        merge_tasks(t)
    } else {
        t.tasks
    };
    Ok(Table {
        groups: [0; Table::MAX_RESOURCES],
        tasks,
        ..t
    })
}
