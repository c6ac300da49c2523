// A listing to a table.
#![tactic(auto)]

ghost use Rattle.std.specs.Prelude.{◌≡◌, ◌≤◌, ◌<◌, length, MatchOption};
ghost use Rattle.table.specs.Limits.{max_tasks, max_time, max_listing};
ghost use Rattle.table.specs.Answers.{or_table};
ghost use Rattle.table.specs.Faults.{unless};
ghost use Rattle.table.specs.declared.Table.{Table};
ghost use Rattle.listing.specs.FirstLine.{line};
ghost use Rattle.listing.specs.Read.{new_task, past_after, table_after, read_end, read_listing};
ghost use Rattle.listing.specs.Room.{Room};

use line::{Past, Said};
use table::{Fault, Pair, Refusal, Resource, Table, Task};

// The fault, unless the test holds. (A line's own, in `line`, gives the line's number: shared, it would be one more public function of `rules`.)
fn check(holds: bool, fault: Fault, place: u32) -> Result<(), Refusal>
    ensures { result ≡ unless holds fault place }
{
    if holds {
        Ok(())
    } else {
        Err(Refusal { fault, place })
    }
}

// What a line leaves for the next one to be judged by.
#[tactic(auto, unfolding(crate::specs::Read::past_after))]
fn after(past: Past, said: Said) -> Past
    requires { ((past_after past said).tasks ≤ max_tasks) × ((past_after past said).sum ≤ max_time) × ((past_after past said).alphas ≤ max_tasks) }
    ensures { result ≡ past_after past said }
{
    match said {
        Said::Cpus(_) => past,
        Said::Group(_, group) => Past { group, ..past },
        Said::Task(_, run, _) => Past {
            tasks: past.tasks + 1,
            run,
            last: Resource(0),
            sum: 0,
            fresh: true,
            ..past
        },
        Said::Alpha(alpha) => Past {
            alphas: past.alphas + 1,
            alpha,
            fresh: false,
            ..past
        },
        Said::Use(last, p) => Past {
            last,
            sum: past.sum + p.total,
            fresh: false,
            ..past
        },
    }
}

// A task that has no alpha and uses no resource yet.
#[tactic(auto, unfolding(crate::specs::Read::new_task))]
fn new_task(period: u32, run: u32, deadline: u32) -> Task
    ensures { result ≡ new_task period run deadline }
{
    Task {
        period,
        run,
        deadline,
        alpha: 0,
        pairs: [Pair::default(); Table::MAX_RESOURCES],
    }
}

// Enters in the table what a line says that follows so many tasks.
#[tactic(auto, unfolding(crate::specs::Read::table_after))]
fn enter(table: &mut Table, tasks: usize, said: Said)
    requires { Room tasks said }
    ensures { table.new ≡ table_after table.old tasks said }
{
    match said {
        Said::Cpus(m) => table.cpus = m,
        Said::Group(group, k) => table.groups[(k.0 - 1) as usize] = group,
        Said::Task(period, run, deadline) => {
            table.tasks[tasks] = new_task(period, run, deadline);
            table.n = tasks + 1;
        }
        Said::Alpha(alpha) => table.tasks[tasks - 1].alpha = alpha,
        Said::Use(k, p) => table.tasks[tasks - 1].pairs[(k.0 - 1) as usize] = p,
    }
}

// How long the line is that s starts with, without its LF; none where s has no LF.
fn line_len(s: &[u8]) -> Option<usize>
    ensures { MatchOption result (length (line s.now) ≡ length s.now) (λ n. (n ≡ length (line s.now)) × (n < length s.now)) }
{
    s.iter().position(|&b| b == b'\n')
}

// What is left to refuse after the last line: number is that of the line that would come next, and closed says that the last line ends in LF.
#[tactic(auto, unfolding(crate::specs::Read::read_end))]
fn at_end(past: Past, number: u32, closed: bool) -> Result<(), Refusal>
    ensures { (table : Table) → read_end table past number closed ≡ or_table result table }
{
    check(closed && 1 < number, Fault::BadForm, number)?;
    check(0 < past.tasks, Fault::NoTask, 2)?;
    let all_or_none = rules::all_or_none(past.alphas, past.tasks);
    check(all_or_none, Fault::AlphaMissing, 0)
}

// The lines of a listing that is not too long, in order.
fn read_lines(listing: &[u8]) -> Result<Table, Refusal>
    requires { length listing.now ≤ max_listing }
    ensures { result ≡ read_listing listing.now }
{
    let mut table = Table::empty();
    let mut past = Past::default();
    let mut number: u32 = 1;
    let mut rest = listing;
    // no iterator over the lines: where each ends is counted, and what stands after the last is judged too
    while let Some(end) = line_len(rest) {
        let said = line::line_of(past, number, &rest[..end])?;
        enter(&mut table, past.tasks, said);
        past = after(past, said);
        number += 1;
        rest = &rest[end + 1..];
    }
    at_end(past, number, rest.is_empty())?;
    Ok(table)
}

// The table that a listing says, or its first refusal.
#[tactic(auto, unfolding(crate::specs::Read::read_listing))]
pub fn read(listing: &[u8]) -> Result<Table, Refusal>
    ensures { result ≡ read_listing listing.now }
{
    check(listing.len() <= Table::MAX_LISTING, Fault::TooLong, 0)?;
    read_lines(listing)
}
