// The rules that a table and a listing are both held to: 4, 5, 7, 17 and 18; and 10, of a task that is asked about. And which of two refusals is given.
#![tactic(auto)]

ghost use Rattle.std.specs.Prelude.{◌≡◌};
ghost use Rattle.basics.specs.Choice.{within};
ghost use Rattle.table.specs.Faults.{◌then◌};
ghost use Rattle.table.specs.Rules.{times_in_range, times_in_order, times_fault, groups_in_range, has_group, all_or_none, may_follow, alpha_fault, is_unused, used_in_range, pair_in_range, totals_fit, pair_fault, asked_fault};

use table::{Fault, Level, Pair, Refusal, Table};

// The first of two refusals.
pub fn first_of(a: Result<(), Refusal>, b: Result<(), Refusal>) -> Result<(), Refusal>
    ensures { result ≡ (a then b) }
{
    a.and(b)
}

// x is from 1 to most.
pub fn in_range(x: u32, most: u32) -> bool
    ensures { result ≡ within 1 most x }
{
    1 <= x && x <= most
}

// 4, of a task's times.
#[tactic(auto, unfolding(table::specs::Rules::times_in_range))]
pub fn times_in_range(period: u32, run: u32, deadline: u32) -> bool
    ensures { result ≡ times_in_range period run deadline }
{
    in_range(period, Table::MAX_TIME)
        && in_range(run, Table::MAX_TIME)
        && in_range(deadline, Table::MAX_TIME)
}

// 5.
#[tactic(auto, unfolding(table::specs::Rules::times_in_order))]
pub fn times_in_order(period: u32, run: u32, deadline: u32) -> bool
    ensures { result ≡ times_in_order period run deadline }
{
    run <= deadline && deadline <= period
}

// 4, then 5, of a task's times.
#[tactic(auto, unfolding(table::specs::Rules::times_fault))]
pub fn times(place: u32, period: u32, run: u32, deadline: u32) -> Result<(), Refusal>
    ensures { result ≡ times_fault place period run deadline }
{
    if !times_in_range(period, run, deadline) {
        return Err(Refusal {
            fault: Fault::OutOfRange,
            place,
        });
    }
    if !times_in_order(period, run, deadline) {
        return Err(Refusal {
            fault: Fault::BadTimes,
            place,
        });
    }
    Ok(())
}

// 4, of the groups of the resources.
pub fn groups_in_range(groups: [u32; Table::MAX_RESOURCES]) -> bool
    ensures { result ≡ groups_in_range groups }
{
    groups.iter().all(|&group| group <= Table::MAX_GROUP)
}

// Whether any resource has a group.
pub fn has_group(groups: [u32; Table::MAX_RESOURCES]) -> bool
    ensures { result ≡ has_group groups }
{
    groups.iter().any(|&group| 0 < group)
}

// 17: so many of n tasks have an alpha, all or none of them.
pub fn all_or_none(given: usize, n: usize) -> bool
    ensures { result ≡ all_or_none given n }
{
    given == 0 || given == n
}

// 18: alpha is not above that of the last task before with one, 0 where there is none.
fn may_follow(last: u32, alpha: u32) -> bool
    ensures { result ≡ may_follow last alpha }
{
    last == 0 || alpha <= last
}

// 4, then 18, of a task's alpha.
#[tactic(auto, unfolding(table::specs::Rules::alpha_fault))]
pub fn alpha(place: u32, last: u32, alpha: u32) -> Result<(), Refusal>
    ensures { result ≡ alpha_fault place last alpha }
{
    if Table::MAX_ALPHA < alpha {
        return Err(Refusal {
            fault: Fault::OutOfRange,
            place,
        });
    }
    if !may_follow(last, alpha) {
        return Err(Refusal {
            fault: Fault::AlphaRises,
            place,
        });
    }
    Ok(())
}

// Of a pair with no requests: nothing else is asked for either.
#[tactic(auto, unfolding(table::specs::Rules::is_unused))]
fn is_unused(p: Pair) -> bool
    ensures { result ≡ is_unused p }
{
    p.longest == 0 && p.total == 0
}

// 4, of a pair in use.
#[tactic(auto, unfolding(table::specs::Rules::used_in_range))]
pub fn used_in_range(p: Pair) -> bool
    ensures { result ≡ used_in_range p }
{
    in_range(p.requests, Table::MAX_COUNT)
        && in_range(p.longest, Table::MAX_TIME)
        && in_range(p.total, Table::MAX_TIME)
}

#[tactic(auto, unfolding(table::specs::Rules::pair_in_range))]
fn pair_in_range(p: Pair) -> bool
    ensures { result ≡ pair_in_range p }
{
    if p.requests == 0 {
        is_unused(p)
    } else {
        used_in_range(p)
    }
}

// 7: `sum` is the CT so far, this pair's among them, and `run` the task's C.
#[tactic(auto, unfolding(table::specs::Rules::totals_fit))]
pub fn totals_fit(p: Pair, sum: u64, run: u32) -> bool
    ensures { result ≡ totals_fit p sum run }
{
    p.longest <= p.total
        && u64::from(p.total) <= u64::from(p.requests) * u64::from(p.longest)
        && sum <= u64::from(run)
}

// 4, then 7, of one pair of a task.
#[tactic(auto, unfolding(table::specs::Rules::pair_fault))]
pub fn pair(place: u32, p: Pair, sum: u64, run: u32) -> Result<(), Refusal>
    ensures { result ≡ pair_fault place p sum run }
{
    if !pair_in_range(p) {
        return Err(Refusal {
            fault: Fault::OutOfRange,
            place,
        });
    }
    if !totals_fit(p, sum, run) {
        return Err(Refusal {
            fault: Fault::BadTotals,
            place,
        });
    }
    Ok(())
}

// 10, of a table of n tasks.
pub fn asked(n: usize, task: Level) -> Result<(), Refusal>
    ensures { result ≡ asked_fault n task }
{
    if task.0 < 1 || n < task.0 as usize {
        return Err(Refusal {
            fault: Fault::UnknownTask,
            place: 0,
        });
    }
    Ok(())
}
