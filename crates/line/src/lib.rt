// One line of a listing: its form, its fields, and the rules in the paper's order.
#![tactic(auto)]

ghost use Rattle.std.specs.Prelude.{◌≡◌, true, ◌&&◌, ◌≤◌, drop, eqb, ltb, Some, IfSome};
ghost use Rattle.std.specs.Fn.{FnReturnsAt};
ghost use Rattle.basics.specs.Text.{bytes};
ghost use Rattle.table.specs.Faults.{unless};
ghost use Rattle.field.specs.Number.{reads_as, first, time_field};
ghost use Rattle.field.specs.declared.Field.{Field};
ghost use Rattle.field.specs.declared.Rounding.TheVariants.{Down, Up};
ghost use Rattle.line.specs.Fields.{field_count, same, form};
ghost use Rattle.line.specs.Places.{placed};
ghost use Rattle.line.specs.Line.{count_in, time_in, cpus_line, group_line, task_line, alpha_line, use_line, line_says};

use field::{Field, Rounding};
use table::{Fault, Pair, Refusal, Resource, Table};

const RESOURCES: u32 = Table::MAX_RESOURCES as u32;

// What the lines so far leave for the next one to be judged by: the K of the last `group` line (0: none); the tasks so far; of the
// last of them its C, the K of its last `use` line (0: none), and the sum of its CT; how many of the tasks have an alpha, and the
// last of these (0: none); and whether the last task is fresh, no line standing after its own. The 0 spares a case: any K rises above it.
#[derive(Clone, Copy, Default)]
pub struct Past {
    pub group: Resource,
    pub tasks: usize,
    pub run: u32,
    pub last: Resource,
    pub sum: u32,
    pub alphas: usize,
    pub alpha: u32,
    pub fresh: bool,
}

// What a line says.
#[derive(Clone, Copy)]
pub enum Said {
    Cpus(u32),
    Group(u32, Resource),
    Task(u32, u32, u32),
    Alpha(u32),
    Use(Resource, Pair),
}

// A line that is read: what the lines before it leave, its number, its text, and how many fields that has, 0 where one is empty: no line of the five has so many, so that one comparison
// refuses both.
#[derive(Clone, Copy)]
struct Entry<'a> {
    past: Past,
    number: u32,
    text: &'a [u8],
    count: usize,
    ghost counted: { count ≡ field_count text.now },
}

// How many fields the line has, or 0 where one is empty.
fn field_count(line: &[u8]) -> usize
    ensures { result ≡ field_count line.now }
{
    let mut n: usize = 1;
    let mut gap = true;
    for i in 0..line.len() {
        if !field::ends_at(line, i) {
            gap = false;
        } else if gap {
            return 0;
        } else {
            n += 1;
            gap = true;
        }
    }
    if gap { 0 } else { n }
}

// Whether the word is the first field of s.
fn is_first(s: &[u8], word: &[u8]) -> bool
    requires { first word.now ≡ word.now }
    ensures { result ≡ same (first s.now) word.now }
{
    s.starts_with(word) && field::ends_at(s, word.len())
}

// A period or a deadline. This and the next are the readers that `field_at` is handed: closures at its five calls would say the rounding five times.
fn rounded_down(s: &[u8]) -> Option<Field>
    ensures value { result ≡ time_field Down s.now }
    ensures narrow { IfSome result (λ f. f.width ≤ 12) }
{
    field::time(s, Rounding::Down)
}

// A run time, a longest request or a total.
fn rounded_up(s: &[u8]) -> Option<Field>
    ensures value { result ≡ time_field Up s.now }
    ensures narrow { IfSome result (λ f. f.width ≤ 12) }
{
    field::time(s, Rounding::Up)
}

impl Entry<'_> {
    // Whether the line has k fields, the first of them the word.
    fn is_form(&self, word: &[u8], k: usize) -> bool
        requires { first word.now ≡ word.now }
        ensures { result ≡ form word.now k self.now.text.now }
    {
        self.count == k && is_first(self.text, word)
    }

    // The fault, unless the test holds.
    fn check(&self, holds: bool, fault: Fault) -> Result<(), Refusal>
        ensures { result ≡ unless holds fault self.now.number }
    {
        if holds {
            Ok(())
        } else {
            Err(Refusal {
                fault,
                place: self.number,
            })
        }
    }

    // The number at a place of the line, read so, with the place where the next field begins. No field begins past 64: the fields before it are short.
    fn field_at<F: Fn(&[u8]) -> Option<Field>>(
        &self,
        at: usize,
        read: F,
    ) -> Result<(u32, usize), Refusal>
        requires near { at ≤ 64 }
        requires callable { F.IsAlwaysCallable read }
        requires narrow { (s : _) (f : Field) → F.post read s (Some f) → f.width ≤ 12 }
        ensures { (f : _) × FnReturnsAt F.Fn read (drop at self.now.text.now) f × (result ≡ placed self.now.number at f) }
    {
        let rest = self.text.get(at..).unwrap_or(&[]);
        let Some(Field { value, width }) = read(rest) else {
            return Err(Refusal {
                fault: Fault::BadField,
                place: self.number,
            });
        };
        Ok((value, at + width + 1))
    }

    // `cpus M`: 3, then 4.
    fn cpus_line(&self) -> Result<Said, Refusal>
        requires { form (bytes "cpus") 2 self.now.text.now ≡ true }
        ensures { result ≡ cpus_line self.now.number (count_in self.now.text.now 1) }
    {
        let (m, _) = self.field_at(5, field::count)?;
        self.check(rules::in_range(m, Table::MAX_CPUS), Fault::OutOfRange)?;
        Ok(Said::Cpus(m))
    }

    // 4, then 19, of a resource's group.
    #[tactic(auto, unfolding(crate::specs::Line::group_line))]
    fn group_said(&self, group: u32, k: Resource) -> Result<Said, Refusal>
        ensures { result ≡ group_line self.now.past self.now.number (reads_as group 0) (reads_as k.0 0) }
    {
        let in_range = rules::in_range(group, Table::MAX_GROUP) && rules::in_range(k.0, RESOURCES);
        self.check(in_range, Fault::OutOfRange)?;
        self.check(self.past.group.0 < k.0, Fault::GroupNotRising)?;
        Ok(Said::Group(group, k))
    }

    // `group G K`: 3, then what its numbers call for.
    fn group_line(&self) -> Result<Said, Refusal>
        requires { form (bytes "group") 3 self.now.text.now ≡ true }
        ensures { result ≡ group_line self.now.past self.now.number (count_in self.now.text.now 1) (count_in self.now.text.now 2) }
    {
        let (group, next) = self.field_at(6, field::count)?;
        let (k, _) = self.field_at(next, field::count)?;
        self.group_said(group, Resource(k))
    }

    // 8, then 4 and 5, of a task.
    #[tactic(auto, unfolding(crate::specs::Line::task_line))]
    fn task_said(&self, period: u32, run: u32, deadline: u32) -> Result<Said, Refusal>
        ensures { result ≡ task_line self.now.past self.now.number (reads_as period 0) (reads_as run 0) (reads_as deadline 0) }
    {
        self.check(self.past.tasks < Table::MAX_TASKS, Fault::TooManyTasks)?;
        rules::times(self.number, period, run, deadline)?;
        Ok(Said::Task(period, run, deadline))
    }

    // `task T C D`.
    fn task_line(&self) -> Result<Said, Refusal>
        requires { form (bytes "task") 4 self.now.text.now ≡ true }
        ensures { result ≡ task_line self.now.past self.now.number (time_in Down self.now.text.now 1) (time_in Up self.now.text.now 2) (time_in Down self.now.text.now 3) }
    {
        let (period, next) = self.field_at(5, rounded_down)?;
        let (run, next) = self.field_at(next, rounded_up)?;
        let (deadline, _) = self.field_at(next, rounded_down)?;
        self.task_said(period, run, deadline)
    }

    // 4, then 18, of an alpha.
    #[tactic(auto, unfolding(crate::specs::Line::alpha_line))]
    fn alpha_said(&self, alpha: u32) -> Result<Said, Refusal>
        ensures { result ≡ alpha_line self.now.past self.now.number (reads_as alpha 0) }
    {
        self.check(1 <= alpha, Fault::OutOfRange)?;
        rules::alpha(self.number, self.past.alpha, alpha)?;
        Ok(Said::Alpha(alpha))
    }

    // `alpha A`.
    fn alpha_line(&self) -> Result<Said, Refusal>
        requires { form (bytes "alpha") 2 self.now.text.now ≡ true }
        ensures { result ≡ alpha_line self.now.past self.now.number (count_in self.now.text.now 1) }
    {
        let (alpha, _) = self.field_at(6, field::count)?;
        self.alpha_said(alpha)
    }

    // 4, 6, then 7, of a pair in use.
    #[tactic(auto, unfolding(crate::specs::Line::use_line))]
    fn use_said(&self, k: Resource, p: Pair) -> Result<Said, Refusal>
        ensures { result ≡ use_line self.now.past self.now.number (reads_as k.0 0) (reads_as p.requests 0) (reads_as p.longest 0) (reads_as p.total 0) }
    {
        let in_range = rules::in_range(k.0, RESOURCES) && rules::used_in_range(p);
        self.check(in_range, Fault::OutOfRange)?;
        self.check(self.past.last.0 < k.0, Fault::NotRising)?;
        let sum = u64::from(self.past.sum) + u64::from(p.total);
        self.check(rules::totals_fit(p, sum, self.past.run), Fault::BadTotals)?;
        Ok(Said::Use(k, p))
    }

    // `use K N c CT`.
    fn use_line(&self) -> Result<Said, Refusal>
        requires { form (bytes "use") 5 self.now.text.now ≡ true }
        ensures { result ≡ use_line self.now.past self.now.number (count_in self.now.text.now 1) (count_in self.now.text.now 2) (time_in Up self.now.text.now 3) (time_in Up self.now.text.now 4) }
    {
        let (k, next) = self.field_at(4, field::count)?;
        let (requests, next) = self.field_at(next, field::count)?;
        let (longest, next) = self.field_at(next, rounded_up)?;
        let (total, _) = self.field_at(next, rounded_up)?;
        self.use_said(
            Resource(k),
            Pair {
                requests,
                longest,
                total,
            },
        )
    }

    // `cpus` stands on the first line and nowhere else.
    fn is_cpus(&self) -> bool
        ensures { result ≡ (form (bytes "cpus") 2 self.now.text.now && eqb self.now.number 1) }
    {
        self.is_form(b"cpus", 2) && self.number == 1
    }

    // `group` stands after `cpus` and before any task.
    fn is_group(&self) -> bool
        ensures { result ≡ (form (bytes "group") 3 self.now.text.now && (ltb 1 self.now.number && eqb self.now.past.tasks 0)) }
    {
        self.is_form(b"group", 3) && 1 < self.number && self.past.tasks == 0
    }

    // `task` stands after `cpus`.
    fn is_task(&self) -> bool
        ensures { result ≡ (form (bytes "task") 4 self.now.text.now && ltb 1 self.now.number) }
    {
        self.is_form(b"task", 4) && 1 < self.number
    }

    // `alpha` stands right after its task's line.
    fn is_alpha(&self) -> bool
        ensures { result ≡ (form (bytes "alpha") 2 self.now.text.now && self.now.past.fresh) }
    {
        self.is_form(b"alpha", 2) && self.past.fresh
    }

    // `use` stands after a task.
    fn is_use(&self) -> bool
        ensures { result ≡ (form (bytes "use") 5 self.now.text.now && ltb 0 self.now.past.tasks) }
    {
        self.is_form(b"use", 5) && 0 < self.past.tasks
    }
}

// What line `number` says, after what the lines before it leave.
#[tactic(auto, unfolding(crate::specs::Line::line_says))]
pub fn line_of(past: Past, number: u32, line: &[u8]) -> Result<Said, Refusal>
    ensures { result ≡ line_says past number line.now }
{
    let count = field_count(line);
    let entry = Entry {
        past,
        number,
        text: line,
        count,
    };
    if entry.is_cpus() {
        entry.cpus_line()
    } else if entry.is_group() {
        entry.group_line()
    } else if entry.is_task() {
        entry.task_line()
    } else if entry.is_alpha() {
        entry.alpha_line()
    } else if entry.is_use() {
        entry.use_line()
    } else {
        Err(Refusal {
            fault: Fault::BadForm,
            place: number,
        })
    }
}
