// The text of a table. Each writer here has the room for what it writes: `write` works the length out first.
ghost use Rattle.std.specs.Prelude.{◌≡◌, [], ◌++◌, ◌*◌, ◌≤◌, length, drop, ltb};
ghost use Rattle.basics.specs.Choice.{pick};
ghost use Rattle.basics.specs.Text.{bytes};
ghost use Rattle.table.specs.Rules.{table_fault};
ghost use Rattle.writing.specs.Line.{field_text, line_text, optional_text};
ghost use Rattle.writing.specs.Write.{use_text, times_text, alpha_text, task_text, group_text, head_text, text_of};

use table::{Pair, Resource, Table, Task};

// A field of a line.
#[derive(Clone, Copy)]
enum Field {
    Count(u32),
    Time(u32),
}

impl Field {
    // How many bytes the field has.
    fn len(self) -> usize
        ensures value { result ≡ length (field_text self) }
        ensures upper_bound { result ≤ 11 }
    {
        match self {
            Field::Count(n) => put::count_len(u64::from(n)),
            Field::Time(us) => put::time_len(us),
        }
    }

    // The field at the start of an output. This and each writer below answer how many bytes they put.
    fn put(self, out: &mut [u8]) -> usize
        requires { length (field_text self) ≤ length out.old }
        ensures { (result ≡ length (field_text self)) × (out.new ≡ field_text self ++ drop result out.old) }
    {
        match self {
            Field::Count(n) => put::put_count(out, u64::from(n)).unwrap_or(0),
            Field::Time(us) => put::put_time(out, us).unwrap_or(0),
        }
    }
}

// How many bytes a line has: its word, each field after a space, and the LF.
fn line_len(word: &[u8], fields: &[Field]) -> usize
    requires { (length word.now ≤ 5) × (length fields.now ≤ 4) }
    ensures value { result ≡ length (line_text word.now fields.now) }
    ensures upper_bound { result ≤ 54 }
{
    let mut sum = word.len() + 1;
    for field in fields {
        sum += 1 + field.len();
    }
    sum
}

// The line at the start of an output. It is put into its callers, each of which knows its word and how many fields there are: called, it takes 8 percent more instructions.
#[inline(always)]
fn put_line(out: &mut [u8], word: &[u8], fields: &[Field]) -> usize
    requires { length (line_text word.now fields.now) ≤ length out.old }
    ensures { (result ≡ length (line_text word.now fields.now)) × (out.new ≡ line_text word.now fields.now ++ drop result out.old) }
{
    let mut at = put::put_text(out, word).unwrap_or(0);
    for field in fields {
        out[at] = b' ';
        at += 1;
        at += field.put(&mut out[at..]);
    }
    out[at] = b'\n';
    at + 1
}

// A line that may be none: without its fields there is none.
fn optional_len<const N: usize>(word: &[u8], fields: Option<[Field; N]>) -> usize
    requires { (length word.now ≤ 5) × (N ≤ 4) }
    ensures value { result ≡ length (optional_text word.now fields.entry) }
    ensures upper_bound { result ≤ 54 }
{
    match fields {
        Some(fields) => line_len(word, &fields),
        None => 0,
    }
}

fn put_optional<const N: usize>(out: &mut [u8], word: &[u8], fields: Option<[Field; N]>) -> usize
    requires { length (optional_text word.now fields) ≤ length out.old }
    ensures { (result ≡ length (optional_text word.now fields.entry)) × (out.new ≡ optional_text word.now fields.entry ++ drop result out.old) }
{
    match fields {
        Some(fields) => put_line(out, word, &fields),
        None => 0,
    }
}

// The fields of `use K N c CT`, of a pair in use, which has a request.
#[tactic(auto, unfolding(crate::specs::Write::use_text))]
fn use_fields(k: Resource, p: Pair) -> Option<[Field; 4]>
    ensures { optional_text (bytes "use") result ≡ pick (ltb 0 p.requests) (use_text k.0 p) [] }
{
    if p.requests == 0 {
        return None;
    }
    Some([
        Field::Count(k.0),
        Field::Count(p.requests),
        Field::Time(p.longest),
        Field::Time(p.total),
    ])
}

// Those of `task T C D`.
fn times(x: &Task) -> [Field; 3]
    ensures { line_text (bytes "task") result ≡ times_text x.now }
{
    [
        Field::Time(x.period),
        Field::Time(x.run),
        Field::Time(x.deadline),
    ]
}

// Those of `alpha A`, of a task that has one.
#[tactic(auto, unfolding(crate::specs::Write::alpha_text))]
fn alpha_fields(alpha: u32) -> Option<[Field; 1]>
    ensures { optional_text (bytes "alpha") result ≡ alpha_text alpha }
{
    if alpha == 0 {
        return None;
    }
    Some([Field::Count(alpha)])
}

// Those of `group G K`, of a resource that has a group.
#[tactic(auto, unfolding(crate::specs::Write::group_text))]
fn group_fields(group: u32, k: Resource) -> Option<[Field; 2]>
    ensures { optional_text (bytes "group") result ≡ pick (ltb 0 group) (group_text group k.0) [] }
{
    if group == 0 {
        return None;
    }
    Some([Field::Count(group), Field::Count(k.0)])
}

// Measured apart from `put_task`, as the other texts below are: nothing is written until it is known that all of it fits.
fn task_len(x: &Task) -> usize
    ensures value { result ≡ length (task_text x.now) }
    ensures upper_bound { result ≤ 18 * 54 }
{
    let mut sum = line_len(b"task", &times(x)) + optional_len(b"alpha", alpha_fields(x.alpha));
    for (k, p) in x.pairs.iter().enumerate() {
        sum += optional_len(b"use", use_fields(Resource(k as u32 + 1), *p));
    }
    sum
}

// A task's own line, that of its alpha, and the lines of its pairs, each into the rest of the output.
fn put_task(out: &mut [u8], x: &Task) -> usize
    requires { length (task_text x.now) ≤ length out.old }
    ensures { (result ≡ length (task_text x.now)) × (out.new ≡ task_text x.now ++ drop result out.old) }
{
    let mut at = put_line(out, b"task", &times(x));
    at += put_optional(&mut out[at..], b"alpha", alpha_fields(x.alpha));
    for (k, p) in x.pairs.iter().enumerate() {
        at += put_optional(
            &mut out[at..],
            b"use",
            use_fields(Resource(k as u32 + 1), *p),
        );
    }
    at
}

fn head_len(cpus: u32, groups: &[u32; Table::MAX_RESOURCES]) -> usize
    ensures value { result ≡ length (head_text cpus groups.now) }
    ensures upper_bound { result ≤ 17 * 54 }
{
    let mut sum = line_len(b"cpus", &[Field::Count(cpus)]);
    for (k, group) in groups.iter().enumerate() {
        sum += optional_len(b"group", group_fields(*group, Resource(k as u32 + 1)));
    }
    sum
}

// `cpus M`, and the lines of the groups, each into the rest of the output.
fn put_head(out: &mut [u8], cpus: u32, groups: &[u32; Table::MAX_RESOURCES]) -> usize
    requires { length (head_text cpus groups.now) ≤ length out.old }
    ensures { (result ≡ length (head_text cpus groups.now)) × (out.new ≡ head_text cpus groups.now ++ drop result out.old) }
{
    let mut at = put_line(out, b"cpus", &[Field::Count(cpus)]);
    for (k, group) in groups.iter().enumerate() {
        at += put_optional(
            &mut out[at..],
            b"group",
            group_fields(*group, Resource(k as u32 + 1)),
        );
    }
    at
}

// How long the text of a table is. By the tasks' numbers, here and below: that `&t.tasks[..t.n]` lies in the array is a goal that a proof has no lasting name for.
pub(crate) fn table_len(t: Table) -> usize
    requires { table_fault t ≡ Ok tt }
    ensures { result ≡ length (text_of t) }
{
    let mut sum = head_len(t.cpus, &t.groups);
    for i in 0..t.n {
        sum += task_len(&t.tasks[i]);
    }
    sum
}

// The lines before the tasks, and each task's lines into the rest of the output.
pub(crate) fn put_table(out: &mut [u8], t: Table) -> usize
    requires { (table_fault t ≡ Ok tt) × (length (text_of t) ≤ length out.old) }
    ensures { (result ≡ length (text_of t)) × (out.new ≡ text_of t ++ drop result out.old) }
{
    let mut at = put_head(out, t.cpus, &t.groups);
    for i in 0..t.n {
        at += put_task(&mut out[at..], &t.tasks[i]);
    }
    at
}
