// A test program: hands a raw table of any numbers to one entry point of the library, a listing or an archive to its reader, a time or a count to its writer, or a card to the tool for bad blocks, and prints the answer and all that was lent.
// docs/PROBE.md describes its input. Its contracts say nothing: it is for comparing, and what it calls is proved elsewhere.
#![tactic(auto)]

ghost use Rattle.std.specs.Prelude.{◌≤◌};

use analysis::Record;
use std::array;
use std::io::Stdout;
use table::{Level, Pair, Refusal, Table, Task};
use theory::{Counted, Verdict};

// The words of a task, and of a request that holds a table: an entry point, its argument, m, n in two words, 16 groups, 32 tasks, and an allowance of rounds.
const TASK: usize = 4 + 3 * Table::MAX_RESOURCES;

const GROUPS: usize = 5;

const TASKS: usize = GROUPS + Table::MAX_RESOURCES;

const ALLOWANCE: usize = TASKS + Table::MAX_TASKS * TASK;

const WORDS: usize = ALLOWANCE + 1;

// Where a listing or an archive begins in a request: after the entry point and its length.
const INPUT: usize = 8;

// The bytes of a request.
const BYTES: usize = INPUT + 34_000;

// Where a card with bad blocks begins: after the room for its list and the room for its archive as well.
const CARD: usize = 16;

// The records of the row that is lent, or of which the front is lent.
const ROWS: usize = 40;

// The bytes of the output that is lent, or of which the front is lent.
const OUTPUT: usize = 20_000;

// The entries of the list, and the bytes of the output, that are lent for a card with bad blocks, or of which the front is lent.
const LIST: usize = 70;

const MENDED: usize = 34_000;

// The word at a place, its first byte the highest; 0 past the end.
fn word(s: &[u8], at: usize) -> u32 {
    if WORDS <= at {
        return 0;
    }
    let i = at * 4;
    if s.len() < i + 4 {
        return 0;
    }
    u32::from_be_bytes([s[i], s[i + 1], s[i + 2], s[i + 3]])
}

// The number whose two words begin at a place, the high one first.
fn long_at(s: &[u8], at: usize) -> u64
    requires { at ≤ 4000 }
{
    word(s, at) as u64 * 4_294_967_296 + word(s, at + 1) as u64
}

// The task whose words begin at a place.
fn task_at(s: &[u8], at: usize) -> Task
    requires { at ≤ 4000 }
{
    Task {
        period: word(s, at),
        run: word(s, at + 1),
        deadline: word(s, at + 2),
        alpha: word(s, at + 3),
        pairs: array::from_fn(|k| {
            let p = at + 4 + 3 * k;
            Pair {
                requests: word(s, p),
                longest: word(s, p + 1),
                total: word(s, p + 2),
            }
        }),
    }
}

// The table that begins at the third word.
fn table_of(s: &[u8]) -> Table {
    Table {
        cpus: word(s, 2),
        n: long_at(s, 3) as usize,
        groups: array::from_fn(|k| word(s, GROUPS + k)),
        tasks: array::from_fn(|i| task_at(s, TASKS + i * TASK)),
    }
}

fn say(to: &Stdout, s: &[u8]) {
    to.write_all(s).is_ok();
}

fn say_refusal(to: &Stdout, r: Refusal) {
    let _ = println!(to; "refused {} place {}", r.fault.number(), r.place);
}

fn say_checked(to: &Stdout, c: Result<(), Refusal>) {
    match c {
        Ok(()) => say(to, b"fine\n"),
        Err(r) => say_refusal(to, r),
    }
}

fn say_counted(to: &Stdout, x: Counted) {
    let _ = match x.verdict {
        Verdict::Meets(t) => println!(to; "meets {t} rounds {}", x.rounds),
        Verdict::Misses => println!(to; "misses rounds {}", x.rounds),
        Verdict::Open => println!(to; "open rounds {}", x.rounds),
    };
}

// Entry point 1: `check`, which takes no argument.
fn check(to: &Stdout, t: Table, argument: u32) {
    if 0 < argument {
        say(to, b"bad argument\n");
        return;
    }
    say_checked(to, checking::check(t));
}

// What a record of the row holds before it is lent.
fn mark(i: usize) -> Record
    requires { i ≤ 40 }
{
    Record {
        task: Level(1_000 + i as u32),
        verdict: Verdict::Meets(i as u32),
        rounds: 2_000 + i as u32,
    }
}

// Entry point 3: `analyse`, with a row of so many records, the front of a longer one.
fn analyse(to: &Stdout, t: Table, allowance: u32, room: u32) {
    if ROWS < room as usize {
        say(to, b"bad row\n");
        return;
    }
    let mut rows: [Record; ROWS] = array::from_fn(|i| mark(i));
    say_checked(
        to,
        analysis::analyse(t, allowance, &mut rows[..room as usize]),
    );
    for x in &rows {
        let _ = print!(to; "{} ", x.task.0);
        say_counted(
            to,
            Counted {
                verdict: x.verdict,
                rounds: x.rounds,
            },
        );
    }
}

// Entry point 2: `bound`, of a task.
fn bound(to: &Stdout, t: Table, task: u32, allowance: u32) {
    match analysis::bound(t, Level(task), allowance) {
        Ok(x) => say_counted(to, x),
        Err(r) => say_refusal(to, r),
    }
}

// Entry point 10: `wait`, of a task.
fn wait(to: &Stdout, t: Table, task: u32) {
    match waits::wait(t, Level(task)) {
        Ok(Some(us)) => {
            let _ = println!(to; "wait {us}");
        }
        Ok(None) => say(to, b"no alpha\n"),
        Err(r) => say_refusal(to, r),
    }
}

// Entry point 11: `wait_all`, which takes no argument. Where there is no wait, zeros are printed.
fn wait_all(to: &Stdout, t: Table, argument: u32) {
    if 0 < argument {
        say(to, b"bad argument\n");
        return;
    }
    let all = waits::wait_all(t);
    say_checked(to, all.map(|_| ()));
    let given = all.unwrap_or(None);
    if given.is_some() {
        say(to, b"alpha\n");
    } else {
        say(to, b"no alpha\n");
    }
    for us in given.unwrap_or([0; Table::MAX_TASKS]) {
        let _ = println!(to; "{us}");
    }
}

// T, C, D, alpha and the pairs of a task, on a line.
fn say_task(to: &Stdout, x: &Task) {
    let _ = print!(to; "{} {} {} {}", x.period, x.run, x.deadline, x.alpha);
    for p in &x.pairs {
        let _ = print!(to; " {} {} {}", p.requests, p.longest, p.total);
    }
    say(to, b"\n");
}

// Entry point 13: `merge`, which takes no argument.
fn merge(to: &Stdout, t: Table, argument: u32) {
    if 0 < argument {
        say(to, b"bad argument\n");
        return;
    }
    match merging::merge(t) {
        Ok(m) => {
            say(to, b"fine\n");
            for x in m.tasks.iter().take(m.n) {
                say_task(to, x);
            }
        }
        Err(r) => say_refusal(to, r),
    }
}

fn say_wrote(to: &Stdout, k: usize) {
    let _ = println!(to; "wrote {k}");
}

fn say_written(to: &Stdout, w: Result<usize, Refusal>) {
    match w {
        Ok(k) => say_wrote(to, k),
        Err(r) => say_refusal(to, r),
    }
}

fn say_put(to: &Stdout, p: Option<usize>) {
    match p {
        Some(k) => say_wrote(to, k),
        None => say(to, b"short\n"),
    }
}

// The front of an output, so many bytes of it, lent to a writer, which says what it answers; then all of the output.
fn with_output<F: FnOnce(&mut [u8])>(to: &Stdout, room: u32, writer: F)
    requires { F.IsAlwaysCallable writer }
{
    if OUTPUT < room as usize {
        say(to, b"bad output\n");
        return;
    }
    let mut out = [b'#'; OUTPUT];
    writer(&mut out[..room as usize]);
    say(to, &out);
}

// Entry point 4: `writing::write`, with an output of so many bytes.
fn write(to: &Stdout, t: Table, room: u32) {
    with_output(to, room, |out| say_written(to, writing::write(t, out)));
}

// Entry point 6: `card::write`, with an output of so many bytes.
fn archive(to: &Stdout, t: Table, room: u32) {
    with_output(to, room, |out| say_written(to, card::write(t, out)));
}

// Entry point 8: `put::put_time`, with an output of so many bytes.
fn put_time(to: &Stdout, us: u32, room: u32) {
    with_output(to, room, |out| say_put(to, put::put_time(out, us)));
}

// Entry point 12: `put::put_count`, with an output of so many bytes.
fn put_count(to: &Stdout, n: u64, room: u32) {
    with_output(to, room, |out| say_put(to, put::put_count(out, n)));
}

// What a reader answers; then `writing::write` of the table that it gives, or of the empty one.
fn say_reading(to: &Stdout, r: Result<Table, Refusal>) {
    say_checked(to, r.map(|_| ()));
    write(to, r.unwrap_or(Table::empty()), OUTPUT as u32);
}

// Entry point 5: `listing::read`, of a listing of so many bytes.
fn read(to: &Stdout, s: &[u8], length: u32) {
    match s.get(INPUT..INPUT + length as usize) {
        Some(listing) => say_reading(to, listing::read(listing)),
        None => say(to, b"bad listing\n"),
    }
}

// Entry point 7: `card::read`, of an archive of so many bytes.
fn unarchive(to: &Stdout, s: &[u8], length: u32) {
    match s.get(INPUT..INPUT + length as usize) {
        Some(archive) => say_reading(to, card::read(archive)),
        None => say(to, b"bad archive\n"),
    }
}

// Entry point 9: `salvaging::salvage`, of a card of so many bytes, with a list of so many entries and an output of so many bytes.
fn salvage(to: &Stdout, s: &[u8], length: u32, entries: u32, room: u32) {
    let Some(card) = s.get(CARD..CARD + length as usize) else {
        say(to, b"bad card\n");
        return;
    };
    if LIST < entries as usize {
        say(to, b"bad list\n");
        return;
    }
    if MENDED < room as usize {
        say(to, b"bad output\n");
        return;
    }
    let mut list = [b'#'; LIST];
    let mut out = [b'#'; MENDED];
    let answer = salvaging::salvage(
        card,
        &mut list[..entries as usize],
        &mut out[..room as usize],
    );
    say_written(to, answer);
    say(to, &list);
    say(to, &out);
}

fn main(rt: HostRuntime) {
    let to = &rt.stdout();
    let mut space = [0u8; BYTES];
    let Ok(n) = console::read_input(&mut rt.stdin(), &mut space) else {
        say(to, b"bad request\n");
        return;
    };
    if n < BYTES {
        say(to, b"bad request\n");
        return;
    }
    let t = table_of(&space);
    let argument = word(&space, 1);
    // a request tells its entry point by number, as docs/PROBE.md lists them
    match word(&space, 0) {
        1 => check(to, t, argument),
        2 => bound(to, t, argument, word(&space, ALLOWANCE)),
        3 => analyse(to, t, word(&space, ALLOWANCE), argument),
        4 => write(to, t, argument),
        5 => read(to, &space, argument),
        6 => archive(to, t, argument),
        7 => unarchive(to, &space, argument),
        8 => put_time(to, word(&space, 2), argument),
        9 => salvage(to, &space, argument, word(&space, 2), word(&space, 3)),
        10 => wait(to, t, argument),
        11 => wait_all(to, t, argument),
        12 => put_count(to, long_at(&space, 2), argument),
        13 => merge(to, t, argument),
        _ => say(to, b"bad request\n"),
    }
}
