// What the programs `report` and `bench` print. What stands in a row for a verdict they say themselves.
#![tactic(auto)]

ghost use Rattle.std.specs.Prelude.{◌≡◌, ◌++◌, ◌≤◌, ◌<◌, length, drop};
ghost use Rattle.table.specs.Limits.{max_tasks};
ghost use Rattle.page.specs.Report.{header, max_header, max_page, page_text};
ghost use Rattle.page.specs.Pages.{column_of, last_of, wait_at, page_of, cells_row, page_answer, page_into};

use analysis::Record;
use table::{Level, Refusal, Table};
use theory::Verdict;

mod row;

// No page is longer: a header of 37 bytes, and for each task a row of at most 61, with three numbers of up to ten digits, one of up to twenty and a word of up to six.
pub const MAX_PAGE: usize = 37 + Table::MAX_TASKS * 61;

// The word for a verdict.
#[derive(Clone, Copy)]
pub enum Word {
    Meets,
    Misses,
    Open,
}

// What stands for a verdict in a row: a word, and the bound's microseconds, or none, for which a dash is put. The program, which takes the verdict apart, says what that is.
#[derive(Clone, Copy)]
pub struct Cells(pub Word, pub Option<u32>);

// How many columns a page has: task, verdict, bound and rounds, or the wait besides.
#[derive(Clone, Copy)]
pub enum Columns {
    Four,
    Five,
}

// What stands behind the rounds in a row: nothing, or a dash, or the wait's microseconds. Three things that are put, where an Option of an Option would say which of two are missing.
#[derive(Clone, Copy)]
enum Last {
    Nothing,
    Dash,
    Of(u64),
}

// What a page is made from: a record for each of n tasks, and of a page of five columns what each then waits, if they have alphas. The memory is fixed, and `put_page` answers of
// every n.
#[derive(Clone, Copy)]
pub struct Page {
    pub n: usize,
    pub rows: [Record; Table::MAX_TASKS],
    pub columns: Columns,
    pub waits: Option<[u64; Table::MAX_TASKS]>,
}

// The waits of a table that has alphas, for a page of five columns. The first task tells whether it has, before anything is worked out: all have one or none.
fn column_of(t: Table, columns: Columns) -> Option<[u64; Table::MAX_TASKS]>
    ensures { result ≡ column_of columns t }
{
    let Columns::Five = columns else {
        return None;
    };
    if t.tasks[0].alpha == 0 {
        return None;
    }
    waits::wait_all(t).unwrap_or(None)
}

// What stands behind the rounds in a row of these columns.
fn last_of(columns: Columns, wait: Option<u64>) -> Last
    ensures { result ≡ last_of columns wait }
{
    match (columns, wait) {
        (Columns::Four, _) => Last::Nothing,
        (Columns::Five, None) => Last::Dash,
        (Columns::Five, Some(us)) => Last::Of(us),
    }
}

// What the task at slot i waits, if the page has waits.
fn wait_at(p: &Page, i: usize) -> Option<u64>
    requires { i < max_tasks }
    ensures { result ≡ wait_at p.now.waits i }
{
    p.waits.as_ref().map(|us| us[i])
}

// The header of a page.
fn put_header(out: &mut [u8], columns: Columns) -> usize
    requires { max_header ≤ length out.old }
    ensures { (result ≡ length (header columns)) × (out.new ≡ header columns ++ drop result out.old) }
{
    match columns {
        Columns::Four => put::put_text(out, b"task verdict bound_us rounds\n").unwrap_or(0),
        Columns::Five => put::put_text(out, b"task verdict bound_us rounds wait_us\n").unwrap_or(0),
    }
}

// What is to be printed of a listing, in these columns, so many rounds being allowed for each task.
pub fn page_of(listing: &[u8], columns: Columns, allowance: u32) -> Result<Page, Refusal>
    ensures { result ≡ page_of listing.now columns allowance }
{
    let none = Record {
        task: Level(0),
        verdict: Verdict::Meets(0),
        rounds: 0,
    };
    let t = listing::read(listing)?;
    let a = analysis::analyse_all(t, allowance, [none; Table::MAX_TASKS]);
    a.answer?;
    let rows = a.rows;
    let waits = column_of(t, columns);
    Ok(Page {
        n: t.n,
        rows,
        columns,
        waits,
    })
}

// The header, and the row of each record with its cells.
fn put_rows(out: &mut [u8], p: Page, cells: [Cells; Table::MAX_TASKS]) -> usize
    requires { (max_page ≤ length out.old) × (p.n ≤ max_tasks) }
    ensures { (result ≡ length (page_text p.columns p.n (cells_row p cells))) × (out.new ≡ page_text p.columns p.n (cells_row p cells) ++ drop result out.old) }
{
    let mut at = put_header(out, p.columns);
    for i in 0..p.n {
        let last = last_of(p.columns, wait_at(&p, i));
        at += row::put_row(&mut out[at..], p.rows[i], cells[i], last);
    }
    at
}

// A page, at the start of out: the header and the rows. The room is tested once, for the longest page; without it, or without a record for each row, there is none, and nothing is
// put.
pub fn put_page(out: &mut [u8], p: Page, cells: [Cells; Table::MAX_TASKS]) -> Option<usize>
    ensures { (result ≡ page_answer p cells out.old) × (out.new ≡ page_into p cells out.old) }
{
    if out.len() < MAX_PAGE || Table::MAX_TASKS < p.n {
        return None;
    }
    Some(put_rows(out, p, cells))
}
