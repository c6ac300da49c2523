// The text of a report, as in the program `report` but for the allowance and the fifth column. Here the verdicts are taken apart; all else is `page`'s.
ghost use Rattle.std.specs.Prelude.{◌≡◌, ◌++◌, ◌≤◌, length, drop};
ghost use Rattle.page.specs.declared.Columns.TheVariants.{Four};
ghost use Rattle.page.specs.Report.{bench_allowance, max_page, report_text};
ghost use Rattle.page.specs.Pages.{cells_of};

use analysis::Record;
use page::{Cells, Columns, Word};
use refusal::Source;
use std::array;
use theory::Verdict;

// The rounds that are allowed for each task.
const ALLOWANCE: u32 = 5;

// What stands in a row for the verdict of a record. `report` has it too: each program takes the verdict apart itself, and a public function of `page` that took the function instead
// would have to require that it may be called.
fn cells_of(x: Record) -> Cells
    ensures { result ≡ cells_of x.verdict }
{
    match x.verdict {
        Verdict::Meets(t) => Cells(Word::Meets, Some(t)),
        Verdict::Misses => Cells(Word::Misses, None),
        Verdict::Open => Cells(Word::Open, None),
    }
}

// The report on a listing.
pub(crate) fn report(listing: &[u8], out: &mut [u8]) -> usize
    requires { max_page ≤ length out.old }
    ensures { (result ≡ length (report_text Four bench_allowance listing.now)) × (out.new ≡ report_text Four bench_allowance listing.now ++ drop result out.old) }
{
    match page::page_of(listing, Columns::Four, ALLOWANCE) {
        Ok(p) => {
            let cells = array::from_fn(|i| cells_of(p.rows[i]));
            page::put_page(out, p, cells).unwrap_or(0)
        }
        Err(r) => refusal::put_refusal(out, Source::Listing, r).unwrap_or(0),
    }
}
