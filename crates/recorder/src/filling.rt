// The register of a text that is understood: its reports, each appended behind the last.
ghost use Rattle.std.specs.Prelude.{◌≡◌, IsTrue, set};
ghost use Rattle.recorder.specs.ByLine.{filled_from, lines_from};
ghost use Rattle.rules.specs.Station.{within_limits};
ghost use Rattle.rules_plan.specs.Recording.{started_with};
ghost use Rattle.rules_plan.specs.Words.{lines, unmarked};

use crate::parting::Lines;
use crate::saying::report_in;
use crate::{RegisterBytes, RowLines};
use plan_lines::line_in;
use rules::Settings;

// Starts a register of the settings, enters the reports of the text, and puts down the line of each.
pub(crate) fn fill(
    text: &[u8],
    settings: Settings,
    register: &mut RegisterBytes,
    rows: &mut RowLines,
)
    requires { IsTrue (within_limits settings) }
    ensures register_after { register.new ≡ (filled_from (started_with settings register.old) (lines (unmarked text.now))).bytes }
    ensures rows_after { rows.new ≡ lines_from 1 0 rows.old (lines (unmarked text.now)) }
{
    // Settings within their limits are never refused, and there is room for any register.
    register::start(register, settings).unwrap();
    let mut station = station::make(settings).unwrap();
    let mut count: usize = 0;
    for (line, found) in Lines::of(text).enumerate() {
        if let Some(report) = report_in(line_in(found)) {
            // A report that is refused is entered too, and leaves the station as it was.
            let _ = register::enter(register, count, &mut station, report);
            put_line(rows, count, line + 1);
            count += 1;
        }
    }
}

// Puts down the line of a row, where there is a place for it.
#[tactic(auto, using(crate::proofs::FilledOn::put_out))]
fn put_line(rows: &mut [usize], row: usize, line: usize)
    ensures { rows.new ≡ set rows.old row line }
{
    if row < rows.len() {
        rows[row] = line;
    }
}
