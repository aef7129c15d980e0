// A planner's text: recorded into bytes that the caller lends, or read line by line.
ghost use Rattle.std.specs.Prelude.{◌≡◌};
ghost use Rattle.rules_plan.specs.Lines.{line_of};
ghost use Rattle.rules_plan.specs.Recording.{recorded_bytes, recorded_lines, recorded_of};

use recorder::{RegisterBytes, RowLines};
use rules_plan::{Line, Recorded};

// Writes the register that a planner's text means at the start of register, and the line of each of its
// rows into rows, row 1 first. Where something is wrong with the text it says what and on which line,
// and nothing is written.
#[unsafe(no_mangle)]
pub extern "C" fn degvuurel_record(
    text: &[u8],
    register: &mut RegisterBytes,
    rows: &mut RowLines,
) -> Recorded
    ensures value { result ≡ recorded_of text.now }
    ensures register_after { register.new ≡ recorded_bytes text.now register.old }
    ensures rows_after { rows.new ≡ recorded_lines text.now rows.old }
{
    recorder::record(text, register, rows).into()
}

// What a line says, without its line feed.
#[unsafe(no_mangle)]
pub extern "C" fn degvuurel_line_in(line: &[u8]) -> Line
    ensures { result ≡ line_of line.now }
{
    plan_lines::line_in(line).into()
}
