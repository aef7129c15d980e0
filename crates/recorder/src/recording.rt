// Recording: a text is read to its end before anything is written of it.
ghost use Rattle.std.specs.Prelude.{◌≡◌};
ghost use Rattle.rules_plan.specs.Answered.{recorded_in};
ghost use Rattle.rules_plan.specs.Recording.{recorded_bytes, recorded_lines, recorded_of};

use crate::checking::check;
use crate::filling::fill;
use crate::{RegisterBytes, RowLines};
use rules_plan::Misread;

// Records a planner's text: the register that it means is written at the start of the bytes lent, and
// the line of each of its rows into the list lent, row 1 first. It says how many reports were entered.
// Where something is wrong with the text it says what and on which line, and nothing is written.
pub fn record(
    text: &[u8],
    register: &mut RegisterBytes,
    rows: &mut RowLines,
) -> Result<usize, Misread>
    ensures value { recorded_in result ≡ recorded_of text.now }
    ensures register_after { register.new ≡ recorded_bytes text.now register.old }
    ensures rows_after { rows.new ≡ recorded_lines text.now rows.old }
{
    let said = check(text)?;
    fill(text, said.settings, register, rows);
    Ok(said.reports)
}
