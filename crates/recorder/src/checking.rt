// What is wrong with a text: the first line that is not understood where it stands.
ghost use Rattle.std.specs.Prelude.{◌≡◌};
ghost use Rattle.recorder.specs.Saying.{checked_in};
ghost use Rattle.rules_plan.specs.Faults.{checked};

use crate::parting::Lines;
use crate::saying::{all_given, with_line};
use plan_lines::line_in;
use rules_plan::{Misread, Said};

// What a text says, or what is wrong with it.
pub(crate) fn check(text: &[u8]) -> Result<Said, Misread>
    ensures { checked_in (checked text.now).said result ≡ checked text.now }
{
    let mut said = Said::default();
    for (line, found) in Lines::of(text).enumerate() {
        said = with_line(said, line_in(found)).map_err(|fault| Misread::AtLine {
            line: line + 1,
            fault,
        })?;
    }
    if all_given(said) {
        Ok(said)
    } else {
        Err(Misread::TextEnds)
    }
}
