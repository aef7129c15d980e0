// What a line says.
ghost use Rattle.std.specs.Prelude.{◌≡◌};
ghost use Rattle.rules_plan.specs.Answered.{said_line, word_number};
ghost use Rattle.rules_plan.specs.Lines.{line_of, line_said};
ghost use Rattle.rules_plan.specs.Words.{words as Words·words};

use crate::names::name_of;
use crate::numbers::{Behind, filled};
use crate::words::{Words, uncommented};
use rules::Report;
use rules_plan::{Fault, Spoken, Word};

// What a line says, without its line feed.
#[tactic(auto, unfolding(rules_plan::specs::Lines::line_of))]
pub fn line_in(line: &[u8]) -> Spoken
    ensures { said_line result ≡ line_of line.now }
{
    let mut words = Words {
        line: uncommented(line),
    };
    match words.next() {
        None => Spoken {
            word: None,
            numbers: Report::default(),
            understood: Ok(()),
        },
        Some(word) => line_said(name_of(word), words),
    }
}

// A name, and what stands behind it. A word that is no name comes first.
fn line_said(word: Word, words: Words<'_>) -> Spoken
    ensures { said_line result ≡ line_said (word_number word) (Words·words words.entry.line.now) }
{
    let mut behind = Behind {
        words,
        understood: Ok(()),
    };
    let numbers = filled(word, &mut behind);
    Spoken {
        word: Some(word),
        numbers,
        understood: match word {
            Word::Other => Err(Fault::NotAName),
            _ => behind.ended(),
        },
    }
}
