// The words that a line may begin with.
ghost use Rattle.std.specs.Prelude.{◌≡◌};
ghost use Rattle.rules_plan.specs.Answered.{word_number};
ghost use Rattle.rules_plan.specs.Words.{name_of};

use rules_plan::{ReportWord, Setting, Word};

const NAMES: [(&[u8], Word); 14] = [
    (b"tracks", Word::Setting(Setting::Tracks)),
    (b"t1", Word::Setting(Setting::T1)),
    (b"t2", Word::Setting(Setting::T2)),
    (b"t3", Word::Setting(Setting::T3)),
    (b"t4", Word::Setting(Setting::T4)),
    (b"t5", Word::Setting(Setting::T5)),
    (b"occupied", Word::Report(ReportWord::Occupied)),
    (b"free", Word::Report(ReportWord::Free)),
    (b"clock", Word::Report(ReportWord::Clock)),
    (b"failed", Word::Report(ReportWord::Failed)),
    (b"restored", Word::Report(ReportWord::Restored)),
    (b"head", Word::Report(ReportWord::Head)),
    (b"normalise", Word::Report(ReportWord::Normalise)),
    (b"report", Word::Report(ReportWord::Report)),
];

// Which of them a word is, in either case.
pub(crate) fn name_of(word: &[u8]) -> Word
    ensures { word_number result ≡ name_of word.now }
{
    for &(name, meant) in &NAMES {
        if word.eq_ignore_ascii_case(name) {
            return meant;
        }
    }
    Word::Other
}
