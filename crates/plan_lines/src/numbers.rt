// The numbers behind a name: what they fill, and what is wrong with the words there.
ghost use Rattle.std.specs.Prelude.{◌≡◌, []};
ghost use Rattle.plan_lines.specs.Behind.{left, reads, rest};
ghost use Rattle.rules.specs.Answered.{given};
ghost use Rattle.rules.specs.Screen.{our_number};
ghost use Rattle.rules_plan.specs.Answered.{fault_of, word_number};
ghost use Rattle.rules_plan.specs.Lines.{byte_at, mosts, number_at, numbers_of};
ghost use Rattle.rules_plan.specs.Words.{words as Words·words};

use crate::words::Words;
use rules::Report;
use rules_plan::{Fault, ReportWord, Setting, Word};

// The words behind a name that have not been read yet, and what is wrong with those that have. Each is read once:
// it fills its place, and the first that is at fault says what is wrong with the line.
#[derive(Clone, Copy)]
pub(crate) struct Behind<'a> {
    pub words: Words<'a>,
    pub understood: Result<(), Fault>,
}

impl Behind<'_> {
    // The next word as a byte, and 0 where it is none.
    fn byte(&mut self) -> u8
        ensures value { result ≡ byte_at (Words·words self.old.words.line.now) 0 }
        ensures words_after { Words·words self.new.words.line.now ≡ rest (Words·words self.old.words.line.now) }
        ensures told { reads 255 self.old.understood (Words·words self.old.words.line.now) self.new.understood (Words·words self.new.words.line.now) }
    {
        let fault = match self.words.next() {
            None => Fault::NumberMissing,
            Some(word) => match byte_in(word) {
                Some(number) => return number,
                None => Fault::NotAByte,
            },
        };
        self.understood = self.understood.and(Err(fault));
        0
    }

    // The next word in sixteen bits, and 0 where it is no number.
    fn sixteen_bits(&mut self) -> u16
        ensures value { result ≡ number_at (Words·words self.old.words.line.now) 0 }
        ensures words_after { Words·words self.new.words.line.now ≡ rest (Words·words self.old.words.line.now) }
        ensures told { reads 65535 self.old.understood (Words·words self.old.words.line.now) self.new.understood (Words·words self.new.words.line.now) }
    {
        let fault = match self.words.next() {
            None => Fault::NumberMissing,
            Some(word) => match digits::number_in(word) {
                Some(number) => return number,
                None => Fault::NotSixteenBits,
            },
        };
        self.understood = self.understood.and(Err(fault));
        0
    }

    // What is wrong, where no word may be left.
    pub(crate) fn ended(self) -> Result<(), Fault>
        ensures { fault_of result ≡ left [] self.entry.understood (Words·words self.entry.words.line.now) }
    {
        self.understood?;
        let mut words = self.words;
        match words.next() {
            None => Ok(()),
            Some(_) => Err(Fault::WordTooMany),
        }
    }
}

#[tactic(auto, using(crate::proofs::Numbered::no_byte, crate::proofs::Numbered::byte_of))]
fn byte_in(word: &[u8]) -> Option<u8>
    ensures { given result ≡ our_number 255 word.now }
{
    u8::try_from(digits::number_in(word)?).ok()
}

// What the numbers behind a name fill: for a setting its one number, or a report of its kind. A `report` is of any
// numbers, so that one can be entered that is refused.
#[tactic(auto, unfolding(rules_plan::specs::Lines::numbers_of))]
pub(crate) fn filled(word: Word, behind: &mut Behind<'_>) -> Report
    ensures value { result ≡ numbers_of (word_number word) (Words·words behind.old.words.line.now) }
    ensures told { left [] behind.new.understood (Words·words behind.new.words.line.now) ≡ left (mosts (word_number word)) behind.old.understood (Words·words behind.old.words.line.now) }
{
    match word {
        Word::Setting(Setting::Tracks) => reports::report(0, behind.byte(), 0, 0, 0),
        Word::Setting(_) => reports::report(0, 0, 0, 0, behind.sixteen_bits()),
        Word::Report(ReportWord::Occupied) => reports::occupied(behind.byte(), behind.byte()),
        Word::Report(ReportWord::Free) => reports::freed(behind.byte(), behind.byte()),
        Word::Report(ReportWord::Clock) => reports::clock(behind.sixteen_bits()),
        Word::Report(ReportWord::Failed) => reports::failed(behind.byte(), behind.byte()),
        Word::Report(ReportWord::Restored) => reports::restored(behind.byte(), behind.byte()),
        Word::Report(ReportWord::Head) => {
            reports::condition(behind.byte(), behind.sixteen_bits())
        }
        Word::Report(ReportWord::Normalise) => reports::normalise(),
        Word::Report(ReportWord::Report) => reports::report(
            behind.byte(),
            behind.byte(),
            behind.byte(),
            behind.byte(),
            behind.sixteen_bits(),
        ),
        Word::Other => Report::default(),
    }
}
