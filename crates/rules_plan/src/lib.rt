// A planner's text: what it says, and what is wrong with it, by name. What each means is in specs/.
// Nothing runs here but the conversions to the numbers and structs that C reads.
#![tactic(auto)]

ghost use Rattle.std.specs.Prelude.{◌≡◌};
ghost use Rattle.rules_plan.specs.Answered.{fault_number, recorded_in, said_line, word_number};

use rules::{Report, Settings};

// The settings, by number, in the order of their words in specs/Words.
#[derive(Clone, Copy, Debug, PartialEq, Eq)]
pub enum Setting {
    Tracks = 0,
    T1 = 1,
    T2 = 2,
    T3 = 3,
    T4 = 4,
    T5 = 5,
}

// The words for a report, by number, behind those of the settings. The last is for a report of any numbers.
#[derive(Clone, Copy, Debug, PartialEq, Eq)]
pub enum ReportWord {
    Occupied = 6,
    Free = 7,
    Clock = 8,
    Failed = 9,
    Restored = 10,
    Head = 11,
    Normalise = 12,
    Report = 13,
}

// The word that a line begins with.
#[derive(Clone, Copy, Debug, PartialEq, Eq)]
pub enum Word {
    Setting(Setting),
    Report(ReportWord),
    Other,
}

// A word that is none of these, and a line with no word.
pub const OTHER_WORD: u8 = 14;

pub const NO_WORD: u8 = 15;

impl From<Word> for u8 {
    ghost from_gives = { λ word number. number ≡ word_number word };

    fn from(word: Word) -> Self {
        match word {
            Word::Setting(setting) => setting as u8,
            Word::Report(report) => report as u8,
            Word::Other => OTHER_WORD,
        }
    }
}

// Nothing is wrong; and the text ends before all six settings.
pub const UNDERSTOOD: u8 = 0;

pub const TEXT_ENDS: u8 = 11;

// What is wrong with a line, by number: with its words by themselves, or where it stands. 11 has no line: it is a
// case of Misread.
#[derive(Clone, Copy, Debug, PartialEq, Eq)]
pub enum Fault {
    NotAName = 1,
    NumberMissing = 2,
    WordTooMany = 3,
    NotAByte = 4,
    NotSixteenBits = 5,
    LateSetting = 6,
    SetAlready = 7,
    SettingsMissing = 8,
    SettingsOutside = 9,
    TooManyReports = 10,
}

impl From<Fault> for u8 {
    ghost from_gives = { λ fault number. number ≡ fault_number fault };

    fn from(fault: Fault) -> Self {
        fault as u8
    }
}

// What a line says: the word that it begins with, if it has any; its numbers, each in the field of a report that
// it fills; and whether its words by themselves are understood.
#[derive(Clone, Copy)]
pub struct Spoken {
    pub word: Option<Word>,
    pub numbers: Report,
    pub understood: Result<(), Fault>,
}

// Why nothing is recorded of a text: a line that is not understood, counted from 1, or that the text ends before
// all six settings.
#[derive(Clone, Copy, Debug, PartialEq, Eq)]
pub enum Misread {
    AtLine { line: usize, fault: Fault },
    TextEnds,
}

// What a line says: the word that it begins with, what is wrong with its words by themselves, and its
// numbers, each in the field of a report that it fills.
#[repr(C)]
#[derive(Clone, Copy)]
pub struct Line {
    pub name: u8,
    pub fault: u8,
    pub numbers: Report,
}

impl From<Spoken> for Line {
    ghost from_gives = { λ spoken line. line ≡ said_line spoken };

    fn from(spoken: Spoken) -> Self {
        Self {
            name: match spoken.word {
                Some(word) => word.into(),
                None => NO_WORD,
            },
            fault: match spoken.understood {
                Ok(()) => UNDERSTOOD,
                Err(fault) => fault.into(),
            },
            numbers: spoken.numbers,
        }
    }
}

// What the lines so far have said: which settings, in the order of their words, and what they are; and
// how many reports.
#[derive(Clone, Copy, Default)]
pub struct Said {
    pub given: [bool; 6],
    pub settings: Settings,
    pub reports: usize,
}

// What is wrong with a text, or 0; the line that is at fault, counted from 1, or 0 where none is, as when
// the text ends too early; and what it says up to there.
#[derive(Clone, Copy)]
pub struct Checked {
    pub fault: u8,
    pub line: usize,
    pub said: Said,
}

// What recording a text gives: what is wrong with it, or 0; the line that is at fault, counted from 1,
// or 0 where none is, as when the text ends too early; and how many reports were entered.
#[repr(C)]
#[derive(Clone, Copy)]
pub struct Recorded {
    pub fault: u8,
    pub line: usize,
    pub count: usize,
}

impl From<Result<usize, Misread>> for Recorded {
    ghost from_gives = { λ went recorded. recorded ≡ recorded_in went };

    fn from(went: Result<usize, Misread>) -> Self {
        match went {
            Ok(count) => Self {
                fault: UNDERSTOOD,
                line: 0,
                count,
            },
            Err(Misread::AtLine { line, fault }) => Self {
                fault: fault.into(),
                line,
                count: 0,
            },
            Err(Misread::TextEnds) => Self {
                fault: TEXT_ENDS,
                line: 0,
                count: 0,
            },
        }
    }
}
