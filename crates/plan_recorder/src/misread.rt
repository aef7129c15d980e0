// What is wrong with a text, and on which line, which is shown.
use crate::MOST_TEXT;
use rules_plan::{Fault, Misread};

// As much of a line as is shown.
const SHOWN: usize = 72;

pub(crate) fn too_long(rt: &impl Eprint) {
    verb::tell(
        rt,
        format_args!("the text has more than {MOST_TEXT} bytes\n"),
    );
    nothing(rt);
}

pub(crate) fn told(rt: &impl Eprint, text: &[u8], misread: Misread) {
    match misread {
        Misread::TextEnds => verb::tell(
            rt,
            "the text ends before all six settings (tracks, t1, t2, t3, t4, t5)\n",
        ),
        Misread::AtLine { line, fault } => {
            verb::tell(rt, format_args!("line {line}: {}\n", what(fault)));
            shown(rt, line_of(text, line));
        }
    }
    nothing(rt);
}

fn what(fault: Fault) -> &'static str {
    match fault {
        Fault::NotAName => "not a setting, and not a kind of report",
        Fault::NumberMissing => "a number is missing",
        Fault::WordTooMany => "a word too many",
        Fault::NotAByte => "not a number from 0 to 255",
        Fault::NotSixteenBits => "not a number from 0 to 65535",
        Fault::LateSetting => "a setting after the first report",
        Fault::SetAlready => "set already",
        Fault::SettingsMissing => {
            "a report before all six settings (tracks, t1, t2, t3, t4, t5)"
        }
        Fault::SettingsOutside => "with this the settings are outside their limits",
        Fault::TooManyReports => "more than 8190 reports",
    }
}

fn nothing(rt: &impl Eprint) {
    verb::tell(rt, "Nothing is recorded.\n");
}

// A line that is counted from 1, the first behind a byte order mark.
fn line_of(text: &[u8], line: usize) -> &[u8] {
    let (_, unmarked) = text.split_at(recorder::after_mark(text));
    let mut lines = unmarked.split(|&found| found == b'\n');
    lines.nth(line.saturating_sub(1)).unwrap_or(&[])
}

// A line, set in, without the carriage return at its end. Whatever could move a terminal's cursor is shown as
// a question mark.
fn shown(rt: &impl Eprint, line: &[u8]) {
    verb::tell(rt, "    ");
    for &found in line.strip_suffix(b"\r").unwrap_or(line).iter().take(SHOWN) {
        verb::tell(rt, printable(found));
    }
    verb::tell(rt, "\n");
}

fn printable(found: u8) -> char {
    match found {
        b' '..=b'~' => char::from(found),
        _ => '?',
    }
}
