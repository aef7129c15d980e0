// A row's lines, and an empty one behind them.
use crate::reported::report;
use register::ANSWER;
use rules::{Refusal, Station, TrackPresence, Unread, ZoneDigits};
use std::io;

// Room for any line.
const LINE: usize = 80;

// Writes a line of a label and two texts.
fn line(rt: &impl Print, label: &[u8], first: &[u8], second: &[u8]) -> io::Result<()> {
    let mut text = [0u8; LINE];
    let length = text::in_a_row(&mut text, &[label, first, second, b"\n"]).unwrap_or(0);
    verb::write(rt, &text[..length])
}

// The row's number, as it was asked for.
pub(crate) fn named(rt: &impl Print, word: &[u8]) -> io::Result<()> {
    line(rt, b"row       ", word, b"")
}

// What the row is refused with. The entry is named where the answer is 13.
pub(crate) fn refusal(rt: &impl Print, unread: Unread) -> io::Result<()> {
    match unread {
        Unread::Refused(refusal) => println!(rt; "refused   {}: {refusal}", u8::from(refusal))?,
        Unread::NotReplayed { entry } => println!(rt;
            "refused   13 at {entry}: the entry's answer or aspect is not what the replay gives"
        )?,
    }
    verb::write(rt, b"\n")
}

// The row's entry, and what its station shows.
pub(crate) fn row(rt: &impl Print, entry: &[u8], after: Station) -> io::Result<()> {
    entered(rt, entry)?;
    let aspect = station::aspect(after);
    println!(rt; "aspect    {} {aspect}", u8::from(aspect))?;
    heads(rt, after)?;
    zones(rt, station::zones(after))?;
    presence(rt, station::presence(after))?;
    verb::write(rt, b"\n")
}

// Row 0 has no entry, so that its part is empty. An entry has its answer behind the report.
fn entered(rt: &impl Print, entry: &[u8]) -> io::Result<()> {
    let Some(&number) = entry.get(ANSWER) else {
        return verb::write(rt, b"report    none, the fresh station\n");
    };
    report(rt, register::report_in(entry))?;
    answer(rt, number)
}

// The answer of an entry: no other than 0 to 7 is entered.
fn answer(rt: &impl Print, number: u8) -> io::Result<()> {
    match Refusal::try_from(number) {
        Ok(refusal) => println!(rt; "answer    {number} {refusal}"),
        Err(_) => verb::write(rt, b"answer    0 done\n"),
    }
}

// The outputs of each head, in columns as a sheet has them: a blank stands behind each.
fn heads(rt: &impl Print, after: Station) -> io::Result<()> {
    let shown = station::heads(after);
    let first = sheet::output_column(shown[0]);
    let second = sheet::output_column(shown[1]);
    line(rt, b"heads     ", &first, &second[..9])
}

// The five digits of a sheet's column, which has a blank on both sides.
fn zones(rt: &impl Print, digits: ZoneDigits) -> io::Result<()> {
    let column = sheet::zone_column(digits);
    line(rt, b"zones     ", &column[1..6], b"")
}

// The tracks that count for the greatest risk.
fn presence(rt: &impl Print, counts: TrackPresence) -> io::Result<()> {
    let label = match counts.iter().filter(|&&counted| counted).count() {
        0 => "no track",
        1 => "track",
        _ => "tracks",
    };
    print!(rt; "presence  {label}")?;
    for (track, &counted) in counts.iter().enumerate() {
        if counted {
            print!(rt; " {track}")?;
        }
    }
    verb::write(rt, b"\n")
}
