// Writes how far from the crossing the detectors stand, a line for each speed. After the first word
// comes the time that the message takes, in seconds, and then the speeds in km/h. A word that is no
// number up to 65535 stands for one that is outside every limit.
#![tactic(auto)]

use rules::{Decimetres, Refusal, Seconds};
use std::env::Env;
use std::io;
use std::process::ExitCode;
use verb::Status;

fn main(rt: HostRuntime) -> ExitCode {
    let mut room = [0u8; 20];
    let message = verb::word(&rt, 2, &mut room);
    verb::ended(&rt, table(&rt, message))
}

// The whole table, of the time that a message takes, and how that ended.
fn table(rt: &(impl Env + Print), message: &[u8]) -> io::Result<Status> {
    title(rt, message)?;
    let refused = lines(rt, number(message).into())?;
    Ok(Status::refused_if(refused))
}

// The number that a word stands for.
fn number(word: &[u8]) -> u16 {
    digits::number_in(word).unwrap_or(u16::MAX)
}

fn title(rt: &impl Print, message: &[u8]) -> io::Result<()> {
    verb::write(rt, b"The message takes ")?;
    verb::write(rt, message)?;
    verb::write(
        rt,
        b" s. The warning distance is for 1 to 4 tracks to cross.\n",
    )?;
    verb::write(
        rt,
        b" km/h    advance  warning 1  warning 2  warning 3  warning 4\n",
    )
}

// A line for each speed, and whether any was refused.
fn lines(rt: &(impl Env + Print), message: Seconds) -> io::Result<bool> {
    let mut refused = false;
    for place in 3..verb::words(rt) {
        refused |= line(rt, place, message)?;
    }
    Ok(refused)
}

// The speed that a word names, as it was typed, and its distances; and whether any was refused.
fn line(rt: &(impl Env + Print), place: usize, message: Seconds) -> io::Result<bool> {
    let mut room = [0u8; 20];
    let word = verb::word(rt, place, &mut room);
    let speed = number(word);
    cell(rt, b"     ", word)?;
    let mut refused = distance(rt, siting::advance(speed, message))?;
    for tracks in 1..=4 {
        refused |= distance(rt, siting::warning(speed, tracks))?;
    }
    verb::write(rt, b"\n")?;
    Ok(refused)
}

// A distance in metres with one decimal, or the number that it is refused with, in eleven columns; and
// whether it was refused.
fn distance(rt: &impl Print, sited: Result<Decimetres, Refusal>) -> io::Result<bool> {
    match sited {
        Ok(distance) => {
            let decimetres = u32::from(distance);
            print!(rt; "{:>7}.{} m", decimetres / 10, decimetres % 10)?;
        }
        Err(refusal) => print!(rt; "  refused {}", u8::from(refusal))?,
    }
    Ok(sited.is_err())
}

// A text at the right end of as many columns as there are blanks.
fn cell(rt: &impl Print, blanks: &[u8], text: &[u8]) -> io::Result<()> {
    if text.len() < blanks.len() {
        verb::write(rt, &blanks[text.len()..])?;
    }
    verb::write(rt, text)
}
