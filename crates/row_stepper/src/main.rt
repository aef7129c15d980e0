// Reads a register from standard input, and shows rows of it as they were: those that its words name
// after the first, in their order. A word that is no number up to 65535 names a row that no register has.
#![tactic(auto)]

mod reported;
mod showing;

use rules::Refusal;
use sheet::MOST_BYTES;
use std::env::Env;
use std::io;
use std::process::ExitCode;
use verb::Status;

// A row that no register has.
const NO_ROW: usize = 65536;

// One byte more than a register has: more is refused before any other test, as by the printer.
const ROOM: usize = MOST_BYTES + 1;

fn main(rt: HostRuntime) -> ExitCode {
    let mut room = [0u8; ROOM];
    match verb::input(&rt, &mut room) {
        Some(input) => verb::ended(&rt, rows(&rt, input)),
        None => ExitCode::SUCCESS,
    }
}

// The rows one after the other, up to the first that cannot be written.
fn rows(rt: &(impl Env + Print), register: &[u8]) -> io::Result<Status> {
    let mut refused = false;
    for place in 2..verb::words(rt) {
        refused |= row(rt, register, place)?;
    }
    Ok(Status::refused_if(refused))
}

// The row that a word names, and whether it was refused.
fn row(rt: &(impl Env + Print), register: &[u8], place: usize) -> io::Result<bool> {
    let mut room = [0u8; 20];
    let word = verb::word(rt, place, &mut room);
    showing::named(rt, word)?;
    if MOST_BYTES < register.len() {
        showing::refusal(rt, Refusal::NoRoom.into())?;
        return Ok(true);
    }
    let number = digits::number_in(word).map_or(NO_ROW, usize::from);
    match browser::browse(register, number) {
        Ok(reading) => {
            showing::row(rt, register::entry(register, number), reading.station)?;
            Ok(false)
        }
        Err(unread) => {
            showing::refusal(rt, unread)?;
            Ok(true)
        }
    }
}
