// Reads a register from standard input, and writes the message of its last row, for the station whose
// number is the second word. Where it cannot, it writes `refused` and the number.
#![tactic(auto)]

use rules::{Refusal, Unread};
use sheet::MOST_BYTES;
use std::io;
use std::process::ExitCode;
use verb::Status;

// The most bytes that a message has.
const LONGEST: usize = 87;

// One byte more than a register has: more is refused, and nobody needs the rest.
const ROOM: usize = MOST_BYTES + 1;

fn main(rt: HostRuntime) -> ExitCode {
    let mut word = [0u8; 6];
    let Some(number) = digits::number_in(verb::word(&rt, 2, &mut word)) else {
        return verb::ended(&rt, refused(&rt, Refusal::BadMember.into()));
    };
    let mut room = [0u8; ROOM];
    match verb::input(&rt, &mut room) {
        Some(input) => verb::ended(&rt, told(&rt, number, input)),
        None => ExitCode::SUCCESS,
    }
}

// Writes the message of a register's last row.
fn told(rt: &impl Print, number: u16, register: &[u8]) -> io::Result<Status> {
    if MOST_BYTES < register.len() {
        return refused(rt, Refusal::NoRoom.into());
    }
    match register::read(register) {
        Ok(last) => {
            let mut text = [0u8; LONGEST];
            let message = screen::message_of(number, last.station);
            let length = screen::write(message, &mut text).unwrap_or(0);
            verb::write(rt, &text[..length])?;
            verb::write(rt, b"\n")?;
            Ok(Status::Done)
        }
        Err(unread) => refused(rt, unread),
    }
}

fn refused(rt: &impl Print, unread: Unread) -> io::Result<Status> {
    let mut line = [0u8; 64];
    let entry = unread.entry() as u64;
    let length = sheet::refusal_line(&mut line, unread.number(), entry).unwrap_or(0);
    verb::write(rt, &line[..length])?;
    Ok(Status::Refused)
}
