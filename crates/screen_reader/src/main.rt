// Reads a message from standard input, and writes one line: `station 7 aspect 2 tracks 11110 11111`,
// or `refused` and the number.
#![tactic(auto)]

use rules::{Message, Refusal};
use std::io;
use std::process::ExitCode;
use verb::Status;

// One byte more than a message has: more is refused, and nobody needs the rest.
const ROOM: usize = 4097;

fn main(rt: HostRuntime) -> ExitCode {
    let mut room = [0u8; ROOM];
    match verb::input(&rt, &mut room) {
        Some(input) => verb::ended(&rt, told(&rt, input)),
        None => ExitCode::SUCCESS,
    }
}

// Writes what a text says.
fn told(rt: &impl Print, text: &[u8]) -> io::Result<Status> {
    match screen::read(text) {
        Ok(message) => {
            shown(rt, message)?;
            Ok(Status::Done)
        }
        Err(refusal) => {
            refused(rt, refusal)?;
            Ok(Status::Refused)
        }
    }
}

// Of the tracks only those that are there, a space before each, and each by one write.
fn shown(rt: &impl Print, message: Message) -> io::Result<()> {
    print!(rt;
        "station {} aspect {} tracks",
        message.station, message.aspect
    )?;
    for track in message.digits.chunks_exact(5).take(message.tracks.into()) {
        let mut text = [b' '; 6];
        for (place, &digit) in text[1..].iter_mut().zip(track) {
            *place = if digit == 0 { b'0' } else { b'1' };
        }
        verb::write(rt, &text)?;
    }
    verb::write(rt, b"\n")
}

fn refused(rt: &impl Print, refusal: Refusal) -> io::Result<()> {
    let mut line = [0u8; 64];
    let length = sheet::refusal_line(&mut line, refusal.into(), 0).unwrap_or(0);
    verb::write(rt, &line[..length])
}
