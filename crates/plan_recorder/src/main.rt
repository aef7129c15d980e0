// Reads a planner's text from standard input, and writes the register that it means to standard output.
// To standard error it tells which reports were refused, or what is wrong with the text, of which then
// nothing is recorded. What a text means is all in recorder::record, and proved there.
#![tactic(auto)]

mod misread;
mod telling;

use recorder::RegisterBytes;
use rules::{ENTRY, HEADER, MOST};
use std::io;
use std::process::ExitCode;
use verb::Status;

// The most bytes that a text has: 8,190 reports of 32 bytes each, comments among them. It is a limit of
// this program, whose room is on the stack, and of no rule.
pub(crate) const MOST_TEXT: usize = 262144;

// One byte more, to tell that there are more.
const ROOM: usize = MOST_TEXT + 1;

fn main(rt: HostRuntime) -> ExitCode {
    let mut room = [0u8; ROOM];
    match verb::input(&rt, &mut room) {
        Some(text) => verb::ended(&rt, recorded(&rt, text)),
        None => ExitCode::SUCCESS,
    }
}

fn recorded(rt: &(impl Eprint + Print), text: &[u8]) -> io::Result<Status> {
    if MOST_TEXT < text.len() {
        misread::too_long(rt);
        return Ok(Status::Refused);
    }
    let mut register = [0u8; 65536];
    let mut rows = [0usize; 8190];
    match recorder::record(text, &mut register, &mut rows) {
        Ok(count) => {
            // What was entered is told once it is written.
            written(rt, &register, count)?;
            telling::told(rt, &register, &rows, count);
            Ok(Status::Done)
        }
        Err(misread) => {
            misread::told(rt, text, misread);
            Ok(Status::Refused)
        }
    }
}

// Writes exactly the filled bytes. A function of its own, since the length of an array is known by a
// parameter's type.
fn written(rt: &impl Print, register: &RegisterBytes, count: usize) -> io::Result<()> {
    verb::write(rt, &register[..HEADER + ENTRY * count.min(MOST)])
}
