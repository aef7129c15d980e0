// Reads a register from standard input, and writes its sheet, or the one line of a register that
// cannot be read, to standard output. What is written is all in sheet::print, and proved there.
#![tactic(auto)]

use sheet::MOST_BYTES;
use std::io;
use std::process::ExitCode;
use verb::Status;

// One byte more than a register has: more is refused, and nobody needs the rest.
const ROOM: usize = MOST_BYTES + 1;

fn main(rt: HostRuntime) -> ExitCode {
    let mut room = [0u8; ROOM];
    match verb::input(&rt, &mut room) {
        Some(input) => verb::ended(&rt, printed(&rt, input)),
        None => ExitCode::SUCCESS,
    }
}

fn printed(rt: &impl Print, input: &[u8]) -> io::Result<Status> {
    let mut text = [0u8; 188397];
    let length = sheet::print(input, &mut text);
    verb::write(rt, &text[..length])?;
    // A sheet begins with its title, `entry ..`; the one line of a register that cannot be read, `refused ..`.
    Ok(Status::refused_if(text[0] == b'r'))
}
