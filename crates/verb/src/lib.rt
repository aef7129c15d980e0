// What a verb's program shares of the world outside: its words, what it reads and writes, and how it says
// to the command at its end how it went. Where its first word is 3 it writes one digit to descriptor 3,
// which the command holds. Where nothing comes, the program was stopped.
//
// This is the one library that touches the world outside, where no contract can say what happens.
#![tactic(auto)]

ghost use Rattle.std.specs.Prelude.{◌≤◌, IfSome, length};

use std::env::{Env, FillError};
use std::fmt::Display;
use std::fs::OpenOptions;
use std::io::{Cursor, ErrorKind, Read, Write};
use std::os::unix::fs::PermissionsExt;
use std::process::ExitCode;
use std::rt::Files;
use std::{fs, io};

// How it went: all was done; something was refused; the input cannot be read; the output cannot be written.
#[derive(Clone, Copy, Debug, PartialEq, Eq)]
pub enum Status {
    Done = 0,
    Refused = 1,
    NotRead = 2,
    NotWritten = 3,
}

impl From<Status> for u8 {
    fn from(status: Status) -> Self {
        status as u8
    }
}

impl Status {
    // Where something was refused, or else nothing was.
    pub fn refused_if(refused: bool) -> Self {
        if refused { Self::Refused } else { Self::Done }
    }
}

// What a shell has as the status of a program that a closed pipe stopped.
const PIPE_CLOSED: u8 = 141;

// Descriptor 3, by the name that the system has for it.
const STATUS: &str = "/proc/self/fd/3";

// The permission by which the system shows that a descriptor can be written.
const WRITABLE: u32 = 0o200;

// How many words the program was started with, its own name among them.
pub fn words(rt: &impl Env) -> usize {
    let is_none = |&place: &usize| matches!(rt.arg(place, &mut []), Err(FillError::NotPresent));
    (0..usize::MAX).find(is_none).unwrap_or(usize::MAX)
}

// A word, in the room that is lent for it. It is empty also where there is no such word, and where the word
// is longer than the room. Word 0 is the program's name.
pub fn word<'a>(rt: &impl Env, place: usize, room: &'a mut [u8]) -> &'a [u8]
    ensures in_bounds { length result.now ≤ length room.old }
{
    let length = rt.arg(place, room).unwrap_or(0);
    &room[..length]
}

// What standard input gives until the room that is lent for it is full, the input ends or it cannot be read on.
pub fn read<'a>(rt: &impl Input, room: &'a mut [u8]) -> &'a [u8]
    ensures in_bounds { length result.now ≤ length room.old }
{
    let mut reader = rt.reader();
    let mut done = 0;
    while done < room.len() {
        match reader.read(&mut room[done..]) {
            Ok(0) | Err(_) => break,
            Ok(count) => done += count,
        }
    }
    &room[..done]
}

// Whether the input, read as far as it went, ended because it could not be read on: a reading that
// fails looks like the end of what is read, and a part would be taken for the whole. That is then how
// it went, and nothing is left to do.
pub fn input_failed(rt: &(impl Input + Env + Eprint + Files)) -> bool {
    let mut one = [0u8; 1];
    match rt.reader().read(&mut one) {
        Ok(_) => false,
        Err(error) => {
            fail(rt, "the input cannot be read", error);
            say(rt, Status::NotRead.into());
            true
        }
    }
}

// Writes a text to standard output: all of it, or the error tells why not.
pub fn write(rt: &impl Print, text: &[u8]) -> io::Result<()> {
    rt.write_all(text)
}

// Writes a text to standard error. Where that cannot be written there is nobody to tell.
pub fn tell(rt: &impl Eprint, text: impl Display + Drop) {
    let _ = rt.eprint(text);
}

// What standard input gives, in the room that is lent for it, where it could be read on to its end. Where it could
// not, that is told as how it went.
pub fn input<'a>(rt: &(impl Input + Env + Eprint + Files), room: &'a mut [u8]) -> Option<&'a [u8]>
    ensures in_bounds { IfSome result (λ input. length input.now ≤ length room.old) }
{
    let input = read(rt, room);
    if input_failed(rt) { None } else { Some(input) }
}

// The end of a verb, with its status by number where its output was all written, and the program's own status,
// which is 0. A reader that had enough is no news: the program ends as if it were stopped by that.
pub fn ended(rt: &(impl Env + Eprint + Files), went: io::Result<impl Into<u8> + Drop>) -> ExitCode {
    match went {
        Ok(status) => say(rt, status.into()),
        Err(error) => {
            if error.kind() == ErrorKind::BrokenPipe {
                return ExitCode::from(PIPE_CLOSED);
            }
            fail(rt, "the output cannot be written", error);
            say(rt, Status::NotWritten.into());
        }
    }
    ExitCode::SUCCESS
}

// Writes a line to standard error: what failed, and why, in the system's words.
fn fail(rt: &impl Eprint, what: &str, error: io::Error) {
    // Room for any of the system's errors.
    let mut shown = Cursor::new([0u8; 96]);
    let _ = write!(shown, "{error}");
    let length = shown.position() as usize;
    let text = shown.into_inner();
    let why = words_alone(&text[..length.min(text.len())]);
    let _ = rt.eprintln(format_args!("{what}: {why}"));
}

// An error is shown with its number behind its words.
fn words_alone(shown: &[u8]) -> &str {
    let text = str::from_utf8(shown).unwrap_or("");
    match text.split_once(" (os error ") {
        Some((words, _)) => words,
        None => text,
    }
}

fn say(rt: &(impl Env + Files), status: u8) {
    if word(rt, 1, &mut [0u8; 1]) == b"3".as_slice() {
        // Where it cannot be said, the program looks like one that was stopped.
        let _ = digit(rt, status);
    }
}

// Writes the digit at the end of what is there, so that a file keeps what it has. A descriptor that can
// only be read is left alone, though by its name its file could be written.
fn digit(rt: &impl Files, status: u8) -> io::Result<()> {
    let mode = fs::symlink_metadata(rt, STATUS)?.permissions().mode();
    if mode & WRITABLE == 0 {
        return Ok(());
    }
    let mut file = OpenOptions::new().append(true).open(rt, STATUS)?;
    file.write_all(&[b'0' + status.min(Status::NotWritten as u8)])
}
