// The digit on descriptor 3. The library opens files by their names alone, and this is the descriptor's.
use crate::arguments::has_name;
use crate::messages::{Problem, unless_closed};
use std::env::Env;
use std::fs::OpenOptions;
use std::io::{Read, Write};
use std::rt::Files;
use std::{fs, io};

const STATUS: &str = "/dev/fd/3";

// Where the system describes the descriptor, in lines: one begins with flags, and ends with 1 or 2 where the descriptor can be written.
const DESCRIPTION: &str = "/proc/self/fdinfo/3";

// More than the lines up to that one have.
const LONGEST: usize = 128;

// What came of the file.
#[derive(Clone, Copy)]
pub(crate) enum Outcome {
    Well,
    Refused,
    Failed,
}

impl From<Problem> for Outcome {
    fn from(problem: Problem) -> Outcome {
        match problem {
            Problem::Refused(_) => Outcome::Refused,
            _ => Outcome::Failed,
        }
    }
}

impl Outcome {
    fn digit(self) -> u8 {
        match self {
            Outcome::Well => b'0',
            Outcome::Refused => b'1',
            Outcome::Failed => b'2',
        }
    }
}

fn description<'a>(rt: &impl Files, room: &'a mut [u8]) -> Option<&'a str> {
    let mut file = fs::open(rt, DESCRIPTION).ok()?;
    let n = file.read(room).ok()?;
    std::str::from_utf8(&room[..n]).ok()
}

// Whether the descriptor is open, and for writing: what it was opened for reading alone must stay as it is.
fn is_writable(rt: &impl Files) -> bool {
    let mut room = [0u8; LONGEST];
    let text = description(rt, &mut room).unwrap_or("");
    text.lines().any(|line| line.starts_with("flags:")
        && (line.ends_with('1') || line.ends_with('2')))
}

fn write(rt: &impl Files, digit: u8) -> io::Result<()> {
    let mut file = OpenOptions::new().append(true).open(rt, STATUS)?;
    file.write_all(&[digit])
}

// Only who gives NAME waits for the digit.
pub(crate) fn put(rt: &(impl Env + Files), outcome: Outcome) -> io::Result<()> {
    if has_name(rt) && is_writable(rt) {
        unless_closed(write(rt, outcome.digit()))
    } else {
        Ok(())
    }
}
