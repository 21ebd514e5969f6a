// What is said on standard error.
use crate::arguments::{PATH, name};
use std::env::FillError;
use std::fmt::{Display, Formatter};
use std::io::{Error, ErrorKind};
use std::{fmt, io};

// The system's numbers of what can be wrong with FILE before it is opened: it is not given, and it is too long.
const NOT_GIVEN: i32 = 22;

const TOO_LONG: i32 = 36;

// Why nothing was played, or nothing written.
#[derive(Clone, Copy)]
pub(crate) enum Problem {
    // The first argument is no command.
    Usage,
    // FILE is not given, or too long.
    Path(Error),
    // The file cannot be read.
    File(Error),
    // It has more records than fit.
    TooLong,
    Refused(Refusal),
    // Standard output cannot be written.
    Output(Error),
}

impl From<FillError> for Problem {
    fn from(error: FillError) -> Problem {
        Problem::Path(Error::from_raw_os_error(match error {
            FillError::NotPresent => NOT_GIVEN,
            FillError::TooLong => TOO_LONG,
        }))
    }
}

// What refuses a file, and at which record: by its number, since `refuse` takes any.
#[derive(Clone, Copy)]
pub(crate) struct Refusal {
    pub answer: u64,
    pub place: usize,
}

// No `Fault` of `format`: any number may be told, and one that is no fault's is told as the last.
#[derive(Clone, Copy)]
enum Reason {
    Mark,
    Version,
    Torn,
    Call,
    Room,
}

// The output is never too short, since it has room for every record that the schedule has.
impl From<u64> for Reason {
    fn from(answer: u64) -> Reason {
        match answer {
            21 => Reason::Mark,
            22 => Reason::Version,
            23 => Reason::Torn,
            24 => Reason::Call,
            _ => Reason::Room,
        }
    }
}

impl Display for Reason {
    fn fmt<W: fmt::Write>(&self, f: &mut Formatter<W>) -> fmt::Result {
        f.write_str(match *self {
            Reason::Mark => "mark (a schedule begins with LRT and a version), before",
            Reason::Version => "version (only 1 is known), before",
            Reason::Torn => "torn record (a record has 20 bytes), at",
            Reason::Call => "a call not 1 to 15, or a batch whose appends are not there, at",
            Reason::Room => "output too short, at",
        })
    }
}

// Records count from 1; a mark or a version is wrong before the first.
impl Display for Refusal {
    fn fmt<W: fmt::Write>(&self, f: &mut Formatter<W>) -> fmt::Result {
        let answer = self.answer;
        let reason = Reason::from(answer);
        let record = self.place.wrapping_add(1);
        write!(f, "refused with {answer}, {reason} record {record}")
    }
}

// Whether something could be written is passed over, unless nobody reads it any more: then the program ends.
pub(crate) fn unless_closed(written: io::Result<()>) -> io::Result<()> {
    match written {
        Err(error) if error.kind() == ErrorKind::BrokenPipe => Err(error),
        _ => Ok(()),
    }
}

// A line on something with a name. The name need not be UTF-8, so it is no argument of the format.
fn say<D: Display + Drop>(rt: &HostRuntime, name: &[u8], text: D) -> io::Result<()> {
    let to = rt.stderr();
    unless_closed(to.print("lrt: "))?;
    unless_closed(to.write_all(name))?;
    unless_closed(to.println(format_args!(": {text}")))
}

// An error's text with no number of the system's behind it.
fn words(printed: &str) -> &str {
    printed
        .rsplit_once(" (os error ")
        .map_or(printed, |(words, _)| words)
}

// What went wrong, in the system's words.
fn say_error(rt: &HostRuntime, name: &[u8], error: Error) -> io::Result<()> {
    let printed = format!(in rt.alloc(); "{error}")?;
    say(rt, name, words(printed.as_str()))
}

pub(crate) fn tell(rt: &HostRuntime, problem: Problem) -> io::Result<()> {
    let mut room = [0u8; PATH];
    let name = name(rt, &mut room);
    match problem {
        // At once: who reads no more than its begin must not change what comes of it.
        Problem::Usage => unless_closed(
            rt.stderr().println("lrt: wanted: play FILE, or show FILE"),
        ),
        Problem::Path(error) => say_error(rt, b"FILE", error),
        Problem::File(error) => say_error(rt, name, error),
        Problem::TooLong => say(
            rt,
            name,
            "over 100,000 records, which is all that this program holds",
        ),
        Problem::Refused(refusal) => say(rt, name, refusal),
        Problem::Output(error) => say_error(rt, b"standard output", error),
    }
}
