// What the program `lrt` reads and writes. It is started so:
//
//   lrt play FILE [NAME]
//   lrt show FILE [NAME]
//
// FILE is a packed schedule, or - for standard input. The exit status does not tell what came of it: where NAME is given, which
// is what messages then call the file, a digit goes to descriptor 3: 0 well, 1 the file is refused, 2 anything else.
//
// What the public functions do besides their answers is seen outside alone. Their errors are that nobody reads what is written any
// more, and that there is no memory for a message.
#![tactic(auto)]

mod arguments;
mod files;
mod gather;
mod messages;
mod show;
mod status;

ghost use Rattle.std.specs.Prelude.{◌<◌, length, IfOk, IfSome};

use arguments::Command;
use format::{ENTRY, HEAD, RECORD};
use messages::{Problem, Refusal};
use status::Outcome;
use std::io;
use std::io::ErrorKind;

// So many records a schedule may have.
const RECORDS: usize = 100000;

// One byte more than the longest schedule has, to see that a file has no more.
pub const SCHEDULE: usize = HEAD + RECORDS * RECORD + 1;

pub const TRANSCRIPT: usize = RECORDS * ENTRY;

// The end of a file that came to nothing, which is said.
fn fail(rt: &HostRuntime, problem: Problem) -> io::Result<()> {
    messages::tell(rt, problem)?;
    status::put(rt, Outcome::from(problem))
}

// Reads the file into the buffer: its bytes, or none where there is nothing to be played, which has then been said.
pub fn read<'a>(rt: &HostRuntime, buf: &'a mut [u8; SCHEDULE]) -> io::Result<Option<&'a [u8]>>
    ensures { IfOk result (λ read. IfSome read (λ schedule. length schedule.now < SCHEDULE)) }
{
    match files::read(rt, buf) {
        Ok(schedule) => Ok(Some(schedule)),
        Err(problem) => {
            fail(rt, problem)?;
            Ok(None)
        }
    }
}

// The end of a file that is refused, with a number, at a record.
pub fn refuse(rt: &HostRuntime, answer: u64, place: usize) -> io::Result<()> {
    fail(rt, Problem::Refused(Refusal { answer, place }))
}

fn write_all(rt: &HostRuntime, schedule: &[u8], transcript: &[u8]) -> io::Result<()> {
    match Command::given(rt) {
        Some(Command::Show) => show::all(rt, schedule, transcript),
        _ => rt.write_all(transcript),
    }
}

// The end of a schedule that was played: writes what is wanted of it and of its transcript.
pub fn write(rt: &HostRuntime, schedule: &[u8], transcript: &[u8]) -> io::Result<()> {
    match write_all(rt, schedule, transcript) {
        Ok(()) => status::put(rt, Outcome::Well),
        Err(error) if error.kind() == ErrorKind::BrokenPipe => Err(error),
        Err(error) => fail(rt, Problem::Output(error)),
    }
}
