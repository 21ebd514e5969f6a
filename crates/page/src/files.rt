// The file that is played.
ghost use Rattle.std.specs.Prelude.{◌<◌, length, IfOk};

use crate::SCHEDULE;
use crate::arguments::{Command, PATH, path};
use crate::messages::Problem;
use std::fs::File;
use std::io::{Error, Read};
use std::{fs, io};

// The system's number of a path that is not UTF-8: the library opens no other.
const NOT_TEXT: i32 = 84;

// Reads to the end of the input, or until the buffer is full, and answers how many bytes were read. A loop by hand: std's `read_to_end`
// wants room on the heap, and its `read_exact` does not say how much it read.
fn read_all<R: Read>(from: &mut R, buf: &mut [u8]) -> io::Result<usize> {
    let mut n = 0;
    while n < buf.len() {
        let more = from.read(&mut buf[n..])?;
        if more == 0 {
            break;
        }
        n += more;
    }
    Ok(n)
}

fn open(rt: &HostRuntime, path: &[u8]) -> io::Result<File> {
    let path = std::str::from_utf8(path).map_err(|_| Error::from_raw_os_error(NOT_TEXT))?;
    fs::open(rt, path)
}

// Reads the file at a path, or standard input where that is "-".
fn read_path(rt: &HostRuntime, path: &[u8], buf: &mut [u8]) -> io::Result<usize> {
    if path == b"-".as_slice() {
        return read_all(&mut rt.stdin(), buf);
    }
    read_all(&mut open(rt, path)?, buf)
}

// Reads FILE, if something is wanted of it.
pub(crate) fn read<'a>(rt: &HostRuntime, buf: &'a mut [u8; SCHEDULE]) -> Result<&'a [u8], Problem>
    ensures { IfOk result (λ schedule. length schedule.now < SCHEDULE) }
{
    Command::given(rt).ok_or(Problem::Usage)?;
    let mut room = [0u8; PATH];
    let path = path(rt, &mut room)?;
    let n = read_path(rt, path, buf).map_err(Problem::File)?;
    if n >= SCHEDULE {
        return Err(Problem::TooLong);
    }
    Ok(&buf[..n])
}
