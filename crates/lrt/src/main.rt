// Plays the schedule that its arguments name, and writes what came of it.
#![tactic(auto)]

use page::{SCHEDULE, TRANSCRIPT};
use std::io;
use std::io::ErrorKind;
use std::process::ExitCode;

// The status of a program that the system stopped at a pipe that nobody reads any more: 128 and the signal's number.
const CLOSED: u8 = 141;

// What C gets is played here too, so that the program shows what the library answers; the place of what is wrong is looked for once more.
fn run(rt: &HostRuntime, schedule: &[u8], out: &mut [u8; TRANSCRIPT]) -> io::Result<()> {
    let played = play::lrt_play(schedule, out);
    if played.answer == 0 {
        // No more is written than there is room, which the minimum shows.
        page::write(rt, schedule, &out[..played.written.min(TRANSCRIPT)])
    } else {
        let place = match format::check(schedule) {
            // That there is too little room is found at the end.
            Ok(_) => format::count(schedule),
            Err(flaw) => flaw.place,
        };
        page::refuse(rt, played.answer, place)
    }
}

fn read_and_run(
    rt: &HostRuntime,
    buf: &mut [u8; SCHEDULE],
    out: &mut [u8; TRANSCRIPT],
) -> io::Result<()> {
    match page::read(rt, buf)? {
        Some(schedule) => run(rt, schedule, out),
        None => Ok(()),
    }
}

fn main(rt: HostRuntime) -> io::Result<ExitCode> {
    let mut buf = [0u8; SCHEDULE];
    let mut out = [0u8; TRANSCRIPT];
    match read_and_run(&rt, &mut buf, &mut out) {
        Ok(()) => Ok(ExitCode::SUCCESS),
        Err(error) if error.kind() == ErrorKind::BrokenPipe => Ok(ExitCode::from(CLOSED)),
        Err(error) => Err(error),
    }
}
