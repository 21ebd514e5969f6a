// Replays the known ends, and a sample of histories on which the crate left-right and a player agreed. Each schedule is played
// anew, and its transcript held against the one recorded. A line says that all are as recorded, or what the first difference is.
// Then it plays the schedules of standard input, which are refused.
#![tactic(auto)]

ghost use Rattle.std.specs.Prelude.{◌+◌, ◌<◌, length, IfSome};

use play::Played;
use std::alloc::AllocError;
use std::env::Env;
use std::io::Stdout;
use std::{fs, io};
use tell::{ROOM, is_blank, number, put, say, value};

const OUTPUT: usize = 32768;

// An entry's bytes, as README has them: nothing of `format` is used here.
const ENTRY: usize = 9;

// The longest schedule of those that are refused: two records.
const SHORT: usize = 45;

// What the output holds before a schedule is played, to see what of it was written.
const MARK: u8 = 165;

// ---- the sample

// A history of the sample.
#[derive(Debug, Clone, Copy, PartialEq, Eq)]
struct History<'a> {
    schedule: &'a [u8],
    recorded: &'a [u8],
}

// A part behind its length, and what comes behind it; nothing where the sample is cut short.
fn part(sample: &[u8]) -> Option<(&[u8], &[u8])>
    ensures { IfSome result (λ p. length p.0.now + length p.1.now < length sample.now) }
{
    let (length, rest) = sample.split_first_chunk::<4>()?;
    rest.split_at_checked(u32::from_le_bytes(*length) as usize)
}

// The first history, and what comes behind it; nothing where the sample is cut short.
fn first_history(sample: &[u8]) -> Option<(History<'_>, &[u8])>
    ensures { IfSome result (λ p. length p.0.recorded.now + length p.1.now < length sample.now) }
{
    let (schedule, rest) = part(sample)?;
    let (recorded, rest) = part(rest)?;
    Some((History { schedule, recorded }, rest))
}

// ---- a history

// The answer and the value of an entry, if it is there.
fn say_entry(to: Stdout, name: &str, entries: &[u8], i: usize) {
    let (entries, _) = entries.as_chunks::<ENTRY>();
    if let Some(entry) = entries.get(i) {
        let value = u64::from_le_bytes(*entry[1..].first_chunk().unwrap());
        say(to, format_args!("{name}{} {value}", entry[0]));
    }
}

// What differs: bytes, and the entry that has byte `i`.
fn say_difference(
    to: Stdout,
    number: usize,
    played: Played,
    i: usize,
    out: &[u8],
    recorded: &[u8],
) {
    let entry = i / ENTRY;
    say(
        to,
        format_args!(
            "history {number}: answer {}, bytes {}, recorded {}; entry {}",
            played.answer,
            played.written,
            recorded.len(),
            entry + 1
        ),
    );
    say_entry(to, ": ", out, entry);
    say_entry(to, ", recorded ", recorded, entry);
    say(to, "\n");
}

// How many bytes are the same in both, from the first on.
fn same(a: &[u8], b: &[u8]) -> usize {
    a.iter().zip(b).take_while(|(x, y)| x == y).count()
}

// Whether all is as recorded, and the byte behind the transcript was not written; what is not is said.
fn judge(to: Stdout, number: usize, played: Played, out: &[u8], recorded: &[u8]) -> bool {
    let n = recorded.len();
    let i = same(recorded, out);
    let is_marked = out.get(n).copied() == Some(MARK);
    if played.answer == 0 && played.written == n && i == n && is_marked {
        return true;
    }
    say_difference(to, number, played, i, out, recorded);
    false
}

fn replayed(to: Stdout, number: usize, history: History<'_>) -> bool {
    let mut out = [MARK; OUTPUT];
    let played = play::lrt_play(history.schedule, &mut out);
    judge(to, number, played, &out, history.recorded)
}

// A loop: where the sample is cut short, and at the first difference, it ends with a line.
fn replay(to: Stdout, sample: &[u8]) {
    let mut rest = sample;
    let mut histories: usize = 0;
    let mut entries: usize = 0;
    while !rest.is_empty() {
        histories += 1;
        let Some((history, behind)) = first_history(rest) else {
            say(to, format_args!("history {histories}: cut short\n"));
            return;
        };
        if !replayed(to, histories, history) {
            return;
        }
        entries += history.recorded.len() / ENTRY;
        rest = behind;
    }
    say(
        to,
        format_args!("{histories} histories, {entries} entries: as recorded\n"),
    );
}

// ---- the files

// An error's words, without the system's number behind them.
fn words(text: &str) -> &str {
    text.split_once(" (os error ")
        .map_or(text, |(words, _)| words)
}

// Tells on standard error what failed, and why.
fn fail(rt: HostRuntime, what: &[u8], why: io::Error) -> Result<(), AllocError> {
    let text = format!(in rt.alloc(); "{why}")?;
    let to = rt.stderr();
    let _ = to.write_all(what);
    let _ = to.println(format_args!(": {}", words(text.as_str())));
    Ok(())
}

// A path is UTF-8.
fn open(rt: HostRuntime, path: &[u8]) -> io::Result<fs::File> {
    match str::from_utf8(path) {
        Ok(text) => fs::open(&rt, text),
        Err(_) => Err(io::Error::from(io::ErrorKind::InvalidFilename)),
    }
}

fn replay_file(to: Stdout, file: fs::File) {
    let mut space = [0u8; ROOM];
    replay(to, tell::read_text(to, file, &mut space));
}

// The path is read into lent bytes: for a `String` there could be no memory.
fn replay_argument(rt: HostRuntime, k: usize) -> Result<(), AllocError> {
    let mut path = [0u8; 4096];
    let length = rt.arg(k, &mut path).unwrap_or(0);
    match open(rt, &path[..length]) {
        Ok(file) => {
            replay_file(rt.stdout(), file);
            Ok(())
        }
        Err(e) => fail(rt, &path[..length], e),
    }
}

// ---- what refuses a schedule

// The bytes that a line gives, and zeros behind them.
fn bytes(line: &[u8]) -> [u8; SHORT] {
    let mut bytes = [0; SHORT];
    for (byte, word) in bytes.iter_mut().zip(line.split(is_blank).skip(3)) {
        *byte = (number(word) % 256) as u8;
    }
    bytes
}

// Plays a line's schedule, and says what came back and how many bytes of the output were written.
fn refused(to: Stdout, line: &[u8]) {
    let bytes = bytes(line);
    let mut out = [MARK; SHORT];
    let room = SHORT.min(value(line, 1) as usize);
    let n = SHORT.min(value(line, 2) as usize);
    let played = play::lrt_play(&bytes[..n], &mut out[..room]);
    let changed = out.iter().filter(|b| **b != MARK).count();
    put(to, line);
    say(
        to,
        format_args!(
            " -> {} {}, changed {changed}\n",
            played.answer, played.written
        ),
    );
}

// A line for each schedule: a name, the output's room, the schedule's length and its bytes, without the zeros behind them.
fn refusals(rt: HostRuntime) {
    let to = rt.stdout();
    let mut space = [0u8; ROOM];
    let text = tell::read_text(to, rt.stdin(), &mut space);
    for line in text.split_inclusive(|b| *b == b'\n') {
        refused(to, line.strip_suffix(b"\n").unwrap_or(line));
    }
}

// The first argument names the known ends, the second the sample.
fn main(rt: HostRuntime) -> Result<(), AllocError> {
    replay_argument(rt, 1)?;
    replay_argument(rt, 2)?;
    refusals(rt);
    Ok(())
}
