// A schedule's records and what came of them, one to a line.
use crate::gather::Page;
use format::{ENTRY, Fields, HEAD, RECORD};
use std::fmt::{Display, Formatter};
use std::{fmt, io};

// The answers' names, by the number in the file, which may be none of them.
const ANSWERS: [&str; 16] = [
    "done",
    "length",
    "broken",
    "gone",
    "no slot",
    "operation",
    "not now",
    "locked",
    "guards open",
    "no guard",
    "four guards",
    "log full",
    "slots full",
    "held",
    "declined",
    "none",
];

// The widths of the columns of the call, and of the answer's name with the blank before it.
const CALL_WIDE: usize = 34;

const MEANING_WIDE: usize = 14;

// An operation's kind: its name, or its number where it has none. The numbers are the file's, and get their text here alone.
#[derive(Clone, Copy)]
struct Kind(u64);

impl Display for Kind {
    fn fmt<W: fmt::Write>(&self, f: &mut Formatter<W>) -> fmt::Result {
        match self.0 {
            1 => f.write_str("add"),
            2 => f.write_str("drop"),
            3 => f.write_str("clear"),
            number => write!(f, "kind {number}"),
        }
    }
}

// A call with the fields that it uses. The call's numbers, too, are the file's: an enum of them would have this text and nothing else.
#[derive(Clone, Copy)]
struct Call(Fields);

impl From<&[u8; RECORD]> for Call {
    fn from(record: &[u8; RECORD]) -> Call {
        Call(format::fields_at(record, 0))
    }
}

impl Display for Call {
    fn fmt<W: fmt::Write>(&self, f: &mut Formatter<W>) -> fmt::Result {
        let Fields {
            call,
            slot,
            guard,
            kind,
            key,
            amount,
        } = self.0;
        match call {
            1 => f.write_str("create"),
            2 => write!(f, "drop slot {slot}"),
            3 => write!(f, "enter slot {slot}"),
            4 => write!(f, "go-on slot {slot}"),
            5 => write!(f, "release slot {slot} guard {guard}"),
            6 => write!(f, "look-up slot {slot} guard {guard} key {key}"),
            7 => write!(f, "was-dropped slot {slot}"),
            8 => {
                let kind = Kind(kind);
                write!(f, "append {kind} key {key} amount {amount}")
            }
            9 => f.write_str("publish"),
            10 => f.write_str("try"),
            11 => f.write_str("flush"),
            12 => f.write_str("take"),
            13 => f.write_str("step"),
            14 => f.write_str("run"),
            15 => write!(f, "batch of {amount}"),
            _ => f.write_str("?"),
        }
    }
}

// What came of a call.
#[derive(Clone, Copy, Default)]
struct Entry {
    answer: u8,
    value: u64,
}

impl From<&[u8; ENTRY]> for Entry {
    fn from(bytes: &[u8; ENTRY]) -> Entry {
        Entry {
            answer: bytes[0],
            value: u64::from_le_bytes(*bytes[1..].first_chunk().unwrap()),
        }
    }
}

// A record, by its number, with its entry of the transcript.
fn line(page: &mut Page, number: usize, call: Call, entry: Entry) {
    let Entry { answer, value } = entry;
    write!(page, "{number:>6}  ");
    let column = page.len() + CALL_WIDE;
    write!(page, "{call}");
    page.blanks_to(column);
    let meaning = ANSWERS.get(usize::from(answer)).copied().unwrap_or("?");
    write!(page, "{answer:>4}");
    let column = page.len() + MEANING_WIDE;
    write!(page, " {meaning}");
    page.blanks_to(column);
    writeln!(page, "{value}");
}

// One that belongs to the batch above it: indented, and with no entry.
fn member(page: &mut Page, number: usize, call: Call) {
    writeln!(page, "{number:>6}    {call}");
}

// Writes every record of a schedule, those with an entry with it, unless it cannot.
pub(crate) fn all<P: Print>(to: &P, schedule: &[u8], transcript: &[u8]) -> io::Result<()> {
    let (records, _) = schedule.get(HEAD..).unwrap_or(&[]).as_chunks::<RECORD>();
    let (entries, _) = transcript.as_chunks::<ENTRY>();
    let mut entries = entries.iter().map(Entry::from);
    let mut page = Page::new();
    // How many of the records to come belong to the batch above them.
    let mut left = 0;
    for (i, call) in records.iter().map(Call::from).enumerate() {
        if left > 0 {
            member(&mut page, i + 1, call);
            left -= 1;
        } else {
            line(&mut page, i + 1, call, entries.next().unwrap_or_default());
            left = call.0.members();
        }
        if page.is_full() {
            page.flush(to)?;
        }
    }
    page.flush(to)
}
