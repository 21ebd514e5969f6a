// The bytes of schedules and transcripts. A schedule is a mark, a version, and records of 20 bytes; a transcript is entries of 9.
#![tactic(auto)]

ghost use Rattle.std.specs.Prelude.{◌≡◌, ◌+◌, ◌≤◌, ◌<◌, ◌==◌, slice_index, length, drop};
ghost use Rattle.std.specs.List.{list_all, range_with_len};
ghost use Rattle.format.specs.Schedule.{head_bytes, record_bytes, count as count_rule, start_of, fields_at, members_in, bad_at, fault_number, flaw_in, flaw_of};
ghost use Rattle.format.specs.Transcript.{put_rule};

// How many bytes there are before the records, in one, and in a record's entry.
pub const HEAD: usize = 5;

pub const RECORD: usize = 20;

pub const ENTRY: usize = 9;

// The calls of an operation and of a batch of them, which is the last of the calls. Numbers, as in `Fields`: a file's call may be none.
const APPEND: u8 = 8;

pub const BATCH: u8 = 15;

// What refuses a file, by the number that is given for it: no mark, another version, a torn record, a call that is none or a batch whose
// records are not there, and an output that is too short.
#[derive(Debug, Clone, Copy, PartialEq, Eq)]
pub enum Fault {
    Unmarked = 21,
    Version = 22,
    Torn = 23,
    Bad = 24,
    Crowded = 25,
}

impl From<Fault> for u64 {
    ghost from_gives = { λ fault number. number ≡ fault_number fault };

    fn from(fault: Fault) -> u64 {
        fault as u64
    }
}

// What is wrong with a schedule, and the record at which it was found.
#[derive(Debug, Clone, Copy, PartialEq, Eq)]
pub struct Flaw {
    pub fault: Fault,
    pub place: usize,
}

// What refuses the file, wherever it was found.
impl From<Flaw> for Fault {
    ghost from_gives = { λ flaw fault. fault ≡ flaw.fault };

    fn from(flaw: Flaw) -> Fault {
        flaw.fault
    }
}

// A record's fields, as they stand in the file: the call by its number, which may be none of the calls. `fields_at` promises it so.
#[derive(Debug, Clone, Copy, PartialEq, Eq)]
pub struct Fields {
    pub call: u64,
    pub slot: usize,
    pub guard: usize,
    pub kind: u64,
    pub key: u64,
    pub amount: u64,
}

impl Fields {
    // How many of the records behind it belong to it: those of a batch.
    pub fn members(&self) -> u64
        ensures { result ≡ members_in self.now }
    {
        if self.call == u64::from(BATCH) {
            self.amount
        } else {
            0
        }
    }
}

// How many whole records there are.
pub fn count(s: &[u8]) -> usize
    ensures { result ≡ count_rule s.now }
{
    s.len().saturating_sub(HEAD) / RECORD
}

// A whole record, field by field. Numbers stand lowest byte first.
fn fields_of(bytes: &[u8; RECORD]) -> Fields
    ensures { result ≡ fields_at bytes.now 0 }
{
    Fields {
        call: u64::from(bytes[0]),
        slot: usize::from(bytes[1]),
        guard: usize::from(bytes[2]),
        kind: u64::from(bytes[3]),
        key: u64::from_le_bytes(*bytes[4..].first_chunk().unwrap()),
        amount: u64::from_le_bytes(*bytes[12..].first_chunk().unwrap()),
    }
}

// The bytes from `at` on: none past the end.
fn rest_at(s: &[u8], at: usize) -> &[u8]
    ensures { result.now ≡ drop at s.now }
{
    s.get(at..).unwrap_or(&[])
}

// One that is cut short: what is missing is 0. Out of line: inlined, its array would be cleared for each whole record too.
#[cold]
#[inline(never)]
fn fields_short(s: &[u8], at: usize) -> Fields
    requires { length s.now < at + record_bytes }
    ensures { result ≡ fields_at s.now at }
{
    let rest = rest_at(s, at);
    let mut bytes = [0; RECORD];
    bytes[..rest.len()].copy_from_slice(rest);
    fields_of(&bytes)
}

// The record that begins at byte `at`. Bytes past the end are 0.
pub fn fields_at(s: &[u8], at: usize) -> Fields
    ensures { result ≡ fields_at s.now at }
{
    if let Some(rest) = s.get(at..)
        && let Some(bytes) = rest.first_chunk()
    {
        return fields_of(bytes);
    }
    fields_short(s, at)
}

// Whether the `m` records behind record `i` are all appends.
fn all_appends(s: &[u8], i: usize, m: usize) -> bool
    requires { start_of (i + 1 + m) ≤ length s.now }
    ensures { result ≡ list_all (λ j. slice_index s.now (start_of (i + 1 + j)) == 8) (range_with_len 0 m) }
{
    (0..m).all(|j| s[HEAD + RECORD * (i + 1 + j)] == APPEND)
}

// Whether record `i` of `n` is none of the calls, or a batch whose records are not there.
fn is_bad(s: &[u8], i: usize, n: usize) -> bool
    requires { (i < n) × (n ≡ count_rule s.now) × (start_of n ≤ length s.now) }
    ensures { result ≡ bad_at s.now i }
{
    let at = HEAD + RECORD * i;
    let call = s[at];
    if call < 1 || BATCH < call {
        return true;
    }
    let m = fields_at(s, at).members() as usize;
    n - i - 1 < m || !all_appends(s, i, m)
}

// What is wrong with records that are all whole, and how many entries they have where nothing is. Those inside a batch, which belong to
// it, are looked at with it, and get no entry. Only a batch and what is no call can be bad, so any other record is passed at once.
fn check_records(s: &[u8]) -> Result<usize, Flaw>
    requires { head_bytes ≤ length s.now }
    ensures { result ≡ flaw_in s.now }
{
    let n = count(s);
    let end = HEAD + RECORD * n;
    let mut inside = 0;
    let mut at = HEAD;
    // By index: what is bad is judged by its place, with the records behind it; those of a batch are then passed at once.
    while at < end {
        let call = s[at];
        if call < 1 || BATCH <= call {
            let i = (at - HEAD) / RECORD;
            if is_bad(s, i, n) {
                return Err(Flaw {
                    fault: Fault::Bad,
                    place: i,
                });
            }
            let m = fields_at(s, at).members() as usize;
            inside += m;
            at += RECORD * m;
        }
        at += RECORD;
    }
    Ok(n - inside)
}

// What is wrong with a schedule, but for the output's room, or how many entries its transcript will have.
pub fn check(s: &[u8]) -> Result<usize, Flaw>
    ensures { result ≡ flaw_of s.now }
{
    if s.len() < HEAD || !s.starts_with(b"LRT") {
        return Err(Flaw {
            fault: Fault::Unmarked,
            place: 0,
        });
    }
    if u16::from_le_bytes([s[3], s[4]]) != 1 {
        return Err(Flaw {
            fault: Fault::Version,
            place: 0,
        });
    }
    if (s.len() - HEAD) % RECORD != 0 {
        return Err(Flaw {
            fault: Fault::Torn,
            place: count(s),
        });
    }
    check_records(s)
}

// An entry at byte `at` of a transcript: an answer in one byte, and a value in eight. Nothing is written where it does not fit, and that is
// no error: its callers have room, and it cannot fail.
pub fn put(out: &mut [u8], at: usize, answer: u8, value: u64)
    ensures { out.new ≡ put_rule answer value at out.old }
{
    if out.len() < at.saturating_add(ENTRY) {
        return;
    }
    out[at] = answer;
    out[at + 1..at + ENTRY].copy_from_slice(&value.to_le_bytes());
}
