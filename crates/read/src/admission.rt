// Which call each phase of the writer admits.
ghost use Rattle.std.specs.Prelude.{◌≡◌, ◌<◌, ◌≤◌};
ghost use Rattle.read.specs.Admission.{handle_number, column as column_rule, entry as entry_rule};
ghost use Rattle.read.specs.Machine.{row as row_rule, locks as locks_rule};

use crate::{Handle, Phase};

// What the entries say: not now, locked. Digits and no enum: an entry is read out of a word as it stands, and compared with one.
pub const NOT_NOW: u8 = 6;

pub const LOCKED: u8 = 7;

// A row for each phase, a column for each call 1 to 14, and for calls 2 to 7 on slot 0 another: 0 is admitted, 6 not now, 7 locked.
// A row is a word, and its columns are octal digits: what is read of a constant is laid out anew each time, and words are few.
// After gone the writer's calls have no entry of their own: they are answered 3, which is smaller than what stands there.
const ADMITS: [u64; 14] = [
    0o00000000000066600000,
    0o00000006666600666666,
    0o77000006666600666666,
    0o77000006666600666666,
    0o77000006666600666666,
    0o77000006666600666666,
    0o77000006666600666666,
    0o77000006666600666666,
    0o00000006666600666666,
    0o00000006666600666666,
    0o77000006666600666666,
    0o77000006666600666666,
    0o77000006666600666666,
    0o00000006666666000000,
];

// A phase by its row, which is a place in the table.
pub fn row(p: Phase) -> usize
    ensures { result ≡ row_rule p }
{
    match p {
        Phase::Idle => 0,
        Phase::Begin => 1,
        Phase::Poll(_) => 2,
        Phase::Copy => 3,
        Phase::Drain => 4,
        Phase::Keep(_) => 5,
        Phase::Swap => 6,
        Phase::Snap(_) => 7,
        Phase::Null => 8,
        Phase::Lock => 9,
        Phase::LastSnap(_) => 10,
        Phase::LastPoll(_) => 11,
        Phase::Finish => 12,
        Phase::Gone => 13,
    }
}

// The entry; a column past the last one is as the last one. A column is a number: no one enum has the calls of this crate and of those
// above.
pub fn entry(p: Phase, column: usize) -> u8
    ensures { result ≡ entry_rule p column }
{
    let digits = ADMITS[row(p)];
    if column < 20 {
        return ((digits >> (57 - 3 * column)) % 8) as u8;
    }
    (digits % 8) as u8
}

// A call on a handle by its number in a schedule, from which its column is counted.
fn number(h: Handle) -> usize
    ensures { (result ≡ handle_number h) × (2 ≤ result) × (result < 8) }
{
    match h {
        Handle::Drop => 2,
        Handle::Enter => 3,
        Handle::GoOn => 4,
        Handle::Release(_) => 5,
        Handle::LookUp(_, _) => 6,
        Handle::WasDropped => 7,
    }
}

// The column of a call on a handle; `own`: on slot 0.
pub(crate) fn column(h: Handle, own: bool) -> usize
    ensures { result ≡ column_rule h own }
{
    let n = number(h);
    if own { n + 12 } else { n - 1 }
}

// The lock is held in a publish, and from take's last snapshots to its finish.
pub fn locks(p: Phase) -> bool
    ensures { result ≡ locks_rule p }
{
    !matches!(
        p,
        Phase::Idle | Phase::Begin | Phase::Null | Phase::Lock | Phase::Gone
    )
}
