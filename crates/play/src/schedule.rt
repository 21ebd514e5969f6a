// What the records of a schedule mean. A record is named by its file and the byte where it begins, as the rules name it: those of a batch
// stand behind it.
ghost use Rattle.std.specs.Prelude.{◌≡◌, List, suc, ◌+◌, ◌*◌, ◌≤◌, length, take};
ghost use Rattle.table.specs.Order.{Op};
ghost use Rattle.write.specs.Call.{ops_in};
ghost use Rattle.write.specs.Begins.{batch_room};
ghost use Rattle.format.specs.Schedule.{record_bytes, members_at};
ghost use Rattle.play.specs.Schedule.{ops_from, decoded};
ghost use Rattle.play.specs.Turns.{members_of, meant_at, behind as behind_rule};

use format::{Fields, RECORD};
use read::Handle;
use write::Opening;

// What a record asks for. The operations of a batch are in the records behind it, as many as it says.
#[derive(Debug, Clone, Copy, PartialEq, Eq)]
pub(crate) enum Act {
    Create,
    On(usize, Handle),
    Append(u64, u64, u64),
    Batch(u64),
    Open(Opening),
    Step,
    Run,
}

// The call of a record by its number. What is none is taken for the nearest one, or for run.
impl From<Fields> for Act {
    ghost use Rattle.format.specs.Schedule.{members_in};
    ghost use Rattle.play.specs.Schedule.{call_of};
    ghost use Rattle.play.specs.Turns.{meant, members_of};

    ghost from_gives = { λ f act. (members_of act ≡ members_in f) × ((os : List Op) → meant os act ≡ call_of os f) };

    // The numbers are the file's: here they become calls.
    fn from(f: Fields) -> Act {
        match f.call {
            0 | 1 => Act::Create,
            2 => Act::On(f.slot, Handle::Drop),
            3 => Act::On(f.slot, Handle::Enter),
            4 => Act::On(f.slot, Handle::GoOn),
            5 => Act::On(f.slot, Handle::Release(f.guard)),
            6 => Act::On(f.slot, Handle::LookUp(f.guard, f.key)),
            7 => Act::On(f.slot, Handle::WasDropped),
            8 => Act::Append(f.kind, f.key, f.amount),
            9 => Act::Open(Opening::Publish),
            10 => Act::Open(Opening::Try),
            11 => Act::Open(Opening::Flush),
            12 => Act::Open(Opening::Take),
            13 => Act::Step,
            15 => Act::Batch(f.amount),
            _ => Act::Run,
        }
    }
}

impl Act {
    ghost use Rattle.play.specs.Turns.{named, is_going};

    // The slot that it names, 0 where it names none; a create takes the one that is first, `free`.
    pub(crate) fn slot(self, free: usize) -> usize
        ensures { result ≡ named self free }
    {
        match self {
            Act::Create => free,
            Act::On(i, _) => i,
            _ => 0,
        }
    }

    // Step or run.
    pub(crate) fn is_going(self) -> bool
        ensures { result ≡ is_going self }
    {
        matches!(self, Act::Step | Act::Run)
    }
}

// The record that begins at byte `at`.
pub(crate) fn decode(s: &[u8], at: usize) -> Act
    ensures { (members_of result ≡ members_at s.now at) × (meant_at s.now at result ≡ decoded s.now at) }
{
    Act::from(format::fields_at(s, at))
}

// ---- the records of a batch

// Where the record begins that comes behind the one at byte `at` and those that belong to it, as many as are there.
pub(crate) fn behind(s: &[u8], at: usize, call: Act) -> usize
    requires { at + record_bytes ≤ length s.now }
    ensures { result ≡ behind_rule s.now at call }
{
    match call {
        Act::Batch(n) => {
            let left = (s.len() - at) / RECORD - 1;
            at + RECORD * (n.min(left as u64) as usize + 1)
        }
        _ => at + RECORD,
    }
}

// The operations of the `n` records from byte `at` on, three words each.
pub(crate) fn gather(s: &[u8], at: usize, n: usize, ops: &mut [u64])
    requires { (at ≤ length s.now) × (n ≤ suc batch_room) × (3 * n ≤ length ops.old) }
    ensures { ops_in (take (3 * n) ops.new) ≡ ops_from s.now at n }
{
    // By index: a record past the end counts too, as zeros, and std's chunks end there.
    for i in 0..n {
        let f = format::fields_at(s, at + RECORD * i);
        ops[3 * i] = f.kind;
        ops[3 * i + 1] = f.key;
        ops[3 * i + 2] = f.amount;
    }
}
