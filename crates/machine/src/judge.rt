// What every call is judged on: lengths, entry counts, the control part, the log, and the order of the free slots.
ghost use Rattle.std.specs.Prelude.{◌≡◌, ◌&&◌, ◌≤◌, ◌*◌, length};
ghost use Rattle.read.specs.Machine.{nulls as nulls_rule, in_range, first_unlawful, sized as sized_rule, whole_control, glanced, judged};

use read::admission::locks;
use read::truth::same;
use read::{Control, LOG_ROOM, LOG_WORDS, Phase, SLOTS, State, Verdict, order};
use table::Answer;

// As `table` has it for itself: a line that is no longer than its import.
const MOST: u64 = table::PAIRS as u64;

// The pointer is null from take's lock step on.
fn nulls(p: Phase) -> bool
    ensures { result ≡ nulls_rule p }
{
    matches!(
        p,
        Phase::Lock | Phase::LastSnap(_) | Phase::LastPoll(_) | Phase::Finish | Phase::Gone
    )
}

// A phase's position is in range.
#[tactic(auto, unfolding(read::specs::Machine::slot_count))]
fn in_range(c: Control) -> bool
    ensures { result ≡ in_range c c.phase }
{
    match c.phase {
        Phase::Poll(k) | Phase::Snap(k) | Phase::LastSnap(k) | Phase::LastPoll(k) => k < SLOTS,
        Phase::Drain => 0 < c.swapped,
        Phase::Keep(k) => k < c.length,
        _ => true,
    }
}

// The control part by itself: counts, position, lock and pointer.
fn whole_control(c: Control) -> bool
    ensures { result ≡ whole_control c }
{
    c.length <= LOG_ROOM
        && c.swapped <= c.length
        && in_range(c)
        && same(c.lock, locks(c.phase))
        && same(c.null, nulls(c.phase))
}

// The first of `n` logged operations that is not as its kind asks, or `n`, and no Option: the rule `judged` compares the two.
fn first_unlawful(n: usize, log: &[u64]) -> usize
    requires { 3 * n ≤ length log.now }
    ensures { result ≡ first_unlawful n log.now }
{
    let (ops, _) = log.as_chunks::<3>();
    for (i, op) in ops[..n].iter().enumerate() {
        let [kind, key, amount] = *op;
        if !table::lawful(kind, key, amount) {
            return i;
        }
    }
    n
}

pub(crate) fn sized(left: &[u64], right: &[u64], log: &[u64]) -> bool
    ensures { result ≡ sized_rule left.now right.now log.now }
{
    left.len() == table::WORDS && right.len() == table::WORDS && log.len() == LOG_WORDS
}

// Lengths, entry counts and the control part: all but the walks over the log and over the free slots.
#[tactic(auto, unfolding(read::specs::Machine::glanced))]
fn glance(c: Control, left: &[u64], right: &[u64], log: &[u64]) -> Verdict
    ensures { result ≡ glanced c left.now right.now log.now }
{
    if !sized(left, right, log) {
        return Err(Answer::Length);
    }
    if left[0] <= MOST && right[0] <= MOST && whole_control(c) {
        Ok(())
    } else {
        Err(Answer::Broken)
    }
}

// What every call on the machine is judged on.
#[tactic(auto, unfolding(read::specs::Machine::judged))]
pub(crate) fn judge(st: State, left: &[u64], right: &[u64], log: &[u64]) -> Verdict
    ensures { result ≡ judged st left.now right.now log.now }
{
    glance(st.control, left, right, log)?;
    let n = st.control.length;
    if n <= first_unlawful(n, log) && order::orderly(st) {
        Ok(())
    } else {
        Err(Answer::Broken)
    }
}
