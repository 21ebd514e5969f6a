// The turns of the player's loop, each on the one slot that it looks at, which is copied out and in. Step and run are made step by
// step; every other call takes one turn. The copies are known to rise, so that keys are found by halving: each contract says so, as they are
// lent on to be changed. They, the control part and the slot come one by one, as `write` takes them.
ghost use Rattle.std.specs.Prelude.{◌≡◌, ◌+◌, ◌≤◌, ◌<◌, ◌^◌, length};
ghost use Rattle.table.specs.Order.{Tidy};
ghost use Rattle.format.specs.Schedule.{record_bytes};
ghost use Rattle.write.specs.Begins.{append_on};
ghost use Rattle.play.specs.Schedule.{ops_from};
ghost use Rattle.read.specs.Calls.{lent};
ghost use Rattle.play.specs.Turns.{meant_at, is_running, moved_as, moved_by, touched, turn_on, halt as halt_rule, halt_of, facing as facing_rule, ran_on, went_on};

use crate::schedule;
use crate::schedule::Act;
use format::RECORD;
use read::{Control, Handle, Job, Made, Phase, SLOTS, Slot, handles};
use table::{Answer, Search};
use write::{BATCH_ROOM, Moved, begins, steps};

// ---- a call that takes one turn

fn moved_as(a: Answer, value: u64, c: Control, s: Slot) -> Moved
    ensures { result ≡ moved_as a value c s }
{
    Moved {
        answer: a,
        value,
        control: c,
        slot: s,
        snapshot: 0,
    }
}

// What was made of a slot.
fn moved_by(c: Control, m: Made) -> Moved
    ensures { result ≡ moved_by c m }
{
    moved_as(m.answer, m.value, Control { free: m.free, ..c }, m.slot)
}

// A call on the handle in slot `i`.
fn touch<'a>(i: usize, h: Handle, c: Control, s: Slot, left: &'a [u64], right: &'a [u64]) -> Moved
    requires { Tidy left.now × Tidy right.now }
    ensures { result ≡ touched i h c s left.now right.now }
{
    if SLOTS <= i {
        return moved_as(Answer::NoSlot, 0, c, s);
    }
    moved_by(
        c,
        handles::handle_by(Search::Halve, c, i, s, h, left, right),
    )
}

// So many operations that they are refused, whatever they are.
const CROWD: usize = BATCH_ROOM + 1;

// A batch of `n`, whose records begin at byte `at`. By file and byte, as the rules name a record; so the next one.
fn batch(
    schedule: &[u8],
    at: usize,
    n: u64,
    c: Control,
    s: Slot,
    left: &mut [u64],
    right: &mut [u64],
    log: &mut [u64],
) -> Moved
    requires { (at ≤ length schedule.now) × Tidy left.old × Tidy right.old }
    ensures { lent result left.new right.new log.new ≡ append_on (ops_from schedule.now at n) c s 0 left.old right.old log.old }
{
    let k = n.min(CROWD as u64) as usize;
    let mut ops = [0u64; 3 * CROWD];
    schedule::gather(schedule, at, k, &mut ops);
    begins::extend_by(Search::Halve, &ops[..3 * k], c, s, 0, left, right, log)
}

// The call of the record at byte `at`, at slot `i`, whose snapshot none of these calls looks at or changes. Step and run are made apart.
pub(crate) fn turn(
    schedule: &[u8],
    at: usize,
    call: Act,
    i: usize,
    c: Control,
    s: Slot,
    left: &mut [u64],
    right: &mut [u64],
    log: &mut [u64],
) -> Moved
    requires { (at + record_bytes ≤ length schedule.now) × Tidy left.old × Tidy right.old }
    ensures { lent result left.new right.new log.new ≡ turn_on (meant_at schedule.now at call) i c s left.old right.old log.old }
{
    match call {
        Act::Create => moved_by(c, handles::create(c, s)),
        Act::On(_, h) => touch(i, h, c, s, &left[..], &right[..]),
        Act::Append(kind, key, amount) => begins::append_by(
            Search::Halve,
            kind,
            key,
            amount,
            c,
            s,
            0,
            left,
            right,
            log,
        ),
        Act::Batch(n) => batch(schedule, at + RECORD, n, c, s, left, right, log),
        Act::Open(o) => begins::open_on(o, c, s, 0),
        Act::Step | Act::Run => moved_as(Answer::NotNow, 0, c, s),
    }
}

// ---- step and run, step by step

// How far a call has come: it goes on, with so many steps made, or it is over, with this answer and value.
#[derive(Debug, Clone, Copy, PartialEq, Eq)]
pub(crate) enum Far {
    Goes(u64),
    Over(Answer, u64),
}

// What a step answers that changes nothing, and Done for one that does.
fn halt(c: Control, held: bool) -> Answer
    ensures { result ≡ halt_rule c.phase c.job held }
{
    match c.phase {
        Phase::Idle => Answer::NotNow,
        Phase::Gone => Answer::Gone,
        Phase::Poll(_) if held && c.job != Job::Try => Answer::Held,
        Phase::LastPoll(_) if held => Answer::Held,
        _ => Answer::Done,
    }
}

// `n` steps are made, and the next is at hand.
pub(crate) fn facing(n: u64, c: Control, s: Slot, e: u64) -> Far
    ensures { result ≡ facing_rule n (halt_of c s e) }
{
    match halt(c, steps::holds(s, e)) {
        Answer::Done => Far::Goes(n),
        answer => Far::Over(answer, n),
    }
}

// A run behind a step, of which `n` were made before; the next one's slot and snapshot are `s` and `e`.
fn ran_on(n: u64, m: Moved, c: Control, s: Slot, e: u64) -> Far
    requires { n < 2 ^ 32 }
    ensures { result ≡ ran_on n m (halt_of c s e) }
{
    match m.answer {
        Answer::Done if m.value == 0 => facing(n + 1, c, s, e),
        Answer::Done => Far::Over(Answer::Done, n + 1),
        answer => Far::Over(answer, n),
    }
}

// A step or a run behind a step, of which `n` were made before.
pub(crate) fn went_on(call: Act, n: u64, m: Moved, c: Control, s: Slot, e: u64) -> Far
    requires { n < 2 ^ 32 }
    ensures { result ≡ went_on (is_running call) n m (halt_of c s e) }
{
    match call {
        Act::Run => ran_on(n, m, c, s, e),
        _ => Far::Over(m.answer, m.value),
    }
}
