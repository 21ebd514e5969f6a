// A step and a run, on a state whose control part is whole, which is asked of each: a type of it would be made anew behind each step.
ghost use Rattle.std.specs.Prelude.{◌≡◌, true, ◌<◌};
ghost use Rattle.read.specs.Machine.{slot_total, whole_control, place as place_rule};
ghost use Rattle.read.specs.Calls.{lent};
ghost use Rattle.write.specs.Steps.{at};
ghost use Rattle.write.specs.Scans.{polls as polls_rule, scanning_at, stop_answer, halt_answer, stop_control, halted as halted_rule};
ghost use Rattle.write.specs.Runs.{step_on, run_on};

use crate::writes::put_back;
use read::{Control, Job, Phase, Reply, SLOTS, State};
use table::{Answer, Search};
use write::{phases, steps};

// The slot that a step looks at.
fn place(c: Control) -> usize
    requires { whole_control c ≡ true }
    ensures { (result ≡ place_rule c.phase) × (result < slot_total) }
{
    steps::place(c.phase)
}

// One step: the slot that it looks at is taken out and put back.
#[tactic(auto, unfolding(write::specs::Runs::step_on))]
pub(crate) fn step_whole(st: State, left: &mut [u64], right: &mut [u64], log: &mut [u64]) -> Reply
    requires { whole_control st.control ≡ true }
    ensures { lent result left.new right.new log.new ≡ step_on st left.old right.old log.old }
{
    let i = place(st.control);
    let m = steps::advance_by(
        Search::Walk,
        st.control,
        read::slot_at(st, i),
        st.snapshots[i],
        left,
        right,
        log,
    );
    put_back(i, st, m)
}

// ---- the slot scan of a run

fn polls(c: Control) -> bool
    ensures { result ≡ polls_rule c.phase }
{
    matches!(c.phase, Phase::Poll(_) | Phase::LastPoll(_))
}

// The phase in which a scan polls slot `i`, or goes on; by the phase in which it began.
fn scanning_at(c: Control, i: usize) -> Phase
    ensures { result ≡ scanning_at c.phase c i }
{
    match c.phase {
        Phase::Poll(_) => phases::polling(c, i),
        Phase::LastPoll(_) => phases::last_polling(i),
        p => p,
    }
}

fn scanning(c: Control, i: usize) -> Control
    ensures { result ≡ at (scanning_at c.phase c i) c }
{
    phases::at(scanning_at(c, i), c)
}

// What a poll answers that is held or declined.
fn stop_answer(j: Job) -> Answer
    ensures { result ≡ stop_answer j }
{
    match j {
        Job::Try => Answer::Declined,
        _ => Answer::Held,
    }
}

// The same of a scan that began in the phase of `c`.
fn outcome(c: Control) -> Answer
    ensures { result ≡ halt_answer c.phase c.job }
{
    match c.phase {
        Phase::Poll(_) => stop_answer(c.job),
        _ => Answer::Held,
    }
}

// The control part that a poll leaves which is held or declined.
fn stopped(c: Control) -> Control
    ensures { result ≡ stop_control c.job c }
{
    match c.job {
        Job::Try => phases::at(Phase::Idle, c),
        _ => c,
    }
}

// The same, of a scan that began in the phase `p` and has come to the control part `c`.
fn halted(p: Phase, c: Control) -> Control
    ensures { result ≡ halted_rule p c }
{
    match p {
        Phase::Poll(_) => stopped(c),
        _ => c,
    }
}

// Steps until the call ends, or a poll is held or declined. The polls are a scan over the slots, which is left from inside. A loop: it
// goes on while a call is under way, and counts no index.
pub(crate) fn run_whole(st: State, left: &mut [u64], right: &mut [u64], log: &mut [u64]) -> Reply
    requires { whole_control st.control ≡ true }
    ensures { lent result left.new right.new log.new ≡ run_on st left.old right.old log.old }
{
    let mut c = st.control;
    let mut slots = st.slots;
    let mut snaps = st.snapshots;
    let mut n: u64 = 0;
    let mut answer = Answer::Done;
    'steps: while phases::underway(c) {
        let at = place(c);
        if polls(c) {
            for i in at..SLOTS {
                if steps::holds(slots[i], snaps[i]) {
                    answer = outcome(c);
                    c = halted(c.phase, scanning(c, i));
                    break 'steps;
                }
                n += 1;
            }
            c = scanning(c, SLOTS);
        } else {
            let m = steps::advance_by(Search::Walk, c, slots[at], snaps[at], left, right, log);
            slots[at] = m.slot;
            snaps[at] = m.snapshot;
            c = m.control;
            n += 1;
        }
    }
    Reply {
        answer,
        value: n,
        state: State {
            control: c,
            slots,
            snapshots: snaps,
        },
    }
}
