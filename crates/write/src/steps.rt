// One step of the writer: on the control part, the one slot that it looks at with its snapshot, and the lent words.
ghost use Rattle.std.specs.Prelude.{◌≡◌};
ghost use Rattle.read.specs.Calls.{lent};
ghost use Rattle.read.specs.Machine.{place as place_rule};
ghost use Rattle.write.specs.Steps.{at, vacated as vacated_rule, holds as holds_rule, seen as seen_rule, moved as moved_rule, refused as refused_rule, stopped as stopped_rule, poll_move, last_poll_move, step_by};
ghost use Rattle.write.specs.Begins.{value as value_rule};

use crate::{Moved, phases, slices};
use read::{Control, Job, Phase, Slot, guards};
use table::{Answer, Search};

// A poll is held: the slot is in use, and its epoch is still the odd one of its snapshot.
pub fn holds(s: Slot, e: u64) -> bool
    ensures { result ≡ holds_rule s e }
{
    s.used && e % 2 == 1 && e == s.epoch
}

// A used slot's epoch becomes its snapshot.
fn seen(s: Slot, e: u64) -> u64
    ensures { result ≡ seen_rule s e }
{
    if s.used { s.epoch } else { e }
}

// Slot 0 is freed, unless it is free already; slot `k` was first.
fn vacated(k: usize, s: Slot) -> Slot
    ensures { result ≡ vacated_rule k s }
{
    if s.used { guards::freed(k, s) } else { s }
}

// The slot that a step looks at: slot 0 where it names none, as the rule `place` has it.
pub fn place(p: Phase) -> usize
    ensures { result ≡ place_rule p }
{
    match p {
        Phase::Poll(k) | Phase::Snap(k) | Phase::LastSnap(k) | Phase::LastPoll(k) => k,
        _ => 0,
    }
}

// What a step, or a call that is made at once, looks at: the control part, one slot, and the slot's snapshot. The
// public functions take the three one by one, as their promises name them.
#[derive(Debug, Clone, Copy, PartialEq, Eq)]
pub(crate) struct Part {
    pub(crate) control: Control,
    pub(crate) slot: Slot,
    pub(crate) snapshot: u64,
}

impl Part {
    pub(crate) fn refused(self, a: Answer) -> Moved
        ensures { result ≡ refused_rule a self.control self.slot self.snapshot }
    {
        Moved {
            answer: a,
            value: 0,
            control: self.control,
            slot: self.slot,
            snapshot: self.snapshot,
        }
    }

    // A call that is made at once, with its value.
    pub(crate) fn done(self, value: u64) -> Moved
        ensures { result ≡ value_rule value self.control self.slot self.snapshot }
    {
        Moved {
            value,
            ..self.refused(Answer::Done)
        }
    }

    // A step that is made; its value says whether the call ended.
    fn moved(self) -> Moved
        ensures { result ≡ moved_rule self.control self.slot self.snapshot }
    {
        self.done(u64::from(!phases::underway(self.control)))
    }

    fn moved_to(self, p: Phase) -> Moved
        ensures { result ≡ moved_rule (at p self.control) self.slot self.snapshot }
    {
        let control = phases::at(p, self.control);
        Part { control, ..self }.moved()
    }

    // A poll that does not pass is held, and changes nothing; that of a try declines, and ends the call.
    fn stopped(self) -> Moved
        ensures { result ≡ stopped_rule self.control.job self.control self.slot self.snapshot }
    {
        match self.control.job {
            Job::Try => Moved {
                answer: Answer::Declined,
                ..self.moved_to(Phase::Idle)
            },
            _ => self.refused(Answer::Held),
        }
    }

    fn poll(self, k: usize) -> Moved
        ensures { result ≡ poll_move (holds_rule self.slot self.snapshot) k self.control self.slot self.snapshot }
    {
        if holds(self.slot, self.snapshot) {
            return self.stopped();
        }
        self.moved_to(phases::passed(self.control, k))
    }

    fn last_poll(self, k: usize) -> Moved
        ensures { result ≡ last_poll_move (holds_rule self.slot self.snapshot) k self.control self.slot self.snapshot }
    {
        if holds(self.slot, self.snapshot) {
            return self.refused(Answer::Held);
        }
        self.moved_to(phases::last_passed(k))
    }
}

// One step, by how the key of an operation is searched.
#[tactic(auto, unfolding(crate::specs::Steps::step_by, read::specs::Machine::slot_count))]
pub fn advance_by(
    how: Search,
    c: Control,
    s: Slot,
    e: u64,
    left: &mut [u64],
    right: &mut [u64],
    log: &mut [u64],
) -> Moved
    ensures { lent result left.new right.new log.new ≡ step_by how c.phase c s e left.old right.old log.old }
{
    let part = Part {
        control: c,
        slot: s,
        snapshot: e,
    };
    match c.phase {
        Phase::Idle => part.refused(Answer::NotNow),
        Phase::Begin => part.moved_to(phases::beginning(c)),
        Phase::Poll(k) => part.poll(k),
        Phase::Copy => {
            slices::synchronize(c.right, left, right);
            let control = phases::copied(c);
            Part { control, ..part }.moved_to(phases::draining(c.swapped, c.length))
        }
        Phase::Drain => {
            slices::replay(how, c.right, 0, left, right, &log[..]);
            slices::unlog(log, c.length);
            let control = phases::drained(c);
            Part { control, ..part }.moved()
        }
        Phase::Keep(k) => {
            slices::replay(how, c.right, k, left, right, &log[..]);
            part.moved_to(phases::kept(c.length, k))
        }
        Phase::Swap => {
            let control = phases::swapped_over(c);
            Part { control, ..part }.moved_to(Phase::Snap(0))
        }
        Phase::Snap(k) => {
            let control = phases::after_snap(c, k);
            let snapshot = seen(s, e);
            Part {
                control,
                snapshot,
                ..part
            }
            .moved()
        }
        Phase::Null => {
            let control = phases::nulled(c);
            Part { control, ..part }.moved_to(Phase::Lock)
        }
        Phase::Lock => part.moved_to(Phase::LastSnap(0)),
        Phase::LastSnap(k) => {
            let snapshot = seen(s, e);
            Part { snapshot, ..part }.moved_to(phases::last_seen(k))
        }
        Phase::LastPoll(k) => part.last_poll(k),
        Phase::Finish => {
            slices::erase(c.right, left, right);
            table::zero(log);
            let control = phases::finished(s, c);
            let slot = vacated(c.free, s);
            Part {
                control,
                slot,
                ..part
            }
            .moved_to(Phase::Gone)
        }
        Phase::Gone => part.refused(Answer::Gone),
    }
}
