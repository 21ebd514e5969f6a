// The control part, by value: where the writer goes on when all before is done, and what it keeps.
ghost use Rattle.std.specs.Prelude.{◌≡◌, ◌+◌, ◌-◌};
ghost use Rattle.read.specs.Machine.{standing as standing_rule, underway as underway_rule};
ghost use Rattle.write.specs.Steps.{keeping, draining as draining_rule, polled as polled_rule, polling as polling_rule, beginning as beginning_rule, published as published_rule, next_job, last_polling, last_snapping};
ghost use Rattle.write.specs.Steps.{at as at_rule, with_log, copied as copied_rule, swapped_over, nulled as nulled_rule, first_then, finished as finished_rule, ended as ended_rule, snapping, drained as drained_rule};

use read::{Control, Job, Phase, SLOTS, Slot, admission};

const LAST: usize = SLOTS - 1;

// ---- where the writer goes on

// Behind operation `k` of `n`, which is kept.
pub(crate) fn kept(n: usize, k: usize) -> Phase
    ensures { result ≡ keeping n (k + 1) }
{
    if k < n && k + 1 < n {
        return Phase::Keep(k + 1);
    }
    Phase::Swap
}

// With `s` operations before the swap index, of `n`.
pub(crate) fn draining(s: usize, n: usize) -> Phase
    ensures { result ≡ draining_rule s n }
{
    if 0 < s {
        return Phase::Drain;
    }
    if 0 < n {
        return Phase::Keep(0);
    }
    Phase::Swap
}

// Behind the polls.
fn polled(c: Control) -> Phase
    ensures { result ≡ polled_rule c }
{
    if c.first {
        return Phase::Swap;
    }
    if c.second {
        return Phase::Copy;
    }
    draining(c.swapped, c.length)
}

// Where slot `k` is polled next.
#[tactic(auto, unfolding(read::specs::Machine::slot_count))]
pub fn polling(c: Control, k: usize) -> Phase
    ensures { result ≡ polling_rule c k }
{
    if k < SLOTS {
        return Phase::Poll(k);
    }
    polled(c)
}

// Behind the poll of slot `k`. Beside `polling`: behind the largest number there is no next one.
#[tactic(auto, unfolding(read::specs::Machine::slot_count))]
pub(crate) fn passed(c: Control, k: usize) -> Phase
    ensures { result ≡ polling_rule c (k + 1) }
{
    if k < LAST {
        return Phase::Poll(k + 1);
    }
    polled(c)
}

// A publish that is not the first polls first.
#[tactic(auto, unfolding(read::specs::Machine::slot_count))]
pub(crate) fn beginning(c: Control) -> Phase
    ensures { result ≡ beginning_rule c }
{
    if c.first {
        return Phase::Swap;
    }
    Phase::Poll(0)
}

// Behind the last snapshot of a publish that leaves `n` operations in the log.
fn published(j: Job, n: usize) -> Phase
    ensures { result ≡ published_rule j n }
{
    match j {
        Job::Publish | Job::Try => Phase::Idle,
        Job::TakeFirst if 0 < n => Phase::Begin,
        Job::TakeFirst | Job::TakeSecond => Phase::Null,
    }
}

fn next_job(j: Job) -> Job
    ensures { result ≡ next_job j }
{
    match j {
        Job::TakeFirst => Job::TakeSecond,
        _ => j,
    }
}

// Where take polls slot `k` next.
#[tactic(auto, unfolding(read::specs::Machine::slot_count))]
pub fn last_polling(k: usize) -> Phase
    ensures { result ≡ last_polling k }
{
    if k < SLOTS {
        return Phase::LastPoll(k);
    }
    Phase::Finish
}

// Behind take's poll of slot `k`, likewise.
#[tactic(auto, unfolding(read::specs::Machine::slot_count))]
pub(crate) fn last_passed(k: usize) -> Phase
    ensures { result ≡ last_polling (k + 1) }
{
    if k < LAST {
        return Phase::LastPoll(k + 1);
    }
    Phase::Finish
}

// Behind take's snapshot of slot `k`.
#[tactic(auto, unfolding(read::specs::Machine::slot_count))]
pub(crate) fn last_seen(k: usize) -> Phase
    ensures { result ≡ last_snapping (k + 1) }
{
    if k < LAST {
        return Phase::LastSnap(k + 1);
    }
    Phase::LastPoll(0)
}

// A call of the writer is under way.
pub fn underway(c: Control) -> bool
    ensures { result ≡ underway_rule c.phase }
{
    !matches!(c.phase, Phase::Idle | Phase::Gone)
}

// ---- the control part

// Where the writer stands, with the lock that fits it; the rest stays.
pub(crate) fn standing(p: Phase, job: Job, c: Control) -> Control
    ensures { result ≡ standing_rule p job c }
{
    Control {
        phase: p,
        lock: admission::locks(p),
        job,
        ..c
    }
}

// Another phase.
pub fn at(p: Phase, c: Control) -> Control
    ensures { result ≡ at_rule p c }
{
    standing(p, c.job, c)
}

// The log holds `n` operations, of which `s` stand in the copy that is read.
pub(crate) fn with_log(n: usize, s: usize, c: Control) -> Control
    ensures { result ≡ with_log n s c }
{
    Control {
        length: n,
        swapped: s,
        ..c
    }
}

pub(crate) fn copied(c: Control) -> Control
    ensures { result ≡ copied_rule c }
{
    Control { second: false, ..c }
}

// The pointer changes side, and the whole log stands in the copy that is read.
pub(crate) fn swapped_over(c: Control) -> Control
    ensures { result ≡ swapped_over c }
{
    Control {
        right: !c.right,
        first: false,
        swapped: c.length,
        ..c
    }
}

pub(crate) fn nulled(c: Control) -> Control
    ensures { result ≡ nulled_rule c }
{
    Control { null: true, ..c }
}

// Which slot is handed out next behind take's finish: slot 0, which is `s`, unless it was free already.
fn first_then(k: usize, s: Slot) -> usize
    ensures { result ≡ first_then k s }
{
    if s.used { 0 } else { k }
}

// Take's finish: the log is empty, and slot 0 is free.
pub(crate) fn finished(s: Slot, c: Control) -> Control
    ensures { result ≡ finished_rule s c }
{
    Control {
        length: 0,
        swapped: 0,
        free: first_then(c.free, s),
        ..c
    }
}

// A publish ends.
fn ended(c: Control) -> Control
    ensures { result ≡ ended_rule c }
{
    standing(published(c.job, c.length), next_job(c.job), c)
}

// Behind the snapshot of slot `k`.
#[tactic(auto, unfolding(read::specs::Machine::slot_count))]
pub(crate) fn after_snap(c: Control, k: usize) -> Control
    ensures { result ≡ snapping c (k + 1) }
{
    if k < LAST {
        return at(Phase::Snap(k + 1), c);
    }
    ended(c)
}

// The first operation is taken off the log.
pub(crate) fn drained(c: Control) -> Control
    ensures { result ≡ drained_rule c }
{
    let n = c.length.saturating_sub(1);
    let s = c.swapped.saturating_sub(1);
    at(draining(s, n), with_log(n, s, c))
}
