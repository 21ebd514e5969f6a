// The calls on the machine: each is given the whole state and all three lent slices, trusts none of them, and is refused with
// nothing changed, or made. The slices come one by one, as README says, and `write` says why. `read` and `write` have the parts, for
// whoever holds a state that is known to be whole.
#![tactic(auto)]

mod judge;
mod reads;
mod runs;
mod writes;

ghost use Rattle.std.specs.Prelude.{◌≡◌};
ghost use Rattle.read.specs.Calls.{lent, refusal as refusal_rule, start_rule, handle_rule, create_rule, view_rule, pair_rule};
ghost use Rattle.write.specs.Call.{Append, Open, Step, Run, append_one, ops_in};
ghost use Rattle.write.specs.Machine.{call_rule};

use read::{Control, Handle, Reply, SLOTS, Slot, State};
use table::{Answer, Search};
use write::{Opening, begins};

// The columns of step and run in the table of admissions.
const STEP: usize = 12;

const RUN: usize = 13;

pub(crate) fn refusal(a: Answer, st: State) -> Reply
    ensures { result ≡ refusal_rule a st }
{
    Reply {
        answer: a,
        value: 0,
        state: st,
    }
}

// A reply that hands back a state made anew.
pub(crate) fn replied(
    a: Answer,
    value: u64,
    c: Control,
    slots: [Slot; SLOTS],
    snaps: [u64; SLOTS],
) -> Reply
    ensures { result ≡ record { answer = a; value = value; state = record { control = c; slots = slots; snapshots = snaps } } }
{
    Reply {
        answer: a,
        value,
        state: State {
            control: c,
            slots,
            snapshots: snaps,
        },
    }
}

// ---- the start

// Zeroes the slices and hands out a fresh state; a wrong length changes nothing.
#[tactic(auto, unfolding(read::specs::Calls::start_rule))]
pub fn start(left: &mut [u64], right: &mut [u64], log: &mut [u64]) -> Reply
    ensures { lent result left.new right.new log.new ≡ start_rule left.old right.old log.old }
{
    let st = read::fresh_state();
    if !judge::sized(&left[..], &right[..], &log[..]) {
        return refusal(Answer::Length, st);
    }
    table::zero(left);
    table::zero(right);
    table::zero(log);
    Reply {
        answer: Answer::Done,
        value: 0,
        state: st,
    }
}

// ---- on a handle

// Hands out the slot freed last, or the lowest never used where none is free: a new handle, with epoch 0. The slot's snapshot stays.
#[tactic(auto, unfolding(read::specs::Calls::create_rule))]
pub fn create(st: State, left: &[u64], right: &[u64], log: &[u64]) -> Reply
    ensures { result ≡ create_rule left.now right.now log.now st }
{
    match judge::judge(st, left, right, log) {
        Err(a) => refusal(a, st),
        Ok(()) => reads::create_reply(st),
    }
}

// Frees a handle's slot. Its epoch and its snapshot stay.
pub fn drop<'a>(st: State, slot: usize, left: &'a [u64], right: &'a [u64], log: &[u64]) -> Reply
    ensures { result ≡ handle_rule slot Handle.Drop left.now right.now log.now st }
{
    reads::on_handle(st, slot, Handle::Drop, left, right, log)
}

// Announces a reader; with a guard open it loads at once.
pub fn enter<'a>(st: State, slot: usize, left: &'a [u64], right: &'a [u64], log: &[u64]) -> Reply
    ensures { result ≡ handle_rule slot Handle.Enter left.now right.now log.now st }
{
    reads::on_handle(st, slot, Handle::Enter, left, right, log)
}

// The step that an enter left due.
pub fn go_on<'a>(st: State, slot: usize, left: &'a [u64], right: &'a [u64], log: &[u64]) -> Reply
    ensures { result ≡ handle_rule slot Handle.GoOn left.now right.now log.now st }
{
    reads::on_handle(st, slot, Handle::GoOn, left, right, log)
}

// Closes a guard.
pub fn release<'a>(
    st: State,
    slot: usize,
    guard: usize,
    left: &'a [u64],
    right: &'a [u64],
    log: &[u64],
) -> Reply
    ensures { result ≡ handle_rule slot (Handle.Release guard) left.now right.now log.now st }
{
    reads::on_handle(st, slot, Handle::Release(guard), left, right, log)
}

// The count of a key through a guard, 0 where it is absent: the answer that goes with `pair`, and, key or not, with `view`.
pub fn look_up<'a>(
    st: State,
    slot: usize,
    guard: usize,
    key: u64,
    left: &'a [u64],
    right: &'a [u64],
    log: &[u64],
) -> Reply
    ensures { result ≡ handle_rule slot (Handle.LookUp guard key) left.now right.now log.now st }
{
    reads::on_handle(st, slot, Handle::LookUp(guard, key), left, right, log)
}

// Whether the writer has taken the copies away.
pub fn was_dropped<'a>(
    st: State,
    slot: usize,
    left: &'a [u64],
    right: &'a [u64],
    log: &[u64],
) -> Reply
    ensures { result ≡ handle_rule slot Handle.WasDropped left.now right.now log.now st }
{
    reads::on_handle(st, slot, Handle::WasDropped, left, right, log)
}

// The used part of the copy that a guard stands on, uncopied; no words where `look_up` would be refused.
pub fn view<'a>(
    st: State,
    slot: usize,
    guard: usize,
    left: &'a [u64],
    right: &'a [u64],
    log: &[u64],
) -> &'a [u64]
    ensures { result.now ≡ view_rule slot guard left.now right.now log.now st }
{
    table::used(reads::through(st, slot, guard, left, right, log))
}

// The two words of a key's pair, as a part of the view; none where the key is absent or `look_up` would be refused.
pub fn pair<'a>(
    st: State,
    slot: usize,
    guard: usize,
    key: u64,
    left: &'a [u64],
    right: &'a [u64],
    log: &[u64],
) -> &'a [u64]
    ensures { result.now ≡ pair_rule slot guard key left.now right.now log.now st }
{
    table::look_up(reads::through(st, slot, guard, left, right, log), key)
}

// ---- the writer's calls that are made at once

// Appends operations, three words each: all of them or none. While `first` they are applied at once, in order, to the copy that no
// reader sees, later they are added to the log. Readers see them after the next publish that swaps. More than 64, a bad one, or words
// whose number is no multiple of three: refused with 5.
#[tactic(auto, unfolding(write::specs::Machine::call_rule, write::specs::Machine::call_on))]
pub fn extend(st: State, ops: &[u64], left: &mut [u64], right: &mut [u64], log: &mut [u64]) -> Reply
    ensures { lent result left.new right.new log.new ≡ call_rule (Append (ops_in ops.now)) st left.old right.old log.old }
{
    if let Err(a) = judge::judge(st, &left[..], &right[..], &log[..]) {
        return refusal(a, st);
    }
    let m = begins::extend_by(
        Search::Walk,
        ops,
        st.control,
        read::slot_at(st, 0),
        st.snapshots[0],
        left,
        right,
        log,
    );
    writes::put_back(0, st, m)
}

// Appends one operation.
pub fn append(
    st: State,
    kind: u64,
    key: u64,
    amount: u64,
    left: &mut [u64],
    right: &mut [u64],
    log: &mut [u64],
) -> Reply
    ensures { lent result left.new right.new log.new ≡ call_rule (append_one kind key amount) st left.old right.old log.old }
{
    extend(st, &[kind, key, amount], left, right, log)
}

// Begins a publish. Its steps wait, slot by slot, for the readers that may still stand on the copy that is written.
pub fn publish(st: State, left: &[u64], right: &[u64], log: &[u64]) -> Reply
    ensures { lent result left.now right.now log.now ≡ call_rule (Open Opening.Publish) st left.now right.now log.now }
{
    writes::begin(Opening::Publish, st, left, right, log)
}

// Begins a publish that declines where it would wait.
pub fn try_publish(st: State, left: &[u64], right: &[u64], log: &[u64]) -> Reply
    ensures { lent result left.now right.now log.now ≡ call_rule (Open Opening.Try) st left.now right.now log.now }
{
    writes::begin(Opening::Try, st, left, right, log)
}

// Begins a publish if the log holds operations that readers do not see yet: value 1. Else nothing changes: value 0.
pub fn flush(st: State, left: &[u64], right: &[u64], log: &[u64]) -> Reply
    ensures { lent result left.now right.now log.now ≡ call_rule (Open Opening.Flush) st left.now right.now log.now }
{
    writes::begin(Opening::Flush, st, left, right, log)
}

// Begins a take. Its steps publish what is left, make the pointer null and wait for the readers that are inside; then the writer is
// gone, and the copy that the pointer named last is handed over.
pub fn take(st: State, left: &[u64], right: &[u64], log: &[u64]) -> Reply
    ensures { lent result left.now right.now log.now ≡ call_rule (Open Opening.Take) st left.now right.now log.now }
{
    writes::begin(Opening::Take, st, left, right, log)
}

// ---- step and run

// One step of the call that is under way. A poll that is held changes nothing, and is made again by the next step.
#[tactic(auto, unfolding(write::specs::Machine::call_rule, write::specs::Machine::call_on))]
pub fn step(st: State, left: &mut [u64], right: &mut [u64], log: &mut [u64]) -> Reply
    ensures { lent result left.new right.new log.new ≡ call_rule Step st left.old right.old log.old }
{
    if let Err(a) = writes::admit(STEP, st, &left[..], &right[..], &log[..]) {
        return refusal(a, st);
    }
    runs::step_whole(st, left, right, log)
}

// Steps until the call ends, or a poll is held or declined. The value counts the steps that were made.
#[tactic(auto, unfolding(write::specs::Machine::call_rule, write::specs::Machine::call_on))]
pub fn run(st: State, left: &mut [u64], right: &mut [u64], log: &mut [u64]) -> Reply
    ensures { lent result left.new right.new log.new ≡ call_rule Run st left.old right.old log.old }
{
    if let Err(a) = writes::admit(RUN, st, &left[..], &right[..], &log[..]) {
        return refusal(a, st);
    }
    runs::run_whole(st, left, right, log)
}
