// What a call on a handle, a create and a view do, once the words are judged.
ghost use Rattle.std.specs.Prelude.{◌≡◌};
ghost use Rattle.read.specs.Calls.{reply_of, through_guard, through_rule, handle_reply, handle_rule, create_reply};

use crate::{judge, refusal, replied};
use read::{Control, Handle, Made, Reply, SLOTS, State, handles, slot_at};
use table::{Answer, Search};

// The whole copy that a guard stands on, or no words, and no Option, as `through_rule` has it. On a state that is whole.
#[tactic(auto, unfolding(read::specs::Machine::slot_count))]
fn through_guard<'a>(
    st: State,
    slot: usize,
    guard: usize,
    left: &'a [u64],
    right: &'a [u64],
) -> &'a [u64]
    ensures { result.now ≡ through_guard slot guard left.now right.now st }
{
    if SLOTS <= slot {
        return &[];
    }
    let s = slot_at(st, slot);
    match handles::verdict(st.control, slot == 0, s, Handle::LookUp(guard, 0)) {
        Err(_) => &[],
        Ok(()) => handles::guarded_copy(s.guards, guard, left, right),
    }
}

// The same, where the judgement admits the call.
#[tactic(auto, unfolding(read::specs::Calls::through_rule))]
pub(crate) fn through<'a>(
    st: State,
    slot: usize,
    guard: usize,
    left: &'a [u64],
    right: &'a [u64],
    log: &[u64],
) -> &'a [u64]
    ensures { result.now ≡ through_rule slot guard left.now right.now log.now st }
{
    match judge::judge(st, left, right, log) {
        Err(_) => &[],
        Ok(()) => through_guard(st, slot, guard, left, right),
    }
}

// What was made at slot `i`, put back; there is nothing to put back at a number that is no slot.
fn reply_of(i: usize, m: Made, st: State) -> Reply
    ensures { result ≡ reply_of i m st }
{
    let c = Control {
        free: m.free,
        ..st.control
    };
    let mut slots = st.slots;
    if i < SLOTS {
        slots[i] = m.slot;
    }
    replied(m.answer, m.value, c, slots, st.snapshots)
}

// A call on the handle in a slot, on a state that is whole.
#[tactic(auto, unfolding(read::specs::Machine::slot_count))]
fn handle_reply<'a>(st: State, slot: usize, h: Handle, left: &'a [u64], right: &'a [u64]) -> Reply
    ensures { result ≡ handle_reply slot h left.now right.now st }
{
    if SLOTS <= slot {
        return refusal(Answer::NoSlot, st);
    }
    let s = slot_at(st, slot);
    let m = handles::handle_by(Search::Walk, st.control, slot, s, h, left, right);
    reply_of(slot, m, st)
}

// A call on the handle in a slot.
#[tactic(auto, unfolding(read::specs::Calls::handle_rule))]
pub(crate) fn on_handle<'a>(
    st: State,
    slot: usize,
    h: Handle,
    left: &'a [u64],
    right: &'a [u64],
    log: &[u64],
) -> Reply
    ensures { result ≡ handle_rule slot h left.now right.now log.now st }
{
    match judge::judge(st, left, right, log) {
        Err(a) => refusal(a, st),
        Ok(()) => handle_reply(st, slot, h, left, right),
    }
}

// A new handle in the slot that is first, on a state that is whole.
pub(crate) fn create_reply(st: State) -> Reply
    ensures { result ≡ create_reply st }
{
    let i = st.control.free;
    reply_of(i, handles::create(st.control, slot_at(st, i)), st)
}
