// The reader's side: the state, handles with their epochs and guards, and what a guard shows.
// A call stands on the control part and one slot, by value, for whoever holds a state that is known to be whole; `machine` has the calls
// that are given a whole state. The two copies come one by one, as a caller lends them: a struct would be made and taken apart at each call;
// so do the control part and the slot, of which a call reads the one and makes the other anew.
#![tactic(auto)]

pub mod admission;
pub mod guards;
pub mod handles;
pub mod order;
pub mod truth;

ghost use Rattle.std.specs.Prelude.{◌≡◌};
ghost use Rattle.read.specs.Machine.{fresh};
ghost use Rattle.read.specs.Calls.{slot_at};

use table::Answer;

// How many slots there are, how many guards a handle has, how many operations the log has room for, and its words, three each.
pub const SLOTS: usize = 16;

pub const GUARDS: usize = 4;

pub const LOG_ROOM: usize = 256;

pub const LOG_WORDS: usize = 3 * LOG_ROOM;

// What a handle still has to do: the load of an enter, or putting the epoch back after a load that found null.
#[derive(Debug, Clone, Copy, PartialEq, Eq)]
pub enum Due {
    Nothing,
    Load,
    Restore,
}

// A guard, on the right copy or on the left. No Option: a lent state may have a shut guard that names the right copy, and `machine` hands
// it back as it is.
#[derive(Debug, Clone, Copy, PartialEq, Eq)]
pub struct Guard {
    pub opened: bool,
    pub right: bool,
}

// A handle's own record. The small fields stand together, so that it is 40 bytes long. In the order in which free slots are handed out
// there comes behind a slot that was never used the next number; and behind one that was freed `link`, the slot that was first then, or
// the number of slots, if none was.
#[derive(Debug, Clone, Copy, PartialEq, Eq)]
pub struct Slot {
    pub used: bool,
    pub due: Due,
    pub epoch: u64,
    pub guards: [Guard; GUARDS],
    pub link: Option<usize>,
}

// What a publish is part of.
#[derive(Debug, Clone, Copy, PartialEq, Eq)]
pub enum Job {
    Publish,
    Try,
    TakeFirst,
    TakeSecond,
}

// Where the writer stands. A poll and a snapshot say which slot, a kept operation which operation.
#[derive(Debug, Clone, Copy, PartialEq, Eq)]
pub enum Phase {
    Idle,
    Begin,
    Poll(usize),
    Copy,
    Drain,
    Keep(usize),
    Swap,
    Snap(usize),
    Null,
    Lock,
    LastSnap(usize),
    LastPoll(usize),
    Finish,
    Gone,
}

// The pointer names the copy `right`, or named it before null. The log holds `length` operations, of which the first `swapped`
// already stand in the copy that is read. The slot `free` is handed out next, and then the one that comes behind it. Of the
// orders of these fields that were tried, this one costs the player's appends and publishes least. Where no slot is free, `free` is their
// number, and no Option: that comes behind the last slot as any next number does.
#[derive(Debug, Clone, Copy, PartialEq, Eq)]
pub struct Control {
    pub phase: Phase,
    pub right: bool,
    pub null: bool,
    pub lock: bool,
    pub first: bool,
    pub second: bool,
    pub job: Job,
    pub length: usize,
    pub swapped: usize,
    pub free: usize,
}

// The snapshots stand beside the slots: they are the writer's, and no part of a handle's own record.
#[derive(Debug, Clone, Copy, PartialEq, Eq)]
pub struct State {
    pub control: Control,
    pub slots: [Slot; SLOTS],
    pub snapshots: [u64; SLOTS],
}

// A call on a handle. Release and look up say which guard, and look up which key.
#[derive(Debug, Clone, Copy, PartialEq, Eq)]
pub enum Handle {
    Drop,
    Enter,
    GoOn,
    Release(usize),
    LookUp(usize, u64),
    WasDropped,
}

// What speaks against a call: a refusal, and whether it applies. No Option: `handle_signs` and its like have those that do not apply too.
#[derive(Debug, Clone, Copy, PartialEq, Eq)]
pub struct Sign {
    pub answer: Answer,
    pub applies: bool,
}

// What a call is judged to be: admitted, or refused with an answer.
pub type Verdict = Result<(), Answer>;

// What create or a call on a handle makes of its slot, and which one is handed out next. No Result: a refusal too says what the slot is (`made_of`).
#[derive(Debug, Clone, Copy, PartialEq, Eq)]
pub struct Made {
    pub answer: Answer,
    pub value: u64,
    pub slot: Slot,
    pub free: usize,
}

// No Result: a refusal too hands back the state (`refusal`), and a run that is held has a value.
#[derive(Debug, Clone, Copy, PartialEq, Eq)]
pub struct Reply {
    pub answer: Answer,
    pub value: u64,
    pub state: State,
}

// The fresh machine: slot 0 is the writer's own handle, and the pointer is on the left.
#[tactic(auto, unfolding(crate::specs::Machine::slot_count))]
pub fn fresh_state() -> State
    ensures { result ≡ fresh }
{
    let mut slots = [guards::no_slot(); SLOTS];
    slots[0] = guards::new_slot();
    State {
        control: Control {
            right: false,
            null: false,
            lock: false,
            first: true,
            second: true,
            phase: Phase::Idle,
            job: Job::Publish,
            length: 0,
            swapped: 0,
            free: 1,
        },
        slots,
        snapshots: [0; SLOTS],
    }
}

// The slot in a place; past the last a free one.
pub fn slot_at(st: State, slot: usize) -> Slot
    ensures { result ≡ slot_at st slot }
{
    if slot < SLOTS {
        st.slots[slot]
    } else {
        guards::no_slot()
    }
}
