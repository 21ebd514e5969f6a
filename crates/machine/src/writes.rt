// What a call of the writer does, once the words are judged.
ghost use Rattle.std.specs.Prelude.{◌≡◌, ◌<◌};
ghost use Rattle.read.specs.Machine.{slot_total};
ghost use Rattle.read.specs.Calls.{lent};
ghost use Rattle.write.specs.Call.{Open};
ghost use Rattle.write.specs.Runs.{put_back};
ghost use Rattle.write.specs.Machine.{going_verdict, call_rule};

use crate::{judge, refusal, replied};
use read::{Reply, State, Verdict};
use write::{Moved, Opening, begins};

// What was made at slot `i`, put back.
pub(crate) fn put_back(i: usize, st: State, m: Moved) -> Reply
    requires { i < slot_total }
    ensures { result ≡ put_back i st m }
{
    let mut slots = st.slots;
    let mut snaps = st.snapshots;
    slots[i] = m.slot;
    snaps[i] = m.snapshot;
    replied(m.answer, m.value, m.control, slots, snaps)
}

#[tactic(auto, unfolding(write::specs::Machine::call_rule, write::specs::Machine::call_on))]
pub(crate) fn begin(o: Opening, st: State, left: &[u64], right: &[u64], log: &[u64]) -> Reply
    ensures { lent result left.now right.now log.now ≡ call_rule (Open o) st left.now right.now log.now }
{
    if let Err(a) = judge::judge(st, left, right, log) {
        return refusal(a, st);
    }
    let m = begins::open_on(o, st.control, read::slot_at(st, 0), st.snapshots[0]);
    put_back(0, st, m)
}

// What speaks against a step or a run, by its column in the table of admissions.
pub(crate) fn admit(column: usize, st: State, left: &[u64], right: &[u64], log: &[u64]) -> Verdict
    ensures { result ≡ going_verdict column st left.now right.now log.now }
{
    judge::judge(st, left, right, log)?;
    begins::step_verdict(column, st.control)
}
