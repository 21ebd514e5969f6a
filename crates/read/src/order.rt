// The order in which free slots are handed out: slot `free` of the control part, the one behind it, and so on, up to the number of slots.
ghost use Rattle.std.specs.Prelude.{◌≡◌, ◌<◌};
ghost use Rattle.read.specs.Machine.{slot_count, behind as behind_rule, free_below, walk as walk_rule, orderly as orderly_rule};

use crate::{SLOTS, Slot, State};

// What comes behind slot `i`.
#[tactic(auto, unfolding(crate::specs::Machine::slot_count))]
pub(crate) fn behind(i: usize, link: Option<usize>) -> usize
    requires { i < slot_count }
    ensures { result ≡ behind_rule i link }
{
    link.unwrap_or(i + 1)
}

// How many slots are free.
#[tactic(auto, using(crate::proofs::FreeOrder::free_counted), unfolding(crate::specs::Machine::slot_count))]
fn count(slots: [Slot; SLOTS]) -> usize
    ensures { result ≡ free_below slot_count slots }
{
    slots.iter().filter(|s| !s.used).count()
}

// From slot `first` on `n` free slots come, one behind the other, and then the end.
fn walk(n: usize, slots: [Slot; SLOTS], first: usize) -> bool
    ensures { result ≡ walk_rule n slots first }
{
    let mut k = first;
    for _ in 0..n {
        if SLOTS <= k || slots[k].used {
            return false;
        }
        k = behind(k, slots[k].link);
    }
    k == SLOTS
}

// All free slots come, each once.
#[tactic(auto, unfolding(crate::specs::Machine::orderly))]
pub fn orderly(st: State) -> bool
    ensures { result ≡ orderly_rule st }
{
    walk(count(st.slots), st.slots, st.control.free)
}
