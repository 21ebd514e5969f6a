// A release that changes a handle's own record in place. `release` and `leave` are thin: the work is done by value, beneath them. They
// stay two: one changes the record where it stands, and one lends it and hands it back.
#![tactic(auto)]

ghost use Rattle.std.specs.Prelude.{◌≡◌};
ghost use Rattle.place.specs.Release.{release_rule};

use read::{Slot, guards};
use table::Answer;

// What a release answers, and the record after it: no Result, since a refusal too says what the record is (`release_rule`).
#[derive(Debug, Clone, Copy, PartialEq, Eq)]
pub struct Released {
    pub answer: Answer,
    pub slot: Slot,
}

// The release by value: the guard closes, and the last one adds one to the epoch; a free record, and a guard that is not open, are
// refused, and nothing changes.
#[tactic(auto, unfolding(crate::specs::Release::release_rule, read::specs::Handles::smallest))]
fn by_value(s: Slot, guard: usize) -> Released
    ensures { result ≡ release_rule guard s }
{
    if !s.used {
        return Released {
            answer: Answer::NoSlot,
            slot: s,
        };
    }
    if !guards::is_open(s.guards, guard) {
        return Released {
            answer: Answer::NoGuard,
            slot: s,
        };
    }
    Released {
        answer: Answer::Done,
        slot: guards::released(guard, s),
    }
}

// The same on the record behind the reference, also where it is refused.
pub fn release(s: &mut Slot, guard: usize) -> Answer
    ensures { record { answer = result; slot = s.new } ≡ release_rule guard s.old }
{
    let r = by_value(*s, guard);
    *s = r.slot;
    r.answer
}

// The same on a record that its caller keeps: it lends it to `release`, and has it back.
pub fn leave(mut s: Slot, guard: usize) -> Released
    ensures { result ≡ release_rule guard s }
{
    let answer = release(&mut s, guard);
    Released { answer, slot: s }
}
