// A slot and its guards, by value: what read/guard.rs does to a handle's own record.
ghost use Rattle.std.specs.Prelude.{◌≡◌};
ghost use Rattle.read.specs.Machine.{is_open, put_guard, first_guard, any_open, all_open, is_due, is_load, no_slot, with_reading, new_slot};
ghost use Rattle.read.specs.Handles.{made_of, with_due, freed as freed_rule, guarded as guarded_rule, loaded as loaded_rule, entered as entered_rule, went_on, released as released_rule};

use crate::{Control, Due, GUARDS, Guard, Made, Slot, truth};
use table::Answer;

// The first guard that is open, or that is shut, by what is wanted; their number where there is none, and no Option: the rule `loaded`
// hands it on as a value.
pub(crate) fn first_guard(want: bool, g: [Guard; GUARDS]) -> usize
    ensures { result ≡ first_guard want g }
{
    for j in 0..GUARDS {
        if truth::same(want, g[j].opened) {
            return j;
        }
    }
    GUARDS
}

pub fn is_open(g: [Guard; GUARDS], j: usize) -> bool
    ensures { result ≡ is_open g j }
{
    j < GUARDS && g[j].opened
}

pub fn any_open(g: [Guard; GUARDS]) -> bool
    ensures { result ≡ any_open g }
{
    first_guard(true, g) < GUARDS
}

pub(crate) fn all_open(g: [Guard; GUARDS]) -> bool
    ensures { result ≡ all_open g }
{
    GUARDS <= first_guard(false, g)
}

pub fn is_due(d: Due) -> bool
    ensures { result ≡ is_due d }
{
    d != Due::Nothing
}

pub(crate) fn is_load(d: Due) -> bool
    ensures { result ≡ is_load d }
{
    d == Due::Load
}

const SHUT: Guard = Guard {
    opened: false,
    right: false,
};

pub(crate) fn no_slot() -> Slot
    ensures { result ≡ no_slot }
{
    Slot {
        used: false,
        due: Due::Nothing,
        epoch: 0,
        guards: [SHUT; GUARDS],
        link: None,
    }
}

pub(crate) fn new_slot() -> Slot
    ensures { result ≡ new_slot }
{
    Slot {
        used: true,
        ..no_slot()
    }
}

// The slot with another epoch, other guards and another step due; the rest stays.
fn with_reading(epoch: u64, guards: [Guard; GUARDS], due: Due, s: Slot) -> Slot
    ensures { result ≡ with_reading epoch guards due s }
{
    Slot {
        epoch,
        guards,
        due,
        ..s
    }
}

fn with_due(epoch: u64, due: Due, s: Slot) -> Slot
    ensures { result ≡ with_due epoch due s }
{
    Slot { epoch, due, ..s }
}

// The slot is free, and slot `k`, which was first, comes behind it; its epoch stays.
pub fn freed(k: usize, s: Slot) -> Slot
    ensures { result ≡ freed_rule k s }
{
    Slot {
        used: false,
        link: Some(k),
        ..s
    }
}

// What was made of a slot, where the same one is handed out next.
pub(crate) fn made_of(c: Control, answer: Answer, value: u64, slot: Slot) -> Made
    ensures { result ≡ made_of c answer value slot }
{
    Made {
        answer,
        value,
        slot,
        free: c.free,
    }
}

// Guard `j` becomes `x`.
fn put_guard(j: usize, x: Guard, mut g: [Guard; GUARDS]) -> [Guard; GUARDS]
    ensures { result ≡ put_guard j x g }
{
    if j < GUARDS {
        g[j] = x;
    }
    g
}

// The lowest free guard opens.
fn guarded(right: bool, s: Slot) -> Slot
    ensures { result ≡ guarded_rule right s }
{
    let x = Guard {
        opened: true,
        right,
    };
    let g = put_guard(first_guard(false, s.guards), x, s.guards);
    with_reading(s.epoch, g, Due::Nothing, s)
}

// The load: `d` is what is due where the pointer is null.
fn loaded(c: Control, d: Due, s: Slot) -> Made
    ensures { result ≡ loaded_rule c d s }
{
    if c.null {
        return made_of(c, Answer::None, 0, with_due(s.epoch, d, s));
    }
    let j = first_guard(false, s.guards);
    made_of(c, Answer::Done, j as u64, guarded(c.right, s))
}

pub(crate) fn entered(c: Control, s: Slot) -> Made
    ensures { result ≡ entered_rule c s }
{
    if any_open(s.guards) {
        return loaded(c, s.due, s);
    }
    made_of(
        c,
        Answer::Done,
        0,
        with_due(s.epoch.wrapping_add(1), Due::Load, s),
    )
}

pub(crate) fn went_on(c: Control, s: Slot) -> Made
    ensures { result ≡ went_on c s.due s }
{
    match s.due {
        Due::Nothing => made_of(c, Answer::NotNow, 0, s),
        Due::Load => loaded(c, Due::Restore, s),
        Due::Restore => made_of(
            c,
            Answer::None,
            0,
            with_due(s.epoch.wrapping_add(1), Due::Nothing, s),
        ),
    }
}

// Guard `j` closes, and the last one adds one to the epoch.
pub fn released(j: usize, s: Slot) -> Slot
    ensures { result ≡ released_rule j s }
{
    let g = put_guard(j, SHUT, s.guards);
    if any_open(g) {
        return with_reading(s.epoch, g, s.due, s);
    }
    with_reading(s.epoch.wrapping_add(1), g, s.due, s)
}
