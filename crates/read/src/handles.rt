// A call on a handle, on the control part and the handle's own slot; and create, on the slot that is first.
ghost use Rattle.std.specs.Prelude.{◌≡◌, slice_index};
ghost use Rattle.read.specs.Admission.{handle_number, guard_named};
ghost use Rattle.table.specs.Copy.{look_by};
ghost use Rattle.read.specs.Handles.{mistimed as mistimed_rule, leaves_guards, lacks_guard, lacks_room, sign, smallest as smallest_rule, handle_signs, guarded_copy, handled_by, handle_by, create_signs, create_on};

use crate::{
    Control, Due, GUARDS, Guard, Handle, Made, SLOTS, Sign, Slot, Verdict, admission, guards,
    order, truth,
};
use table::{Answer, Search};

// The column of create in the table of admissions.
const CREATE: usize = 0;

// ---- what speaks against a call

// Enter or drop with a step due, or go on with none.
fn mistimed(h: Handle, d: Due) -> bool
    ensures { result ≡ mistimed_rule (handle_number h) d }
{
    match h {
        Handle::Drop | Handle::Enter => guards::is_due(d),
        Handle::GoOn => !guards::is_due(d),
        _ => false,
    }
}

fn leaves_guards(h: Handle, g: [Guard; GUARDS]) -> bool
    ensures { result ≡ leaves_guards (handle_number h) g }
{
    h == Handle::Drop && guards::any_open(g)
}

fn lacks_guard(h: Handle, g: [Guard; GUARDS]) -> bool
    ensures { result ≡ lacks_guard (handle_number h) (guard_named h) g }
{
    match h {
        Handle::Release(j) | Handle::LookUp(j, _) => !guards::is_open(g, j),
        _ => false,
    }
}

// Enter with four guards open, or a load that is due and would open a fifth.
fn lacks_room(h: Handle, null: bool, s: Slot) -> bool
    ensures { result ≡ lacks_room (handle_number h) null s }
{
    match h {
        Handle::Enter => guards::all_open(s.guards),
        Handle::GoOn => guards::is_load(s.due) && !null && guards::all_open(s.guards),
        _ => false,
    }
}

pub fn sign(answer: Answer, applies: bool) -> Sign
    ensures { result ≡ sign answer applies }
{
    Sign { answer, applies }
}

// The first of the signs that applies. Those of a call stand in the order of their numbers, so that it is the smallest.
pub fn smallest(signs: &[Sign]) -> Verdict
    ensures { result ≡ smallest_rule signs.now }
{
    for sign in signs {
        if sign.applies {
            return Err(sign.answer);
        }
    }
    Ok(())
}

// What speaks against a call; `own`: on slot 0.
pub fn verdict(c: Control, own: bool, s: Slot, h: Handle) -> Verdict
    ensures { result ≡ smallest_rule (handle_signs c own s h) }
{
    let e = admission::entry(c.phase, admission::column(h, own));
    smallest(&[
        sign(Answer::NoSlot, !s.used),
        sign(
            Answer::NotNow,
            truth::either(e == admission::NOT_NOW, mistimed(h, s.due)),
        ),
        sign(Answer::Locked, e == admission::LOCKED),
        sign(Answer::GuardsOpen, leaves_guards(h, s.guards)),
        sign(Answer::NoGuard, lacks_guard(h, s.guards)),
        sign(Answer::FourGuards, lacks_room(h, c.null, s)),
    ])
}

// The copy that guard `j` stands on.
pub fn guarded_copy<'a>(
    g: [Guard; GUARDS],
    j: usize,
    left: &'a [u64],
    right: &'a [u64],
) -> &'a [u64]
    ensures { result.now ≡ guarded_copy g j left.now right.now }
{
    if j < GUARDS && g[j].right {
        right
    } else {
        left
    }
}

// The count of a key in a copy, 0 where it is absent.
fn count(how: Search, w: &[u64], key: u64) -> u64
    ensures { result ≡ slice_index (look_by how key w.now) 1 }
{
    table::look_up_by(how, w, key).get(1).copied().unwrap_or(0)
}

// What an admitted call does on the handle in slot `i`; one that is dropped is handed out next.
#[tactic(auto, unfolding(crate::specs::Handles::handled_by))]
fn act<'a>(
    how: Search,
    c: Control,
    i: usize,
    s: Slot,
    h: Handle,
    left: &'a [u64],
    right: &'a [u64],
) -> Made
    ensures { result ≡ handled_by (look_by how) c i s h left.now right.now }
{
    match h {
        Handle::Drop => Made {
            answer: Answer::Done,
            value: 0,
            slot: guards::freed(c.free, s),
            free: i,
        },
        Handle::Enter => guards::entered(c, s),
        Handle::GoOn => guards::went_on(c, s),
        Handle::Release(j) => guards::made_of(c, Answer::Done, 0, guards::released(j, s)),
        Handle::LookUp(j, key) => {
            let n = count(how, guarded_copy(s.guards, j, left, right), key);
            guards::made_of(c, Answer::Done, n, s)
        }
        Handle::WasDropped => guards::made_of(c, Answer::Done, u64::from(c.null), s),
    }
}

// A call on the handle in slot `i`, by how a key is searched: refused with nothing changed, or made.
#[tactic(auto, unfolding(crate::specs::Handles::handle_by))]
pub fn handle_by<'a>(
    how: Search,
    c: Control,
    i: usize,
    s: Slot,
    h: Handle,
    left: &'a [u64],
    right: &'a [u64],
) -> Made
    ensures { result ≡ handle_by (look_by how) c i s h left.now right.now }
{
    match verdict(c, i == 0, s, h) {
        Err(a) => guards::made_of(c, a, 0, s),
        Ok(()) => act(how, c, i, s, h, left, right),
    }
}

// ---- create

// What speaks against a create.
#[tactic(auto, unfolding(crate::specs::Machine::slot_count))]
fn create_verdict(c: Control) -> Verdict
    ensures { result ≡ smallest_rule (create_signs c) }
{
    smallest(&[
        sign(
            Answer::Locked,
            admission::entry(c.phase, CREATE) == admission::LOCKED,
        ),
        sign(Answer::SlotsFull, SLOTS <= c.free),
    ])
}

// A create: slot `c.free`, which is `s`, gets a new handle, and the one behind it is first; or refused with nothing changed.
#[tactic(auto, using(crate::proofs::Cases::create_room), unfolding(crate::specs::Handles::create_on))]
pub fn create(c: Control, s: Slot) -> Made
    ensures { result ≡ create_on c s }
{
    match create_verdict(c) {
        Err(a) => guards::made_of(c, a, 0, s),
        Ok(()) => Made {
            answer: Answer::Done,
            value: c.free as u64,
            slot: guards::new_slot(),
            free: order::behind(c.free, s.link),
        },
    }
}
