// The writer's calls that are made at once: append, and the beginnings of publish, try, flush and take. They look at slot 0.
ghost use Rattle.std.specs.Prelude.{◌≡◌, ◌+◌, ◌%◌, ◌^◌, true, false, [], ◌∷◌, length};
ghost use Rattle.table.specs.Order.{op};
ghost use Rattle.read.specs.Machine.{is_gone};
ghost use Rattle.read.specs.Handles.{smallest, with_due};
ghost use Rattle.read.specs.Calls.{lent};
ghost use Rattle.write.specs.Call.{ops_in};
ghost use Rattle.write.specs.Begins.{writer_signs, step_signs, all_lawful, crowds as crowds_rule, appended as appended_rule, append_by, column_of, begun as begun_rule, taking as taking_rule, opened as opened_rule, open_on};

use crate::operations::{Operation, Operations};
use crate::steps::Part;
use crate::{Moved, Opening, phases, slices};
use read::handles::sign;
use read::{Control, Job, LOG_ROOM, Phase, Slot, Verdict, admission, guards, handles, truth};
use table::{Answer, Search};

// The column of append in the table of admissions.
const APPEND: usize = 7;

// ---- what speaks against a writer's call, by its column in the table of admissions

fn is_gone(p: Phase) -> bool
    ensures { result ≡ is_gone p }
{
    matches!(p, Phase::Gone)
}

fn writer_verdict(column: usize, unlawful: bool, full: bool, c: Control, s: Slot) -> Verdict
    ensures { result ≡ smallest (writer_signs column unlawful full c s) }
{
    let e = admission::entry(c.phase, column);
    handles::smallest(&[
        sign(Answer::Gone, is_gone(c.phase)),
        sign(Answer::Operation, unlawful),
        sign(
            Answer::NotNow,
            truth::either(e == admission::NOT_NOW, guards::is_due(s.due)),
        ),
        sign(Answer::GuardsOpen, guards::any_open(s.guards)),
        sign(Answer::LogFull, full),
    ])
}

// Step and run look at no slot to be admitted.
pub fn step_verdict(column: usize, c: Control) -> Verdict
    ensures { result ≡ smallest (step_signs column c) }
{
    handles::smallest(&[
        sign(Answer::Gone, is_gone(c.phase)),
        sign(
            Answer::NotNow,
            admission::entry(c.phase, column) == admission::NOT_NOW,
        ),
    ])
}

// ---- append

// Slot 0's epoch grows by 2.
fn stirred(s: Slot) -> Slot
    ensures { result ≡ with_due ((s.epoch + 2) % 2 ^ 64) s.due s }
{
    Slot {
        epoch: s.epoch.wrapping_add(2),
        ..s
    }
}

// The log has no room for `n` operations, and is what they go to.
fn crowds(n: usize, c: Control) -> bool
    ensures { result ≡ crowds_rule n c }
{
    !c.first && LOG_ROOM < c.length.saturating_add(n)
}

// While `first` at once to the copy that the pointer does not name, and later into the log.
fn appended<B: Operations>(
    how: Search,
    ops: B,
    part: Part,
    left: &mut [u64],
    right: &mut [u64],
    log: &mut [u64],
) -> Moved
    requires { (all_lawful (B.listed ops) ≡ true) × (crowds_rule (length (B.listed ops)) part.control ≡ false) }
    ensures { lent result left.new right.new log.new ≡ appended_rule how part.control.first (B.listed ops) part.control part.slot part.snapshot left.old right.old log.old }
{
    let c = part.control;
    if c.first {
        slices::operate(how, c.right, ops, left, right);
        let slot = stirred(part.slot);
        return Part { slot, ..part }.done(0);
    }
    ops.enlog(log, c.length);
    let control = phases::with_log(c.length + ops.how_many(), c.swapped, c);
    Part { control, ..part }.done(0)
}

// Operations, all of them refused or made.
fn append<B: Operations>(
    how: Search,
    ops: B,
    part: Part,
    left: &mut [u64],
    right: &mut [u64],
    log: &mut [u64],
) -> Moved
    ensures { lent result left.new right.new log.new ≡ append_by how (B.listed ops) part.control part.slot part.snapshot left.old right.old log.old }
{
    let unlawful = !ops.are_lawful();
    let full = crowds(ops.how_many(), part.control);
    match writer_verdict(APPEND, unlawful, full, part.control, part.slot) {
        Ok(()) => appended(how, ops, part, left, right, log),
        Err(a) => part.refused(a),
    }
}

// Control part, slot and snapshot come one by one here and in the two below, as the promises name them.
//
// Append, by how its key is searched: an operation, refused or made. A function beside
// `extend_by`, since its promise speaks of plain numbers.
pub fn append_by(
    how: Search,
    kind: u64,
    key: u64,
    amount: u64,
    c: Control,
    s: Slot,
    e: u64,
    left: &mut [u64],
    right: &mut [u64],
    log: &mut [u64],
) -> Moved
    ensures { lent result left.new right.new log.new ≡ append_by how (op kind key amount ∷ []) c s e left.old right.old log.old }
{
    let part = Part {
        control: c,
        slot: s,
        snapshot: e,
    };
    append(how, Operation { kind, key, amount }, part, left, right, log)
}

// Extend, by how their keys are searched: operations in words, three each, all of them refused or made.
pub fn extend_by(
    how: Search,
    ops: &[u64],
    c: Control,
    s: Slot,
    e: u64,
    left: &mut [u64],
    right: &mut [u64],
    log: &mut [u64],
) -> Moved
    ensures { lent result left.new right.new log.new ≡ append_by how (ops_in ops.now) c s e left.old right.old log.old }
{
    let part = Part {
        control: c,
        slot: s,
        snapshot: e,
    };
    append(how, ops, part, left, right, log)
}

// ---- publish, try, flush, take

// A place in the table of admissions.
fn column_of(o: Opening) -> usize
    ensures { result ≡ column_of o }
{
    match o {
        Opening::Publish => 8,
        Opening::Try => 9,
        Opening::Flush => 10,
        Opening::Take => 11,
    }
}

fn begun(c: Control) -> Control
    ensures { result ≡ begun_rule c }
{
    phases::standing(phases::beginning(c), Job::Publish, c)
}

// Where a take begins: no publish where the first is made and the log is empty.
fn taking(c: Control) -> Phase
    ensures { result ≡ taking_rule c }
{
    if truth::either(c.first, 0 < c.length) {
        return Phase::Begin;
    }
    Phase::Null
}

#[tactic(auto, unfolding(crate::specs::Begins::opened, read::specs::Machine::slot_count))]
fn opened(o: Opening, part: Part) -> Moved
    ensures { result ≡ opened_rule o part.control part.slot part.snapshot }
{
    let c = part.control;
    let publish = Part {
        control: begun(c),
        ..part
    };
    match o {
        Opening::Publish => publish.done(0),
        Opening::Try => {
            let control = phases::standing(Phase::Poll(0), Job::Try, c);
            Part { control, ..part }.done(0)
        }
        Opening::Flush if c.swapped < c.length => publish.done(1),
        Opening::Flush => part.done(0),
        Opening::Take => {
            let control = phases::standing(taking(c), Job::TakeFirst, c);
            Part { control, ..part }.done(0)
        }
    }
}

// The beginning of a publish, a try, a flush or a take: refused, or made.
#[tactic(auto, unfolding(crate::specs::Begins::open_on))]
pub fn open_on(o: Opening, c: Control, s: Slot, e: u64) -> Moved
    ensures { result ≡ open_on o c s e }
{
    let part = Part {
        control: c,
        slot: s,
        snapshot: e,
    };
    match writer_verdict(column_of(o), false, false, c, s) {
        Ok(()) => opened(o, part),
        Err(a) => part.refused(a),
    }
}
