// The lent words: what a step or an append does to the copy that the pointer does not name, and to the log.
ghost use Rattle.std.specs.Fn.{FnOnceReturnsAtMut};
ghost use Rattle.std.specs.Prelude.{◌≡◌, false, ◌+◌, ◌<◌, true, slice_index};
ghost use Rattle.table.specs.Copy.{zeros};
ghost use Rattle.read.specs.Handles.{copy_of};
ghost use Rattle.write.specs.Steps.{of_left, of_right, log_applied_by, over, unlogged};
ghost use Rattle.write.specs.Begins.{all_lawful, operated_all_by};

use crate::operations::Operations;
use read::LOG_ROOM;
use table::Search;

// A word of the log, or 0 behind its end.
fn fetch(log: &[u64], i: usize) -> u64
    ensures { result ≡ slice_index log.now i }
{
    log.get(i).copied().unwrap_or(0)
}

// Operation `i` of the log, applied. Word by word, since a log that is too short may end inside one.
fn apply_logged(how: Search, w: &mut [u64], log: &[u64], i: usize)
    ensures { w.new ≡ log_applied_by how log.now i w.old }
{
    if i < LOG_ROOM {
        let at = 3 * i;
        let kind = fetch(log, at);
        let key = fetch(log, at + 1);
        let amount = fetch(log, at + 2);
        table::apply_by(how, w, kind, key, amount);
    }
}

// The words of one copy over those of another, as many as both have.
fn copy_over(from: &[u64], to: &mut [u64])
    ensures { to.new ≡ over from.now to.old }
{
    let n = from.len().min(to.len());
    to[..n].copy_from_slice(&from[..n]);
}

// ---- on the copy that the pointer does not name; `side`: it names the right one

// `f` on that copy.
fn aside<F: FnOnce(&mut [u64])>(side: bool, left: &mut [u64], right: &mut [u64], f: F)
    requires { F.IsAlwaysCallable f }
    ensures named { side ≡ true → (right.new ≡ right.old) × FnOnceReturnsAtMut F.FnOnce f left.old tt left.new }
    ensures other { side ≡ false → (left.new ≡ left.old) × FnOnceReturnsAtMut F.FnOnce f right.old tt right.new }
{
    if side {
        f(left);
    } else {
        f(right);
    }
}

pub(crate) fn operate<B: Operations>(
    how: Search,
    side: bool,
    ops: B,
    left: &mut [u64],
    right: &mut [u64],
)
    requires { all_lawful (B.listed ops) ≡ true }
    ensures { (left.new ≡ of_left side (operated_all_by how (B.listed ops)) left.old) × (right.new ≡ of_right side (operated_all_by how (B.listed ops)) right.old) }
{
    aside(side, left, right, |w| ops.apply(how, w));
}

pub(crate) fn replay(
    how: Search,
    side: bool,
    i: usize,
    left: &mut [u64],
    right: &mut [u64],
    log: &[u64],
)
    ensures { (left.new ≡ of_left side (log_applied_by how log.now i) left.old) × (right.new ≡ of_right side (log_applied_by how log.now i) right.old) }
{
    aside(side, left, right, |w| apply_logged(how, w, log, i));
}

pub(crate) fn synchronize(side: bool, left: &mut [u64], right: &mut [u64])
    ensures { (left.new ≡ of_left side (over (copy_of side left.old right.old)) left.old) × (right.new ≡ of_right side (over (copy_of side left.old right.old)) right.old) }
{
    // By `aside` it does not prove: the closure would hold the one copy while the other is lent beside it.
    if side {
        copy_over(&right[..], left);
    } else {
        copy_over(&left[..], right);
    }
}

pub(crate) fn erase(side: bool, left: &mut [u64], right: &mut [u64])
    ensures { (left.new ≡ of_left side zeros left.old) × (right.new ≡ of_right side zeros right.old) }
{
    aside(side, left, right, |w| table::zero(w));
}

// ---- on the log

// The first of `n` operations taken off.
pub(crate) fn unlog(log: &mut [u64], n: usize)
    ensures { log.new ≡ unlogged n log.old }
{
    if n <= LOG_ROOM {
        table::close_gap(log, 3, 3 * n.saturating_sub(1));
    }
}
