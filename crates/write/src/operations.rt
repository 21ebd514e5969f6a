// What an append is of: one operation, or many in words. Each has its own code: one goes without a loop, which would cost it 230
// instructions.
ghost use Rattle.std.specs.Prelude.{◌≡◌, ◌+◌, ◌<◌, ◌≤◌, true, List, [], ◌∷◌, length, slice_set};
ghost use Rattle.table.specs.Order.{Op, op};
ghost use Rattle.read.specs.Machine.{log_room};
ghost use Rattle.write.specs.Call.{ops_in};
ghost use Rattle.write.specs.Begins.{all_lawful, lawful_batch, logged, operated_all_by, logged_all};

use crate::BATCH_ROOM;
use table::Search;

// That all are lawful is asked where they are made and stands in no type: one operation and words would each need a second type.
pub(crate) trait Operations: Copy {
    // The operations, in order.
    ghost listed: { Self → List Op };

    fn how_many(self) -> usize
        ensures { result ≡ length (listed self) };

    // No more than a batch has, and each as its kind asks.
    fn are_lawful(self) -> bool
        ensures { result ≡ lawful_batch (listed self) };

    // One after the other.
    fn apply(self, how: Search, w: &mut [u64])
        requires { all_lawful (listed self) ≡ true }
        ensures { w.new ≡ operated_all_by how (listed self) w.old };

    // Behind `n` others in the log.
    fn enlog(self, log: &mut [u64], n: usize)
        requires room { n + length (listed self) ≤ log_room }
        requires lawful { all_lawful (listed self) ≡ true }
        ensures { log.new ≡ logged_all n (listed self) log.old };
}

// By index: of a word lent by `get_mut` no proof knows what it leaves.
fn put(log: &mut [u64], i: usize, x: u64)
    ensures { log.new ≡ slice_set log.old i x }
{
    if i < log.len() {
        log[i] = x;
    }
}

// An operation behind `n` others.
fn enlog_one(log: &mut [u64], n: usize, kind: u64, key: u64, amount: u64)
    requires { n < log_room }
    ensures { log.new ≡ logged n kind key amount log.old }
{
    let at = 3 * n;
    put(log, at, kind);
    put(log, at + 1, key);
    put(log, at + 2, amount);
}

// ---- one operation

// The words that ask for it.
#[derive(Debug, Clone, Copy, PartialEq, Eq)]
pub(crate) struct Operation {
    pub(crate) kind: u64,
    pub(crate) key: u64,
    pub(crate) amount: u64,
}

impl Operations for Operation {
    ghost listed = { λ o. op o.kind o.key o.amount ∷ [] };

    fn how_many(self) -> usize {
        1
    }

    fn are_lawful(self) -> bool {
        table::lawful(self.kind, self.key, self.amount)
    }

    fn apply(self, how: Search, w: &mut [u64]) {
        table::apply_by(how, w, self.kind, self.key, self.amount);
    }

    fn enlog(self, log: &mut [u64], n: usize) {
        enlog_one(log, n, self.kind, self.key, self.amount);
    }
}

// ---- operations in words, three each; a last one that is cut short is a bad one

// Each is whole, and as its kind asks.
fn all_lawful(ops: &[u64]) -> bool
    ensures { result ≡ all_lawful (ops_in ops.now) }
{
    let (whole, rest) = ops.as_chunks::<3>();
    for op in whole {
        let [kind, key, amount] = *op;
        if !table::lawful(kind, key, amount) {
            return false;
        }
    }
    rest.is_empty()
}

impl<'a> Operations for &'a [u64] {
    ghost listed = { λ s. ops_in s.now };

    fn how_many(self) -> usize {
        self.len().div_ceil(3)
    }

    fn are_lawful(self) -> bool {
        self.how_many() <= BATCH_ROOM && all_lawful(self)
    }

    fn apply(self, how: Search, w: &mut [u64]) {
        let (whole, _) = self.as_chunks::<3>();
        for op in whole {
            let [kind, key, amount] = *op;
            table::apply_by(how, w, kind, key, amount);
        }
    }

    fn enlog(self, log: &mut [u64], n: usize) {
        let (whole, _) = self.as_chunks::<3>();
        for (i, op) in whole.iter().enumerate() {
            let [kind, key, amount] = *op;
            enlog_one(log, n + i, kind, key, amount);
        }
    }
}
