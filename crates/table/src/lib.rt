// The count table on one copy: a lent slice of words.
#![tactic(auto)]

ghost use Rattle.std.specs.Prelude.{◌≡◌, true, false, ◌+◌, ◌*◌, ◌≤◌, ◌<◌, length, take, drop, eqb, MatchResult};
ghost use Rattle.table.specs.Answers.{number as number_rule, outcome, answer_of};
ghost use Rattle.table.specs.Operation.{operation_of, made_by};
ghost use Rattle.table.specs.declared.Search.TheVariants.{Halve};
ghost use Rattle.table.specs.Copy.{entries, words, key_at, passes as passes_rule, first as first_rule, first_from, halved as halved_rule, find_by, place_by, grown as grown_rule, opened, close_rule, zeros, added_by, dropped_by, lawful as lawful_rule, fitness, fits, used_of, Fit, Holds, apply_by, apply_rule, look_by, look_rule, used_rule};
ghost use Rattle.table.specs.Find.{Found, Missing};
ghost use Rattle.table.specs.Order.{Rising};
ghost use Rattle.table.specs.Many.{is_view, filled, told, told_all, Ready, look_all_rule};

// How many pairs a copy has room for.
pub const PAIRS: usize = 512;

// How many words a copy has: entry count, spill and the pairs.
pub const WORDS: usize = 2 + 2 * PAIRS;

const MOST: u64 = PAIRS as u64;

// How many pairs a walk passes in a turn.
const TURN: usize = 4;

// What a call answers. `Done` is one of them, and no Result: `apply_rule` and its like have one answer for each call, and a transcript one number.
#[derive(Debug, Clone, Copy, PartialEq, Eq)]
pub enum Answer {
    Done,
    Length,
    Broken,
    Gone,
    NoSlot,
    Operation,
    NotNow,
    Locked,
    GuardsOpen,
    NoGuard,
    FourGuards,
    LogFull,
    SlotsFull,
    Held,
    Declined,
    None,
}

// How a key is searched: by a walk, which finds its first pair in any words; or by halving, for whoever knows that the keys rise.
#[derive(Debug, Clone, Copy, PartialEq, Eq)]
pub enum Search {
    Walk,
    Halve,
}

// What an operation does, with what it takes.
#[derive(Debug, Clone, Copy, PartialEq, Eq)]
enum Operation {
    Add { key: u64, amount: u64 },
    Drop { key: u64 },
    Clear,
}

// An answer's number.
impl From<Answer> for u8 {
    ghost from_gives = { λ a n. n ≡ number_rule a };

    fn from(a: Answer) -> u8 {
        a as u8
    }
}

// Whether a copy has its length and no more entries than pairs.
#[tactic(auto, unfolding(crate::specs::Copy::fitness))]
pub fn fit(w: &[u64]) -> Result<(), Answer>
    ensures { result ≡ outcome (fitness w.now) }
{
    if w.len() != WORDS {
        return Err(Answer::Length);
    }
    if MOST < w[0] {
        return Err(Answer::Broken);
    }
    Ok(())
}

impl Operation {
    // By its kind, which asks for the key and the amount that it has. No TryFrom: the three words stand in no type of their own.
    #[tactic(auto, unfolding(crate::specs::Operation::operation_of, crate::specs::Copy::lawful))]
    fn of(kind: u64, key: u64, amount: u64) -> Result<Operation, Answer>
        ensures { result ≡ operation_of kind key amount }
    {
        match (kind, key, amount) {
            (1, _, 1..) => Ok(Operation::Add { key, amount }),
            (2, _, 0) => Ok(Operation::Drop { key }),
            (3, 0, 0) => Ok(Operation::Clear),
            _ => Err(Answer::Operation),
        }
    }
}

// Whether an operation has the key and the amount that its kind asks. The three come one by one, as words of a log and of a caller do;
// an `Operation` is what they make where they are lawful.
#[tactic(auto, unfolding(crate::specs::Operation::operation_of))]
pub fn lawful(kind: u64, key: u64, amount: u64) -> bool
    ensures { result ≡ lawful_rule kind key amount }
{
    Operation::of(kind, key, amount).is_ok()
}

// Zeroes a slice.
pub fn zero(w: &mut [u64])
    ensures { w.new ≡ zeros w.old }
{
    w.fill(0);
}

// The pairs of lent words, which are as many as the words say, and no more than have room.
#[derive(Clone, Copy)]
struct Pairs<'a> {
    words: &'a [u64],
    ghost held: { Holds words.now },
}

impl<'a> Pairs<'a> {
    // Those of a copy, where it is fit.
    fn of(w: &'a [u64]) -> Result<Pairs<'a>, Answer>
        ensures { MatchResult result (λ p. (p.words.now ≡ w.now) × (fits w.now ≡ true)) (λ a. fits w.now ≡ false) }
    {
        fit(w)?;
        Ok(Pairs { words: w })
    }

    fn count(self) -> usize
        ensures { result ≡ entries self.entry.words.now }
    {
        self.words[0] as usize
    }

    // That pair `i` is used is asked of each: a type of such numbers would have to name the words too.
    fn key(self, i: usize) -> u64
        requires { i < entries self.words.now }
        ensures { result ≡ key_at self.entry.words.now i }
    {
        self.words[2 * i + 2]
    }

    // Key and count of pair `i`.
    fn pair(self, i: usize) -> &'a [u64]
        requires { i < entries self.words.now }
        ensures { result.now ≡ take 2 (drop (2 * i + 2) self.entry.words.now) }
    {
        &self.words[2 * i + 2..2 * i + 4]
    }

    // Entry count, spill and the used pairs.
    fn used(self) -> &'a [u64]
        ensures { result.now ≡ used_of self.entry.words.now }
    {
        &self.words[..2 * self.count() + 2]
    }

    // Whether pair `i` is one that is sought. By a flag, as the rule has it: of a closure each contract below would have to say what it computes.
    fn passes(self, key: u64, exact: bool, i: usize) -> bool
        requires { i < entries self.words.now }
        ensures { result ≡ passes_rule exact key (key_at self.entry.words.now i) }
    {
        let k = self.key(i);
        if exact { k == key } else { key <= k }
    }

    // How many of a turn's pairs, from `i` on, fail before one that passes.
    fn failing(self, key: u64, exact: bool, i: usize) -> usize
        requires { i + 4 ≤ entries self.words.now }
        ensures { (first_from exact key self.entry.words.now i ≡ first_from exact key self.entry.words.now (i + result)) × (result ≤ 4) }
    {
        for k in 0..TURN {
            if self.passes(key, exact, i + k) {
                return k;
            }
        }
        TURN
    }

    // Whole turns, up to a pair that passes: where the walk has to go on.
    fn turns(self, key: u64, exact: bool) -> usize
        ensures { (first_rule exact key self.entry.words.now ≡ first_from exact key self.entry.words.now result) × (result ≤ entries self.entry.words.now) }
    {
        let n = self.count() / TURN;
        for t in 0..n {
            let k = self.failing(key, exact, TURN * t);
            if k < TURN {
                return TURN * t + k;
            }
        }
        TURN * n
    }

    // The first used pair whose key passes, or the entry count, and no Option: a new pair goes there. A walk costs less by turns, as its end is asked for once in each.
    fn first(self, key: u64, exact: bool) -> usize
        ensures { (result ≡ first_rule exact key self.entry.words.now) × (result ≤ entries self.entry.words.now) }
    {
        let n = self.count();
        for i in self.turns(key, exact)..n {
            if self.passes(key, exact, i) {
                return i;
            }
        }
        n
    }

    // The same by halving: of `n` pairs from `i` on the middle one says which half is left.
    // A loop: of keys in any order std's searches say nothing, and `halved` says where this one ends.
    fn halved(self, key: u64) -> usize
        ensures { (result ≡ halved_rule key self.entry.words.now) × (result ≤ entries self.entry.words.now) }
    {
        let mut i = 0;
        let mut n = self.count();
        while 0 < n {
            let at = i + n / 2;
            if key <= self.key(at) {
                n = n / 2;
            } else {
                i = at + 1;
                n = (n - 1) / 2;
            }
        }
        i
    }

    // Where the search for the key ends.
    fn end(self, how: Search, key: u64) -> usize
        ensures { (result ≡ find_by how key self.entry.words.now) × (result ≤ entries self.entry.words.now) }
    {
        match how {
            Search::Walk => self.first(key, true),
            Search::Halve => self.halved(key),
        }
    }

    // The key's pair, or where the search for it has ended.
    fn find(self, how: Search, key: u64) -> Result<usize, usize>
        ensures { MatchResult result (Found how key self.entry.words.now) (Missing how key self.entry.words.now) }
    {
        let i = self.end(how, key);
        if i < self.count() && self.key(i) == key {
            return Ok(i);
        }
        Err(i)
    }

    // Where a new pair of the key goes, whose search has ended at `i`, where a halving puts it.
    fn place(self, how: Search, key: u64, i: usize) -> usize
        requires { (i ≡ find_by how key self.words.now) × (i ≤ entries self.words.now) }
        ensures { (result ≡ place_by how key self.entry.words.now) × (result ≤ entries self.entry.words.now) }
    {
        match how {
            Search::Walk => self.first(key, false),
            Search::Halve => i,
        }
    }

    // How the keys may be searched: by halving only where they rise, so that none is there twice.
    fn way(self) -> Search
        ensures { result ≡ Halve → Rising self.entry.words.now }
    {
        for i in 1..self.count() {
            if self.key(i) <= self.key(i - 1) {
                return Search::Walk;
            }
        }
        Search::Halve
    }

    // Whether the key is there, and its count: two words and no Option, as README has it of `look_up_all`.
    fn tell(self, how: Search, key: u64, out: &mut [u64])
        requires { Ready how self.words.now × (length out.old ≡ 2) }
        ensures { out.new ≡ told (look_rule key (filled self.entry.words.now)) }
    {
        match self.find(how, key) {
            Ok(i) => {
                out[0] = 1;
                out[1] = self.words[2 * i + 3];
            }
            Err(_) => {
                out[0] = 0;
                out[1] = 0;
            }
        }
    }
}

// The first `m` words of a part move up by two, behind a new pair.
fn open_gap(part: &mut [u64], m: usize, key: u64, amount: u64)
    requires { m + 2 ≤ length part.old }
    ensures { part.new ≡ opened m key amount part.old }
{
    part.copy_within(..m, 2);
    part[0] = key;
    part[1] = amount;
}

// Closes a gap of `g` words before `m` words: they move down, and the words that they leave become zero.
#[tactic(auto, unfolding(crate::specs::Copy::close_rule))]
pub fn close_gap(part: &mut [u64], g: usize, m: usize)
    ensures { part.new ≡ close_rule g m part.old }
{
    let n = part.len();
    if n < g || n - g < m {
        return;
    }
    part.copy_within(g..g + m, 0);
    zero(&mut part[m..m + g]);
}

// The sum, or the largest number where it does not fit.
fn grown(x: u64, a: u64) -> u64
    ensures { result ≡ grown_rule x a }
{
    x.saturating_add(a)
}

// `Fit` is asked of the three functions that write the words, and stands in no type: of one around the `&mut` it would have to be proved
// again behind each write.
fn add_in(how: Search, w: &mut [u64], key: u64, amount: u64)
    requires { Fit w.old }
    ensures { w.new ≡ added_by how key amount w.old }
{
    let pairs = Pairs { words: w };
    let n = pairs.count();
    match pairs.find(how, key) {
        Ok(i) => w[2 * i + 3] = grown(w[2 * i + 3], amount),
        Err(_) if PAIRS <= n => w[1] = grown(w[1], 1),
        Err(i) => {
            let j = pairs.place(how, key, i);
            open_gap(&mut w[2 * j + 2..], 2 * (n - j), key, amount);
            w[0] = (n + 1) as u64;
        }
    }
}

fn drop_in(how: Search, w: &mut [u64], key: u64)
    requires { Fit w.old }
    ensures { w.new ≡ dropped_by how key w.old }
{
    let pairs = Pairs { words: w };
    let n = pairs.count();
    if let Ok(i) = pairs.find(how, key) {
        close_gap(&mut w[2 * i + 2..], 2, 2 * (n - i - 1));
        w[0] = (n - 1) as u64;
    }
}

// The operation alone, on a copy that is fit.
fn effect(how: Search, w: &mut [u64], what: Operation)
    requires { Fit w.old }
    ensures { w.new ≡ made_by how what w.old }
{
    match what {
        Operation::Add { key, amount } => add_in(how, w, key, amount),
        Operation::Drop { key } => drop_in(how, w, key),
        Operation::Clear => zero(w),
    }
}

// What `apply_by` tries, as a Result for `?`: what is refused has changed nothing.
fn tried(how: Search, w: &mut [u64], kind: u64, key: u64, amount: u64) -> Result<(), Answer>
    ensures { record { answer = answer_of result; copy = w.new } ≡ apply_by how kind key amount w.old }
{
    fit(w)?;
    effect(how, w, Operation::of(kind, key, amount)?);
    Ok(())
}

// An operation on a copy, by how its key is searched: refused with nothing changed, or made. The three words come one by one, as to
// `lawful`.
pub fn apply_by(how: Search, w: &mut [u64], kind: u64, key: u64, amount: u64) -> Answer
    ensures { record { answer = result; copy = w.new } ≡ apply_by how kind key amount w.old }
{
    match tried(how, w, kind, key, amount) {
        Ok(()) => Answer::Done,
        Err(a) => a,
    }
}

// An operation on a copy: refused with nothing changed, or made. By a walk, for whoever lends words that nobody kept in order. Its kind is
// a number, since words come from anyone, and each number has an answer.
pub fn apply(w: &mut [u64], kind: u64, key: u64, amount: u64) -> Answer
    ensures { record { answer = result; copy = w.new } ≡ apply_rule kind key amount w.old }
{
    apply_by(Search::Walk, w, kind, key, amount)
}

// ADD: the key's count grows by the amount. By its number, as `apply` takes it, and so the two below.
pub fn add(w: &mut [u64], key: u64, amount: u64) -> Answer
    ensures { record { answer = result; copy = w.new } ≡ apply_rule 1 key amount w.old }
{
    apply(w, 1, key, amount)
}

// DROP: the key's pair goes.
pub fn drop(w: &mut [u64], key: u64) -> Answer
    ensures { record { answer = result; copy = w.new } ≡ apply_rule 2 key 0 w.old }
{
    apply(w, 2, key, 0)
}

// CLEAR: every word becomes zero.
pub fn clear(w: &mut [u64]) -> Answer
    ensures { record { answer = result; copy = w.new } ≡ apply_rule 3 0 0 w.old }
{
    apply(w, 3, 0, 0)
}

// The two words of the key's pair, as a part of the copy, by how it is searched; no words, and no Option, as
// `look_by` has it, where it is absent or the copy is unfit.
pub fn look_up_by(how: Search, w: &[u64], key: u64) -> &[u64]
    ensures { result.now ≡ look_by how key w.now }
{
    let Ok(pairs) = Pairs::of(w) else {
        return &[];
    };
    match pairs.find(how, key) {
        Ok(i) => pairs.pair(i),
        Err(_) => &[],
    }
}

// The two words of the key's pair, as a part of the copy; no words where it is absent or the copy is unfit. It stays
// beside `look_up_by` as `apply` does beside `apply_by`.
pub fn look_up(w: &[u64], key: u64) -> &[u64]
    ensures { result.now ≡ look_rule key w.now }
{
    look_up_by(Search::Walk, w, key)
}

// The used part, uncopied: entry count, spill and the used pairs; no words where the copy is unfit, as `used_rule` has it.
#[tactic(auto, unfolding(crate::specs::Copy::used_rule))]
pub fn used(w: &[u64]) -> &[u64]
    ensures { result.now ≡ used_rule w.now }
{
    match Pairs::of(w) {
        Ok(pairs) => pairs.used(),
        Err(_) => &[],
    }
}

// ---- many look ups at once

fn is_twice(n: usize, m: usize) -> bool
    ensures { result ≡ eqb n (2 * m) }
{
    n % 2 == 0 && n / 2 == m
}

// It is as long as its entry count says.
fn is_view(v: &[u64]) -> bool
    ensures { result ≡ is_view v.now }
{
    2 <= v.len() && is_twice(v.len() - 2, v[0] as usize)
}

// By an index: of `chunks_exact_mut` std does not say what the slice is at the end.
fn tell_all(how: Search, v: Pairs, keys: &[u64], out: &mut [u64])
    requires { Ready how v.words.now × (length out.old ≡ 2 * length keys.now) }
    ensures { out.new ≡ told_all keys.now (filled v.entry.words.now) }
{
    for (i, key) in keys.iter().enumerate() {
        v.tell(how, *key, &mut out[2 * i..2 * i + 2]);
    }
}

// Many keys looked up in a view, which is the used part of a copy: two words for each, whether it is there and its count. The order of
// the pairs is tested once, so that each key is found by halving where they rise.
pub fn look_up_all(v: &[u64], keys: &[u64], out: &mut [u64]) -> Answer
    ensures { record { answer = result; copy = out.new } ≡ look_all_rule v.now keys.now out.old }
{
    if !is_view(v) || !is_twice(out.len(), keys.len()) {
        return Answer::Length;
    }
    if MOST < v[0] {
        return Answer::Broken;
    }
    let pairs = Pairs { words: v };
    tell_all(pairs.way(), pairs, keys, out);
    Answer::Done
}
