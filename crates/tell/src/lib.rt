// What the test programs share: a text that is read, its lines, words and numbers, words of a copy, and what is printed.
// A text is bytes: a line that is no UTF-8 is one as any other.
#![tactic(auto)]

ghost use Rattle.std.specs.Prelude.{◌≡◌, ◌↔◌, ◌-◌, ◌<◌, ◌≤◌, length, IsTrue};
ghost use Rattle.std.specs.Iterator.{at_most};

use std::fmt::Display;
use std::io::{Read, Stdout};
use std::ops::Range;

// One byte more than a text may have, so that a longer one is seen.
pub const ROOM: usize = 400001;

// Words that differ are listed up to this many; of more, their number and a digest are told.
const LISTED: u64 = 12;

// The largest number that ten times itself and a digit more may follow.
const TENTH: u64 = u64::MAX / 10;

const PRIME: u64 = 1000003;

// ---- what is printed

// Writes bytes as they stand. What cannot be written is lost.
pub fn put(to: Stdout, text: &[u8]) {
    let _ = to.write_all(text);
}

// Writes what Display makes of a value. What cannot be written is lost.
pub fn say(to: Stdout, what: impl Display + Drop) {
    let _ = to.print(what);
}

// ---- a text

// Reads as far as there is room, or until a read fails. A loop, and a count: only a read says how many bytes it brought.
fn read_all<R: Read + Drop>(mut from: R, space: &mut [u8; ROOM]) -> &[u8]
    ensures { length result.now ≤ ROOM }
{
    let mut done = 0;
    while let Ok(n @ 1..) = from.read(&mut space[done..]) {
        done += n;
    }
    &space[..done]
}

// A whole text. Where there is no room for it that is said, and it has no bytes.
pub fn read_text<R: Read + Drop>(to: Stdout, from: R, space: &mut [u8; ROOM]) -> &[u8]
    ensures { length result.now < ROOM }
{
    let text = read_all(from, space);
    if text.len() == ROOM {
        say(to, "the text is too long\n");
        return &[];
    }
    text
}

// What stands between two words of a line.
pub fn is_blank(b: &u8) -> bool
    ensures { IsTrue result ↔ (b.now ≡ 32) }
{
    *b == b' '
}

// Word `k` of a line, the first being 0; no bytes where there is none.
pub fn word(line: &[u8], k: usize) -> &[u8] {
    line.split(is_blank).nth(k).unwrap_or(&[])
}

// ---- numbers

// By hand: std's `parse` takes no sizes, and no number that is too large.
fn digit(b: u8) -> u64 {
    match b {
        b'0'..=b'9' => u64::from(b - b'0'),
        _ => 0,
    }
}

// The number with one digit more; a letter is a size.
fn longer(n: u64, b: u8) -> u64 {
    match b {
        b'S' => read::SLOTS as u64,
        b'G' => read::GUARDS as u64,
        b'P' => table::PAIRS as u64,
        b'W' => table::WORDS as u64,
        b'R' => read::LOG_ROOM as u64,
        b'L' => read::LOG_WORDS as u64,
        b'T' => u64::MAX,
        _ => (n % (TENTH + 1) * 10).wrapping_add(digit(b)),
    }
}

// A sum with a term more, or less.
fn with_term(sum: u64, is_less: bool, term: u64) -> u64 {
    if is_less {
        sum.wrapping_sub(term)
    } else {
        sum.wrapping_add(term)
    }
}

// What a word says: decimal numbers and sizes (S slots, G guards, P pairs, W words, R log room, L log words, T the largest number),
// with + and - between them.
pub fn number(word: &[u8]) -> u64 {
    let mut sum = 0;
    let mut is_less = false;
    let mut term = 0;
    for b in word {
        match *b {
            b'+' | b'-' => {
                sum = with_term(sum, is_less, term);
                is_less = *b == b'-';
                term = 0;
            }
            b => term = longer(term, b),
        }
    }
    with_term(sum, is_less, term)
}

// The number that word `k` of a line says; 0 where there is none.
pub fn value(line: &[u8], k: usize) -> u64 {
    number(word(line, k))
}

// ---- words of a copy

// The word at a place; a zero stands for each behind the last one.
fn word_at(words: &[u64], i: usize) -> u64 {
    words.get(i).copied().unwrap_or(0)
}

// The places and the words that are not as they were before. A type of its own: no function hands out a chain of closures.
#[derive(Drop)]
struct ChangedWords<'a> {
    before: &'a [u64],
    after: &'a [u64],
    places: Range<usize>,
}

fn changes<'a>(before: &'a [u64], after: &'a [u64]) -> ChangedWords<'a> {
    ChangedWords {
        before,
        after,
        places: 0..after.len(),
    }
}

impl Iterator for ChangedWords<'_> {
    type Item = (usize, u64);

    ghost remaining = { λ s. at_most (s.places.end - s.places.start) };

    fn next(&mut self) -> Option<(usize, u64)> {
        let before = self.before;
        let after = self.after;
        let i = self
            .places
            .find(|i| word_at(before, *i) != word_at(after, *i))?;
        Some((i, word_at(after, i)))
    }
}

// How many words are not as they were before.
fn count(before: &[u64], after: &[u64]) -> u64 {
    let changed = before
        .iter()
        .zip(after)
        .fold(0, |n: u64, (x, y)| n.wrapping_add(u64::from(x != y)));
    let behind = after.get(before.len()..).unwrap_or(&[]);
    behind
        .iter()
        .fold(changed, |n, x| n.wrapping_add(u64::from(*x != 0)))
}

fn mix(h: u64, x: u64) -> u64 {
    h % PRIME * 31 + x % PRIME
}

// The digest with a word more, by its place; a zero adds nothing, nor a word that is as it was.
fn mix_word(h: u64, i: usize, before: u64, after: u64) -> u64 {
    if after == 0 || after == before {
        h
    } else {
        mix(mix(h, i as u64), after)
    }
}

// The words that are not as they were before: how many, and a number that they make.
#[derive(Debug, Clone, Copy, PartialEq, Eq)]
pub struct Differing {
    pub words: u64,
    pub digest: u64,
}

// Both in one walk, and inlined: who asks for the count alone then pays for no digest.
#[inline(always)]
pub fn apart(before: &[u64], after: &[u64]) -> Differing {
    let mut words: u64 = 0;
    let mut digest = 0;
    for (i, x) in after.iter().enumerate() {
        let was = word_at(before, i);
        words = words.wrapping_add(u64::from(*x != was));
        digest = mix_word(digest, i, was, *x);
    }
    Differing { words, digest }
}

fn list(to: Stdout, changes: ChangedWords<'_>) {
    for (i, x) in changes {
        say(to, format_args!(" {i}:{x}"));
    }
}

// What words became, under a name; nothing where they are as before. A call leaves most as they are, so they are counted first.
pub fn say_words(to: Stdout, name: &[u8], before: &[u64], after: &[u64]) {
    match count(before, after) {
        0 => {}
        1..=LISTED => {
            put(to, name);
            list(to, changes(before, after));
        }
        words => {
            let digest = apart(before, after).digest;
            put(to, name);
            say(to, format_args!(" {words} in all, digest {digest}"));
        }
    }
}
