// The lent words: what they are set up with, and calls on one slice.
use table::Answer;
use tell::{is_blank, number, value, word};

// A pair more than a copy has, so that a longer slice can be lent, and a view with more entries than pairs.
pub const SPACE: usize = table::WORDS + 2;

// The words of one operation more than a batch may have.
pub const OPS: usize = 195;

// ---- patterns

// What stands behind the words that a line gives.
#[derive(Debug, Clone, Copy, PartialEq, Eq)]
enum Pattern {
    Zeros,
    Nines,
    Marks,
    Full,
    Logged,
}

fn key_at(k: usize) -> u64 {
    (k % table::PAIRS) as u64 * 10 + 7
}

// A full copy: the keys in rising order, and the counts 1, 2 and so on.
fn full_at(i: usize) -> u64 {
    match i {
        0 => table::PAIRS as u64,
        1 | table::WORDS.. => 0,
        _ if i % 2 == 0 => key_at(i / 2 - 1),
        _ => (i / 2) as u64,
    }
}

// A log that has room for one operation more: each is an ADD of 1 to one of five keys.
fn logged_at(i: usize) -> u64 {
    if read::LOG_WORDS - 3 <= i {
        return 0;
    }
    if i % 3 == 1 { (i / 3 % 5) as u64 } else { 1 }
}

impl Pattern {
    fn named(word: &[u8]) -> Option<Pattern> {
        match word {
            b"zeros" => Some(Pattern::Zeros),
            b"nines" => Some(Pattern::Nines),
            b"marks" => Some(Pattern::Marks),
            b"full" => Some(Pattern::Full),
            b"logged" => Some(Pattern::Logged),
            _ => None,
        }
    }

    fn at(self, i: usize) -> u64 {
        match self {
            Pattern::Zeros => 0,
            Pattern::Nines => 9,
            Pattern::Marks => i as u64,
            Pattern::Full => full_at(i),
            Pattern::Logged => logged_at(i),
        }
    }
}

// A line without the comment behind it, whose words are none of a slice.
fn bare(line: &[u8]) -> &[u8] {
    line.split(|b| *b == b'#').next().unwrap_or(line)
}

// Sets the words that a line gives behind its first two, and the others as a pattern has them, or not at all where there is none.
fn paint(words: &mut [u64], line: &[u8], pattern: Option<Pattern>) {
    let mut given = bare(line).split(is_blank).skip(2);
    for (i, x) in words.iter_mut().enumerate() {
        *x = match (given.next(), pattern) {
            (Some(word @ [_, ..]), _) => number(word),
            (_, Some(pattern)) => pattern.at(i),
            (_, None) => *x,
        };
    }
}

// Sets up a slice.
pub(crate) fn set_up(line: &[u8], words: &mut [u64]) {
    paint(words, line, Pattern::named(word(bare(line), 1)));
}

// The words of a batch, with those of a log behind the ones given, unless its count is a pattern's name that a comment cuts short.
pub(crate) fn ops(line: &[u8]) -> [u64; OPS] {
    let mut ops = [0; OPS];
    let pattern = Pattern::named(word(bare(line), 1)).unwrap_or(Pattern::Logged);
    paint(&mut ops, line, Some(pattern));
    ops
}

// ---- calls on one slice

// Each key of a full copy is added, in a mixed order.
pub(crate) fn filled(words: &mut [u64]) -> Answer {
    let mut answer = Answer::Done;
    for i in 0..table::PAIRS {
        let k = i * 5 % table::PAIRS;
        if table::add(words, key_at(k), k as u64 + 1) != Answer::Done {
            answer = Answer::Broken;
        }
    }
    answer
}

pub(crate) fn closed(words: &mut [u64], gap: usize, n: usize) -> Answer {
    table::close_gap(words, gap, n);
    Answer::Done
}

// ---- many look ups

fn count_of(copy: &[u64], key: u64) -> Option<u64> {
    table::look_up(copy, key).get(1).copied()
}

// Word `i` of what is told of the keys, each looked up in a copy by itself: whether it is there, and its count.
fn told_at(copy: &[u64], keys: &[u64], i: usize) -> u64 {
    let count = keys.get(i / 2).and_then(|key| count_of(copy, *key));
    if i % 2 == 0 {
        u64::from(count.is_some())
    } else {
        count.unwrap_or(0)
    }
}

pub(crate) fn find_each(copy: &[u64], keys: &[u64], out: &mut [u64]) -> Answer {
    for (i, x) in out.iter_mut().enumerate() {
        *x = told_at(copy, keys, i);
    }
    Answer::Done
}
