// Looks forty keys up in a full table through a guard, by a look up for each or by a view and one call for all of them. It is started so:
//
//   forty               both ways, and whether they give the same
//   forty one ROUNDS    one by one, so many times: for something that counts instructions
//   forty all ROUNDS    at once, likewise
//
// Pair `p` of the table, from 1 to 512, has the key 2p and the count p. Of every two keys that are looked up one is such a 2p, and the
// other is 2p + 1, which is absent; p is 19, 44, .. 494, spread evenly, so that walks pass half of the pairs, or all. So 20 keys are there,
// and their counts make 5130.
//
// Other words are told on standard error, and nothing is written. The exit status is 0 all the same.
#![tactic(auto)]

use read::{LOG_WORDS, State};
use std::env::{Env, FillError};
use std::io::Stdout;
use table::{PAIRS, WORDS};
use tell::say;

const KEYS: usize = 40;

// Of each key whether it is there, and its count.
const OUT: usize = 2 * KEYS;

// The first handle behind the writer's own, and its only guard.
const SLOT: usize = 1;

const GUARD: usize = 0;

// The kind of an ADD, a number as `machine::append` takes it.
const ADD: u64 = 1;

// ---- the machine

// An ADD for each pair, in a mixed order. State and slices come one by one, as each call of the machine takes them.
fn filled(mut state: State, left: &mut [u64], right: &mut [u64], log: &mut [u64]) -> State {
    for i in 0..PAIRS {
        let p = (i * 5 % PAIRS) as u64 + 1;
        state = machine::append(state, ADD, 2 * p, p, left, right, log).state;
    }
    state
}

fn published(state: State, left: &mut [u64], right: &mut [u64], log: &mut [u64]) -> State {
    let begun = machine::publish(state, left, right, log).state;
    machine::run(begun, left, right, log).state
}

// A handle, with a guard.
fn entered(state: State, left: &[u64], right: &[u64], log: &[u64]) -> State {
    let made = machine::create(state, left, right, log).state;
    let announced = machine::enter(made, SLOT, left, right, log).state;
    machine::go_on(announced, SLOT, left, right, log).state
}

fn ready(left: &mut [u64; WORDS], right: &mut [u64; WORDS], log: &mut [u64; LOG_WORDS]) -> State {
    let fresh = machine::start(left, right, log).state;
    let full = filled(fresh, left, right, log);
    let seen = published(full, left, right, log);
    entered(seen, left, right, log)
}

// ---- the look ups

fn keys() -> [u64; KEYS] {
    let mut keys = [0; KEYS];
    for (i, key) in keys.iter_mut().enumerate() {
        let p = (i / 2 * 25 + 19) as u64;
        *key = 2 * p + (i % 2) as u64;
    }
    keys
}

// What is told of the keys.
type Told = [u64; OUT];

// A machine that is read through its guard.
#[derive(Clone, Copy)]
struct Reader<'a> {
    state: State,
    left: &'a [u64],
    right: &'a [u64],
    log: &'a [u64],
}

impl Reader<'_> {
    // A count is never 0 where the key is there.
    fn count_of(&self, key: u64) -> u64 {
        machine::look_up(
            self.state, SLOT, GUARD, key, self.left, self.right, self.log,
        )
        .value
    }

    fn one_by_one(&self, keys: &[u64; KEYS], told: &mut Told) {
        let (pairs, _) = told.as_chunks_mut::<2>();
        for (pair, key) in pairs.iter_mut().zip(keys) {
            let count = self.count_of(*key);
            *pair = [u64::from(count != 0), count];
        }
    }

    fn at_once(&self, keys: &[u64; KEYS], told: &mut Told) {
        let view = machine::view(self.state, SLOT, GUARD, self.left, self.right, self.log);
        table::look_up_all(view, keys, told);
    }
}

// ---- what is written

// What every second word makes.
fn sum(words: &[u64]) -> u64 {
    words
        .iter()
        .step_by(2)
        .fold(0, |sum: u64, x| sum.wrapping_add(*x))
}

fn write(to: Stdout, told: &Told) {
    let there = sum(told);
    let counts = sum(&told[1..]);
    say(
        to,
        format_args!("{there} of 40 keys are there, and their counts make {counts}\n"),
    );
}

fn compare(to: Stdout, a: &Told, b: &Told) {
    match tell::apart(a, b).words {
        0 => {
            say(to, "one by one and at once: ");
            write(to, b);
        }
        n => say(
            to,
            format_args!("one by one and at once differ in words: {n}\n"),
        ),
    }
}

// ---- the words
// They are read into lent bytes: for a `String` there could be no memory.

#[derive(Debug, Clone, Copy, PartialEq, Eq)]
enum Way {
    OneByOne,
    AtOnce,
}

// What is asked for.
#[derive(Debug, Clone, Copy, PartialEq, Eq)]
enum Task {
    Both,
    Rounds(Way, u64),
}

// Whether there is a word `k`, the program's name being 0.
fn has_word(rt: HostRuntime, k: usize) -> bool {
    !matches!(rt.arg(k, &mut [0u8; 9]), Err(FillError::NotPresent))
}

fn asked_way(rt: HostRuntime) -> Option<Way> {
    let mut word = [0u8; 3];
    let n = rt.arg(1, &mut word).ok()?;
    match &word[..n] {
        b"one" => Some(Way::OneByOne),
        b"all" => Some(Way::AtOnce),
        _ => None,
    }
}

// How many rounds, from 1 to 999,999,999.
fn asked_rounds(rt: HostRuntime) -> Option<u64> {
    let mut word = [0u8; 9];
    let n = rt.arg(2, &mut word).ok()?;
    let digits = &word[..n];
    if !digits.iter().all(|b| b.is_ascii_digit()) {
        return None;
    }
    Some(tell::number(digits)).filter(|n| *n != 0)
}

// Nothing where the words are others than those that are wanted.
fn asked(rt: HostRuntime) -> Option<Task> {
    if !has_word(rt, 1) {
        return Some(Task::Both);
    }
    if has_word(rt, 3) {
        return None;
    }
    Some(Task::Rounds(asked_way(rt)?, asked_rounds(rt)?))
}

// ---- the program

fn both(to: Stdout, reader: &Reader<'_>) {
    let keys = keys();
    let mut a = [0; OUT];
    let mut b = [0; OUT];
    reader.one_by_one(&keys, &mut a);
    reader.at_once(&keys, &mut b);
    compare(to, &a, &b);
}

// The way comes from a word: for a closure there would be a match all the same.
fn counted(to: Stdout, reader: &Reader<'_>, way: Way, rounds: u64) {
    let keys = keys();
    let mut told = [0; OUT];
    for _ in 0..rounds {
        match way {
            Way::OneByOne => reader.one_by_one(&keys, &mut told),
            Way::AtOnce => reader.at_once(&keys, &mut told),
        }
    }
    write(to, &told);
}

fn start(to: Stdout, task: Task) {
    let mut left = [0; WORDS];
    let mut right = [0; WORDS];
    let mut log = [0; LOG_WORDS];
    let state = ready(&mut left, &mut right, &mut log);
    let reader = Reader {
        state,
        left: &left,
        right: &right,
        log: &log,
    };
    match task {
        Task::Both => both(to, &reader),
        Task::Rounds(way, rounds) => counted(to, &reader, way, rounds),
    }
}

fn main(rt: HostRuntime) {
    match asked(rt) {
        Some(task) => start(rt.stdout(), task),
        None => {
            let _ = rt.stderr().print(
                "forty: wanted: no words, or one ROUNDS, or all ROUNDS, from 1 to 999999999\n",
            );
        }
    }
}
