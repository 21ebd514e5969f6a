// One line: a call that is made and told, a part that is shown, or something that is set up.
use crate::slices::{OPS, SPACE};
use crate::{records, slices};
use read::{Reply, State};
use std::io::Stdout;
use table::Answer;
use tell::{apart, put, say, say_words, value, word};

// How many words of each slice are lent.
#[derive(Debug, Clone, Copy, PartialEq, Eq)]
struct Lengths {
    left: usize,
    right: usize,
    log: usize,
}

// Those of a machine's slices.
const WHOLE: Lengths = Lengths {
    left: table::WORDS,
    right: table::WORDS,
    log: read::LOG_WORDS,
};

// The machine, its slices, and what is lent of them.
#[derive(Clone, Copy)]
pub(crate) struct World {
    state: State,
    lengths: Lengths,
    left: [u64; SPACE],
    right: [u64; SPACE],
    log: [u64; SPACE],
}

// What is lent to a call.
#[derive(Drop)]
struct Lent<'a> {
    left: &'a mut [u64],
    right: &'a mut [u64],
    log: &'a mut [u64],
}

fn answered(answer: Answer, state: State) -> Reply {
    Reply {
        answer,
        value: 0,
        state,
    }
}

// ---- calls

// A batch. Behind the words that its line gives stand those of a log.
fn extended(line: &[u8], state: State, lent: Lent<'_>) -> Reply {
    let ops = slices::ops(line);
    let n = OPS.min(value(line, 1) as usize);
    let Lent { left, right, log } = lent;
    machine::extend(state, &ops[..n], left, right, log)
}

// The release in place, on the record of a slot.
fn left_by(mut state: State, i: usize, guard: usize) -> Reply {
    match state.slots.get_mut(i) {
        Some(slot) => {
            let released = place::leave(*slot, guard);
            *slot = released.slot;
            answered(released.answer, state)
        }
        None => answered(Answer::NoSlot, state),
    }
}

// The slot and the guard that a line names.
fn slot(line: &[u8]) -> usize {
    value(line, 1) as usize
}

fn guard(line: &[u8]) -> usize {
    value(line, 2) as usize
}

// A call on the machine. A number is read where a call asks for it: most lines are none of these, and a word may be long.
fn on_machine(name: &[u8], line: &[u8], state: State, lent: Lent<'_>) -> Option<Reply> {
    let Lent { left, right, log } = lent;
    let reply = match name {
        b"start" => machine::start(left, right, log),
        b"create" => machine::create(state, left, right, log),
        b"drop" => machine::drop(state, slot(line), left, right, log),
        b"enter" => machine::enter(state, slot(line), left, right, log),
        b"go-on" => machine::go_on(state, slot(line), left, right, log),
        b"release" => machine::release(state, slot(line), guard(line), left, right, log),
        b"look-up" => machine::look_up(
            state,
            slot(line),
            guard(line),
            value(line, 3),
            left,
            right,
            log,
        ),
        b"was-dropped" => machine::was_dropped(state, slot(line), left, right, log),
        b"append" => machine::append(
            state,
            value(line, 1),
            value(line, 2),
            value(line, 3),
            left,
            right,
            log,
        ),
        b"extend" => extended(line, state, Lent { left, right, log }),
        b"publish" => machine::publish(state, left, right, log),
        b"try" => machine::try_publish(state, left, right, log),
        b"flush" => machine::flush(state, left, right, log),
        b"take" => machine::take(state, left, right, log),
        b"step" => machine::step(state, left, right, log),
        b"run" => machine::run(state, left, right, log),
        b"leave" => left_by(state, slot(line), guard(line)),
        _ => return None,
    };
    Some(reply)
}

// A call on words alone.
fn on_words(name: &[u8], line: &[u8], lent: Lent<'_>) -> Option<Answer> {
    let Lent { left, right, log } = lent;
    let answer = match name {
        b"apply" => table::apply(left, value(line, 1), value(line, 2), value(line, 3)),
        b"add" => table::add(left, value(line, 1), value(line, 2)),
        b"remove" => table::drop(left, value(line, 1)),
        b"clear" => table::clear(left),
        b"close-gap" => slices::closed(left, value(line, 1) as usize, value(line, 2) as usize),
        b"fill" => slices::filled(left),
        b"find-all" => table::look_up_all(left, right, log),
        b"find-each" => slices::find_each(left, right, log),
        _ => return None,
    };
    Some(answer)
}

// ---- parts

fn part<'a>(name: &[u8], line: &[u8], state: State, lent: &'a Lent<'_>) -> Option<&'a [u64]> {
    let part = match name {
        b"view" => machine::view(
            state,
            slot(line),
            guard(line),
            lent.left,
            lent.right,
            lent.log,
        ),
        b"pair" => machine::pair(
            state,
            slot(line),
            guard(line),
            value(line, 3),
            lent.left,
            lent.right,
            lent.log,
        ),
        b"find" => table::look_up(lent.left, value(line, 1)),
        b"used" => table::used(lent.left),
        _ => return None,
    };
    Some(part)
}

fn show(to: Stdout, name: &[u8], line: &[u8], state: State, lent: Lent<'_>) {
    if let Some(words) = part(name, line, state, &lent) {
        say(to, format_args!(" -> {}", words.len()));
        say_words(to, b" words", &[], words);
    }
    let Lent { left, right, .. } = lent;
    if let b"apart" = name {
        // Taken out first: lent beside the digest, it would cost that too.
        let words = apart(left, right).words;
        say(to, format_args!(" -> {words}"));
    }
}

// ---- all lines

impl World {
    // A fresh machine. No word of its slices is set up.
    pub(crate) fn new() -> World {
        World {
            state: read::fresh_state(),
            lengths: WHOLE,
            left: [0; SPACE],
            right: [0; SPACE],
            log: [0; SPACE],
        }
    }

    fn lent(&mut self) -> Lent<'_> {
        let lengths = self.lengths;
        let World {
            left,
            right,
            log,
            ..
        } = self;
        Lent {
            left: &mut left[..SPACE.min(lengths.left)],
            right: &mut right[..SPACE.min(lengths.right)],
            log: &mut log[..SPACE.min(lengths.log)],
        }
    }

    fn called(&mut self, name: &[u8], line: &[u8]) -> Option<Reply> {
        let state = self.state;
        match on_machine(name, line, state, self.lent()) {
            Some(reply) => Some(reply),
            None => on_words(name, line, self.lent()).map(|answer| answered(answer, state)),
        }
    }

    fn start_anew(&mut self) {
        self.lengths = WHOLE;
        let Lent { left, right, log } = self.lent();
        self.state = machine::start(left, right, log).state;
    }

    fn set_up(&mut self, name: &[u8], line: &[u8]) {
        match name {
            b"left" => slices::set_up(line, &mut self.left),
            b"right" => slices::set_up(line, &mut self.right),
            b"log" => slices::set_up(line, &mut self.log),
            b"lengths" => {
                self.lengths = Lengths {
                    left: value(line, 1) as usize,
                    right: value(line, 2) as usize,
                    log: value(line, 3) as usize,
                }
            }
            b"fresh" => self.start_anew(),
            _ => records::set_up(name, line, &mut self.state),
        }
    }

    // What a call answered, and what it changed.
    fn say_reply(&self, to: Stdout, before: &World, reply: Reply) {
        let answer = u8::from(reply.answer);
        say(to, format_args!(" -> {answer} {}", reply.value));
        records::say_state(to, &before.state, &self.state);
        say_words(to, b", left", &before.left, &self.left);
        say_words(to, b", right", &before.right, &self.right);
        say_words(to, b", log", &before.log, &self.log);
    }

    // A line, and what it led to.
    pub(crate) fn tell(&mut self, to: Stdout, line: &[u8]) {
        let before = *self;
        put(to, line);
        // Looked for once: it may be long.
        let name = word(line, 0);
        match self.called(name, line) {
            Some(reply) => {
                self.state = reply.state;
                self.say_reply(to, &before, reply);
            }
            None => {
                show(to, name, line, before.state, self.lent());
                self.set_up(name, line);
            }
        }
        say(to, "\n");
    }
}
