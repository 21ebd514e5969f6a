// The state's records in words: set up from a line, and told where they changed.
use read::{Control, Due, GUARDS, Guard, Job, Phase, SLOTS, Slot, State};
use std::fmt;
use std::fmt::{Display, Formatter};
use std::io::Stdout;
use tell::{say, value, word};

// ---- the control part

// The jobs in the order of the numbers that the text has for them.
const JOBS: [Job; 4] = [Job::Publish, Job::Try, Job::TakeFirst, Job::TakeSecond];

// How many stand before it.
fn job_number(job: Job) -> u64 {
    JOBS.iter().take_while(|j| **j != job).count() as u64
}

// The job with a number; a number past the last one is as the last one.
fn job_of(number: u64) -> Job {
    JOBS.get(number as usize)
        .copied()
        .unwrap_or(Job::TakeSecond)
}

// The fields that have a name here, as numbers.
fn fields(control: &Control) -> [(&'static str, u64); 9] {
    [
        ("side", u64::from(control.right)),
        ("null", u64::from(control.null)),
        ("lock", u64::from(control.lock)),
        ("first", u64::from(control.first)),
        ("second", u64::from(control.second)),
        ("length", control.length as u64),
        ("swapped", control.swapped as u64),
        ("job", job_number(control.job)),
        ("free", control.free as u64),
    ]
}

fn set_field(control: &mut Control, name: &[u8], x: u64) {
    match name {
        b"side" => control.right = x == 1,
        b"null" => control.null = x == 1,
        b"lock" => control.lock = x == 1,
        b"first" => control.first = x == 1,
        b"second" => control.second = x == 1,
        b"length" => control.length = x as usize,
        b"swapped" => control.swapped = x as usize,
        b"job" => control.job = job_of(x),
        b"free" => control.free = x as usize,
        _ => {}
    }
}

fn phase_of(name: &[u8], k: usize) -> Phase {
    match name {
        b"idle" => Phase::Idle,
        b"begin" => Phase::Begin,
        b"poll" => Phase::Poll(k),
        b"copy" => Phase::Copy,
        b"drain" => Phase::Drain,
        b"keep" => Phase::Keep(k),
        b"swap" => Phase::Swap,
        b"snap" => Phase::Snap(k),
        b"null" => Phase::Null,
        b"lock" => Phase::Lock,
        b"last-snap" => Phase::LastSnap(k),
        b"last-poll" => Phase::LastPoll(k),
        b"finish" => Phase::Finish,
        _ => Phase::Gone,
    }
}

// A phase as a line names it. The text stands in a type of its own, since `read` has no texts.
#[derive(Clone, Copy)]
struct PhaseText(Phase);

impl Display for PhaseText {
    fn fmt<W: fmt::Write>(&self, f: &mut Formatter<W>) -> fmt::Result {
        match self.0 {
            Phase::Idle => write!(f, "idle"),
            Phase::Begin => write!(f, "begin"),
            Phase::Poll(k) => write!(f, "poll {k}"),
            Phase::Copy => write!(f, "copy"),
            Phase::Drain => write!(f, "drain"),
            Phase::Keep(k) => write!(f, "keep {k}"),
            Phase::Swap => write!(f, "swap"),
            Phase::Snap(k) => write!(f, "snap {k}"),
            Phase::Null => write!(f, "null"),
            Phase::Lock => write!(f, "lock"),
            Phase::LastSnap(k) => write!(f, "last-snap {k}"),
            Phase::LastPoll(k) => write!(f, "last-poll {k}"),
            Phase::Finish => write!(f, "finish"),
            Phase::Gone => write!(f, "gone"),
        }
    }
}

fn say_control(to: Stdout, before: &Control, after: &Control) {
    if before.phase != after.phase {
        say(to, format_args!(", {}", PhaseText(after.phase)));
    }
    for ((_, was), (name, is)) in fields(before).iter().zip(fields(after).iter()) {
        if was != is {
            say(to, format_args!(", {name} {is}"));
        }
    }
}

// ---- a slot

const SHUT: Guard = Guard {
    opened: false,
    right: false,
};

fn guard_of(letter: u8) -> Guard {
    Guard {
        opened: letter == b'L' || letter == b'R',
        right: letter == b'R',
    }
}

// A letter for each guard; those behind the last letter are shut.
fn guards_of(letters: &[u8]) -> [Guard; GUARDS] {
    let mut guards = [SHUT; GUARDS];
    for (guard, letter) in guards.iter_mut().zip(letters) {
        *guard = guard_of(*letter);
    }
    guards
}

fn due_of(name: &[u8]) -> Due {
    match name {
        b"none" => Due::Nothing,
        b"load" => Due::Load,
        _ => Due::Restore,
    }
}

fn slot_of(line: &[u8]) -> Slot {
    Slot {
        used: matches!(word(line, 2), b"used"),
        epoch: value(line, 3),
        due: due_of(word(line, 4)),
        guards: guards_of(word(line, 5)),
        link: match word(line, 6) {
            b"to" => Some(value(line, 7) as usize),
            _ => None,
        },
    }
}

// Likewise a slot, as a line sets it up.
#[derive(Clone, Copy)]
struct SlotText(Slot);

impl SlotText {
    fn use_name(&self) -> &'static str {
        if self.0.used { "used" } else { "free" }
    }

    fn due_name(&self) -> &'static str {
        match self.0.due {
            Due::Nothing => "none",
            Due::Load => "load",
            Due::Restore => "restore",
        }
    }
}

fn letter(guard: Guard) -> char {
    match guard {
        Guard { opened: false, .. } => '-',
        Guard { right: true, .. } => 'R',
        Guard { right: false, .. } => 'L',
    }
}

impl Display for SlotText {
    fn fmt<W: fmt::Write>(&self, f: &mut Formatter<W>) -> fmt::Result {
        write!(
            f,
            "{} {} {} ",
            self.use_name(),
            self.0.epoch,
            self.due_name()
        )?;
        for guard in self.0.guards {
            write!(f, "{}", letter(guard))?;
        }
        match self.0.link {
            Some(k) => write!(f, " to {k}"),
            None => Ok(()),
        }
    }
}

// ---- the state

// What of the state is another after a call.
pub(crate) fn say_state(to: Stdout, before: &State, after: &State) {
    say_control(to, &before.control, &after.control);
    for i in 0..SLOTS {
        if before.slots[i] != after.slots[i] {
            say(to, format_args!(", slot {i} {}", SlotText(after.slots[i])));
        }
        if before.snapshots[i] != after.snapshots[i] {
            say(to, format_args!(", snapshot {i} {}", after.snapshots[i]));
        }
    }
}

// A line that sets up a part of the state.
pub(crate) fn set_up(name: &[u8], line: &[u8], state: &mut State) {
    match name {
        b"set" => set_field(&mut state.control, word(line, 1), value(line, 2)),
        b"phase" => state.control.phase = phase_of(word(line, 1), value(line, 2) as usize),
        b"slot" => {
            if let Some(slot) = state.slots.get_mut(value(line, 1) as usize) {
                *slot = slot_of(line);
            }
        }
        b"snapshot" => {
            if let Some(snapshot) = state.snapshots.get_mut(value(line, 1) as usize) {
                *snapshot = value(line, 2);
            }
        }
        _ => {}
    }
}
