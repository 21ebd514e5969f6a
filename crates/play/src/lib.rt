// The player: a schedule of calls in, the transcript of their answers out. The machine's memory is its own: two copies and a log, which
// go one by one to the calls of `write`.
#![tactic(auto)]

mod schedule;
mod turns;

ghost use Rattle.std.specs.Prelude.{◌≡◌, ◌++◌, ◌≤◌, length, drop, Ok};
ghost use Rattle.read.specs.Machine.{judged};
ghost use Rattle.table.specs.Order.{Tidy};
ghost use Rattle.read.specs.Calls.{lent};
ghost use Rattle.play.specs.Schedule.{calls_in};
ghost use Rattle.play.specs.Player.{transcript as transcript_rule, machine, reached, told, output, play_rule};

use format::{ENTRY, Fault, HEAD, RECORD};
use read::{LOG_WORDS, SLOTS, State, guards};
use table::{Search, WORDS};
use turns::Far;
use write::steps;

// What came of a schedule: 0, or the number of what refuses it, and how many bytes were written. This is what C gets, so it is no Result.
#[repr(C)]
#[derive(Debug, Clone, Copy, PartialEq, Eq)]
pub struct Played {
    pub answer: u64,
    pub written: usize,
}

// Where the records of a part led: the machine's state, and how many bytes were read and written.
#[derive(Debug, Clone, Copy, PartialEq, Eq)]
pub(crate) struct Reached {
    pub state: State,
    pub used: usize,
    pub written: usize,
}

// Plays the whole records of a part, which has no head, on a machine that is whole and whose copies rise. A turn of the loop is a record,
// and looks at one slot, which is copied out and in; a run's steps are turns of their own, and a batch has its records in one. Only a step
// changes a snapshot. By index: how far it came is handed back, a batch takes the records behind it along, and `put` takes a place.
fn play_on(
    st: State,
    s: &[u8],
    out: &mut [u8],
    left: &mut [u64],
    right: &mut [u64],
    log: &mut [u64],
) -> Reached
    requires { (judged st left.old right.old log.old ≡ Ok tt) × Tidy left.old × Tidy right.old × (length (transcript_rule (calls_in s.now) (machine st left.old right.old log.old)) ≤ length out.old) }
    ensures { (lent result left.new right.new log.new ≡ reached s.now (machine st left.old right.old log.old)) × (out.new ≡ (let w = transcript_rule (calls_in s.now) (machine st left.old right.old log.old) in w ++ drop (length w) out.old)) }
{
    let mut c = st.control;
    let mut slots = st.slots;
    let mut snaps = st.snapshots;
    let end = RECORD * (s.len() / RECORD);
    let mut from = 0;
    let mut to = 0;
    // An index: a batch takes the records behind it along, which no iterator of std does.
    while from < end {
        let call = schedule::decode(s, from);
        let (answer, value) = if call.is_going() {
            let mut k = steps::place(c.phase);
            let mut far = turns::facing(0, c, slots[k], snaps[k]);
            loop {
                match far {
                    Far::Over(answer, value) => break (answer, value),
                    Far::Goes(n) => {
                        let m = steps::advance_by(
                            Search::Halve,
                            c,
                            slots[k],
                            snaps[k],
                            left,
                            right,
                            log,
                        );
                        // A step leaves its slot as it is, or frees it.
                        if slots[k].used != m.slot.used {
                            slots[k] = guards::freed(c.free, slots[k]);
                        }
                        snaps[k] = m.snapshot;
                        c = m.control;
                        k = steps::place(c.phase);
                        far = turns::went_on(call, n, m, c, slots[k], snaps[k]);
                    }
                }
            }
        } else {
            let i = call.slot(c.free);
            // Any slot stands for one that is not there: it is left as it is.
            let k = i % SLOTS;
            let m = turns::turn(s, from, call, i, c, slots[k], left, right, log);
            slots[k] = m.slot;
            c = m.control;
            (m.answer, m.value)
        };
        format::put(out, to, u8::from(answer), value);
        from = schedule::behind(s, from, call);
        to += ENTRY;
    }
    let after = State {
        control: c,
        slots,
        snapshots: snaps,
    };
    Reached {
        state: after,
        used: from,
        written: to,
    }
}

// Plays a schedule on a fresh machine, and says how many bytes were written. What refuses it is found before anything is.
fn transcribe(schedule: &[u8], out: &mut [u8]) -> Result<usize, Fault>
    ensures { output (told result) out.new ≡ play_rule schedule.now out.old }
{
    let entries = format::check(schedule)?;
    if out.len() < ENTRY * entries {
        return Err(Fault::Crowded);
    }
    let mut left = [0u64; WORDS];
    let mut right = [0u64; WORDS];
    let mut log = [0u64; LOG_WORDS];
    let st = read::fresh_state();
    let r = play_on(st, &schedule[HEAD..], out, &mut left, &mut right, &mut log);
    Ok(r.written)
}

// The same, with the number of what refuses a schedule, or 0.
pub fn lrt_play(schedule: &[u8], out: &mut [u8]) -> Played
    ensures { output result out.new ≡ play_rule schedule.now out.old }
{
    match transcribe(schedule, out) {
        Ok(written) => Played { answer: 0, written },
        Err(fault) => Played {
            answer: u64::from(fault),
            written: 0,
        },
    }
}
