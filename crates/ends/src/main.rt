// Calls on states and words that no schedule reaches, and what calls do to words and records that no schedule shows.
// Standard input has a line for each call, and for each state or slice that is set up. A line is written again, and behind a call
// its answer, its value, and every part of the state and every word that it changed. What must come out stands in stdout, and nothing
// of the rules is used for it.
//
// Calls: start, and those of a schedule's text, but for the batch: extend COUNT WORD.. lends it as so many words, up to 195, the ones behind
// those given being of the pattern logged; on the left slice apply KIND KEY AMOUNT, add KEY AMOUNT, remove KEY, clear, close-gap GAP WORDS,
// and fill, which adds every key of a full copy; leave SLOT GUARD, the release in place; find-all and find-each, which look up the words of
// the right slice in the left one and write what they tell to the log: at once, the left one being a view, and each by itself.
// Parts: view SLOT GUARD, pair SLOT GUARD KEY; of the left slice find KEY and used; apart, in how many words left and right differ.
// Set up: fresh; left, right or log with PATTERN WORD.., the words behind those given being zeros, nines, marks (each its place), full
// (a full copy), logged (a log that is full but for one operation) or as they were; set FIELD NUMBER; phase NAME POSITION; slot NUMBER free|used EPOCH
// none|load|restore GUARDS, a letter for each guard, and then `to NUMBER` where one comes behind it that is not the next; snapshot NUMBER EPOCH;
// lengths LEFT RIGHT LOG.
// Numbers are as in tell::number. Any other line is only written.
#![tactic(auto)]

mod calls;
mod records;
mod slices;

use calls::World;
use tell::ROOM;

fn main(rt: HostRuntime) {
    let to = rt.stdout();
    let mut space = [0u8; ROOM];
    let text = tell::read_text(to, rt.stdin(), &mut space);
    let mut world = World::new();
    for line in text.split_inclusive(|b| *b == b'\n') {
        world.tell(to, line.strip_suffix(b"\n").unwrap_or(line));
    }
}
