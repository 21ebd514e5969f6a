// The writer's side of the machine: append, publish, try, flush, take, and the steps that carry them out, on the control part and the
// one slot that each looks at. The copies and the log come one by one, as they are lent: of a struct of three `&mut` each contract would
// have to say besides that it holds the same three still.
#![tactic(auto)]

pub mod begins;
mod operations;
pub mod phases;
mod slices;
pub mod steps;

use read::{Control, Slot};
use table::Answer;

// How many operations a batch has at most.
pub const BATCH_ROOM: usize = 64;

// What a step of the writer, or a call that is made at once, makes of the control part and of the one slot that it looks at. No
// Result: a refusal too says what they are (`refused`).
#[derive(Debug, Clone, Copy, PartialEq, Eq)]
pub struct Moved {
    pub answer: Answer,
    pub value: u64,
    pub control: Control,
    pub slot: Slot,
    pub snapshot: u64,
}

// A call that begins a publish or a take.
#[derive(Debug, Clone, Copy, PartialEq, Eq)]
pub enum Opening {
    Publish,
    Try,
    Flush,
    Take,
}
