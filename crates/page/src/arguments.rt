// The arguments that the program is started with.
use std::env::{Env, FillError};
use std::str::FromStr;

// The longest path has fewer bytes. So much room is lent: a String would want the heap.
pub(crate) const PATH: usize = 4096;

// The longest command has as many bytes, likewise.
const WORD: usize = 4;

#[derive(Clone, Copy)]
pub(crate) enum Command {
    Play,
    Show,
}

// That a word is no command.
#[derive(Clone, Copy, Debug)]
pub(crate) struct Unknown;

impl FromStr for Command {
    type Err = Unknown;

    fn from_str(word: &str) -> Result<Command, Unknown> {
        match word {
            "play" => Ok(Command::Play),
            "show" => Ok(Command::Show),
            _ => Err(Unknown),
        }
    }
}

// An argument by its place. The room is lent: `env::args` would want it from the heap, and refuses what is not UTF-8.
fn argument<'a>(rt: &impl Env, i: usize, room: &'a mut [u8]) -> Result<&'a [u8], FillError> {
    let n = rt.arg(i, room)?;
    Ok(&room[..n])
}

impl Command {
    // The first argument, if it is one.
    pub(crate) fn given(rt: &impl Env) -> Option<Command> {
        let mut room = [0u8; WORD];
        let word = argument(rt, 1, &mut room).ok()?;
        std::str::from_utf8(word).ok()?.parse().ok()
    }
}

// FILE, as it is given.
pub(crate) fn path<'a>(rt: &impl Env, room: &'a mut [u8; PATH]) -> Result<&'a [u8], FillError> {
    argument(rt, 2, room)
}

// Whether NAME is given.
pub(crate) fn has_name(rt: &impl Env) -> bool {
    !matches!(rt.arg(3, &mut [0u8; 1]), Err(FillError::NotPresent))
}

// What messages call the file: the last argument. One that does not fit the room is left out.
pub(crate) fn name<'a>(rt: &impl Env, room: &'a mut [u8; PATH]) -> &'a [u8] {
    let i = if has_name(rt) { 3 } else { 2 };
    argument(rt, i, room).unwrap_or(&[])
}
