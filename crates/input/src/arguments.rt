// The program's arguments, counted from 1; number 0 is the program's own name. Which arguments and files there are is not for a contract to say: these
// functions promise that they are safe and end.
use std::env::FillError;
use std::rt::{Env, Files};

// The bytes that any path has room in.
const PATH: usize = 4096;

// Whether there are so many arguments.
pub fn is_given(env: &impl Env, argument: usize) -> bool {
    let mut start = [0u8; 1];
    !matches!(env.arg(argument, &mut start), Err(FillError::NotPresent))
}

// The file that an argument names, opened for reading. None where there is no such argument, where it is no text or too long for a path, and where
// the file cannot be opened.
pub fn open_named<R: Env + Files>(rt: &R, argument: usize) -> Option<R::File> {
    let mut path = [0u8; PATH];
    let length = rt.arg(argument, &mut path).ok()?;
    let text = str::from_utf8(&path[..length]).ok()?;
    std::fs::open(rt, text).ok()
}
