// Prints how two shown screens differ, from two files named as arguments (document 02, P4): a line `first` and four numbers, or `none` alone, then
// a line of four numbers for each record; or only `refused 1`, also for a file that cannot be read. Both files are read before anything is
// printed.
#![tactic(auto)]

ghost use Rattle.input.specs.Counts.{IsPrefixLen};

use differences::{Difference, Refusal};
use std::io::Read;
use std::rt::{Env, Files};

fn main(rt: HostRuntime) {
    let mut first = [0u8; 640];
    let mut second = [0u8; 640];
    let n = read_named(&rt, 1, &mut first);
    let m = read_named(&rt, 2, &mut second);
    let found = differences::first_difference(&first[..n], &second[..m]);
    say_first(&rt, found);

    // The records that the call counted: none, if it was refused.
    let mut list = [Difference::default(); 640];
    let answer = differences::compare(&first[..n], &second[..m], &mut list);
    for difference in list.iter().take(answer.count) {
        say_record(&rt, *difference);
    }
}

// Reads the file that the argument names, and answers how many bytes it has: 0 if it cannot be read, or has more than a screen, or if there are
// not two arguments. (No Option: either is refused by 1, as a screen of no bytes is.)
fn read_named<R: Env + Files>(rt: &R, argument: usize, screen: &mut [u8]) -> usize
    ensures { IsPrefixLen result screen.new }
{
    if !input::is_given(rt, 2) {
        return 0;
    }
    if input::is_given(rt, 3) {
        return 0;
    }
    match input::open_named(rt, argument) {
        Some(mut file) => read_all(&mut file, screen),
        None => 0,
    }
}

// After the screen's bytes there must be the file's end: no byte more, and no fault.
fn read_all<F: Read>(file: &mut F, screen: &mut [u8]) -> usize
    ensures { IsPrefixLen result screen.new }
{
    let count = input::read_full(file, screen);
    let mut more = [0u8; 1];
    match file.read(&mut more) {
        Ok(0) => count,
        _ => 0,
    }
}

fn say_first(out: &impl Print, found: Result<Option<Difference>, Refusal>) {
    match found {
        Ok(Some(difference)) => {
            report::say(out, b"first ");
            say_record(out, difference);
        }
        Ok(None) => report::say(out, b"none\n"),
        Err(refusal) => {
            report::say_byte(out, b"refused ", refusal.into());
            report::say(out, b"\n");
        }
    }
}

fn say_record(out: &impl Print, difference: Difference) {
    report::say_byte(out, b"", difference.row);
    report::say_byte(out, b" ", difference.column);
    report::say_byte(out, b" ", difference.first);
    report::say_byte(out, b" ", difference.second);
    report::say(out, b"\n");
}
