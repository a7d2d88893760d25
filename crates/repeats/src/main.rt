// Works out key repeats: a trace from standard input, under the settings that a message in the file named as its argument leaves (the
// opening's without one). Prints `answer A codes N`, then a line `TICK KEY` for each code; or `bad file`.
#![tactic(auto)]

ghost use Rattle.std.specs.Prelude.{◌≡◌, ◌≤◌, IfSome, length};

use model::Settings;
use std::io::Read;
use std::rt::{Env, Files};

// One byte more than a message and a trace may have, so that longer ones are refused and not cut.
fn main(rt: HostRuntime) {
    let mut message = [0u8; 4097];
    match read_message(&rt, &mut message) {
        Some(length) => {
            let settings = left_by(&message[..length]);
            work_out(&rt, &mut rt.stdin(), settings);
        }
        None => report::say(&rt, b"bad file\n"),
    }
}

// The message that the first argument names: how many bytes of the caller's buffer it has, the empty message with no argument; none if it
// cannot be read.
fn read_message<R: Env + Files>(rt: &R, message: &mut [u8]) -> Option<usize>
    ensures { IfSome result (λ n. n ≤ length message.old) }
{
    if !input::is_given(rt, 1) {
        return Some(0);
    }
    let mut file = input::open_named(rt, 1)?;
    read_file(&mut file, message)
}

// The message in a file, which cannot be read where its first read fails.
fn read_file<F: Read>(file: &mut F, message: &mut [u8]) -> Option<usize>
    ensures { IfSome result (λ n. n ≤ length message.old) }
{
    let start = file.read(message).ok()?;
    let more = input::read_full(file, &mut message[start..]);
    Some(start + more)
}

// The settings that a message leaves, from an opening.
fn left_by(message: &[u8]) -> Settings {
    let mut cells = [0u8; 3840];
    let mut layer = [0u8; 1280];
    let mut shown = [0u8; 640];
    let mut dots = [0u8; 3840];
    let mut printer = [0u8; 656];
    let opened = terminal::opening(1, &mut cells, &mut layer, &mut shown, &mut dots);
    let settings = opened.settings;
    let outcome = terminal::message(
        settings,
        message,
        &mut cells,
        &mut layer,
        &mut shown,
        &mut dots,
        &mut printer,
    );
    outcome.settings
}

fn work_out<R: Read>(out: &impl Print, from: &mut R, settings: Settings) {
    let mut trace = [0u8; 60001];
    let length = input::read_full(from, &mut trace);
    let mut output = [0u8; 65535];
    let repeats = traces::key_repeats(settings, &trace[..length], &mut output);
    report::say_byte(out, b"answer ", repeats.number);
    report::say_number(out, b" codes ", repeats.count);
    report::say(out, b"\n");
    for code in output.chunks_exact(5).take(repeats.count as usize) {
        say_code(out, code);
    }
}

fn say_code(out: &impl Print, code: &[u8])
    requires { length code.now ≡ 5 }
{
    let tick = u32::from_le_bytes([code[0], code[1], code[2], code[3]]);
    report::say_number(out, b"", u64::from(tick));
    report::say_byte(out, b" ", code[4]);
    report::say(out, b"\n");
}
