// Reads a message from standard input, plays it from an opening with printer room 656, and prints the answer and the rows.
#![tactic(auto)]

use model::{CELLS, COPY, DOTS, LAYER, MESSAGE, SHOWN};

// One byte more than a message may have, so that a longer one is refused and not cut.
fn main(rt: HostRuntime) {
    let mut message = [0u8; MESSAGE + 1];
    let length = input::read_full(&mut rt.stdin(), &mut message);
    let mut cells = [0u8; CELLS];
    let mut layer = [0u8; LAYER];
    let mut shown = [0u8; SHOWN];
    let mut dots = [0u8; DOTS];
    let mut printer = [0u8; COPY];
    let opened = terminal::opening(1, &mut cells, &mut layer, &mut shown, &mut dots);
    let outcome = terminal::message(
        opened.settings,
        &message[..length],
        &mut cells,
        &mut layer,
        &mut shown,
        &mut dots,
        &mut printer,
    );
    report::say_answer(&rt, outcome.answer);
    let _ = println!(rt);
    report::say_rows(&rt, &shown);
}
