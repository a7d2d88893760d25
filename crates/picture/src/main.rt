// Plays a recording of calls from standard input, as `replay` does but with no word, and writes an image of what stands: in mode 3 the dots, a portable
// bitmap of 480 by 64; else the shown screen, a portable graymap of 80 by 8, a place a point and its code the grey.
#![tactic(auto)]

use model::{CELLS, DOTS, LAYER, SHOWN};
use record_input::MOST_ROOM;

// A bad record ends the recording, and what stands is still written.
fn main(rt: HostRuntime) {
    let mut cells = [0u8; CELLS];
    let mut layer = [0u8; LAYER];
    let mut shown = [0u8; SHOWN];
    let mut dots = [0u8; DOTS];
    let mut printer = [0u8; MOST_ROOM];
    let ended = recording::play_all(
        &rt,
        &mut rt.stdin(),
        false,
        &mut cells,
        &mut layer,
        &mut shown,
        &mut dots,
        &mut printer,
    );
    write_image(&rt, ended.played.settings.mode, &shown, &dots);
}

// The store as it is: the bitmap's leftmost dot is a byte's highest bit too.
fn write_image(out: &impl Print, mode: u8, shown: &[u8], dots: &[u8]) {
    if mode == 3 {
        report::say(out, b"P4\n480 64\n");
        report::say(out, dots);
    } else {
        report::say(out, b"P5\n80 8\n255\n");
        report::say(out, shown);
    }
}
