// Plays a recording of calls from standard input, from an opening by rule 1: a line a record, then what stands.
#![tactic(auto)]

use model::{CELLS, DOTS, LAYER, SHOWN};
use record_input::MOST_ROOM;

fn main(rt: HostRuntime) {
    let mut cells = [0u8; CELLS];
    let mut layer = [0u8; LAYER];
    let mut shown = [0u8; SHOWN];
    let mut dots = [0u8; DOTS];
    let mut printer = [0u8; MOST_ROOM];
    let ended = recording::play_all(
        &rt,
        &mut rt.stdin(),
        true,
        &mut cells,
        &mut layer,
        &mut shown,
        &mut dots,
        &mut printer,
    );
    if let Some(number) = ended.bad {
        let _ = println!(rt; "{number} bad record");
    }
    let played = ended.played;
    report::say_standing(
        &rt,
        played.settings,
        &cells,
        &layer,
        &shown,
        &dots,
        played.printer,
    );
}
