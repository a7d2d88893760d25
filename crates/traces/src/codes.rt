// How many codes are sent: by a division a press, and not by counting them one after the other.
ghost use Rattle.std.specs.Prelude.{◌≡◌, ◌≤◌, length};
ghost use Rattle.traces.specs.Codes.{ends?, end_of, count_below, first_repeat, repeat_count, sent_at, sent};
ghost use Rattle.traces.specs.Stepping.{strokes_read};

use crate::Stroke;
use crate::repeating::Repeating;

// "its release, any next press": whether a stroke ends the press of a key.
fn ends(stroke: Stroke, key: u8) -> bool
    ensures { result ≡ ends? key stroke }
{
    stroke.press | (stroke.key == key)
}

// The tick of the record that ends the press of a key at a tick, of the strokes behind it. It looks no further than the next press, so that
// all presses together look at each stroke once.
pub(crate) fn end_of(behind: &[[u8; 9]], key: u8, tick: u32) -> u32
    ensures { result ≡ end_of key tick (strokes_read behind.now) }
{
    let mut last = tick;
    for bytes in behind {
        let stroke = Stroke::from(bytes);
        last = stroke.tick;
        if ends(stroke, key) {
            return last;
        }
    }
    last
}

// How many of `first`, an interval later and so on are below `end`.
fn count_below(first: u64, repeating: Repeating, end: u32) -> u64
    ensures { (result ≡ count_below first repeating.keys.interval end) × (result ≤ 4294967295) }
{
    let bound = end as u64;
    if first < bound {
        (bound - first - 1) / (repeating.keys.interval as u64) + 1
    } else {
        0
    }
}

// "at 4 times the 241 number later": the tick of the first repeat.
pub(crate) fn first_repeat(repeating: Repeating, tick: u32) -> u64
    ensures { (result ≡ first_repeat repeating.keys tick) × (result ≤ 4294968315) }
{
    tick as u64 + 4 * (repeating.keys.delay as u64)
}

// "with repeat on": how many repeats a press has.
pub(crate) fn repeat_count(repeating: Repeating, tick: u32, end: u32) -> u64
    ensures { (result ≡ repeat_count repeating.keys tick end) × (result ≤ 4294967295) }
{
    if repeating.keys.repeat == 1 {
        let first = first_repeat(repeating, tick);
        count_below(first, repeating, end)
    } else {
        0
    }
}

// How many codes a stroke sends, with the strokes behind it.
fn count_at(repeating: Repeating, stroke: Stroke, behind: &[[u8; 9]]) -> u64
    ensures { (result ≡ length (sent_at repeating.keys stroke (strokes_read behind.now))) × (result ≤ 4294967296) }
{
    if stroke.press {
        let end = end_of(behind, stroke.key, stroke.tick);
        repeat_count(repeating, stroke.tick, end) + 1
    } else {
        0
    }
}

// How many codes the trace sends.
pub(crate) fn count_all(repeating: Repeating, strokes: &[[u8; 9]]) -> u64
    requires { length strokes.now ≤ 6666 }
    ensures { result ≡ length (sent repeating.keys (strokes_read strokes.now)) }
{
    let mut count = 0;
    for (i, bytes) in strokes.iter().enumerate() {
        count += count_at(repeating, bytes.into(), &strokes[i + 1..]);
    }
    count
}
