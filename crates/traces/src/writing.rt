// The codes, written one behind the other. The output goes on whole, with the place of the next code: what is promised is said of the whole
// (`put`), so that slices of what is left would be no plainer.
ghost use Rattle.std.specs.Prelude.{◌≡◌, ◌+◌, ◌*◌, ◌≤◌, length, [], ◌∷◌};
ghost use Rattle.model.specs.Bytes.{put};
ghost use Rattle.traces.specs.Codes.{code, codes_bytes, every_from, sent_by, sent_at, sent};
ghost use Rattle.traces.specs.Stepping.{EachHeld, strokes_read};

use crate::Stroke;
use crate::codes::{end_of, first_repeat, repeat_count};
use crate::repeating::Repeating;

// "tick and key as in a body, five bytes each": one code, from `place` on.
fn lay(output: &mut [u8], place: usize, tick: u32, key: u8)
    requires { place + 5 ≤ length output.old }
    ensures { output.new ≡ put place (codes_bytes (code tick key ∷ [])) output.old }
{
    output[place..place + 4].copy_from_slice(&tick.to_le_bytes());
    output[place + 4] = key;
}

// `count` codes of a key, from `first` on, an interval apart; the place behind them.
fn lay_every(
    output: &mut [u8],
    place: usize,
    key: u8,
    interval: u8,
    first: u64,
    count: u64,
) -> usize
    requires { EachHeld first interval count × (place + 5 * count ≤ length output.old) }
    ensures { (output.new ≡ put place (codes_bytes (every_from key interval first count)) output.old) × (result ≡ place + 5 * count) }
{
    let mut tick = first;
    let mut at = place;
    for _ in 0..count {
        lay(output, at, tick as u32, key);
        tick += interval as u64;
        at += 5;
    }
    at
}

// What a press sends, its end known; the place behind it.
fn write_press(
    repeating: Repeating,
    stroke: Stroke,
    end: u32,
    output: &mut [u8],
    place: usize,
) -> usize
    requires { place + 5 * length (sent_by repeating.keys stroke end) ≤ length output.old }
    ensures { (output.new ≡ put place (codes_bytes (sent_by repeating.keys stroke end)) output.old) × (result ≡ place + 5 * length (sent_by repeating.keys stroke end)) }
{
    let count = repeat_count(repeating, stroke.tick, end);
    let first = first_repeat(repeating, stroke.tick);
    lay(output, place, stroke.tick, stroke.key);
    lay_every(
        output,
        place + 5,
        stroke.key,
        repeating.keys.interval,
        first,
        count,
    )
}

// What a stroke sends, with the strokes behind it, written from `place` on; the place behind it.
fn write_at(
    repeating: Repeating,
    stroke: Stroke,
    behind: &[[u8; 9]],
    output: &mut [u8],
    place: usize,
) -> usize
    requires { place + 5 * length (sent_at repeating.keys stroke (strokes_read behind.now)) ≤ length output.old }
    ensures { (output.new ≡ put place (codes_bytes (sent_at repeating.keys stroke (strokes_read behind.now))) output.old) × (result ≡ place + 5 * length (sent_at repeating.keys stroke (strokes_read behind.now))) }
{
    if stroke.press {
        let end = end_of(behind, stroke.key, stroke.tick);
        write_press(repeating, stroke, end, output, place)
    } else {
        place
    }
}

// All codes, from the output's start.
pub(crate) fn write_all(repeating: Repeating, strokes: &[[u8; 9]], output: &mut [u8])
    requires { 5 * length (sent repeating.keys (strokes_read strokes.now)) ≤ length output.old }
    ensures { output.new ≡ put 0 (codes_bytes (sent repeating.keys (strokes_read strokes.now))) output.old }
{
    let mut place = 0;
    for (i, bytes) in strokes.iter().enumerate() {
        place = write_at(repeating, bytes.into(), &strokes[i + 1..], output, place);
    }
}
