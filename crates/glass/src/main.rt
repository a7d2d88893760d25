// What a fitter runs at the bay: shows the glass in an ordinary terminal while a stream comes in by standard input (a serial line, a pipe).
// Each part that a read gives is a piece of the stream, and the input's end closes it. After each call the places that changed are drawn,
// under the eight rows a line with the stream's counts and its first refusal; in mode 3 the dots stand below, as Braille letters. The terminal's cursor
// stands where the settings have the cursor, or behind that line where none is to be seen. It asks of the terminal 10 rows and 80 columns, in mode 3 19
// rows and UTF-8, sets no mode of it, and can be ended at any time.
#![tactic(auto)]

mod cursor_place;
mod totals;

ghost use Rattle.std.specs.Prelude.{◌≤◌, IfSome, length};

use glass_drawing::{curve, drawing};
use model::{Answer, CELLS, DOTS, LAYER, Outcome, SHOWN, Settings};
use std::io::Read;

// The stream as its last call left it: the settings, and the counts of all its calls.
#[derive(Clone, Copy)]
struct Stream {
    settings: Settings,
    total: Answer,
}

// One part has at most 256 bytes. With an ESC that waited it asks for at most 128 copies, in mode 3 of all dots, so that none is refused for want of
// room.
fn main(rt: HostRuntime) {
    let mut from = rt.stdin();
    let mut cells = [0u8; CELLS];
    let mut layer = [0u8; LAYER];
    let mut shown = [0u8; SHOWN];
    let mut dots = [0u8; DOTS];
    let mut printer = [0u8; 128 * DOTS];
    let mut part = [0u8; 256];
    let mut stream = open(&rt, &mut cells, &mut layer, &mut shown, &mut dots);
    for _ in 0..u64::MAX {
        let Some(piece) = next_part(&mut from, stream.total.number, &mut part) else {
            break;
        };
        stream = take(
            &rt,
            stream,
            piece,
            &mut cells,
            &mut layer,
            &mut shown,
            &mut dots,
            &mut printer,
        );
    }
    close(&rt, stream, &mut cells, &mut layer, &mut shown, &mut dots);
}

// As much as one read gives, which `part` has room for: nothing at the input's end, where the read fails, and after a call that was refused by a number.
fn next_part<'a, R: Read>(from: &mut R, number: u8, part: &'a mut [u8]) -> Option<&'a [u8]>
    ensures { IfSome result (λ p. (1 ≤ length p.now) × (length p.now ≤ length part.old)) }
{
    if number != 0 {
        return None;
    }
    match input::read_once(from, part) {
        0 => None,
        length => Some(&part[..length]),
    }
}

// A blank glass.
fn open(
    out: &impl Print,
    cells: &mut [u8],
    layer: &mut [u8],
    shown: &mut [u8; SHOWN],
    dots: &mut [u8],
) -> Stream {
    let settings = terminal::opening(1, cells, layer, shown, dots).settings;
    let total = totals::none();
    report::say(out, b"\x1b[H\x1b[2J");
    say_under(out, settings, total);
    Stream { settings, total }
}

// A piece. One that would take the count past its limit is refused by 15, which ends the stream.
fn take(
    out: &impl Print,
    stream: Stream,
    piece: &[u8],
    cells: &mut [u8],
    layer: &mut [u8],
    shown: &mut [u8; SHOWN],
    dots: &mut [u8],
    printer: &mut [u8],
) -> Stream {
    let before = *shown;
    let given = stream.settings;
    let outcome = stream_piece::piece(given, piece, cells, layer, shown, dots, printer);
    say_curve(out, given.mode, outcome.settings.mode, dots);
    redrawn(out, stream.total, outcome, &before, shown)
}

// The closing. What the terminal shows next comes under the glass.
fn close(
    out: &impl Print,
    stream: Stream,
    cells: &mut [u8],
    layer: &mut [u8],
    shown: &mut [u8; SHOWN],
    dots: &mut [u8],
) {
    let before = *shown;
    let given = stream.settings;
    let outcome = stream_closing::closing(given, cells, layer, shown, dots);
    let mode = outcome.settings.mode;
    say_curve(out, given.mode, mode, dots);
    redrawn(out, stream.total, outcome, &before, shown);
    if mode == 3 {
        report::say(out, b"\x1b[19;01H");
    } else {
        report::say(out, b"\x1b[10;01H");
    }
}

// The dots below, in mode 3; they are put away when it is left.
fn say_curve(out: &impl Print, before: u8, now: u8, dots: &[u8]) {
    if now == 3 {
        curve::say(out, dots);
    } else if before == 3 {
        report::say(out, b"\x1b[10;01H\x1b[J");
    }
}

// What a call left is drawn over what stood on the glass.
fn redrawn(
    out: &impl Print,
    total: Answer,
    outcome: Outcome,
    before: &[u8; SHOWN],
    shown: &[u8; SHOWN],
) -> Stream {
    let settings = outcome.settings;
    let total = totals::added(total, outcome.answer);
    let drawn = drawing::draw(before, shown);
    report::say(out, drawn.as_slice());
    say_under(out, settings, total);
    Stream { settings, total }
}

// The line under the rows, and the cursor.
fn say_under(out: &impl Print, settings: Settings, total: Answer) {
    report::say(out, b"\x1b[9;01H");
    report::say_answer(out, total);
    let parameter = total.parameter;
    let _ = print!(out; " parameter {parameter}\x1b[K");
    if let Some(place) = cursor_place::place(settings) {
        report::say(out, &drawing::address(place));
    }
}
