// Printed characters of a short message (document 02, P12), and the places of the shown screen that show them.
#![tactic(auto)]

ghost use Rattle.std.specs.Prelude.{◌≡◌, false, not, true, List, [], ◌∷◌, ℕ, ◌+◌, ◌<◌, ◌≤◌, ltb, drop, length, set, take};
ghost use Rattle.model.specs.Rules.{printed};
ghost use Rattle.ground.specs.Frame.{Ready};
ghost use Rattle.ground.specs.Acts.{Acts, ActsWith, Reads};
ghost use Rattle.ground.specs.Here.{lost};
ghost use Rattle.runs.specs.Run.{printed_all, prints?};
ghost use Rattle.short_printing.specs.Seen.{SeenPart, SeenRun, Sees, shown_from, veiled};

use ground::Frame;
use model::{Place, SHOWN};

// A printed character: where the cursor and the window are then, and whether it is wide.
#[derive(Clone, Copy)]
pub struct Letter {
    pub place: Place,
    pub wide: bool,
}

// Some of a message: the same, and the offset behind it.
#[derive(Clone, Copy)]
pub struct Seen {
    pub place: Place,
    pub at: usize,
    pub wide: bool,
}

// "32 everywhere while secret is on"
fn veiled(secret: u8, code: u8) -> u8
    ensures { result ≡ veiled secret code }
{
    if secret == 1 { 32 } else { code }
}

// "Going below the last line": a step down lifts the screen
pub fn lowest(frame: Frame, place: Place) -> bool
    ensures { result ≡ not (ltb place.line frame.lines) }
{
    !(place.line < frame.lines)
}

// A character at its place, or nothing where that is 640 for none.
fn paint_code(secret: u8, spot: usize, code: u8, shown: &mut [u8])
    requires { length shown.old ≡ 640 }
    ensures { shown.new ≡ set shown.old spot (veiled secret code) }
{
    if spot < SHOWN {
        shown[spot] = veiled(secret, code);
    }
}

// So many bytes of a message from a place on, as far as there are places.
fn paint_bytes(secret: u8, spot: usize, message: &[u8], at: usize, count: usize, shown: &mut [u8])
    requires shown_len { length shown.old ≡ 640 }
    requires count_in_bounds { at + count ≤ length message.now }
    ensures { shown.new ≡ shown_from secret spot (take count (drop at message.now)) shown.old }
{
    if spot >= SHOWN {
        return;
    }
    let n = count.min(SHOWN - spot);
    if secret == 1 {
        let to = spot + n;
        store::fill(&mut shown[spot..to], 32);
        return;
    }
    store::copy_in(shown, spot, message, at, n);
}

// Bytes that stay in the cursor's line, at least one, while the window does not move: they are copied, the places that show them emptied and painted. None
// is wide.
pub fn print_line(
    frame: Frame,
    place: Place,
    secret: u8,
    message: &[u8],
    at: usize,
    count: usize,
    cells: &mut [u8],
    layer: &mut [u8],
    shown: &mut [u8],
) -> Place
    requires ready { Ready frame place cells.old layer.old }
    requires reads { Reads lost frame place false }
    requires le_count { (1 ≤ count) × ((place.column + count ≤ frame.columns) × (at + count ≤ length message.now)) }
    requires shown_len { length shown.old ≡ 640 }
    ensures { (Acts (printed_all (take count (drop at message.now))) frame place result cells.old layer.old cells.new layer.new) × ((marks : List ℕ) → Sees (take count (drop at message.now)) frame place secret false cells.old layer.old marks shown.old shown.new) }
{
    let from = ground::lines::cell(frame, place);
    let spot = cursor::shown(frame, place);
    store::copy_in(cells, from, message, at, count);
    ground::marks::empty_from(frame, spot, count, layer);
    paint_bytes(secret, spot, message, at, count, shown);
    ground::places::put_at(place, place.line, place.column + (count as u8))
}

// A printed byte, and ESC 37: the step that waited first, then the character where the cursor stands.
pub fn print_code(
    frame: Frame,
    place: Place,
    secret: u8,
    code: u8,
    cells: &mut [u8],
    layer: &mut [u8],
    shown: &mut [u8],
    marks: &mut [u64; 2],
) -> Letter
    requires ready { Ready frame place cells.old layer.old }
    requires shown_len { length shown.old ≡ 640 }
    ensures { (ActsWith (printed code) frame place result.place cells.old layer.old marks.old cells.new layer.new marks.new) × (Sees (code ∷ []) frame place secret result.wide cells.old layer.old marks.old shown.old shown.new) }
{
    let late = (place.late == 1) & lowest(frame, place);
    let first = cursor::late_step(frame, place, cells, layer, marks);
    let last = !(first.column < frame.columns) & ((frame.rule != 2) & lowest(frame, first));
    paint_code(secret, cursor::shown(frame, first), code, shown);
    let next = screen::print_here(frame, first, code, cells, layer, marks);
    Letter {
        place: next,
        wide: late | last | (next.top != place.top),
    }
}

// The bytes up to `end` as far as they stay in the cursor's line short of its last column, or one byte where the cursor or the window is about to leave.
fn print_part(
    frame: Frame,
    place: Place,
    secret: u8,
    message: &[u8],
    at: usize,
    end: usize,
    cells: &mut [u8],
    layer: &mut [u8],
    shown: &mut [u8],
    marks: &mut [u64; 2],
) -> Seen
    requires ready { Ready frame place cells.old layer.old }
    requires shown_len { length shown.old ≡ 640 }
    requires at_lt_end { (at < end) × (end ≤ length message.now) }
    ensures { SeenPart message.now at end frame place secret result cells.old layer.old marks.old shown.old cells.new layer.new marks.new shown.new }
{
    let count = (end - at).min(usize::from(frame.columns - place.column));
    if (count < 1) | cursor::window::misses(frame, place) {
        let one = print_code(
            frame,
            place,
            secret,
            message[at],
            cells,
            layer,
            shown,
            marks,
        );
        let next = one.place;
        return Seen {
            place: next,
            at: at + 1,
            wide: one.wide,
        };
    }
    let next = print_line(
        frame, place, secret, message, at, count, cells, layer, shown,
    );
    Seen {
        place: next,
        at: at + count,
        wide: false,
    }
}

// The run that begins at an offset: the byte there, and all behind it up to the first that does not print.
pub fn print_run(
    frame: Frame,
    place: Place,
    secret: u8,
    message: &[u8],
    at: usize,
    cells: &mut [u8],
    layer: &mut [u8],
    shown: &mut [u8],
    marks: &mut [u64; 2],
) -> Seen
    requires ready { Ready frame place cells.old layer.old }
    requires shown_len { length shown.old ≡ 640 }
    requires at_value { prints? message.now at ≡ true }
    ensures { SeenRun message.now at frame place secret result cells.old layer.old marks.old shown.old cells.new layer.new marks.new shown.new }
{
    let end = runs::run_end(message, at);
    let mut p = place;
    let mut i = at;
    let mut wide = false;
    while i < end {
        let part = print_part(
            frame, p, secret, message, i, end, cells, layer, shown, marks,
        );
        p = part.place;
        i = part.at;
        wide = wide | part.wide;
    }
    Seen {
        place: p,
        at: i,
        wide,
    }
}
