// The message loop: items read one after the other, each obeyed, counted and, for a copy, printed; then the picture is painted. What is idle in the
// mode is counted: of these the ones of the selected screen change nothing by themselves, and `apply` leaves the others.
#![tactic(auto)]

ghost use Rattle.std.specs.Prelude.{◌≡◌, cond, true, length, replicate, ℕ, ◌+◌, ◌≤◌, List};
ghost use Rattle.model.specs.State.{state};
ghost use Rattle.model.specs.Picture.{painting};
ghost use Rattle.model.specs.Sound.{Sound};
ghost use Rattle.ground.specs.Acts.{with_place};
ghost use Rattle.serving.specs.Serves.{Runs, Servable, Serves};

use applying::apply;
use applying::places::{placed, selected_place};
use counting::{Counts, answer_of, count, no_counts};
use model::{Answer, CELLS, DOTS, LAYER, Outcome, Place, SHOWN, Settings};
use obeying::{bare_after, obey_item, read_at, stays, wipe_after};

// "An accepted message is read into items; each in turn changes what stands as its rule says"; "it always ends by painting".
pub fn serve(
    settings: Settings,
    message: &[u8],
    cells: &mut [u8],
    layer: &mut [u8],
    shown: &mut [u8],
    dots: &mut [u8],
    printer: &mut [u8],
) -> Outcome
    requires { Servable settings message.now cells.old layer.old dots.old shown.old }
    ensures { Serves message.now (state settings cells.old layer.old dots.old) printer.old result cells.new layer.new dots.new shown.new printer.new }
{
    let none = no_counts();
    let cells = cells.as_mut_array().unwrap();
    let layer = layer.as_mut_array().unwrap();
    let shown = shown.as_mut_array().unwrap();
    let dots = dots.as_mut_array().unwrap();
    serve_items(
        settings, message, 0, none, true, cells, layer, shown, dots, printer,
    )
}

// The items of a message from an offset on, with what was counted before it and nothing printed, and the painting if it is asked for: of the messages of a pack only
// the last is seen. The settings stay where they are: the
// selected screen's place and the marks are kept beside them, and an item of that screen only changes these.
pub fn serve_from(
    settings: Settings,
    message: &[u8],
    from: usize,
    before: Counts,
    paints: bool,
    cells: &mut [u8],
    layer: &mut [u8],
    shown: &mut [u8],
    dots: &mut [u8],
    printer: &mut [u8],
) -> Outcome
    requires servable { Servable settings message.now cells.old layer.old dots.old shown.old }
    requires from_in_bounds { (from ≤ length message.now) × ((before.accepted + before.refused ≤ from) × (before.printed ≡ 0)) }
    ensures { (Runs message.now from before (state settings cells.old layer.old dots.old) printer.old result cells.new layer.new dots.new printer.new) × (shown.new ≡ cond paints (painting (state result.settings cells.new layer.new dots.new)) shown.old) }
{
    let cells = cells.as_mut_array().unwrap();
    let layer = layer.as_mut_array().unwrap();
    let shown = shown.as_mut_array().unwrap();
    let dots = dots.as_mut_array().unwrap();
    serve_items(
        settings, message, from, before, paints, cells, layer, shown, dots, printer,
    )
}

// The same, the stores as arrays of their sizes. (Both calls above make them: one through the other would copy the settings once more.)
fn serve_items(
    settings: Settings,
    message: &[u8],
    from: usize,
    before: Counts,
    paints: bool,
    cells: &mut [u8; CELLS],
    layer: &mut [u8; LAYER],
    shown: &mut [u8; SHOWN],
    dots: &mut [u8; DOTS],
    printer: &mut [u8],
) -> Outcome
    requires servable { Servable settings message.now cells.old layer.old dots.old shown.old }
    requires from_in_bounds { (from ≤ length message.now) × ((before.accepted + before.refused ≤ from) × (before.printed ≡ 0)) }
    ensures { (Runs message.now from before (state settings cells.old layer.old dots.old) printer.old result cells.new layer.new dots.new printer.new) × (shown.new ≡ cond paints (painting (state result.settings cells.new layer.new dots.new)) shown.old) }
{
    let mut s = settings;
    let mut place = selected_place(s);
    let mut marks = s.marks;
    let mut frame = screen::frame_of(s, store::all_zero(layer));
    let mut counts = before;
    let mut at = from;
    while at < message.len() {
        let printed = counts.printed;
        let read = read_at(frame, printer.len() - printed, message, at);
        let item = read.item;
        counts = count(counts, frame.mode, item, at);
        let run = obey_item(
            frame,
            place,
            item,
            message,
            at,
            read.length,
            cells,
            layer,
            &mut marks,
        );
        place = run.place;
        at = run.at;
        frame.bare = bare_after(frame.mode, item, frame.bare);
        wipe_after(frame.mode, item, dots);
        if stays(item) {
            continue;
        }
        let places = placed(s, place);
        s.places = places;
        s.marks = marks;
        s = apply(s, item, message, cells, layer, dots, printer, printed);
        place = selected_place(s);
        marks = s.marks;
        frame = screen::frame_of(s, frame.bare);
    }
    s.marks = marks;
    let answer = answer_of(counts, at);
    finish(s, place, frame.bare, paints, answer, cells, layer, shown)
}

// The end of a message: the place goes back into the settings, and all 640 places are painted if that is asked for.
fn finish(
    settings: Settings,
    place: Place,
    bare: bool,
    paints: bool,
    answer: Answer,
    cells: &[u8; CELLS],
    layer: &[u8; LAYER],
    shown: &mut [u8; SHOWN],
) -> Outcome
    requires sound { Sound (with_place settings place) }
    requires bare_is { bare ≡ true → layer.now ≡ replicate 1280 0 }
    ensures { (result.settings ≡ with_place settings place) × ((result.answer ≡ answer) × ((dots : List ℕ) → shown.new ≡ cond paints (painting (state (with_place settings place) cells.now layer.now dots)) shown.old)) }
{
    let mut s = settings;
    let places = placed(s, place);
    s.places = places;
    if paints {
        paint::paint(s, place.top, bare, cells, layer, shown);
        return Outcome {
            settings: s,
            answer,
        };
    }
    Outcome {
        settings: s,
        answer,
    }
}
