// The loop of a short message: as the message's, but each printed character is painted as it comes, and at the end all places only if an item was wide.
#![tactic(auto)]

ghost use Rattle.std.specs.Prelude.{◌≡◌, cond, true, List, ℕ, length, replicate};
ghost use Rattle.model.specs.State.{state};
ghost use Rattle.model.specs.Picture.{painting, picture};
ghost use Rattle.model.specs.Sound.{Sound};
ghost use Rattle.views.specs.Painted.{painted};
ghost use Rattle.ground.specs.Acts.{with_place};
ghost use Rattle.serving.specs.Serves.{Servable};
ghost use Rattle.short_serving.specs.ServesShort.{ServesShort};

use applying::apply;
use applying::places::{placed, selected_place};
use counting::{answer_of, count, no_counts};
use model::{Answer, CELLS, DOTS, LAYER, Outcome, Place, SHOWN, Settings};
use obeying::{bare_after, read_at, stays, wipe_after};
use short_obeying::obey_item;

// A short message, item by item.
pub fn serve(
    settings: Settings,
    message: &[u8],
    cells: &mut [u8],
    layer: &mut [u8],
    shown: &mut [u8],
    dots: &mut [u8],
    printer: &mut [u8],
) -> Outcome
    requires { Servable settings message.now cells.old layer.old dots.old shown.old }
    ensures { ServesShort message.now (state settings cells.old layer.old dots.old) printer.old shown.old result cells.new layer.new dots.new shown.new printer.new }
{
    let cells = cells.as_mut_array().unwrap();
    let layer = layer.as_mut_array().unwrap();
    let shown = shown.as_mut_array().unwrap();
    let dots = dots.as_mut_array().unwrap();
    serve_items(settings, message, cells, layer, shown, dots, printer)
}

// The same, the stores as arrays of their sizes.
fn serve_items(
    settings: Settings,
    message: &[u8],
    cells: &mut [u8; CELLS],
    layer: &mut [u8; LAYER],
    shown: &mut [u8; SHOWN],
    dots: &mut [u8; DOTS],
    printer: &mut [u8],
) -> Outcome
    requires { Servable settings message.now cells.old layer.old dots.old shown.old }
    ensures { ServesShort message.now (state settings cells.old layer.old dots.old) printer.old shown.old result cells.new layer.new dots.new shown.new printer.new }
{
    let mut s = settings;
    let mut place = selected_place(s);
    let mut marks = s.marks;
    let mut frame = screen::frame_of(s, store::all_zero(layer));
    let mut counts = no_counts();
    let mut wide = false;
    let mut at = 0;
    while at < message.len() {
        let printed = counts.printed;
        let read = read_at(frame, printer.len() - printed, message, at);
        let item = read.item;
        counts = count(counts, frame.mode, item, at);
        let run = obey_item(
            frame,
            place,
            s.secret,
            item,
            message,
            at,
            read.length,
            cells,
            layer,
            shown,
            &mut marks,
        );
        place = run.place;
        at = run.at;
        wide = wide | run.wide;
        frame.bare = bare_after(frame.mode, item, frame.bare);
        wipe_after(frame.mode, item, dots);
        if stays(item) {
            continue;
        }
        let places = placed(s, place);
        s.places = places;
        s.marks = marks;
        s = apply(s, item, message, cells, layer, dots, printer, printed);
        place = selected_place(s);
        marks = s.marks;
        frame = screen::frame_of(s, frame.bare);
    }
    s.marks = marks;
    let answer = answer_of(counts, at);
    finish(s, place, wide, frame.bare, answer, cells, layer, shown)
}

// The end: the place goes back into the settings; all 640 places are painted if an item was wide, else row 8.
fn finish(
    settings: Settings,
    place: Place,
    wide: bool,
    bare: bool,
    answer: Answer,
    cells: &[u8; CELLS],
    layer: &[u8; LAYER],
    shown: &mut [u8; SHOWN],
) -> Outcome
    requires sound { Sound (with_place settings place) }
    requires bare_is { bare ≡ true → layer.now ≡ replicate 1280 0 }
    ensures { (result.settings ≡ with_place settings place) × ((result.answer ≡ answer) × ((dots : List ℕ) → let st = state (with_place settings place) cells.now layer.now dots in shown.new ≡ cond wide (painting st) (painted 560 80 (picture st) shown.old))) }
{
    let mut s = settings;
    let places = placed(s, place);
    s.places = places;
    if wide {
        paint::paint(s, place.top, bare, cells, layer, shown);
        return Outcome {
            settings: s,
            answer,
        };
    }
    paint::paint_row_8(s, place.top, cells, layer, shown);
    Outcome {
        settings: s,
        answer,
    }
}
