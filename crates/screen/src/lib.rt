// What acts on the selected screen alone: a printed byte, control codes, its sequences; and the frame of settings. Its cells, the layer and the marks of its lines
// are changed by the crate `ground`, its cursor and window are moved by `cursor`, and bytes printed one behind another are the crate `runs`. What all these need of
// the settings is a frame, which a caller keeps beside the selected screen's place and the marks, so that a printed byte copies no settings.
#![tactic(auto)]

ghost use Rattle.std.specs.Prelude.{◌≡◌, ◌+◌, ◌-◌, ◌<◌, eqb, cond, false, true};
ghost use Rattle.model.specs.Sound.{Sound};
ghost use Rattle.model.specs.Checks.{InRanges};
ghost use Rattle.model.specs.Judging.{ranges, legal?};
ghost use Rattle.model.specs.State.{State, put_at};
ghost use Rattle.model.specs.Screens.{here};
ghost use Rattle.model.specs.Rules.{printed, control, placed, right, stored, tracked, tracked_far};
ghost use Rattle.ground.specs.Frame.{Stands, LayerOf, Ready, FrameOf, limits_in};
ghost use Rattle.ground.specs.Acts.{ActsAbove, ActsWith, except_dots};
ghost use Rattle.model.specs.OnScreen.{on_screen?};
ghost use Rattle.screen.specs.Obeys.{Obeys};

use cursor::window;
use ground::{Frame, Way, lines, places, times};
use model::{Place, Sequence, Settings};

// The frame of sound settings, under a layer that is known to be empty or not.
pub fn frame_of(settings: Settings, bare: bool) -> Frame
    requires { Sound settings }
    ensures { (FrameOf settings result) × (result.bare ≡ bare) }
{
    let first = Frame {
        base: 0,
        screen: 0,
        lines: settings.lines1,
        columns: settings.columns1,
        rows: tables::text_rows(settings.display),
        height: tables::height_of(settings.mode, settings.display),
        shift: 0,
        step: settings.step,
        tracking: settings.tracking,
        rule: settings.rule,
        mode: settings.mode,
        bare,
    };
    if settings.selected == 0 {
        return first;
    }
    Frame {
        base: times(settings.lines1, settings.columns1),
        screen: 1,
        lines: settings.lines2,
        columns: settings.columns2,
        shift: shift_of(settings.mode, settings.columns1),
        ..first
    }
}

// A printed byte, and ESC 37: where the cursor is late, the step comes first.
pub fn print(
    frame: Frame,
    place: Place,
    code: u8,
    cells: &mut [u8],
    layer: &mut [u8],
    marks: &mut [u64; 2],
) -> Place
    requires ready { Ready frame place cells.old layer.old }
    ensures { ActsWith (printed code) frame place result cells.old layer.old marks.old cells.new layer.new marks.new }
{
    let first = cursor::late_step(frame, place, cells, layer, marks);
    print_here(frame, first, code, cells, layer, marks)
}

// The rest of it: the byte is stored where the cursor now stands, and the cursor moves right.
pub fn print_here(
    frame: Frame,
    place: Place,
    code: u8,
    cells: &mut [u8],
    layer: &mut [u8],
    marks: &mut [u64; 2],
) -> Place
    requires ready { Ready frame place cells.old layer.old }
    ensures { ActsWith (λ (st : State). tracked (right (stored code st))) frame place result cells.old layer.old marks.old cells.new layer.new marks.new }
{
    cursor::store(frame, place, code, cells, layer);
    let next = cursor::right(frame, place, cells, layer, marks);
    window::track(frame, next, layer)
}

// A control code: 8 one column back, 10 one line down, 13 to column 1, 12 as ESC 42; other codes do nothing. The dots, which 12 clears in mode 3,
// are not lent here.
pub fn control(
    frame: Frame,
    place: Place,
    code: u8,
    cells: &mut [u8],
    layer: &mut [u8],
    marks: &mut [u64; 2],
) -> Place
    requires ready { Ready frame place cells.old layer.old }
    ensures { ActsWith (except_dots (control code)) frame place result cells.old layer.old marks.old cells.new layer.new marks.new }
{
    match code {
        8 => {
            let next = places::put_at(place, place.line, cursor::before(place.column));
            window::track(frame, next, layer)
        }
        10 => {
            let next = cursor::down(frame, place, cells, layer, marks);
            window::track(frame, next, layer)
        }
        13 => {
            let next = places::put_at(place, place.line, 1);
            window::track(frame, next, layer)
        }
        12 => lines::clear(frame, place, cells, layer, marks),
        _ => place,
    }
}

// An accepted sequence that acts on the selected screen alone. Any other leaves all as it is. The five that turn the window are idle in mode 3: there
// the window is as tall as the screen, so that they find its top where they would put it, and no mode is asked. The dots, which 42 clears in mode 3,
// are not lent here.
pub fn obey_sequence(
    frame: Frame,
    place: Place,
    q: Sequence,
    cells: &mut [u8],
    layer: &mut [u8],
    marks: &mut [u64; 2],
) -> Place
    requires ready { Ready frame place cells.old layer.old }
    requires frame_value { legal? q (limits_in frame) ≡ true }
    ensures { Obeys q frame place result cells.old layer.old marks.old cells.new layer.new marks.new }
{
    match q {
        Sequence::PrintCode(code) => print(frame, place, code, cells, layer, marks),
        Sequence::Clear => lines::clear(frame, place, cells, layer, marks),
        Sequence::Put { line, column } => put(frame, place, line, column, layer),
        Sequence::EraseLine => {
            lines::erase_line(frame, place, cells, layer, marks);
            place
        }
        Sequence::EraseRest => {
            lines::erase_rest(frame, place, cells, layer, marks);
            place
        }
        Sequence::LinesUp { from, count } => {
            lines::shift(frame, place, Way::Up, from, count, cells, layer, marks);
            place
        }
        Sequence::LinesDown { from, count } => {
            lines::shift(frame, place, Way::Down, from, count, cells, layer, marks);
            place
        }
        Sequence::WindowUp => window::turn(frame, place, window::less(frame, place), layer),
        Sequence::WindowDown => window::turn(frame, place, window::more(frame, place), layer),
        Sequence::WindowTop => window::turn(frame, place, 1, layer),
        Sequence::WindowBottom => window::turn(frame, place, window::most(frame), layer),
        Sequence::WindowCursor => window::turn(frame, place, window::centre(frame, place), layer),
        _ => place,
    }
}

// Whether a sequence is one of these.
pub fn on_screen(q: Sequence) -> bool
    ensures { result ≡ on_screen? q }
{
    matches!(
        q,
        Sequence::PrintCode(_)
            | Sequence::Clear
            | Sequence::Put { .. }
            | Sequence::EraseLine
            | Sequence::EraseRest
            | Sequence::LinesUp { .. }
            | Sequence::LinesDown { .. }
            | Sequence::WindowUp
            | Sequence::WindowDown
            | Sequence::WindowTop
            | Sequence::WindowBottom
            | Sequence::WindowCursor
    )
}

// 61: "bytes m+31, n+31".
fn put(frame: Frame, place: Place, line: u8, column: u8, layer: &mut [u8]) -> Place
    requires stands { Stands frame place }
    requires layer_of { LayerOf frame layer.old }
    requires in_ranges { InRanges (ranges (Sequence.Put line column) (limits_in frame)) }
    ensures { ActsAbove (λ (st : State). tracked_far (placed (put_at (line - 31) (column - 31) (here st)) st)) frame place result layer.old layer.new }
{
    let next = places::put_at(place, line - 31, column - 31);
    window::track_far(frame, next, layer)
}

// In mode 2 the picture shows screen 2 behind screen 1 and the boundary.
fn shift_of(mode: u8, columns: u8) -> u8
    requires { columns < 255 }
    ensures { result ≡ cond (eqb mode 2) (columns + 1) 0 }
{
    if mode == 2 { columns + 1 } else { 0 }
}
