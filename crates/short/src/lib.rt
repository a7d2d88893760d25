// Document 02, P12: a short message is the message but for the shown screen, of which it paints what it must. A message that stays in the cursor's line, of printed
// bytes alone, has a way of its own; any other goes item by item (the crate `short_serving`). The crate `export_short` hands the call to C and Rust.
#![tactic(auto)]

ghost use Rattle.std.specs.Prelude.{◌≡◌, true};
ghost use Rattle.calls.specs.Calls.{terminal};
ghost use Rattle.short.specs.Short.{ShortPromised, InLine};
ghost use Rattle.ground.specs.Frame.{Stands};

use applying::places::{placed, selected_place};
use counting::{answer_of, no_counts};
use ground::Frame;
use model::{Item, Outcome, Place, Settings};
use numbers::{check_message, refused};
use short_printing::print_line;
use short_serving::serve;

// "Add a call that is the old one but paints less": or refused as the message is, and nothing altered. The settings that came are the ones that go back, with
// another place in them: so a compiler copies them once.
pub fn message_short(
    mut settings: Settings,
    message: &[u8],
    cells: &mut [u8],
    layer: &mut [u8],
    shown: &mut [u8],
    dots: &mut [u8],
    printer: &mut [u8],
) -> Outcome
    ensures { ShortPromised message.now (terminal settings cells.old layer.old dots.old shown.old) printer.old result.answer (terminal result.settings cells.new layer.new dots.new shown.new) printer.new }
{
    // a copy is judged: lent to the check, the settings that are served would lie in memory (320 instructions a call)
    let given = settings;
    if let Err(refusal) = check_message(&given, message, cells, layer, shown, dots) {
        let answer = refused(refusal);
        return Outcome { settings, answer };
    }
    let place = selected_place(settings);
    let frame = screen::frame_of(settings, false);
    if !in_line(frame, place, message) {
        return serve(settings, message, cells, layer, shown, dots, printer);
    }
    let count = message.len();
    let next = print_line(
        frame,
        place,
        settings.secret,
        message,
        0,
        count,
        cells,
        layer,
        shown,
    );
    let places = placed(settings, next);
    settings.places = places;
    paint::paint_row_8(
        settings,
        next.top,
        cells.as_array().unwrap(),
        layer.as_array().unwrap(),
        shown.as_mut_array().unwrap(),
    );
    let answer = answer_of(no_counts(), count);
    Outcome { settings, answer }
}

// Whether a message is one run of printed bytes, which its first item begins, that stays in the cursor's line under a window that shows it.
fn in_line(frame: Frame, place: Place, message: &[u8]) -> bool
    requires { Stands frame place }
    ensures { result ≡ true → InLine message.now frame place }
{
    let count = message.len();
    let room = (frame.columns - place.column) as usize;
    if (count < 1) | (room < count) {
        return false;
    }
    if cursor::window::misses(frame, place) {
        return false;
    }
    let item = reader::one_byte(message[0]);
    let Item::Printed(_) = item else {
        return false;
    };
    runs::run_end(message, 0) == count
}
