// The closing of a stream, by value.
#![tactic(auto)]

ghost use Rattle.calls.specs.Calls.{Promised, closed, terminal};

use model::{Outcome, Settings};
use numbers::refused;
use stream_parts::{check_closing, counted_from, lined, quieted};
use terminal::message;

// The closing: a message call of the bytes that waited, which then are forgotten, and the count. None of them is an ESC P: it needs no room.
pub fn closing(
    settings: Settings,
    cells: &mut [u8],
    layer: &mut [u8],
    shown: &mut [u8],
    dots: &mut [u8],
) -> Outcome
    ensures { Promised (closed (terminal settings cells.old layer.old dots.old shown.old) result.answer (terminal result.settings cells.new layer.new dots.new shown.new)) }
{
    if let Err(refusal) = check_closing(settings, cells, layer, shown, dots) {
        let answer = refused(refusal);
        return Outcome { settings, answer };
    }
    let held = settings.held as usize;
    let waiting = settings.waiting;
    let mut none = [0u8; 0];
    let one = message(
        quieted(settings),
        &waiting[..held],
        cells,
        layer,
        shown,
        dots,
        &mut none,
    );
    // by its number: an answer is the C interface's struct, which carries no Result
    if one.answer.number != 0 {
        let answer = one.answer;
        return Outcome { settings, answer };
    }
    let start = settings.count - settings.held as u32;
    Outcome {
        settings: lined(one.settings, &waiting[..0], 0),
        answer: counted_from(one.answer, start, 0),
    }
}
