// A piece of a stream and the closing for a board's firmware, in C or Rust: settings and answer lent, slices as pointer and length; c/px8.h says it for C.
// They stand apart from the crate that exports px8_message_l2: an archive object has one copy of the message loop, and the loop that a message goes
// through is compiled for that call alone.
#![tactic(auto)]

ghost use Rattle.calls.specs.Calls.{Promised, closed, pieced, terminal};

use model::{Answer, Settings};

#[unsafe(no_mangle)]
pub extern "C" fn px8_piece_l2(
    settings: &mut Settings,
    answer: &mut Answer,
    piece: &[u8],
    cells: &mut [u8],
    layer: &mut [u8],
    shown: &mut [u8],
    dots: &mut [u8],
    printer: &mut [u8],
)
    ensures { Promised (pieced piece.now (terminal settings.old cells.old layer.old dots.old shown.old) printer.old answer.new (terminal settings.new cells.new layer.new dots.new shown.new) printer.new) }
{
    let o = stream_piece::piece(*settings, piece, cells, layer, shown, dots, printer);
    *settings = o.settings;
    *answer = o.answer;
}

#[unsafe(no_mangle)]
pub extern "C" fn px8_closing_l2(
    settings: &mut Settings,
    answer: &mut Answer,
    cells: &mut [u8],
    layer: &mut [u8],
    shown: &mut [u8],
    dots: &mut [u8],
)
    ensures { Promised (closed (terminal settings.old cells.old layer.old dots.old shown.old) answer.new (terminal settings.new cells.new layer.new dots.new shown.new)) }
{
    let o = stream_closing::closing(*settings, cells, layer, shown, dots);
    *settings = o.settings;
    *answer = o.answer;
}
