// Document 02, P12: a short message for a board's firmware in C or Rust: settings and answer lent, slices as pointer and length; c/px8.h says it for C.
// It stands apart from the crates that export the other calls: an archive object has one copy of what it asks.
#![tactic(auto)]

ghost use Rattle.calls.specs.Calls.{terminal};
ghost use Rattle.short.specs.Short.{ShortPromised};

use model::{Answer, Settings};

#[unsafe(no_mangle)]
pub extern "C" fn px8_message_short_l2(
    settings: &mut Settings,
    answer: &mut Answer,
    message: &[u8],
    cells: &mut [u8],
    layer: &mut [u8],
    shown: &mut [u8],
    dots: &mut [u8],
    printer: &mut [u8],
)
    ensures { ShortPromised message.now (terminal settings.old cells.old layer.old dots.old shown.old) printer.old answer.new (terminal settings.new cells.new layer.new dots.new shown.new) printer.new }
{
    let o = short::message_short(*settings, message, cells, layer, shown, dots, printer);
    *settings = o.settings;
    *answer = o.answer;
}
