// The terminal's calls for a board's firmware, in C or Rust: settings and answer lent, slices as pointer and length, so pointers and numbers alone. Each promises what
// the terminal's own call does, which has them by value; c/px8.h says it for C. A name ends with the number of the layout that settings and answers have (`_l2`): a
// program that was compiled with a header of another layout does not link. Other crates export the others: each is an object of its own in the archive, so that what
// a message asks of the settings has no other caller here, and a compiler works it out where the message is served.
#![tactic(auto)]

ghost use Rattle.std.specs.Prelude.{◌≡◌, length};
ghost use Rattle.calls.specs.Calls.{Promised, called, terminal};
ghost use Rattle.calls.specs.Opening.{OpeningPromised, first_part};

use model::{Answer, Settings};

// The settings that stood are not looked at.
#[unsafe(no_mangle)]
pub extern "C" fn px8_opening_l2(
    settings: &mut Settings,
    rule: usize,
    cells: &mut [u8],
    layer: &mut [u8],
    shown: &mut [u8],
    dots: &mut [u8],
) -> u8
    ensures { OpeningPromised rule cells.old layer.old dots.old shown.old settings.new result cells.new layer.new dots.new shown.new }
{
    let o = terminal::opening(rule, cells, layer, shown, dots);
    *settings = o.settings;
    o.number
}

#[unsafe(no_mangle)]
pub extern "C" fn px8_message_l2(
    settings: &mut Settings,
    answer: &mut Answer,
    message: &[u8],
    cells: &mut [u8],
    layer: &mut [u8],
    shown: &mut [u8],
    dots: &mut [u8],
    printer: &mut [u8],
)
    ensures { Promised (called message.now (terminal settings.old cells.old layer.old dots.old shown.old) printer.old answer.new (terminal settings.new cells.new layer.new dots.new shown.new) printer.new) }
{
    let o = terminal::message(*settings, message, cells, layer, shown, dots, printer);
    *settings = o.settings;
    *answer = o.answer;
}

// The length of the part that the printer call hands back: a reference cannot be returned to C.
#[unsafe(no_mangle)]
pub extern "C" fn px8_printed_l2(buffer: &[u8], count: usize) -> usize
    ensures { result ≡ length (first_part count buffer.now) }
{
    let part = terminal::printed(buffer, count);
    part.len()
}
