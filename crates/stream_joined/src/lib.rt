// A short piece behind the unfinished bytes of a stream: one message call of these and its own.
#![tactic(auto)]

ghost use Rattle.std.specs.Prelude.{◌≡◌, ◌≤◌, length};
ghost use Rattle.calls.specs.Calls.{PiecePromised, terminal};
ghost use Rattle.stream_parts.specs.Parts.{line_number};

use model::{Outcome, Settings};
use stream_parts::{counted_from, lined, quieted};
use terminal::message;

// A short piece: one message call of the bytes that waited and its own.
pub fn joined(
    settings: Settings,
    piece: &[u8],
    cells: &mut [u8],
    layer: &mut [u8],
    shown: &mut [u8],
    dots: &mut [u8],
    printer: &mut [u8],
) -> Outcome
    requires { (line_number (terminal settings cells.old layer.old dots.old shown.old) piece.now ≡ 0) × (length piece.now ≤ 52) }
    ensures { PiecePromised settings piece.now cells.old layer.old dots.old shown.old printer.old result cells.new layer.new dots.new shown.new printer.new }
{
    let held = settings.held as usize;
    let length = held + piece.len();
    let waiting = settings.waiting;
    let bytes = unfinished::join(waiting, held, piece, piece.len());
    let end = unfinished::whole_end(&bytes[..length]);
    let one = message(
        quieted(settings),
        &bytes[..end],
        cells,
        layer,
        shown,
        dots,
        printer,
    );
    // by its number: an answer is the C interface's struct, which carries no Result
    if one.answer.number != 0 {
        let answer = one.answer;
        return Outcome { settings, answer };
    }
    let taken = piece.len() as u32;
    let count = settings.count;
    let start = count - settings.held as u32;
    Outcome {
        settings: lined(one.settings, &bytes[end..length], count + taken),
        answer: counted_from(one.answer, start, taken),
    }
}
