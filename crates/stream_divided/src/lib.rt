// A long piece behind the unfinished bytes of a stream: two message calls.
#![tactic(auto)]

ghost use Rattle.std.specs.Prelude.{◌≡◌, ◌<◌, length};
ghost use Rattle.calls.specs.Calls.{PiecePromised, terminal};
ghost use Rattle.stream_parts.specs.Parts.{line_number};

use model::{Outcome, Settings};
use stream_parts::{counted_from, lined, quieted, together};
use terminal::message;

// A long one: a message call of the bytes that waited and its first ones, and another of the rest.
pub fn divided(
    settings: Settings,
    piece: &[u8],
    cells: &mut [u8],
    layer: &mut [u8],
    shown: &mut [u8],
    dots: &mut [u8],
    printer: &mut [u8],
) -> Outcome
    requires { (line_number (terminal settings cells.old layer.old dots.old shown.old) piece.now ≡ 0) × (52 < length piece.now) }
    ensures { PiecePromised settings piece.now cells.old layer.old dots.old shown.old printer.old result cells.new layer.new dots.new shown.new printer.new }
{
    let held = settings.held as usize;
    let length = held + 52;
    let waiting = settings.waiting;
    let bytes = unfinished::join(waiting, held, piece, 52);
    let end = unfinished::whole_end(&bytes[..length]);
    let one = message(
        quieted(settings),
        &bytes[..end],
        cells,
        layer,
        shown,
        dots,
        printer,
    );
    // by its number: an answer is the C interface's struct, which carries no Result
    if one.answer.number != 0 {
        let answer = one.answer;
        return Outcome { settings, answer };
    }
    let from = end - held;
    let to = from + unfinished::whole_end(&piece[from..]);
    let used = one.answer.printed;
    let two = message(
        one.settings,
        &piece[from..to],
        cells,
        layer,
        shown,
        dots,
        &mut printer[used..],
    );
    let answer = together(one.answer, two.answer, end as u32);
    let taken = piece.len() as u32;
    let count = settings.count;
    let start = count - settings.held as u32;
    Outcome {
        settings: lined(two.settings, &piece[to..], count + taken),
        answer: counted_from(answer, start, taken),
    }
}
