// A piece of a stream, by value: a message call of its whole items. A piece behind unfinished bytes is served by the crates `stream_joined` and `stream_divided`.
#![tactic(auto)]

ghost use Rattle.calls.specs.Calls.{PiecePromised};

use model::{Outcome, Settings};
use numbers::refused;
use stream_divided::divided;
use stream_joined::joined;
use stream_parts::{check_line, counted_from, lined, plain};
use terminal::message;

// A piece of a stream: the first of its items is joined with the bytes that waited, and what it does not finish waits.
pub fn piece(
    settings: Settings,
    piece: &[u8],
    cells: &mut [u8],
    layer: &mut [u8],
    shown: &mut [u8],
    dots: &mut [u8],
    printer: &mut [u8],
) -> Outcome
    ensures { PiecePromised settings piece.now cells.old layer.old dots.old shown.old printer.old result cells.new layer.new dots.new shown.new printer.new }
{
    if !plain(settings.held, piece.len(), settings.count) {
        return behind(settings, piece, cells, layer, shown, dots, printer);
    }
    let end = unfinished::whole_end(piece);
    let mut out = message(settings, &piece[..end], cells, layer, shown, dots, printer);
    // by its number: an answer is the C interface's struct, which carries no Result
    if out.answer.number != 0 {
        return out;
    }
    let taken = piece.len() as u32;
    let reached = settings.count + taken;
    let answer = counted_from(out.answer, settings.count, taken);
    if end < piece.len() {
        return Outcome {
            settings: lined(out.settings, &piece[end..], reached),
            answer,
        };
    }
    // where all of it is whole only the count is another: no settings are put together anew
    out.settings.count = reached;
    out.answer = answer;
    out
}

// Any other piece: bytes wait before it, or it may be refused by 2 or 15.
fn behind(
    settings: Settings,
    piece: &[u8],
    cells: &mut [u8],
    layer: &mut [u8],
    shown: &mut [u8],
    dots: &mut [u8],
    printer: &mut [u8],
) -> Outcome
    ensures { PiecePromised settings piece.now cells.old layer.old dots.old shown.old printer.old result cells.new layer.new dots.new shown.new printer.new }
{
    if let Err(refusal) = check_line(settings, piece, cells, layer, shown, dots) {
        let answer = refused(refusal);
        return Outcome { settings, answer };
    }
    if piece.len() <= 52 {
        return joined(settings, piece, cells, layer, shown, dots, printer);
    }
    divided(settings, piece, cells, layer, shown, dots, printer)
}
