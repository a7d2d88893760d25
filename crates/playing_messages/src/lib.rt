// The calls of a recording that serve messages played: messages, short messages, pieces and closings of a stream, packs, each with its line. (Four of
// the five differ in the call alone, two lines each: a closure over the four stores and the printer would be longer than what it saves.)
#![tactic(auto)]

ghost use Rattle.std.specs.Prelude.{[]};
ghost use Rattle.calls.specs.Calls.{Asked, terminal};
ghost use Rattle.playing_messages.specs.Plays.{Plays};

use model::Outcome;
use playing::{Played, say_pack, summed, told};

// One message call, and its line.
pub fn play_message(
    out: &impl Print,
    number: Option<u64>,
    played: Played,
    message: &[u8],
    cells: &mut [u8],
    layer: &mut [u8],
    shown: &mut [u8],
    dots: &mut [u8],
    printer: &mut [u8],
) -> Played
    ensures { Plays (Asked.message message.now) (terminal played.settings cells.old layer.old dots.old shown.old) printer.old played result (terminal result.settings cells.new layer.new dots.new shown.new) printer.new }
{
    let outcome = terminal::message(played.settings, message, cells, layer, shown, dots, printer);
    told(out, number, played, outcome, printer)
}

// One short message, and its line.
pub fn play_short(
    out: &impl Print,
    number: Option<u64>,
    played: Played,
    message: &[u8],
    cells: &mut [u8],
    layer: &mut [u8],
    shown: &mut [u8],
    dots: &mut [u8],
    printer: &mut [u8],
) -> Played
    ensures { Plays (Asked.short message.now) (terminal played.settings cells.old layer.old dots.old shown.old) printer.old played result (terminal result.settings cells.new layer.new dots.new shown.new) printer.new }
{
    let outcome = short::message_short(
        played.settings,
        message,
        cells,
        layer,
        shown,
        dots,
        printer,
    );
    told(out, number, played, outcome, printer)
}

// One piece of a stream, and its line.
pub fn play_piece(
    out: &impl Print,
    number: Option<u64>,
    played: Played,
    piece: &[u8],
    cells: &mut [u8],
    layer: &mut [u8],
    shown: &mut [u8],
    dots: &mut [u8],
    printer: &mut [u8],
) -> Played
    ensures { Plays (Asked.piece piece.now) (terminal played.settings cells.old layer.old dots.old shown.old) printer.old played result (terminal result.settings cells.new layer.new dots.new shown.new) printer.new }
{
    let outcome = stream_piece::piece(played.settings, piece, cells, layer, shown, dots, printer);
    told(out, number, played, outcome, printer)
}

// One pack of messages, and its line: a message's, and the record of the first refusal.
pub fn play_pack(
    out: &impl Print,
    number: Option<u64>,
    played: Played,
    pack: &[u8],
    cells: &mut [u8],
    layer: &mut [u8],
    shown: &mut [u8],
    dots: &mut [u8],
    printer: &mut [u8],
) -> Played
    ensures { Plays (Asked.pack pack.now) (terminal played.settings cells.old layer.old dots.old shown.old) printer.old played result (terminal result.settings cells.new layer.new dots.new shown.new) printer.new }
{
    let packed = packs::pack(played.settings, pack, cells, layer, shown, dots, printer);
    let settings = packed.settings;
    let answer = packed.answer;
    say_pack(out, number, answer, packed.record);
    summed(played, Outcome { settings, answer }, printer)
}

// The closing of a stream, and its line. It is lent no printer buffer.
pub fn play_closing(
    out: &impl Print,
    number: Option<u64>,
    played: Played,
    cells: &mut [u8],
    layer: &mut [u8],
    shown: &mut [u8],
    dots: &mut [u8],
) -> Played
    ensures { Plays Asked.closing (terminal played.settings cells.old layer.old dots.old shown.old) [] played result (terminal result.settings cells.new layer.new dots.new shown.new) [] }
{
    let outcome = stream_closing::closing(played.settings, cells, layer, shown, dots);
    told(out, number, played, outcome, &[])
}
