// The calls of the terminal: opening, message, key and printer. None asks anything of its caller: bad input is refused by number.
#![tactic(auto)]

mod opened;

ghost use Rattle.calls.specs.Calls.{KeyPromised, Promised, called, terminal};
ghost use Rattle.calls.specs.Opening.{OpeningPromised, PartPromised};

use model::{Answer, Opened, Outcome, Settings};
use numbers::{check_key, check_message, check_opening, refused};
use opened::opened_settings;

// "It blanks (32) all cells and the shown screen, and zeroes the layer", P11: and the dots; P9: it "takes the rule". Or it is refused by 1 or 23, and nothing is
// altered. The rule is as wide as a length: one of 257 is none.
pub fn opening(
    rule: usize,
    cells: &mut [u8],
    layer: &mut [u8],
    shown: &mut [u8],
    dots: &mut [u8],
) -> Opened
    ensures { OpeningPromised rule cells.old layer.old dots.old shown.old result.settings result.number cells.new layer.new dots.new shown.new }
{
    if let Err(refusal) = check_opening(rule, cells, layer, shown, dots) {
        return Opened {
            settings: opened_settings(1),
            number: refusal.into(),
        };
    }
    store::fill(cells, 32);
    store::fill(layer, 0);
    store::fill(shown, 32);
    dots::wipe(dots);
    Opened {
        settings: opened_settings(rule as u8),
        number: 0,
    }
}

// The message call: every item of the message obeyed in turn, then all 640 places painted; or refused by 1, 2, 3 or 16, and nothing altered.
pub fn message(
    settings: Settings,
    message: &[u8],
    cells: &mut [u8],
    layer: &mut [u8],
    shown: &mut [u8],
    dots: &mut [u8],
    printer: &mut [u8],
) -> Outcome
    ensures { Promised (called message.now (terminal settings cells.old layer.old dots.old shown.old) printer.old result.answer (terminal result.settings cells.new layer.new dots.new shown.new) printer.new) }
{
    match check_message(&settings, message, cells, layer, shown, dots) {
        Ok(()) => serving::serve(settings, message, cells, layer, shown, dots, printer),
        Err(refusal) => {
            let answer = refused(refusal);
            Outcome { settings, answer }
        }
    }
}

// Document 02, P2, the key call: another text of a key, "seen from the next message on"; or refused by 3 or 17, and nothing altered. It is lent no
// store, and promises the same of all stores. The number is as wide as a length: one of 257 is no key.
pub fn key(settings: Settings, number: usize, text: &[u8]) -> Outcome
    ensures { KeyPromised number text.now settings result.answer result.settings }
{
    if let Err(refusal) = check_key(settings, number, text) {
        let answer = refused(refusal);
        return Outcome { settings, answer };
    }
    let mut texts = settings.texts;
    store::copy_in(&mut texts, (number - 1) * 8, text, 0, 8);
    let mut s = settings;
    s.texts = texts;
    Outcome {
        settings: s,
        answer: Answer::default(),
    }
}

// "hands back that first part of the buffer itself; a count beyond the buffer gives the empty part"
pub fn printed(buffer: &[u8], count: usize) -> &[u8]
    ensures { PartPromised buffer.now count result.now }
{
    if count <= buffer.len() {
        &buffer[..count]
    } else {
        &buffer[..0]
    }
}
